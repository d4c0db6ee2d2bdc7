// Readings of a tracker against lent priors and tables: probabilities, divergences and their statistics. They change nothing but
// the lent outputs.
#![tactic(auto)]

pub mod answers; // what each reading answers, and the lent output
pub mod sums; // the three sums of a divergence
pub mod nodes; // the walk over all listed nodes
pub mod divergences; // the divergence of one node
pub mod statistics; // the statistics of divergences
pub mod evidence; // one listed node, with its entries in the book
pub mod probabilities; // prior and evidence merged, and their figures
pub mod fillings; // the passes over all listed nodes that fill an output
pub mod vectors; // prob_vector and evidence_prob_vector
pub mod kl_readings; // the readings of divergences
