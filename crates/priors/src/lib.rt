// Addresses, tables and priors: what the layers above look up and never change.
#![tactic(auto)]

pub mod words; // 32-bit fields in lent bytes
pub mod addresses; // addresses and their ranks
pub mod refusals; // every refusal of the watch, by its number
pub mod tables; // the lent tables of ln gamma and digamma
pub mod records; // node records and child records
pub mod chains; // a walk along a chain of child records
pub mod places; // where node records of an address begin
pub mod layers; // number 22: points below the floor
pub mod checks; // the rules for prior records
pub mod prior; // a node's prior, and a child along its chain
pub mod lookups; // lent priors, and a node by its address or its point
pub mod children; // a child in its node's prior, for a user
