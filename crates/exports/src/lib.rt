// The C library: each call of the watch over memory that the caller lends. A call answers 0 where it is carried out, 100 where
// there is no answer, else the refusal's number.
#![tactic(auto)]

pub mod answers; // an answer told as a code and lent numbers
pub mod checks; // tables and priors by themselves
pub mod lookups; // a child in its node's prior
pub mod trackers; // opening a tracker, adding paths, tidying
pub mod readings; // probabilities, divergences and their statistics
pub mod baselines; // training, and a baseline's figures at a length
pub mod version; // the library's version
