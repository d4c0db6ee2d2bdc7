// A baseline: sums of divergence statistics over sequences, at knots, and the mean and variance that they give at any length.
#![tactic(auto)]

pub mod five; // one thing for each of the five figures
pub mod sums; // a knot's sum record
pub mod figures; // means, variances and the straight line
pub mod baselines; // the figures at a length
pub mod training; // what a baseline is made from
