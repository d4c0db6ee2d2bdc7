// The book and the queue of one tracker.
#![tactic(auto)]

pub mod paths; // a path, added in one pass and taken away
pub mod room; // whether a path's nodes and transitions fit the book
pub mod counting; // a path counted where all of it is listed, and else with a look at the room
pub mod queue; // places of the queue
pub mod places; // lent places of paths
pub mod form; // what each call tests
pub mod tidying; // entries that count nothing dropped
pub mod trackers; // the state, openings, adds, lists of paths and tidies
