// The entries of a book in bytes: found, put in and counted.
#![tactic(auto)]

pub mod limits; // the numbers of document 01
pub mod keys; // an entry's node, kind and child, and their order
pub mod entries; // entries in bytes: find, put in, count
pub mod hints; // places looked at first
pub mod changes; // a key listed, counted one more, counted one less
