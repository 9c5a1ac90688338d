//! What a search of files finds: the tree of their hashes is asked for the words within a distance, and the
//! words' files are near where both are searched so far.
#![tactic(auto)]

mod finding;
mod search;

pub use finding::find_near;

#[cfg(test)]
mod tests;
