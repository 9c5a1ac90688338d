//! Words of 64 bits in four tables, one a chunk of 16 bits. Words within a distance of each other differ in at
//! most a quarter of it in some chunk: a search walks the words of all chunk values within so many bits of the
//! query's, compares whole words, and tells each that is near once.
//!
//! The words of one chunk value stand side by side, by number. Beside them stands how many there are, so that
//! what a search would read is known before it.
#![tactic(auto)]

mod chunk;
mod masks;
mod query;
mod table;
mod words;

pub use words::{HitList, WordChunks};

#[cfg(test)]
mod tests;
