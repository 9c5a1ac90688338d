//! The text of replies, and how long it is.
//!
//! A reply is one line of JSON without spaces. Neither writing it nor measuring it takes memory.
#![tactic(auto)]

mod out;
mod part;
mod writing;

pub use writing::{put_reply_line, reply_len, write_reply};

#[cfg(test)]
mod tests;
