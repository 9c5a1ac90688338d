//! The tool: a session from bytes to bytes.
#![tactic(auto)]

mod kept_line;
mod laws;
mod lines;
mod play;
mod program;
mod session;
mod standard;

pub use laws::{
    ended_lines_are_a_front, failures_are_counted, memory_keeps_all, one_cut,
    ready_keepers_keep_all, room_is_told,
};
pub use play::MAX_INPUT;
pub use program::run;
pub use standard::{StdSink, StdSource};

#[cfg(test)]
mod tests;
