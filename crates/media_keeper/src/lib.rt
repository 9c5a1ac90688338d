//! Keepers in memory: one that does what it was told, and one that says nothing.
#![tactic(auto)]

mod memory_keeper;
mod quiet_keeper;

pub use memory_keeper::MemoryKeeper;
pub use quiet_keeper::QuietKeeper;

#[cfg(test)]
mod tests;
