//! The tags of a library by number, its tag services, and which tags are mapped to which files.
#![tactic(auto)]

mod last_walk;
mod mappings;
mod services;
mod tags;
mod walks;

pub use mappings::Mappings;
pub use services::Services;
pub use tags::Tags;
pub use walks::{FileWalk, TagWalk};

#[cfg(test)]
mod mapping_tests;
#[cfg(test)]
mod tests;
