//! What is recorded of files: the row of a file, the table of files with its look-up by SHA-256, the
//! numbers of their distinct hashes, which files are live, and how far their duplicates were searched.
#![tactic(auto)]

mod file_row;
mod files;
mod hashes;
mod import_plan;
mod laws;
mod living;
mod searching;

pub use file_row::FileRow;
pub use files::Files;
pub use import_plan::ImportPlan;
pub use laws::{hash_laws, live_laws, lookup_laws, near_laws, search_laws};
pub use media_types::NewFile;

#[cfg(test)]
mod tests;
