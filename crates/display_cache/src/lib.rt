//! What the files of a library show: for each service and file the tags that it shows as current and as pending,
//! by the applied lists of its mappings, and how many live files show a tag.
#![tactic(auto)]

mod display;
mod display_plan;
mod draft;
mod placing;
mod support;
mod writing;

pub use display::{Display, ShownList};
pub use display_plan::DisplayPlan;
pub use support::Support;

#[cfg(test)]
mod tests;
