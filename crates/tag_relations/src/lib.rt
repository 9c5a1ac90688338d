//! Siblings and parents of tags together: one change of either kind, the tags that it touches, and whether one of
//! them would imply too many.
//!
//! Parents are read between ideal tags, so a change of siblings may change what tags imply too. Each parent pair
//! ties the clusters of its tags together; a change touches the clusters of its two tags alone.
//!
//! A change is planned, which takes all memory, and then committed.
#![tactic(auto)]

mod limit;
mod planning;
mod plans;
mod relations;

pub use plans::{OrderPlan, RelationPlan};
pub use relations::TagRelations;

#[cfg(test)]
mod tests;
