//! The upkeep of the search: the queue of the files that are to be searched, and the marks of the tree's nodes
//! whose branches are to be built anew.
//!
//! Room is made first, or a change is planned first, and then the change itself can't be refused.
#![tactic(auto)]

mod laws;
mod marks;
mod queue_plan;
mod upkeep;

pub use laws::queue_laws;
pub use queue_plan::QueuePlan;
pub use upkeep::Upkeep;

#[cfg(test)]
mod tests;
