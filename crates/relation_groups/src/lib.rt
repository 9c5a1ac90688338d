//! What the decisions of the duplicate filter make of the files: groups of duplicates with their kings,
//! classes of alternates, and classes that are not related.
#![tactic(auto)]

mod draft;
mod group_plan;
mod groups;
mod laws;
mod moves;
mod numbers;
mod rows;

pub use group_plan::GroupPlan;
pub use groups::Groups;
pub use laws::relation_laws;
pub use moves::{Move, MoveList};
pub use rows::worked_rows;

#[cfg(test)]
mod tests;
