//! The near pairs of files, and the potential pairs that they make of groups of duplicates.
//!
//! A change is planned first, which takes all memory, and then it can't be refused.
#![tactic(auto)]

mod distance_map;
mod heads;
mod laws;
mod names;
mod near_map;
mod pair_draft;
mod pair_plan;
mod pairs;
mod tally;
mod tally_map;

pub use laws::potential_laws;
pub use pair_plan::PairPlan;
pub use pairs::Pairs;

#[cfg(test)]
mod tests;
