//! A metric tree over distinct 64-bit words, which finds the words near a query by Hamming distance
//! and reads only the branches that can hold one.
#![tactic(auto)]

mod branch;
mod building;
mod hits;
mod laws;
mod link;
mod marking;
mod node;
mod placing;
mod plan;
mod radius;
mod table;
mod tree;

pub use hits::HitList;
pub use laws::{placing_laws, root_law};
pub use node::NodeView;
pub use plan::{BuildPlan, InsertPlan};
pub use tree::Tree;

#[cfg(test)]
mod tests;
