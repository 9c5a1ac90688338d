//! Siblings of tags: which tag stands for another, and the clusters into which tags fall.
//!
//! Each service has standing pairs of a bad tag and a good one, in order of recording, and a list of the
//! services whose pairs it takes: service by service, and within a service in order of recording. A pair is
//! passed over where its bad tag has a good one already among those taken, or where following the taken pairs
//! from the good tag comes to the bad one. The ideal tag of a tag is the end of the chain of taken pairs from it.
//!
//! Each pair that was ever recorded, and each tie, joins the clusters of its two tags, which get the lesser of
//! the two labels. A change is planned, which takes all memory, and then committed. A plan folds the cluster of
//! its tags anew, from the rows of that cluster, and leaves the others alone.
#![tactic(auto)]

mod carrying;
mod chain_ends;
mod cluster;
mod clusters;
mod fold;
mod grouped;
mod ordering;
mod pair_rows;
mod relation_row;
mod sibling_plan;
mod siblings;

pub use grouped::Grouped;
pub use relation_row::RelationRow;
pub use sibling_plan::SiblingPlan;
pub use siblings::Siblings;

#[cfg(test)]
mod tests;
