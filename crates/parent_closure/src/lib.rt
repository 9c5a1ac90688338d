//! Parents of tags: which tags a tag implies.
//!
//! Each service has standing pairs of a child and its parent, and a list of the services whose pairs it takes.
//! A pair is read between ideal tags: that of the child and that of the parent, in the service that takes it. The
//! ancestors of a tag are all tags to which one or more such pairs lead from its ideal tag, that tag itself left
//! out. A tag implies its ideal tag and its ancestors. Loops are harmless.
//!
//! A change is planned, which takes all memory, and then committed.
#![tactic(auto)]

mod ancestors;
mod cluster;
mod limit;
mod parent_plan;
mod parents;
mod search;

pub use ancestors::TagList;
pub use cluster::implied_by;
pub use parent_plan::ParentPlan;
pub use parents::Parents;

#[cfg(test)]
mod tests;
