use crate::chain_ends::ChainEnds;
use crate::cluster::Cluster;
use media_types::{Listed, ServiceNo, TagNo};
use tag_types::ServiceList;

/// A change of the siblings that is ready to be carried out. Dropped, it changes nothing.
#[derive(Drop)]
pub struct SiblingPlan {
    pub(crate) change: Change,
}

#[derive(Drop)]
pub enum Change {
    Add(Adding),
    Remove(Removing),
    Tie(Tying),
    Order(Ordered),
}

/// The ends of a cluster's tags.
#[derive(Drop)]
pub struct Refold {
    pub cluster: Cluster,
    /// By service an end for each tag of the cluster.
    pub ends: Vec<Listed<u32>>,
}

/// A pair that is recorded.
#[derive(Drop)]
pub struct Adding {
    pub service: ServiceNo,
    pub bad: TagNo,
    pub good: TagNo,
    pub refold: Refold,
}

/// A pair that is removed.
#[derive(Drop)]
pub struct Removing {
    pub service: ServiceNo,
    pub bad: TagNo,
    pub refold: Refold,
}

/// Two tags that are tied together.
#[derive(Drop)]
pub struct Tying {
    pub a: TagNo,
    pub b: TagNo,
    pub cluster: Cluster,
}

/// Another list for a service, and the ends of all tags.
#[derive(Drop)]
pub struct Ordered {
    pub service: ServiceNo,
    pub order: ServiceList,
    pub ends: ChainEnds,
}
