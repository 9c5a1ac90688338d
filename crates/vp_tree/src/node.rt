use crate::link::Link;
use crate::radius::Radius;
use media_types::{Hash64, HashNo};

/// All that is kept of a node: its word, the radius of its inner part where it has children, the first
/// nodes of its two parts, how many nodes are under it, and how many were when it was last built.
#[derive(Clone, Copy, Debug, PartialEq, Eq)]
pub struct NodeView {
    pub word: Hash64,
    /// 0 to 64.
    pub radius: Option<u8>,
    pub inner: Option<HashNo>,
    pub outer: Option<HashNo>,
    pub below: u32,
    /// 0 where an insertion placed the node.
    pub built: u32,
}

/// What a search reads of a node, in 24 bytes.
#[derive(Debug, Drop)]
pub struct Node {
    pub word: Hash64,
    pub inner: Link,
    pub outer: Link,
    pub radius: Radius,
}

/// What a search doesn't read of a node.
#[derive(Clone, Copy, Debug)]
pub struct Counts {
    pub below: u32,
    pub built: u32,
}
