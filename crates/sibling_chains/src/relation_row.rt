use media_types::{ServiceNo, TagNo};

/// A row of relations, in order of recording: a bad tag and its good one, or a child and its parent.
#[derive(Clone, Copy, Debug, PartialEq, Eq)]
pub struct RelationRow {
    /// The service whose pair it is.
    pub service: ServiceNo,
    /// The bad tag, or the child.
    pub first: TagNo,
    /// The good tag, or the parent.
    pub second: TagNo,
    /// Whether it wasn't removed.
    pub standing: bool,
}
