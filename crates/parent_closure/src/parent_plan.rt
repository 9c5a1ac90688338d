use media_types::ServiceNo;
use sibling_chains::RelationRow;
use tag_types::ServiceList;

/// A change of the parents that is ready to be carried out. Dropped, it changes nothing.
#[derive(Drop)]
pub struct ParentPlan {
    pub(crate) change: Change,
}

#[derive(Drop)]
pub enum Change {
    /// This row is recorded.
    Add(RelationRow),
    Remove(Removing),
    Order(Ordered),
}

/// A pair that is removed.
#[derive(Drop)]
pub struct Removing {
    /// The number of its row.
    pub number: u32,
    /// The row, once it doesn't stand.
    pub row: RelationRow,
}

/// Another list for a service.
#[derive(Drop)]
pub struct Ordered {
    pub service: ServiceNo,
    pub order: ServiceList,
}
