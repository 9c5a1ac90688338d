/// One cluster of tags, or two that are about to be one.
#[derive(Drop)]
pub struct Cluster {
    /// The label, or the lesser of two.
    pub label: u32,
    /// The tags, ascending.
    pub tags: Vec<u32>,
    /// The numbers of the rows, ascending.
    pub rows: Vec<u32>,
}
