/// How a tag is mapped to a file in a service, where it is mapped at all.
#[derive(Clone, Copy, Debug, PartialEq, Eq, Hash)]
pub enum MapState {
    /// The file has the tag.
    Current,
    /// Someone asked that the file get the tag, and nobody decided yet.
    Pending,
    /// The file had the tag, and it was taken away.
    Deleted,
}
