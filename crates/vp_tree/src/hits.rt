use media_types::{HashNo, Listed};

/// Numbers of words with their distances from a query, ascending by number.
pub type HitList = Listed<(HashNo, u32)>;
