//! How many tags, and how much of them, a library holds. The numbers are this project's own.

/// Tags.
pub const MAX_TAGS: u32 = 1_000_000;

/// Bytes of one tag, in UTF-8.
pub const MAX_TAG_BYTES: usize = 1_024;

/// Mappings: service, tag and file.
pub const MAX_MAPPINGS: u64 = 8_000_000;

/// Tag services.
pub const MAX_SERVICES: usize = 8;

/// Sibling rows ever recorded, and as many parent rows.
pub const MAX_RELATIONS: u32 = 1_000_000;

/// Tags that one tag implies.
pub const MAX_IMPLIED: usize = 1_024;

/// Service, file and tag that are shown.
pub const MAX_TRIPLES: u64 = 32_000_000;
