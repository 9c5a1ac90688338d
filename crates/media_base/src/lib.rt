//! What every part of medialib speaks of: commands, replies and refusals, and the objects of the
//! outside, each with a form in memory.
//!
//! It gives out all of `media_types` and `tag_types` again, so a crate above names this one alone.
#![tactic(auto)]

mod bytes_sink;
mod bytes_source;
mod change;
mod command;
mod gather;
mod keeper;
mod refusal;
mod reply;
mod sink;
mod source;
mod status;

pub use bytes_sink::BytesSink;
pub use bytes_source::BytesSource;
pub use change::{Change, ChangeList, Mapping, TagPair};
pub use command::{Caller, Command, Job, Query, Upkeep};
pub use gather::Gather;
pub use keeper::{Keeper, NextFault, PutFault, StartFault};
pub use media_types::{
    BatchSize, ByteList, CallList, Code, Decision, DecisionList, DecisionNo, DeskNo,
    FIRST_DISTANCE, Failed, FileBatch, FileHashes, FileList, FileNo, FileRelations, Hash64,
    HashList, HashNo, KeyBytes, KeyNo, Listed, MAX_BATCH, MAX_DECISIONS, MAX_DISTANCE, MAX_FILES,
    MAX_HASHES, MAX_NEAR, MAX_WORDS, NearList, NewFile, NoMemory, PairList, PairPage,
    SearchDistance, Searching, ServiceNo, Sha, SizeList, Steps, TagNo, distance,
};
pub use refusal::{FieldName, Refusal, Unmet};
pub use reply::{
    Answer, FileMappings, IdealTag, ImportStatus, Imported, Mapped, PairTags, QueueLengths, Reply,
    SearchCounts, TagTextList,
};
pub use sink::{Sink, write_all};
pub use source::Source;
pub use status::Status;
pub use tag_types::{
    CleanFail, MAX_IMPLIED, MAX_MAPPINGS, MAX_RELATIONS, MAX_SERVICES, MAX_TAG_BYTES, MAX_TAGS,
    MAX_TRIPLES, MapState, Orders, ServiceList, TagText, clean,
};

#[cfg(test)]
mod tests;
