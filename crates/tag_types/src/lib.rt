//! The vocabulary of tags: the text of a tag and how it is cleaned, how a tag is mapped to a file, whose
//! pairs a tag service takes in which order, and how much of all this a library holds.
//!
//! It stands apart from `media_types`, so that the crates of files aren't proved again when it changes.
#![tactic(auto)]

mod cleaning;
mod limits;
mod map_state;
mod orders;
mod service_list;
mod tag_text;
mod theorems;

pub use cleaning::{CleanFail, clean};
pub use limits::{
    MAX_IMPLIED, MAX_MAPPINGS, MAX_RELATIONS, MAX_SERVICES, MAX_TAG_BYTES, MAX_TAGS, MAX_TRIPLES,
};
pub use map_state::MapState;
pub use orders::Orders;
pub use service_list::ServiceList;
pub use tag_text::TagText;
pub use theorems::cleaning_laws;

#[cfg(test)]
mod tests;
