//! The tables of a library: what is recorded, kept so that commands are answered without working all out anew.
//!
//! A query is answered. A change is planned first, which takes all memory and changes nothing. Then the plan is
//! committed, which takes none and can't be refused, or it is withdrawn. A job works out a change. The tables
//! know nothing of keepers.
#![tactic(auto)]

mod decisions;
mod deletion;
mod implied;
mod imports;
mod kinds;
mod laws;
mod numbers;
mod pairs;
mod parents;
mod plan;
mod searches;
mod siblings;
mod tables;
mod tag_pairs;
mod tags;
mod words;

pub use decisions::{PlannedDecision, PlannedUndo};
pub use deletion::PlannedLive;
pub use imports::PlannedImport;
pub use laws::searches_read_few;
pub use plan::{Deed, Prepared, TablesPlan};
pub use searches::{PlannedDistance, PlannedSearch};
pub use tables::Tables;
pub use tag_pairs::PlannedPair;
pub use tags::{PlannedMapping, PlannedOrders};
