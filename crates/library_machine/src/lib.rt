//! The machine that the library is: what it records, and what each command answers and records next.
//!
//! There is no code here. The definitions stand in specs/, and each law about them is a public function
//! that does nothing, whose clauses are the law.
#![tactic(auto)]

mod laws;
mod worked;

pub use laws::{
    changes_are_kept, deletions_are_taken_back, empty_queue_covers, records_stay_fit,
    refusals_change_nothing, refusals_have_causes,
};
pub use worked::worked_rows;
