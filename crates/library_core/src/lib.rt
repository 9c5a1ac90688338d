//! The library: it records, keeps each change before it commits it, and answers commands as the machine
//! does.
#![tactic(auto)]

mod library;
mod load;
mod load_fail;

pub use library::Library;
pub use load_fail::LoadFail;
