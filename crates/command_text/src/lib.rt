//! Request lines as commands.
//!
//! A line is a JSON object with the field `do`, the command's name, and the command's fields. Other
//! fields are ignored.
#![tactic(auto)]

mod asked_code;
mod decisions;
mod fields;
mod import;
mod laws;
mod pairs;
mod request;
mod searches;
mod tags;

pub use laws::{long_line_laws, refusal_laws, spelling_laws, worked_readings};
pub use request::{MAX_LINE, read_line};

#[cfg(test)]
mod tests;
