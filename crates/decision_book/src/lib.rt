//! The decisions that were recorded, undone ones among them.
#![tactic(auto)]

mod book;
mod decision_row;
mod standing;

pub use book::Book;
pub use decision_row::DecisionRow;

#[cfg(test)]
mod tests;
