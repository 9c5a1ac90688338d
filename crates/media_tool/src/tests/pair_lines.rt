//! The lines of sibling pairs and of parent pairs.

use std::alloc::AllocError;

/// What a line does with a pair of tags.
#[derive(Clone, Copy)]
pub enum PairCommand {
    AddSibling,
    RemoveSibling,
    AddParent,
    RemoveParent,
}

impl PairCommand {
    /// Its name in a line.
    fn name(self) -> &'static str {
        match self {
            PairCommand::AddSibling => "add_sibling",
            PairCommand::RemoveSibling => "remove_sibling",
            PairCommand::AddParent => "add_parent",
            PairCommand::RemoveParent => "remove_parent",
        }
    }

    /// The names of the fields of the two tags.
    fn fields(self) -> (&'static str, &'static str) {
        match self {
            PairCommand::AddSibling | PairCommand::RemoveSibling => ("bad", "good"),
            PairCommand::AddParent | PairCommand::RemoveParent => ("child", "parent"),
        }
    }
}

/// The line of a pair. The tags stand as JSON spells them.
pub fn write_pair(
    input: &mut String,
    command: PairCommand,
    service: u32,
    first: &str,
    second: &str,
) -> Result<(), AllocError> {
    let name = command.name();
    let (one, other) = command.fields();
    writeln!(
        input,
        "{{\"do\":\"{name}\",\"service\":{service},\"{one}\":\"{first}\",\"{other}\":\"{second}\"}}"
    )
}
