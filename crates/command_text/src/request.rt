ghost use Rattle.std.specs.Prelude.{◌≡◌};
ghost use Rattle.serde_json.specs.View.{view};
ghost use Rattle.command_text.specs.Forms.{Gives};
ghost use Rattle.command_text.specs.Commands.{all_names, search_names};
ghost use Rattle.command_text.specs.Reading.{first_at, value_command, text_command, line_command};

use crate::decisions::{decide_of, undo_of};
use crate::fields::{file, small_number, text};
use crate::import::import_of;
use crate::pairs::{pair_count_of, pairs_of};
use crate::searches::{search_distance_of, search_files_of, search_job_of};
use crate::tags::tag_command;
use media_base::{Change, Command, DecisionNo, FieldName, Query, Refusal, Upkeep};
use serde_json::Value;
use std::alloc::Global;

/// The most bytes of a request line, its line feed not counted.
pub const MAX_LINE: usize = 65_536;

/// Reads a request line, its line feed not among the bytes. The first test that it fails names the
/// refusal:
///
/// - `LineTooLong`: it has more than `MAX_LINE` bytes.
/// - `NotJson`: it has no reading as a JSON value. It isn't UTF-8, no JSON, or nests deeper than 127
///   levels.
/// - `NotARequest`: the field is the first, in the order `do` and then the command's own, that is
///   missing or has another form; `do` too where the value is no object or no command has the name.
///   `hashes` may be missing, and so may `after_j` and `after_k`, but not one of the two alone.
/// - `BadHash`: the `sha256` of an import isn't 64 hexadecimal digits, or one of its `hashes` isn't 16.
/// - `TooManyHashes`: an import has more than `MAX_HASHES` of them.
/// - `BadTag`: a `tag`, `bad`, `good`, `child` or `parent`, once it is cleaned, is empty or has more than
///   `MAX_TAG_BYTES` bytes.
/// - `BadDistance`: a `distance` or `at_most` is over `MAX_DISTANCE`.
/// - `BadNumber`: an `n` is 0 or over `MAX_BATCH`, or `files` are none or more than so many.
///
/// `NoMemory` may come at any line that is neither empty nor too long.
#[tactic(auto, unfolding(crate::specs::Reading::line_command))]
pub fn read_line(alloc: Global, bytes: &[u8]) -> Result<Command, Refusal>
    ensures { Gives result (line_command bytes.now) }
{
    if bytes.len() > MAX_LINE {
        return Err(Refusal::LineTooLong);
    }
    read_text(alloc, bytes)
}

fn read_text(alloc: Global, bytes: &[u8]) -> Result<Command, Refusal>
    ensures { Gives result (text_command bytes.now) }
{
    match Value::from_slice(alloc, bytes) {
        Ok(value) => command_of(alloc, &value),
        Err(error) if error.is_memory() => Err(Refusal::NoMemory),
        Err(_) => Err(Refusal::NotJson),
    }
}

#[tactic(auto, unfolding(crate::specs::Reading::value_command))]
fn command_of(alloc: Global, request: &Value) -> Result<Command, Refusal>
    ensures { Gives result (value_command (view request.now)) }
{
    command_named(alloc, text(request, FieldName::Do)?, request)
}

#[tactic(auto, unfolding(crate::specs::Forms::read_request))]
fn command_named(alloc: Global, name: &str, request: &Value) -> Result<Command, Refusal>
    ensures { Gives result (first_at all_names name.now (view request.now)) }
{
    match name {
        "import" => import_of(alloc, request),
        "delete" => Ok(Command::Do(Change::Live {
            file: file(request, FieldName::File)?,
            live: false,
        })),
        "undelete" => Ok(Command::Do(Change::Live {
            file: file(request, FieldName::File)?,
            live: true,
        })),
        "decide" => decide_of(request),
        "undo" => undo_of(request),
        "relations" => Ok(Command::Ask(Query::Relations(file(request, FieldName::File)?))),
        "decision" => Ok(Command::Ask(Query::Decision(DecisionNo(small_number(
            request,
            FieldName::Decision,
        )?)))),
        _ => search_command(alloc, name, request),
    }
}

/// A command of searches or pairs.
#[tactic(auto, unfolding(crate::specs::Forms::read_request, crate::specs::Commands::search_names))]
fn search_command(alloc: Global, name: &str, request: &Value) -> Result<Command, Refusal>
    ensures { Gives result (first_at search_names name.now (view request.now)) }
{
    match name {
        "pairs" => pairs_of(request),
        "pair_count" => pair_count_of(request),
        "search_distance" => search_distance_of(request),
        "search_job" => search_job_of(request),
        "search_files" => search_files_of(alloc, request),
        "queues" => Ok(Command::Ask(Query::Queues)),
        "rebalance_job" => Ok(Command::Tend(Upkeep::Rebalance)),
        _ => tag_command(alloc, name, request),
    }
}
