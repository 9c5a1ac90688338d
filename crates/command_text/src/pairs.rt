//! Pages of potential pairs, and their count.
#![tactic(auto, unfolding(crate::specs::Forms::read_request))]

ghost use Rattle.std.specs.Prelude.{◌≡◌};
ghost use Rattle.serde_json.specs.View.{view};
ghost use Rattle.command_text.specs.Commands.{CommandName, request_of};
ghost use Rattle.command_text.specs.Forms.{Gives, read_request, place_of};

use crate::fields::{file_beside, large_number};
use crate::searches::{batch_of, distance_of};
use media_base::{Command, FieldName, FileNo, PairPage, Query, Refusal};
use serde_json::Value;

/// The distance is tested before the number of pairs.
pub fn pairs_of(request: &Value) -> Result<Command, Refusal>
    ensures { Gives result (read_request (request_of CommandName.Pairs) (view request.now)) }
{
    let after_j = file_beside(request, FieldName::AfterJ, FieldName::AfterK)?;
    let after_k = file_beside(request, FieldName::AfterK, FieldName::AfterJ)?;
    let number = large_number(request, FieldName::N)?;
    let farthest = large_number(request, FieldName::AtMost)?;
    let at_most = distance_of(farthest)?;
    let n = batch_of(number)?;
    let after = place_of(after_j, after_k);
    Ok(Command::Ask(Query::Pairs(PairPage { after, n, at_most })))
}

pub fn pair_count_of(request: &Value) -> Result<Command, Refusal>
    ensures { Gives result (read_request (request_of CommandName.PairCount) (view request.now)) }
{
    let farthest = large_number(request, FieldName::AtMost)?;
    let at_most = distance_of(farthest)?;
    Ok(Command::Ask(Query::PairCount(at_most)))
}

/// Both files of a place, or none.
fn place_of(j: Option<FileNo>, k: Option<FileNo>) -> Option<(FileNo, FileNo)>
    ensures { result ≡ place_of j k }
{
    match (j, k) {
        (Some(j), Some(k)) => Some((j, k)),
        _ => None,
    }
}
