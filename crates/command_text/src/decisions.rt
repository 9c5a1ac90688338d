//! Decisions, and their undoing.
#![tactic(auto, unfolding(crate::specs::Forms::read_request))]

ghost use Rattle.serde_json.specs.View.{view};
ghost use Rattle.command_text.specs.Commands.{CommandName, request_of};
ghost use Rattle.command_text.specs.Forms.{Gives, read_request, said_at, a_code};

use crate::asked_code::AskedCode;
use crate::fields::{file, number, small_number};
use media_base::{Change, Command, DecisionNo, FieldName, Refusal};
use serde_json::Value;

pub fn decide_of(request: &Value) -> Result<Command, Refusal>
    ensures { Gives result (read_request (request_of CommandName.Decide) (view request.now)) }
{
    let code = code_of(request, FieldName::Code)?;
    let a = file(request, FieldName::A)?;
    let b = file(request, FieldName::B)?;
    Ok(Command::Do(Change::Decision(code.decision(a, b))))
}

#[tactic(auto, unfolding(crate::specs::Forms::said_at))]
fn code_of(request: &Value, name: FieldName) -> Result<AskedCode, Refusal>
    ensures { Gives result (said_at name a_code (view request.now)) }
{
    number(request, name)
        .and_then(AskedCode::of_number)
        .ok_or(Refusal::NotARequest(name))
}

pub fn undo_of(request: &Value) -> Result<Command, Refusal>
    ensures { Gives result (read_request (request_of CommandName.Undo) (view request.now)) }
{
    let decision = small_number(request, FieldName::Decision)?;
    Ok(Command::Do(Change::Undo(DecisionNo(decision))))
}
