//! Tag services, and the tags of files.
#![tactic(auto, unfolding(crate::specs::Forms::read_request))]

ghost use Rattle.serde_json.specs.View.{view};
ghost use Rattle.command_text.specs.Commands.{CommandName, request_of, tag_names};
ghost use Rattle.command_text.specs.Forms.{Gives, read_request, tag_of};
ghost use Rattle.command_text.specs.Reading.{first_at};

use crate::fields::{file, order, service, state, text};
use media_base::{
    Change, CleanFail, Command, FieldName, Mapping, Orders, Query, Refusal, TagPair, TagText, clean,
};
use serde_json::Value;
use std::alloc::Global;

/// A command of tags.
#[tactic(auto, unfolding(crate::specs::Forms::read_request, crate::specs::Commands::tag_names))]
pub fn tag_command(alloc: Global, name: &str, request: &Value) -> Result<Command, Refusal>
    ensures { Gives result (first_at tag_names name.now (view request.now)) }
{
    match name {
        "add_service" => Ok(Command::Do(Change::Service)),
        "apply" => apply_of(request),
        "map" => map_of(alloc, request),
        "unmap" => unmap_of(alloc, request),
        "mappings" => mappings_of(request),
        "add_sibling" => add_sibling_of(alloc, request),
        "remove_sibling" => remove_sibling_of(alloc, request),
        "add_parent" => add_parent_of(alloc, request),
        "remove_parent" => remove_parent_of(alloc, request),
        "ideal" => ideal_of(alloc, request),
        _ => Err(Refusal::NotARequest(FieldName::Do)),
    }
}

fn apply_of(request: &Value) -> Result<Command, Refusal>
    ensures { Gives result (read_request (request_of CommandName.Apply) (view request.now)) }
{
    let service = service(request, FieldName::Service)?;
    let siblings = order(request, FieldName::Siblings)?;
    let parents = order(request, FieldName::Parents)?;
    let orders = Orders { siblings, parents };
    Ok(Command::Do(Change::Orders { service, orders }))
}

fn map_of(alloc: Global, request: &Value) -> Result<Command, Refusal>
    ensures { Gives result (read_request (request_of CommandName.Map) (view request.now)) }
{
    let service = service(request, FieldName::Service)?;
    let said = text(request, FieldName::Tag)?;
    let file = file(request, FieldName::File)?;
    let state = state(request, FieldName::State)?;
    let tag = tag_of(alloc, said)?;
    Ok(Command::Do(Change::Mapping(Mapping {
        service,
        tag,
        file,
        state: Some(state),
    })))
}

fn unmap_of(alloc: Global, request: &Value) -> Result<Command, Refusal>
    ensures { Gives result (read_request (request_of CommandName.Unmap) (view request.now)) }
{
    let service = service(request, FieldName::Service)?;
    let said = text(request, FieldName::Tag)?;
    let file = file(request, FieldName::File)?;
    let tag = tag_of(alloc, said)?;
    Ok(Command::Do(Change::Mapping(Mapping {
        service,
        tag,
        file,
        state: None,
    })))
}

fn mappings_of(request: &Value) -> Result<Command, Refusal>
    ensures { Gives result (read_request (request_of CommandName.Mappings) (view request.now)) }
{
    let service = service(request, FieldName::Service)?;
    let file = file(request, FieldName::File)?;
    Ok(Command::Ask(Query::Mappings { service, file }))
}

fn add_sibling_of(alloc: Global, request: &Value) -> Result<Command, Refusal>
    ensures { Gives result (read_request (request_of CommandName.AddSibling) (view request.now)) }
{
    let service = service(request, FieldName::Service)?;
    let bad = text(request, FieldName::Bad)?;
    let good = text(request, FieldName::Good)?;
    let first = tag_of(alloc, bad)?;
    let second = tag_of(alloc, good)?;
    Ok(Command::Do(Change::SiblingAdded(TagPair {
        service,
        first,
        second,
    })))
}

fn remove_sibling_of(alloc: Global, request: &Value) -> Result<Command, Refusal>
    ensures { Gives result (read_request (request_of CommandName.RemoveSibling) (view request.now)) }
{
    let service = service(request, FieldName::Service)?;
    let bad = text(request, FieldName::Bad)?;
    let good = text(request, FieldName::Good)?;
    let first = tag_of(alloc, bad)?;
    let second = tag_of(alloc, good)?;
    Ok(Command::Do(Change::SiblingRemoved(TagPair {
        service,
        first,
        second,
    })))
}

fn add_parent_of(alloc: Global, request: &Value) -> Result<Command, Refusal>
    ensures { Gives result (read_request (request_of CommandName.AddParent) (view request.now)) }
{
    let service = service(request, FieldName::Service)?;
    let child = text(request, FieldName::Child)?;
    let parent = text(request, FieldName::Parent)?;
    let first = tag_of(alloc, child)?;
    let second = tag_of(alloc, parent)?;
    Ok(Command::Do(Change::ParentAdded(TagPair {
        service,
        first,
        second,
    })))
}

fn remove_parent_of(alloc: Global, request: &Value) -> Result<Command, Refusal>
    ensures { Gives result (read_request (request_of CommandName.RemoveParent) (view request.now)) }
{
    let service = service(request, FieldName::Service)?;
    let child = text(request, FieldName::Child)?;
    let parent = text(request, FieldName::Parent)?;
    let first = tag_of(alloc, child)?;
    let second = tag_of(alloc, parent)?;
    Ok(Command::Do(Change::ParentRemoved(TagPair {
        service,
        first,
        second,
    })))
}

fn ideal_of(alloc: Global, request: &Value) -> Result<Command, Refusal>
    ensures { Gives result (read_request (request_of CommandName.Ideal) (view request.now)) }
{
    let service = service(request, FieldName::Service)?;
    let said = text(request, FieldName::Tag)?;
    let tag = tag_of(alloc, said)?;
    Ok(Command::Ask(Query::Ideal { service, tag }))
}

#[tactic(auto, unfolding(crate::specs::Forms::tag_of))]
fn tag_of(alloc: Global, said: &str) -> Result<TagText, Refusal>
    ensures { Gives result (tag_of said.now) }
{
    match clean(alloc, said) {
        Ok(tag) => Ok(tag),
        Err(CleanFail::BadTag) => Err(Refusal::BadTag),
        Err(CleanFail::NoMemory) => Err(Refusal::NoMemory),
    }
}
