//! Searches, and how far they go.
#![tactic(auto, unfolding(crate::specs::Forms::read_request))]

ghost use Rattle.std.specs.Prelude.{◌≡◌};
ghost use Rattle.serde_json.specs.View.{view};
ghost use Rattle.command_text.specs.Commands.{CommandName, request_of};
ghost use Rattle.command_text.specs.Forms.{Gives, read_request, distance_of, batch_of, files_batch};

use crate::fields::{files, large_number};
use media_base::{
    BatchSize, Change, Command, FieldName, FileBatch, FileList, Job, Refusal, SearchDistance,
    Searching,
};
use serde_json::Value;
use std::alloc::Global;

pub fn search_distance_of(request: &Value) -> Result<Command, Refusal>
    ensures { Gives result (read_request (request_of CommandName.SearchDistance) (view request.now)) }
{
    let number = large_number(request, FieldName::Distance)?;
    let distance = distance_of(number)?;
    Ok(Command::Do(Change::Distance(distance)))
}

pub fn search_job_of(request: &Value) -> Result<Command, Refusal>
    ensures { Gives result (read_request (request_of CommandName.SearchJob) (view request.now)) }
{
    let number = large_number(request, FieldName::N)?;
    let n = batch_of(number)?;
    Ok(Command::Run(Job::Search(n)))
}

/// The distance is tested before the files are counted.
pub fn search_files_of(alloc: Global, request: &Value) -> Result<Command, Refusal>
    ensures { Gives result (read_request (request_of CommandName.SearchFiles) (view request.now)) }
{
    let listed = files(alloc, request, FieldName::Files)?;
    let number = large_number(request, FieldName::Distance)?;
    let distance = distance_of(number)?;
    let files = files_batch(listed)?;
    Ok(Command::Do(Change::Searched(Searching { files, distance })))
}

#[tactic(auto, unfolding(crate::specs::Forms::distance_of))]
pub fn distance_of(number: u64) -> Result<SearchDistance, Refusal>
    ensures { result ≡ distance_of number }
{
    SearchDistance::new(number).ok_or(Refusal::BadDistance)
}

#[tactic(auto, unfolding(crate::specs::Forms::batch_of))]
pub fn batch_of(number: u64) -> Result<BatchSize, Refusal>
    ensures { result ≡ batch_of number }
{
    BatchSize::new(number).ok_or(Refusal::BadNumber)
}

#[tactic(auto, unfolding(crate::specs::Forms::batch_of, crate::specs::Forms::files_batch))]
fn files_batch(listed: FileList) -> Result<FileBatch, Refusal>
    ensures { result ≡ files_batch listed }
{
    FileBatch::new(listed).ok_or(Refusal::BadNumber)
}
