//! What an import tells of its file.

ghost use Rattle.std.specs.Prelude.{◌≡◌, map};
ghost use Rattle.serde_json.specs.View.{view};
ghost use Rattle.command_text.specs.Commands.{CommandName, request_of};
ghost use Rattle.command_text.specs.Forms.{Gives, read_request, sha_of, word_of, words_of, few_hashes};

use crate::fields::{large_number, small_number, text, texts_or_none};
use hex::FromHex;
use media_base::{
    Change, Command, FieldName, FileHashes, Hash64, HashList, MAX_HASHES, NewFile, Refusal, Sha,
};
use serde_json::Value;
use std::alloc::Global;

/// All fields have their forms before the digits are read, and all digits are read before the hashes
/// are counted.
#[tactic(auto, unfolding(crate::specs::Forms::read_request))]
pub fn import_of(alloc: Global, request: &Value) -> Result<Command, Refusal>
    ensures { Gives result (read_request (request_of CommandName.Import) (view request.now)) }
{
    let digits = text(request, FieldName::Sha256)?;
    let texts = texts_or_none(alloc, request, FieldName::Hashes)?;
    let size = large_number(request, FieldName::Size)?;
    let width = small_number(request, FieldName::Width)?;
    let height = small_number(request, FieldName::Height)?;
    let sha = sha_of(digits)?;
    let words = words_of(alloc, texts.as_slice())?;
    let hashes = few_hashes(words)?;
    Ok(Command::Do(Change::File(NewFile {
        sha,
        hashes,
        size,
        width,
        height,
    })))
}

#[tactic(auto, unfolding(crate::specs::Forms::sha_of))]
fn sha_of(digits: &str) -> Result<Sha, Refusal>
    ensures { result ≡ sha_of digits.now }
{
    match <[u8; 32] as FromHex>::from_hex(digits) {
        Ok(bytes) => Ok(Sha(bytes)),
        Err(_) => Err(Refusal::BadHash),
    }
}

#[tactic(auto, unfolding(crate::specs::Forms::word_of))]
fn word_of(digits: &str) -> Result<Hash64, Refusal>
    ensures { result ≡ word_of digits.now }
{
    match <[u8; 8] as FromHex>::from_hex(digits) {
        Ok(bytes) => Ok(Hash64(u64::from_be_bytes(bytes))),
        Err(_) => Err(Refusal::BadHash),
    }
}

fn words_of(alloc: Global, texts: &[&str]) -> Result<HashList, Refusal>
    ensures { Gives result (words_of (map (λ text. text.now) texts.now)) }
{
    let mut words = HashList::new(alloc);
    for text in texts {
        words.push(word_of(text)?)?;
    }
    Ok(words)
}

#[tactic(auto, unfolding(crate::specs::Forms::few_hashes))]
fn few_hashes(words: HashList) -> Result<FileHashes, Refusal>
    ensures { result ≡ few_hashes words }
{
    if words.len() <= MAX_HASHES {
        Ok(FileHashes::new(words))
    } else {
        Err(Refusal::TooManyHashes)
    }
}
