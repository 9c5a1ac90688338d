//! The fields of a request.

ghost use Rattle.std.specs.Prelude.{◌≡◌, ◌^◌, map, option_map};
ghost use Rattle.std.specs.Option.{is_none};
ghost use Rattle.serde_json.specs.Find.{as_array};
ghost use Rattle.serde_json.specs.View.{view, items_view};
ghost use Rattle.command_text.specs.Forms.{Gives, GivesAs, field_of, number_of, list_of, texts_of, files_of, file_in, service_in, order_of, state_of, formed, said_at, a_text, a_number, a_file, texts_or_none, some_files, a_service, an_order, a_state, a_file_beside};

use media_base::{
    FieldName, FileList, FileNo, Listed, MAX_SERVICES, MapState, Refusal, ServiceList, ServiceNo,
};
use serde_json::Value;
use std::alloc::Global;

#[tactic(auto, unfolding(crate::specs::Forms::said_at))]
pub fn text(request: &Value, name: FieldName) -> Result<&str, Refusal>
    ensures { GivesAs (λ text. text.now) result (said_at name a_text (view request.now)) }
{
    request
        .get(name.text())
        .and_then(Value::as_str)
        .ok_or(Refusal::NotARequest(name))
}

pub fn number(request: &Value, name: FieldName) -> Option<u64>
    ensures { result ≡ number_of name (view request.now) }
{
    request.get(name.text()).and_then(Value::as_u64)
}

fn lacks(request: &Value, name: FieldName) -> bool
    ensures { result ≡ is_none (field_of name (view request.now)) }
{
    request.get(name.text()).is_none()
}

#[tactic(auto, unfolding(crate::specs::Forms::said_at))]
pub fn large_number(request: &Value, name: FieldName) -> Result<u64, Refusal>
    ensures { Gives result (said_at name (a_number (2 ^ 64)) (view request.now)) }
{
    match number(request, name) {
        Some(value) => Ok(value),
        None => Err(Refusal::NotARequest(name)),
    }
}

#[tactic(auto, unfolding(crate::specs::Forms::said_at))]
pub fn small_number(request: &Value, name: FieldName) -> Result<u32, Refusal>
    ensures { Gives result (said_at name (a_number (2 ^ 32)) (view request.now)) }
{
    match number(request, name) {
        Some(value) if value <= u64::from(u32::MAX) => Ok(value as u32),
        _ => Err(Refusal::NotARequest(name)),
    }
}

/// A file's number.
#[tactic(auto, unfolding(crate::specs::Forms::said_at))]
pub fn file(request: &Value, name: FieldName) -> Result<FileNo, Refusal>
    ensures { Gives result (said_at name a_file (view request.now)) }
{
    request
        .get(name.text())
        .and_then(file_in)
        .ok_or(Refusal::NotARequest(name))
}

/// A file's number, or none where this field and the other are both missing.
#[tactic(auto, unfolding(crate::specs::Forms::said_at))]
pub fn file_beside(
    request: &Value,
    name: FieldName,
    other: FieldName,
) -> Result<Option<FileNo>, Refusal>
    ensures { Gives result (said_at name (a_file_beside other) (view request.now)) }
{
    if lacks(request, name) && lacks(request, other) {
        return Ok(None);
    }
    match request.get(name.text()).and_then(file_in) {
        Some(file) => Ok(Some(file)),
        None => Err(Refusal::NotARequest(name)),
    }
}

/// The texts of a list, none where the field is missing.
#[tactic(auto, unfolding(crate::specs::Forms::said_at))]
pub fn texts_or_none(
    alloc: Global,
    request: &Value,
    name: FieldName,
) -> Result<Listed<&str>, Refusal>
    ensures { GivesAs (map (λ text. text.now)) result (said_at name texts_or_none (view request.now)) }
{
    let Some(field) = request.get(name.text()) else {
        return Ok(Listed::new(alloc));
    };
    let Some(items) = field.as_array() else {
        return Err(Refusal::NotARequest(name));
    };
    texts_in(alloc, items.as_slice(), name)
}

fn texts_in(alloc: Global, items: &[Value], name: FieldName) -> Result<Listed<&str>, Refusal>
    ensures { GivesAs (map (λ text. text.now)) result (formed name (texts_of (items_view items.now))) }
{
    let mut texts = Listed::new(alloc);
    for item in items {
        let Some(text) = item.as_str() else {
            return Err(Refusal::NotARequest(name));
        };
        texts.push(text)?;
    }
    Ok(texts)
}

/// The files of a list of their numbers.
#[tactic(auto, unfolding(crate::specs::Forms::said_at))]
pub fn files(alloc: Global, request: &Value, name: FieldName) -> Result<FileList, Refusal>
    ensures { Gives result (said_at name some_files (view request.now)) }
{
    match list(request, name) {
        Some(items) => files_in(alloc, items, name),
        None => Err(Refusal::NotARequest(name)),
    }
}

fn files_in(alloc: Global, items: &[Value], name: FieldName) -> Result<FileList, Refusal>
    ensures { Gives result (formed name (files_of (items_view items.now))) }
{
    let mut files = FileList::new(alloc);
    for item in items {
        let Some(file) = file_in(item) else {
            return Err(Refusal::NotARequest(name));
        };
        files.push(file)?;
    }
    Ok(files)
}

fn file_in(value: &Value) -> Option<FileNo>
    ensures { result ≡ file_in (view value.now) }
{
    match value.as_u64() {
        Some(number) if number <= u64::from(u32::MAX) => Some(FileNo(number as u32)),
        _ => None,
    }
}

/// A service's number.
#[tactic(auto, unfolding(crate::specs::Forms::said_at))]
pub fn service(request: &Value, name: FieldName) -> Result<ServiceNo, Refusal>
    ensures { Gives result (said_at name a_service (view request.now)) }
{
    request
        .get(name.text())
        .and_then(service_in)
        .ok_or(Refusal::NotARequest(name))
}

fn service_in(value: &Value) -> Option<ServiceNo>
    ensures { result ≡ service_in (view value.now) }
{
    match value.as_u64() {
        Some(number) if number <= u64::from(u8::MAX) => Some(ServiceNo(number as u8)),
        _ => None,
    }
}

/// The services of a list of their numbers. It takes no memory.
#[tactic(auto, unfolding(crate::specs::Forms::said_at))]
pub fn order(request: &Value, name: FieldName) -> Result<ServiceList, Refusal>
    ensures { result ≡ said_at name an_order (view request.now) }
{
    list(request, name)
        .and_then(order_in)
        .ok_or(Refusal::NotARequest(name))
}

fn order_in(items: &[Value]) -> Option<ServiceList>
    ensures { result ≡ order_of (items_view items.now) }
{
    let mut services = ServiceList::new();
    for item in items {
        let service = service_in(item)?;
        if services.len() == MAX_SERVICES || services.contains(service) {
            return None;
        }
        services.push(service);
    }
    Some(services)
}

/// The state of a mapping.
#[tactic(auto, unfolding(crate::specs::Forms::said_at))]
pub fn state(request: &Value, name: FieldName) -> Result<MapState, Refusal>
    ensures { Gives result (said_at name a_state (view request.now)) }
{
    request
        .get(name.text())
        .and_then(Value::as_str)
        .and_then(state_of)
        .ok_or(Refusal::NotARequest(name))
}

fn state_of(text: &str) -> Option<MapState>
    ensures { result ≡ state_of text.now }
{
    match text {
        "current" => Some(MapState::Current),
        "pending" => Some(MapState::Pending),
        "deleted" => Some(MapState::Deleted),
        _ => None,
    }
}

fn list(request: &Value, name: FieldName) -> Option<&[Value]>
    ensures { option_map (λ items. items_view items.now) result ≡ list_of name (view request.now) }
{
    let field = request.get(name.text())?;
    Some(field.as_array()?.as_slice())
}
