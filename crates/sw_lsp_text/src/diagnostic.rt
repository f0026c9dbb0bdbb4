//! Diagnostics and edits of a document, as the protocol has them in JSON.
ghost use Rattle.std.specs.Prelude.{◌≡◌, ◌==◌, length, map, if◌then◌else◌, None, Some, IfOk, option_map, string_bytes};
ghost use Rattle.serde_json.specs.Data.{array};
ghost use Rattle.serde_json.specs.View.{view, items_of};
ghost use Rattle.sw_lsp_text.specs.Diagnostics as json;

use crate::place::{Place, Range};
use serde_json::{Value, json};
use std::alloc::{AllocError, Global};

/// What is wrong at a range of a document.
#[derive(Drop)]
pub struct Diagnostic {
    pub range: Range,
    pub code: String,
    pub message: String,
    /// The address of a page about the code.
    pub page: Option<String>,
    /// What else belongs to it.
    pub related: Vec<Related>,
}

/// What another range has to do with a diagnostic.
#[derive(Drop)]
pub struct Related {
    pub uri: String,
    pub range: Range,
    pub message: String,
}

/// A text in the place of what stands at a range.
#[derive(Drop)]
pub struct Edit {
    pub range: Range,
    pub text: String,
}

/// An edit of a document that mends one of its diagnostics.
#[derive(Drop)]
pub struct Action {
    pub title: String,
    pub edit: Edit,
    pub mends: Diagnostic,
}

fn place_value(alloc: Global, place: Place) -> Result<Value, AllocError>
    ensures { IfOk result (λ v. view v ≡ json.place place) }
{
    json!(in alloc; {"line": place.line, "character": place.character})
}

pub(crate) fn range_value(alloc: Global, range: Range) -> Result<Value, AllocError>
    ensures { IfOk result (λ v. view v ≡ json.range range) }
{
    let start = place_value(alloc, range.start)?;
    let end = place_value(alloc, range.end)?;
    json!(in alloc; {"start": start, "end": end})
}

fn related_value(alloc: Global, related: &Related) -> Result<Value, AllocError>
    ensures { IfOk result (λ v. view v ≡ json.related related.now) }
{
    let range = range_value(alloc, related.range)?;
    json!(in alloc; {
        "location": {"uri": &related.uri, "range": range},
        "message": &related.message
    })
}

fn related_list(alloc: Global, all: &[Related]) -> Result<Value, AllocError>
    ensures { IfOk result (λ v. view v ≡ array (items_of (map json.related all.now))) }
{
    let mut list = Vec::new(alloc);
    for one in all {
        list.push(related_value(alloc, one)?)?;
    }
    Ok(Value::Array(list))
}

/// What else belongs to a diagnostic, unless it is nothing.
fn some_related(alloc: Global, all: &[Related]) -> Result<Option<Value>, AllocError>
    ensures { IfOk result (λ v. option_map view v ≡ json.some_related all.now) }
{
    if all.is_empty() {
        return Ok(None);
    }
    let list = related_list(alloc, all)?;
    Ok(Some(list))
}

/// The link to a page.
fn link(alloc: Global, page: &Option<String>) -> Result<Option<Value>, AllocError>
    ensures { IfOk result (λ v. option_map view v ≡ option_map json.link page.now) }
{
    match page {
        None => Ok(None),
        Some(page) => {
            let link = json!(in alloc; {"href": page})?;
            Ok(Some(link))
        }
    }
}

/// An object with one more member, if there is one.
fn with_member(
    alloc: Global,
    object: Value,
    name: &str,
    member: Option<Value>,
) -> Result<Value, AllocError>
    ensures { IfOk result
        (λ v. view v ≡ json.with_member name.now (option_map view member) (view object)) }
{
    let Some(member) = member else {
        return Ok(object);
    };
    match object {
        Value::Object(mut members) => {
            serde_json::put(&mut members, alloc, name, member)?;
            Ok(Value::Object(members))
        }
        other => Ok(other),
    }
}

/// What each diagnostic has.
fn plain_value(alloc: Global, diagnostic: &Diagnostic) -> Result<Value, AllocError>
    ensures { IfOk result (λ v. view v ≡ json.plain diagnostic.now) }
{
    let range = range_value(alloc, diagnostic.range)?;
    json!(in alloc; {
        "range": range,
        "severity": 1u8,
        "code": &diagnostic.code,
        "source": "swiftcheck",
        "message": &diagnostic.message
    })
}

fn diagnostic_value(alloc: Global, diagnostic: &Diagnostic) -> Result<Value, AllocError>
    ensures { IfOk result (λ v. view v ≡ json.diagnostic diagnostic.now) }
{
    let plain = plain_value(alloc, diagnostic)?;
    let page = link(alloc, &diagnostic.page)?;
    let linked = with_member(alloc, plain, "codeDescription", page)?;
    let related = some_related(alloc, &diagnostic.related)?;
    let made = with_member(alloc, linked, "relatedInformation", related)?;
    Ok(made)
}

pub(crate) fn diagnostic_list(alloc: Global, all: &[Diagnostic]) -> Result<Value, AllocError>
    ensures { IfOk result (λ v. view v ≡ array (items_of (map json.diagnostic all.now))) }
{
    let mut list = Vec::new(alloc);
    for one in all {
        list.push(diagnostic_value(alloc, one)?)?;
    }
    Ok(Value::Array(list))
}

fn edit_value(alloc: Global, edit: &Edit) -> Result<Value, AllocError>
    ensures { IfOk result (λ v. view v ≡ json.edit edit.now) }
{
    let range = range_value(alloc, edit.range)?;
    json!(in alloc; {"range": range, "newText": &edit.text})
}

fn action_value(alloc: Global, uri: &str, action: &Action) -> Result<Value, AllocError>
    ensures { IfOk result (λ v. view v ≡ json.action uri.now action.now) }
{
    let edit = edit_value(alloc, &action.edit)?;
    let mends = diagnostic_value(alloc, &action.mends)?;
    json!(in alloc; {
        "title": &action.title,
        "kind": "quickfix",
        "diagnostics": [mends],
        "isPreferred": true,
        "edit": {"changes": {(uri): [edit]}}
    })
}

pub(crate) fn action_list(alloc: Global, uri: &str, all: &[Action]) -> Result<Value, AllocError>
    ensures { IfOk result (λ v. view v ≡ array (items_of (map (json.action uri.now) all.now))) }
{
    let mut list = Vec::new(alloc);
    for one in all {
        list.push(action_value(alloc, uri, one)?)?;
    }
    Ok(Value::Array(list))
}
