//! The replies of a server, as JSON.
ghost use Rattle.std.specs.Prelude.{◌≡◌, IfOk};
ghost use Rattle.serde_json.specs.View.{view};
ghost use Rattle.sw_lsp_text.specs.Replies as reply;

use crate::diagnostic::{Action, Diagnostic, action_list, diagnostic_list, range_value};
use crate::fault::Fault;
use crate::place::Range;
use serde_json::{Value, json};
use std::alloc::{AllocError, Global};

fn answer(alloc: Global, id: &Value, given: Value) -> Result<Value, AllocError>
    ensures { IfOk result (λ v. view v ≡ reply.answer (view id.now) (view given)) }
{
    json!(in alloc; {"jsonrpc": "2.0", "id": id, "result": given})
}

fn capabilities(alloc: Global) -> Result<Value, AllocError>
    ensures { IfOk result (λ v. view v ≡ reply.capabilities) }
{
    json!(in alloc; {
        "positionEncoding": "utf-16",
        "textDocumentSync": {"openClose": true, "change": 1u8},
        "diagnosticProvider": {
            "interFileDependencies": false,
            "workspaceDiagnostics": false
        },
        "hoverProvider": true,
        "codeActionProvider": {"codeActionKinds": ["quickfix"]}
    })
}

/// The answer to the request to begin: what the server can do.
pub fn begun(alloc: Global, id: &Value) -> Result<Value, AllocError>
    ensures { IfOk result (λ v. view v ≡ reply.begun (view id.now)) }
{
    let capabilities = capabilities(alloc)?;
    let about = json!(in alloc; {
        "capabilities": capabilities,
        "serverInfo": {"name": "swiftcheck_lsp"}
    })?;
    answer(alloc, id, about)
}

/// The answer that there is nothing to say.
pub fn nothing(alloc: Global, id: &Value) -> Result<Value, AllocError>
    ensures { IfOk result (λ v. view v ≡ reply.nothing (view id.now)) }
{
    answer(alloc, id, Value::Null)
}

/// The answer that a request has no result. Where the id isn't known, it is null.
pub fn refused(alloc: Global, id: &Value, fault: Fault) -> Result<Value, AllocError>
    ensures { IfOk result (λ v. view v ≡ reply.refused (view id.now) fault) }
{
    json!(in alloc; {
        "jsonrpc": "2.0",
        "id": id,
        "error": {"code": fault.code(), "message": fault.text()}
    })
}

/// The notification of all diagnostics of a document. It takes the place of earlier ones.
pub fn published(alloc: Global, uri: &str, found: &[Diagnostic]) -> Result<Value, AllocError>
    ensures { IfOk result (λ v. view v ≡ reply.published uri.now found.now) }
{
    let list = diagnostic_list(alloc, found)?;
    json!(in alloc; {
        "jsonrpc": "2.0",
        "method": "textDocument/publishDiagnostics",
        "params": {"uri": uri, "diagnostics": list}
    })
}

/// All diagnostics of a document, as a report.
fn report(alloc: Global, found: &[Diagnostic]) -> Result<Value, AllocError>
    ensures { IfOk result (λ v. view v ≡ reply.report found.now) }
{
    let list = diagnostic_list(alloc, found)?;
    json!(in alloc; {"kind": "full", "items": list})
}

/// The answer with all diagnostics of a document.
pub fn reported(alloc: Global, id: &Value, found: &[Diagnostic]) -> Result<Value, AllocError>
    ensures { IfOk result (λ v. view v ≡ reply.reported (view id.now) found.now) }
{
    let report = report(alloc, found)?;
    answer(alloc, id, report)
}

/// What is known of a range, as a text in Markdown.
fn hover(alloc: Global, text: &str, at: Range) -> Result<Value, AllocError>
    ensures { IfOk result (λ v. view v ≡ reply.hover text.now at) }
{
    let at = range_value(alloc, at)?;
    json!(in alloc; {"contents": {"kind": "markdown", "value": text}, "range": at})
}

/// The answer with what is known of a range, as a text in Markdown.
pub fn hovered(alloc: Global, id: &Value, text: &str, at: Range) -> Result<Value, AllocError>
    ensures { IfOk result (λ v. view v ≡ reply.hovered (view id.now) text.now at) }
{
    let hover = hover(alloc, text, at)?;
    answer(alloc, id, hover)
}

/// The answer with actions, which edit this document.
pub fn offered(alloc: Global, id: &Value, uri: &str, found: &[Action]) -> Result<Value, AllocError>
    ensures { IfOk result (λ v. view v ≡ reply.offered (view id.now) uri.now found.now) }
{
    let list = action_list(alloc, uri, found)?;
    answer(alloc, id, list)
}
