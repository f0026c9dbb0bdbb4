//! The messages of a client, read from their JSON.
ghost use Rattle.std.specs.Prelude.{◌≡◌, option_map};
ghost use Rattle.serde_json.specs.View.{view, items_view};
ghost use Rattle.sw_lsp_text.specs.Changes.{has_range, last_item};
ghost use Rattle.sw_lsp_text.specs.MessageRead.{seen};
ghost use Rattle.sw_lsp_text.specs.Messages as lsp;

use crate::part::{place_in, range_in, text_at, text_behind};
use crate::place::{Place, Range};
use serde_json::Value;

/// What a client says. An `id` is that of a request, a number or a text.
#[derive(Clone, Copy)]
pub enum Message<'v> {
    /// The request to begin.
    Initialize {
        id: &'v Value,
        nonsending_default: bool,
    },
    /// The client has begun.
    Initialized,
    /// The request to make ready for the end.
    Shutdown {
        id: &'v Value,
    },
    /// The end.
    Exit,
    /// A document is open, with this text.
    Opened {
        uri: &'v str,
        text: &'v str,
        version: i64,
    },
    /// An open document has this text now.
    Changed {
        uri: &'v str,
        text: &'v str,
    },
    /// Parts of an open document were changed, which can't be followed.
    ChangedInPart {
        uri: &'v str,
    },
    /// A document is closed.
    Closed {
        uri: &'v str,
    },
    /// The request for the diagnostics of a document.
    Diagnostic {
        id: &'v Value,
        uri: &'v str,
    },
    /// The request for what is known of a place.
    Hover {
        id: &'v Value,
        uri: &'v str,
        place: Place,
    },
    /// The request for actions on a range.
    CodeAction {
        id: &'v Value,
        uri: &'v str,
        range: Range,
    },
    /// Nothing that is to be answered, or that changes anything.
    Ignored,
    /// A request of another method.
    Unknown {
        id: &'v Value,
    },
    /// A request whose parameters lack what they must have.
    BadParams {
        id: &'v Value,
    },
    /// JSON that is no message.
    Invalid,
}

/// The methods of the requests that are read.
#[derive(Clone, Copy)]
enum Request {
    Initialize,
    Shutdown,
    Diagnostic,
    Hover,
    CodeAction,
    Other,
}

/// The methods of the notifications that are read.
#[derive(Clone, Copy)]
enum Notice {
    Initialized,
    Exit,
    Opened,
    Changed,
    Closed,
    Other,
}

fn request_of(method: &str) -> Request
    ensures { result ≡ lsp.request_of method.now }
{
    match method {
        "initialize" => Request::Initialize,
        "shutdown" => Request::Shutdown,
        "textDocument/diagnostic" => Request::Diagnostic,
        "textDocument/hover" => Request::Hover,
        "textDocument/codeAction" => Request::CodeAction,
        _ => Request::Other,
    }
}

fn notice_of(method: &str) -> Notice
    ensures { result ≡ lsp.notice_of method.now }
{
    match method {
        "initialized" => Notice::Initialized,
        "exit" => Notice::Exit,
        "textDocument/didOpen" => Notice::Opened,
        "textDocument/didChange" => Notice::Changed,
        "textDocument/didClose" => Notice::Closed,
        _ => Notice::Other,
    }
}

/// The document that the parameters name.
fn uri_in(message: &Value) -> Option<&str>
    ensures { option_map (λ uri. uri.now) result ≡ lsp.uri_in (view message.now) }
{
    text_behind(message, "/params/textDocument/uri")
}

fn initialize<'v>(id: &'v Value, message: &Value) -> Message<'v>
    ensures { seen result ≡ lsp.initialize (view id.now) (view message.now) }
{
    let nonsending_default = message
        .pointer("/params/initializationOptions/nonsendingDefault")
        .and_then(Value::as_bool)
        .unwrap_or(false);
    Message::Initialize {
        id,
        nonsending_default,
    }
}

fn opened(message: &Value) -> Option<Message<'_>>
    ensures { option_map seen result ≡ lsp.opened (view message.now) }
{
    let uri = uri_in(message)?;
    let text = text_behind(message, "/params/textDocument/text")?;
    let version = message
        .pointer("/params/textDocument/version")
        .and_then(Value::as_i64)?;
    Some(Message::Opened { uri, text, version })
}

/// Whether a change is one of a part of the document.
fn has_range(changes: &[Value]) -> bool
    ensures { result ≡ has_range (items_view changes.now) }
{
    for change in changes {
        if change.get("range").is_some() {
            return true;
        }
    }
    false
}

/// The last change, which has the text that holds.
fn last_change(changes: &[Value]) -> Option<&Value>
    ensures { option_map (λ change. view change.now) result ≡ last_item (items_view changes.now) }
{
    changes.last()
}

fn changed(message: &Value) -> Option<Message<'_>>
    ensures { option_map seen result ≡ lsp.changed (view message.now) }
{
    let uri = uri_in(message)?;
    let changes = message
        .pointer("/params/contentChanges")
        .and_then(Value::as_array)?;
    if has_range(changes) {
        return Some(Message::ChangedInPart { uri });
    }
    match last_change(changes) {
        None => Some(Message::Ignored),
        Some(change) => {
            let text = text_at(change, "text")?;
            Some(Message::Changed { uri, text })
        }
    }
}

fn closed(message: &Value) -> Option<Message<'_>>
    ensures { option_map seen result ≡ lsp.closed (view message.now) }
{
    let uri = uri_in(message)?;
    Some(Message::Closed { uri })
}

fn diagnostic<'v>(id: &'v Value, message: &'v Value) -> Option<Message<'v>>
    ensures { option_map seen result ≡ lsp.diagnostic (view id.now) (view message.now) }
{
    let uri = uri_in(message)?;
    Some(Message::Diagnostic { id, uri })
}

fn hover<'v>(id: &'v Value, message: &'v Value) -> Option<Message<'v>>
    ensures { option_map seen result ≡ lsp.hover (view id.now) (view message.now) }
{
    let uri = uri_in(message)?;
    let place = place_in(message.pointer("/params/position")?)?;
    Some(Message::Hover { id, uri, place })
}

fn code_action<'v>(id: &'v Value, message: &'v Value) -> Option<Message<'v>>
    ensures { option_map seen result ≡ lsp.code_action (view id.now) (view message.now) }
{
    let uri = uri_in(message)?;
    let range = range_in(message.pointer("/params/range")?)?;
    Some(Message::CodeAction { id, uri, range })
}

fn requested<'v>(request: Request, id: &'v Value, message: &'v Value) -> Message<'v>
    ensures { seen result ≡ lsp.requested request (view id.now) (view message.now) }
{
    let read = match request {
        Request::Initialize => Some(initialize(id, message)),
        Request::Shutdown => Some(Message::Shutdown { id }),
        Request::Diagnostic => diagnostic(id, message),
        Request::Hover => hover(id, message),
        Request::CodeAction => code_action(id, message),
        Request::Other => Some(Message::Unknown { id }),
    };
    match read {
        Some(read) => read,
        None => Message::BadParams { id },
    }
}

fn notified(notice: Notice, message: &Value) -> Message<'_>
    ensures { seen result ≡ lsp.notified notice (view message.now) }
{
    let read = match notice {
        Notice::Initialized => Some(Message::Initialized),
        Notice::Exit => Some(Message::Exit),
        Notice::Opened => opened(message),
        Notice::Changed => changed(message),
        Notice::Closed => closed(message),
        Notice::Other => None,
    };
    match read {
        Some(read) => read,
        None => Message::Ignored,
    }
}

/// What a message says whose method is known.
fn called<'v>(method: &str, message: &'v Value) -> Message<'v>
    ensures { seen result ≡ lsp.called method.now (view message.now) }
{
    match message.get("id") {
        None => notified(notice_of(method), message),
        Some(id) => {
            if is_id(id) {
                requested(request_of(method), id, message)
            } else {
                Message::Invalid
            }
        }
    }
}

/// Whether a JSON says that it is a message.
fn has_version(message: &Value) -> bool
    ensures { result ≡ lsp.has_version (view message.now) }
{
    match text_at(message, "jsonrpc") {
        Some(version) => version == "2.0",
        None => false,
    }
}

/// Whether a JSON is a number or a text, as an id is.
fn is_id(value: &Value) -> bool
    ensures { result ≡ lsp.is_id (view value.now) }
{
    value.is_number() || value.is_string()
}

/// What a JSON says, read as the message of a client. A notification that lacks what it must have
/// is ignored, since no notification is answered.
pub fn read_message(message: &Value) -> Message<'_>
    ensures { seen result ≡ lsp.message_in (view message.now) }
{
    if !has_version(message) {
        return Message::Invalid;
    }
    match message.get("method") {
        Some(method) => match method.as_str() {
            Some(method) => called(method, message),
            None => Message::Invalid,
        },
        None => {
            if message.get("result").is_some() || message.get("error").is_some() {
                Message::Ignored
            } else {
                Message::Invalid
            }
        }
    }
}
