//! A server of one client: what it does about each message.
ghost use Rattle.std.specs.Prelude.{◌≡◌, [], Option, IfOk, map, option_map, string_bytes};
ghost use Rattle.serde_json.specs.View.{view};
ghost use Rattle.sw_lsp_text.specs.MessageRead.{seen};
ghost use Rattle.sw_lsp_text.specs.Messages as lsp;
ghost use Rattle.sw_lsp_findings.specs.Findings.{AreFindingsIn, shown};
ghost use Rattle.sw_lsp_findings.specs.Hovers.{IsKnownIn, seen_hover};
ghost use Rattle.sw_lsp_mends.specs.Actions.{AreActionsIn};
ghost use Rattle.sw_lsp_mends.specs.Offers.{seen_action};
ghost use Rattle.sw_lsp.specs.Documents.{text_in};
ghost use Rattle.sw_lsp.specs.Steps.{Answers, Follows, Holds, Hovers, IsRunning, Offers, Reports};
ghost use Rattle.sw_lsp.specs.Steps.{after};
ghost use Rattle.sw_lsp.specs.Steps.{first_state, forgets, no_json, no_message, request_id, says};
ghost use Rattle.sw_lsp.specs.Steps.{stopping, turned_down, waiting};

use crate::documents::Documents;
use crate::phase::Phase;
use serde_json::Value;
use std::alloc::{AllocError, Global};
use std::marker::Model;
use sw_lsp_findings::{Hover, Setting, findings_of, known_at};
use sw_lsp_mends::actions_at;
use sw_lsp_text::{
    Action, Diagnostic, Fault, Message, Place, Range, begun, hovered, nothing, offered, published,
    read_message, refused, reported,
};

/// A server of one client. It keeps how far the session is, how texts are judged and shown, and the
/// documents whose texts are known.
#[derive(Drop)]
pub struct Server {
    phase: Phase,
    setting: Setting,
    documents: Documents,
}

impl Model for Server {
    ghost use Rattle.sw_lsp.specs.Steps.{ServerState};

    ghost Value = { ServerState };

    ghost view = { λ s. record { phase = s.phase; setting = s.setting; documents = s.documents } };
}

/// The id of the request that a message is.
fn request_id<'v>(message: Message<'v>) -> Option<&'v Value>
    ensures { option_map (λ id. view id.now) result ≡ request_id (seen message.entry) }
{
    match message {
        Message::Initialize { id, .. }
        | Message::Shutdown { id }
        | Message::Diagnostic { id, .. }
        | Message::Hover { id, .. }
        | Message::CodeAction { id, .. }
        | Message::Unknown { id }
        | Message::BadParams { id } => Some(id),
        Message::Initialized
        | Message::Exit
        | Message::Opened { .. }
        | Message::Changed { .. }
        | Message::ChangedInPart { .. }
        | Message::Closed { .. }
        | Message::Ignored
        | Message::Invalid => None,
    }
}

impl Server {
    /// A server that waits for the request to begin.
    pub fn new(alloc: Global, setting: Setting) -> Server
        ensures { result ≡ first_state setting }
    {
        Server {
            phase: Phase::Waiting,
            setting,
            documents: Documents::new(alloc),
        }
    }

    pub fn phase(&self) -> Phase
        ensures { result ≡ self.now.phase }
    {
        self.phase
    }

    /// Refuses a request. Another message isn't answered.
    fn turned_down(
        &self,
        alloc: Global,
        message: Message<'_>,
        fault: Fault,
    ) -> Result<Option<Value>, AllocError>
        ensures { IfOk result (λ sent.
            after self.now sent ≡ turned_down self.now fault (request_id (seen message.entry))) }
    {
        let Some(id) = request_id(message) else {
            return Ok(None);
        };
        let sent = refused(alloc, id, fault)?;
        Ok(Some(sent))
    }

    /// Answers JSON that is no message.
    pub fn no_message(&self, alloc: Global) -> Result<Option<Value>, AllocError>
        ensures { IfOk result (λ sent. after self.now sent ≡ no_message self.now) }
    {
        let sent = refused(alloc, &Value::Null, Fault::NoRequest)?;
        Ok(Some(sent))
    }

    /// Answers a body that is no JSON.
    fn no_json(&self, alloc: Global) -> Result<Option<Value>, AllocError>
        ensures { IfOk result (λ sent. after self.now sent ≡ no_json self.now) }
    {
        let sent = refused(alloc, &Value::Null, Fault::NoJson)?;
        Ok(Some(sent))
    }

    /// What is done before the session has begun.
    fn waiting(&mut self, alloc: Global, message: Message<'_>) -> Result<Option<Value>, AllocError>
        ensures { IfOk result (λ sent.
            after self.new sent ≡ waiting self.old (seen message.entry)) }
    {
        match message {
            Message::Initialize {
                id,
                nonsending_default,
            } => {
                let sent = begun(alloc, id)?;
                self.phase = Phase::Running;
                self.setting.set_default(nonsending_default);
                Ok(Some(sent))
            }
            Message::Exit => {
                self.phase = Phase::Dropped;
                Ok(None)
            }
            Message::Invalid => self.no_message(alloc),
            Message::Initialized
            | Message::Shutdown { .. }
            | Message::Opened { .. }
            | Message::Changed { .. }
            | Message::ChangedInPart { .. }
            | Message::Closed { .. }
            | Message::Diagnostic { .. }
            | Message::Hover { .. }
            | Message::CodeAction { .. }
            | Message::Ignored
            | Message::Unknown { .. }
            | Message::BadParams { .. } => self.turned_down(alloc, message, Fault::NotInitialized),
        }
    }

    /// What is done while the session is to end.
    fn stopping(&mut self, alloc: Global, message: Message<'_>) -> Result<Option<Value>, AllocError>
        ensures { IfOk result (λ sent.
            after self.new sent ≡ stopping self.old (seen message.entry)) }
    {
        match message {
            Message::Exit => {
                self.phase = Phase::Done;
                Ok(None)
            }
            Message::Invalid => self.no_message(alloc),
            Message::Initialize { .. }
            | Message::Initialized
            | Message::Shutdown { .. }
            | Message::Opened { .. }
            | Message::Changed { .. }
            | Message::ChangedInPart { .. }
            | Message::Closed { .. }
            | Message::Diagnostic { .. }
            | Message::Hover { .. }
            | Message::CodeAction { .. }
            | Message::Ignored
            | Message::Unknown { .. }
            | Message::BadParams { .. } => self.turned_down(alloc, message, Fault::NoRequest),
        }
    }

    /// Takes the text that a document has now, and shows what is found in it.
    fn hold(&mut self, alloc: Global, uri: &str, text: &str) -> Result<Option<Value>, AllocError>
        ensures { IfOk result (λ sent. Holds self.old uri.now text.now (after self.new sent)) }
    {
        let found = findings_of(alloc, &self.setting, uri, text.as_bytes())?;
        self.documents.keep(alloc, uri, text)?;
        let sent = published(alloc, uri, found.as_slice())?;
        Ok(Some(sent))
    }

    /// Forgets a document, and shows nothing for it any more.
    fn forget(&mut self, alloc: Global, uri: &str) -> Result<Option<Value>, AllocError>
        ensures { IfOk result (λ sent. after self.new sent ≡ forgets self.old uri.now) }
    {
        self.documents.forget(uri);
        let sent = published(alloc, uri, &[])?;
        Ok(Some(sent))
    }

    /// What is found in a document. It is nothing where the document's text isn't known.
    fn found_in(&self, alloc: Global, uri: &str) -> Result<Vec<Diagnostic>, AllocError>
        ensures { IfOk result (λ found. AreFindingsIn self.now.setting uri.now
            (text_in uri.now self.now.documents) (map shown found.items)) }
    {
        match self.documents.text_of(uri) {
            Some(text) => findings_of(alloc, &self.setting, uri, text.as_bytes()),
            None => Ok(Vec::new(alloc)),
        }
    }

    /// Answers with what is found in a document.
    fn report(&self, alloc: Global, id: &Value, uri: &str) -> Result<Option<Value>, AllocError>
        ensures { IfOk result (λ sent.
            Reports self.now (view id.now) uri.now (after self.now sent)) }
    {
        let found = self.found_in(alloc, uri)?;
        let sent = reported(alloc, id, found.as_slice())?;
        Ok(Some(sent))
    }

    /// What is known of a place in a document.
    fn known_in(&self, alloc: Global, uri: &str, place: Place) -> Result<Option<Hover>, AllocError>
        ensures { IfOk result (λ known. IsKnownIn self.now.setting
            (text_in uri.now self.now.documents) place (option_map seen_hover known)) }
    {
        match self.documents.text_of(uri) {
            Some(text) => known_at(alloc, &self.setting, text.as_bytes(), place),
            None => Ok(None),
        }
    }

    /// Answers with what is known of a place.
    fn explain(
        &self,
        alloc: Global,
        id: &Value,
        uri: &str,
        place: Place,
    ) -> Result<Option<Value>, AllocError>
        ensures { IfOk result (λ sent.
            Hovers self.now (view id.now) uri.now place (after self.now sent)) }
    {
        let sent = match self.known_in(alloc, uri, place)? {
            Some(known) => hovered(alloc, id, &known.text, known.range)?,
            None => nothing(alloc, id)?,
        };
        Ok(Some(sent))
    }

    /// The edits that mend what a range of a document touches.
    fn actions_in(&self, alloc: Global, uri: &str, range: Range) -> Result<Vec<Action>, AllocError>
        ensures { IfOk result (λ found. AreActionsIn self.now.setting uri.now
            (text_in uri.now self.now.documents) range (map seen_action found.items)) }
    {
        match self.documents.text_of(uri) {
            Some(text) => actions_at(alloc, &self.setting, uri, text.as_bytes(), range),
            None => Ok(Vec::new(alloc)),
        }
    }

    /// Answers with the edits that mend what a range of a document touches.
    fn offer(
        &self,
        alloc: Global,
        id: &Value,
        uri: &str,
        range: Range,
    ) -> Result<Option<Value>, AllocError>
        ensures { IfOk result (λ sent.
            Offers self.now (view id.now) uri.now range (after self.now sent)) }
    {
        let found = self.actions_in(alloc, uri, range)?;
        let sent = offered(alloc, id, uri, found.as_slice())?;
        Ok(Some(sent))
    }

    /// What is done while the session goes on.
    fn running(&mut self, alloc: Global, message: Message<'_>) -> Result<Option<Value>, AllocError>
        ensures { IfOk result (λ sent.
            IsRunning self.old (seen message.entry) (after self.new sent)) }
    {
        match message {
            Message::Initialize { .. } => self.turned_down(alloc, message, Fault::NoRequest),
            Message::Initialized | Message::Ignored => Ok(None),
            Message::Shutdown { id } => {
                self.phase = Phase::Stopping;
                let sent = nothing(alloc, id)?;
                Ok(Some(sent))
            }
            Message::Exit => {
                self.phase = Phase::Dropped;
                Ok(None)
            }
            Message::Opened { uri, text, .. } | Message::Changed { uri, text } => {
                self.hold(alloc, uri, text)
            }
            Message::ChangedInPart { uri } | Message::Closed { uri } => self.forget(alloc, uri),
            Message::Diagnostic { id, uri } => self.report(alloc, id, uri),
            Message::Hover { id, uri, place } => self.explain(alloc, id, uri, place),
            Message::CodeAction { id, uri, range } => self.offer(alloc, id, uri, range),
            Message::Unknown { .. } => self.turned_down(alloc, message, Fault::NoMethod),
            Message::BadParams { .. } => self.turned_down(alloc, message, Fault::BadParams),
            Message::Invalid => self.no_message(alloc),
        }
    }

    /// What is done about a message.
    fn follow(&mut self, alloc: Global, message: Message<'_>) -> Result<Option<Value>, AllocError>
        ensures { IfOk result (λ sent.
            Follows self.old (seen message.entry) (after self.new sent)) }
    {
        match self.phase {
            Phase::Waiting => self.waiting(alloc, message),
            Phase::Running => self.running(alloc, message),
            Phase::Stopping => self.stopping(alloc, message),
            Phase::Done | Phase::Dropped => Ok(None),
        }
    }

    /// What is done about the body of a frame. It answers an error only for want of memory.
    pub fn step(&mut self, alloc: Global, body: &[u8]) -> Result<Option<Value>, AllocError>
        ensures { IfOk result (λ sent. (message : Option lsp.Message)
            × Answers self.old body.now message (after self.new sent)) }
    {
        match Value::from_slice(alloc, body) {
            Ok(message) => {
                let sent = self.follow(alloc, read_message(&message))?;
                Ok(sent)
            }
            Err(error) => {
                if error.is_memory() {
                    return Err(AllocError);
                }
                self.no_json(alloc)
            }
        }
    }
}
