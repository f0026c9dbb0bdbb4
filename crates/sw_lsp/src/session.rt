//! A session over any reader and writer.
ghost use Rattle.std.specs.Prelude.{◌≡◌, ◌≢◌, ◌≤◌, ◌+◌, ◌↔◌, ℕ, List, [], ◌++◌, IfOk, OnOk, IsTrue, IsFalse};
ghost use Rattle.std.specs.Prelude.{Option, length, drop, option_map};
ghost use Rattle.std.specs.Io.KnownBytes.{Appends, Consumes, IsAtEnd};
ghost use Rattle.serde_json.specs.View.{view};
ghost use Rattle.sw_lsp_text.specs.Frames.{IsCut, IsWithin};
ghost use Rattle.sw_lsp_text.specs.declared.frame.Cut.{Cut};
ghost use Rattle.sw_lsp_text.specs.declared.frame.Cut.TheVariants as cut;
ghost use Rattle.sw_lsp.specs.Served.{Goes, IsServed, end_with};
ghost use Rattle.sw_lsp.specs.Session.{Carries, IsBare};

use crate::ending::{Ending, Stop, ended_as};
use crate::server::Server;
use serde_json::Value;
use std::alloc::Global;
use std::io::{ErrorKind, Read, Write};
use sw_lsp_findings::Setting;
use sw_lsp_text::{BODY_LIMIT, Cut, HEADER_LIMIT, first_cut, framed};

/// The most bytes that are read at once.
const PIECE: usize = 4096;

/// Reads what has come next, behind the bytes that are held. It answers whether more may come. A
/// read that was interrupted is left to the next call.
fn take_in<R: Read>(input: &mut R, held: &mut Vec<u8>) -> Result<bool, Stop>
    // So never more is held than one header, one body and one piece.
    requires { length held.old.items ≤ HEADER_LIMIT + BODY_LIMIT }
    ensures more { OnOk result ((more : List ℕ)
        × Consumes (R.remaining input.old) (R.remaining input.new) more
        × (held.new.items ≡ held.old.items ++ more)) }
    ensures end { IfOk result (λ goes_on. IsFalse goes_on
        → IsAtEnd (R.remaining input.new) × (held.new.items ≡ held.old.items)) }
{
    let mut piece = [0u8; PIECE];
    match input.read(&mut piece) {
        Ok(count) => {
            held.extend_from_slice(&piece[..count])?;
            Ok(count > 0)
        }
        Err(error) => {
            if error.kind() == ErrorKind::Interrupted {
                Ok(true)
            } else {
                Err(Stop::NotRead)
            }
        }
    }
}

/// Writes bytes, all of them, and keeps none back.
fn put<W: Write>(output: &mut W, bytes: &[u8]) -> Result<(), Stop>
    ensures { OnOk result (Appends (W.contents output.old) (W.contents output.new) bytes.now) }
{
    match output.write_all(bytes) {
        Ok(()) => {}
        Err(_error) => return Err(Stop::NotWritten),
    }
    match output.flush() {
        Ok(()) => Ok(()),
        Err(_error) => Err(Stop::NotWritten),
    }
}

/// Sends a message, if there is one.
fn send<W: Write>(alloc: Global, output: &mut W, message: Option<Value>) -> Result<(), Stop>
    ensures { OnOk result ((bytes : List ℕ) × Carries (option_map view message) bytes
        × Appends (W.contents output.old) (W.contents output.new) bytes) }
{
    let Some(message) = message else {
        return Ok(());
    };
    let frame = framed(alloc, &message)?;
    put(output, frame.as_bytes())
}

/// Lets go of the first bytes.
fn let_go(held: &mut Vec<u8>, count: usize)
    requires { count ≤ length held.old.items }
    ensures { held.new.items ≡ drop count held.old.items }
{
    held.drain(..count);
}

/// Answers a header that declares no length of a body, and goes on behind it.
fn answer_header<W: Write>(
    alloc: Global,
    server: &Server,
    held: &mut Vec<u8>,
    header: usize,
    output: &mut W,
) -> Result<(), Stop>
    requires cut { (is : Cut) × IsCut held.old.items is × IsBare is header }
    requires within { header ≤ length held.old.items }
    ensures { OnOk result (Goes server.now held.old.items server.now held.new.items
        (W.contents output.old) (W.contents output.new)) }
{
    let sent = server.no_message(alloc)?;
    send(alloc, output, sent)?;
    let_go(held, header);
    Ok(())
}

/// Answers the body of a frame, and goes on behind it.
fn answer_body<W: Write>(
    alloc: Global,
    server: &mut Server,
    held: &mut Vec<u8>,
    header: usize,
    body: usize,
    output: &mut W,
) -> Result<(), Stop>
    requires cut { IsCut held.old.items (cut.Whole header body) }
    requires within { IsWithin (length held.old.items) (cut.Whole header body) }
    ensures { OnOk result (Goes server.old held.old.items server.new held.new.items
        (W.contents output.old) (W.contents output.new)) }
{
    let sent = server.step(alloc, &held[header..header + body])?;
    send(alloc, output, sent)?;
    let_go(held, header + body);
    Ok(())
}

/// How a session ends at the end of the input, where these bytes are held.
fn ended_at(held: &[u8]) -> Ending
    ensures { result ≡ end_with held.now }
{
    if held.is_empty() {
        Ending::Closed
    } else {
        Ending::CutOff
    }
}

/// Serves one client, from its first byte to the end of the session. What is sent is written at once,
/// and of the input only the bytes of one frame are held.
pub fn serve<R: Read, W: Write>(
    alloc: Global,
    setting: Setting,
    input: &mut R,
    output: &mut W,
) -> Result<Ending, Stop>
    ensures { IfOk result (λ ending. IsServed setting (R.remaining input.old) (R.remaining input.new)
        (W.contents output.old) (W.contents output.new) ending) }
{
    let mut server = Server::new(alloc, setting);
    let mut held = Vec::new(alloc);
    // A loop is proved to end, so this one counts its turns.
    for _ in 0..u64::MAX {
        if let Some(ending) = ended_as(server.phase()) {
            return Ok(ending);
        }
        match first_cut(held.as_slice()) {
            Cut::Partial => {
                if !take_in(input, &mut held)? {
                    return Ok(ended_at(held.as_slice()));
                }
            }
            Cut::Endless => return Ok(Ending::TooLong),
            Cut::TooLong { .. } => return Ok(Ending::TooLong),
            Cut::NoLength { header } => {
                answer_header(alloc, &server, &mut held, header, output)?;
            }
            Cut::NoNumber { header } => {
                answer_header(alloc, &server, &mut held, header, output)?;
            }
            Cut::Whole { header, body } => {
                answer_body(alloc, &mut server, &mut held, header, body, output)?;
            }
        }
    }
    Err(Stop::TooManyTurns)
}
