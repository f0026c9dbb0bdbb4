//! Sessions whose input isn't what it should be: how each ends, and what it is answered.
use std::alloc::Global;
use std::test::Fail;
use sw_lsp::{Ending, Stop, serve};
use sw_lsp_findings::Setting;

/// The client's end of a session.
const EXIT: &str = "Content-Length: 33\r\n\r\n{\"jsonrpc\":\"2.0\",\"method\":\"exit\"}";

/// The answer to a frame that is no message.
const NO_REQUEST: &str =
    "Content-Length: 110\r\n\r\n{\"error\":{\"code\":-32600,\"message\":\"the message is no request that may be sent now\"},\"id\":null,\"jsonrpc\":\"2.0\"}";

/// The answer to a body that is no JSON.
const NO_JSON: &str =
    "Content-Length: 86\r\n\r\n{\"error\":{\"code\":-32700,\"message\":\"the message is no JSON\"},\"id\":null,\"jsonrpc\":\"2.0\"}";

/// Whether a session over these bytes ends so, and is answered this.
fn ends(alloc: Global, bytes: &[u8], ending: Ending, answer: &str) -> Result<bool, Stop> {
    let mut input = bytes;
    let mut output = Vec::new(alloc);
    let ended = serve(alloc, Setting::new(None), &mut input, &mut output)?;
    Ok(ended == ending && output.as_slice() == answer.as_bytes())
}

/// Bytes with the client's end of a session behind them.
fn then_exit(alloc: Global, bytes: &[u8]) -> Result<Vec<u8>, Fail> {
    let mut all = Vec::new(alloc);
    all.extend_from_slice(bytes)?;
    all.extend_from_slice(EXIT.as_bytes())?;
    Ok(all)
}

#[test]
fn a_header_without_a_length(rt: HostRuntime) -> Result<(), Fail> {
    let bytes = then_exit(rt.alloc(), b"Content-Type: text\r\n\r\n")?;
    let answered = ends(rt.alloc(), bytes.as_slice(), Ending::Dropped, NO_REQUEST)?;
    assert!(rt; answered, "an answer, and the message behind it");
    Ok(())
}

#[test]
fn a_length_that_is_no_number(rt: HostRuntime) -> Result<(), Fail> {
    let bytes = then_exit(rt.alloc(), b"Content-Length: 7x\r\n\r\n")?;
    let answered = ends(rt.alloc(), bytes.as_slice(), Ending::Dropped, NO_REQUEST)?;
    assert!(rt; answered, "an answer, and the message behind it");
    Ok(())
}

#[test]
fn a_header_of_more_than_a_kilobyte(rt: HostRuntime) -> Result<(), Fail> {
    let bytes = vec![in rt.alloc(); b'x'; 1025]?;
    let ended = ends(rt.alloc(), bytes.as_slice(), Ending::TooLong, "")?;
    assert!(rt; ended, "an end without an answer");
    Ok(())
}

#[test]
fn a_body_of_more_than_16_megabytes(rt: HostRuntime) -> Result<(), Fail> {
    let bytes = then_exit(rt.alloc(), b"Content-Length: 16777217\r\n\r\n")?;
    let ended = ends(rt.alloc(), bytes.as_slice(), Ending::TooLong, "")?;
    assert!(rt; ended, "an end without an answer");
    Ok(())
}

#[test]
fn a_stream_that_is_cut(rt: HostRuntime) -> Result<(), Fail> {
    let in_body = ends(
        rt.alloc(),
        b"Content-Length: 33\r\n\r\n{\"json",
        Ending::CutOff,
        "",
    )?;
    assert!(rt; in_body, "an end in a body");
    let in_header = ends(rt.alloc(), b"Content-Len", Ending::CutOff, "")?;
    assert!(rt; in_header, "an end in a header");
    let between = ends(rt.alloc(), b"", Ending::Closed, "")?;
    assert!(rt; between, "an end between two frames");
    Ok(())
}

#[test]
fn a_body_that_is_not_utf8(rt: HostRuntime) -> Result<(), Fail> {
    let bytes = then_exit(rt.alloc(), b"Content-Length: 3\r\n\r\n\"\xff\"")?;
    let answered = ends(rt.alloc(), bytes.as_slice(), Ending::Dropped, NO_JSON)?;
    assert!(rt; answered, "an answer, and the message behind it");
    Ok(())
}
