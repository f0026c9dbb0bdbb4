//! Messages put into frames.
ghost use Rattle.std.specs.Prelude.{IfOk, string_bytes};
ghost use Rattle.serde_json.specs.View.{view};
ghost use Rattle.sw_lsp_text.specs.Sent.{IsFrame};

use serde_json::Value;
use std::alloc::{AllocError, Global};

/// The frame of a message, to be sent as it is.
pub fn framed(alloc: Global, message: &Value) -> Result<String, AllocError>
    ensures { IfOk result (λ sent. IsFrame (view message.now) (string_bytes sent)) }
{
    let body = message.to_string(alloc)?;
    let sent = format!(in alloc; "Content-Length: {}\r\n\r\n{}", body.len(), body)?;
    Ok(sent)
}
