use crate::case::{Case, words_of};
use std::alloc::{AllocError, Global};

/// The calls of a program that a document shows. A line that begins as `begin` is a call, whose
/// words are the rest of the line; the lines after it, up to the next line that begins with `$ ` or
/// the end of the block, are what it prints.
pub fn shown_calls(alloc: Global, begin: &str, text: &str) -> Result<Vec<Case>, AllocError> {
    let mut calls = Vec::new(alloc);
    let mut is_reply = false;
    for line in text.split_inclusive('\n') {
        if line.starts_with("$ ") || line.starts_with("```") {
            is_reply = false;
        }
        if let Some(words) = line.strip_prefix(begin) {
            let words = words.strip_suffix('\n').unwrap_or(words);
            calls.push(Case::new(alloc, words_of(alloc, words, ' ')?))?;
            is_reply = true;
        } else if is_reply {
            add_reply(&mut calls, line)?;
        }
    }
    Ok(calls)
}

/// Adds a line to the reply of the last call.
fn add_reply(calls: &mut Vec<Case>, line: &str) -> Result<(), AllocError> {
    if let Some(call) = calls.last_mut() {
        call.reply.extend_from_slice(line.as_bytes())?;
    }
    Ok(())
}
