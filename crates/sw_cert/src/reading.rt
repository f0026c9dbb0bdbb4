//! Reading a certificate, line by line.
ghost use Rattle.std.specs.Prelude.{◌≡◌, ◌+◌, ◌<◌, ◌≤◌, ◌++◌, length, drop, IfSome, IfOk, IfErr, OnOk};
ghost use Rattle.std.specs.Prelude.{IsTrue};
ghost use Rattle.sw_dictation.specs.Lines.{IsBadPlace};
ghost use Rattle.sw_cert.specs.Begun.{IsForm, IsHeadRead, IsRead};
ghost use Rattle.sw_cert.specs.Certificate.{start, IsCertificate};
ghost use Rattle.sw_cert.specs.Form.{certificate_form};
ghost use Rattle.sw_cert.specs.ReadLines.{AreLinesRead, AreStarts};
ghost use Rattle.sw_cert.specs.Slips.{IfBad};
ghost use Rattle.sw_cert.specs.Tails.{IsTail};

use crate::classes::read_classes;
use crate::form::Form;
use crate::heads::read_head;
use crate::line::{Extent, Line, Spot, echo};
use crate::pairs::{Pending, pair_count, read_count, read_pairs};
use crate::shared::Shared;
use crate::slip::Slip;
use std::alloc::{AllocError, Global};
use sw_list::ListOf;

/// The lines of a certificate that are read, the bytes at which they begin, the place behind them
/// among all lines, the byte at which the classes of the last one begin, and that behind it.
#[derive(Drop)]
pub(crate) struct Lines {
    pub lines: ListOf<Line>,
    pub starts: ListOf<u64>,
    pub spot: Spot,
    pub tail: usize,
    pub at: usize,
}

/// Reads a line from its classes on, and gives the place behind it.
fn read_tail(
    alloc: Global,
    form: &Form,
    spot: Spot,
    text: &[u8],
    head: Spot,
    at: usize,
) -> Result<(Line, usize), Slip>
    requires form { IsForm form.now }
    requires head { IsHeadRead form.now.extents spot text.now head at }
    ensures line { IfOk result (λ read. IsRead form.now.extents spot text.now read.0 read.1) }
    ensures bad { IfErr result
        (IfBad (IsBadPlace (certificate_form form.now.extents) spot text.now)) }
{
    let (classes, count_at) = read_classes(alloc, form, spot, text, head, at)?;
    let most = pair_count(form.extents.at(head.function as usize));
    let (left, at) = read_count(alloc, text, count_at, most)?;
    let shared = Shared::new(alloc, classes)?;
    let mut line = Line {
        function: head.function,
        block: head.block,
        classes: shared,
        pairs: ListOf::new(alloc),
    };
    let end = read_pairs(form, spot, text, &mut line, Pending { at, to: 0, left })?;
    Ok((line, end))
}

/// Whether the lines of two functions are alike behind the number of elements.
fn is_alike(one: &Extent, other: &Extent) -> bool
    ensures elements { IsTrue result → one.now.elements ≡ other.now.elements }
    ensures sites { IsTrue result → one.now.sites ≡ other.now.sites }
{
    one.elements == other.elements && one.sites.as_slice() == other.sites.as_slice()
}

/// Whether these bytes stand in a text at a byte.
fn stand_at(said: &[u8], text: &[u8], at: usize) -> bool
    requires { at ≤ length text.now }
    ensures within { IsTrue result → at + length said.now ≤ length text.now }
    ensures stand { IsTrue result
        → drop at text.now ≡ said.now ++ drop (at + length said.now) text.now }
{
    if text.len() - at < said.len() {
        return false;
    }
    &text[at..at + said.len()] == said
}

/// The next line and the place behind it, if it goes on behind its number of elements as the last
/// line does. Most lines do, and then no number has to be read.
fn echoed(
    alloc: Global,
    form: &Form,
    bytes: &[u8],
    read: &Lines,
    head: Spot,
    at: usize,
) -> Result<Option<(Line, usize)>, AllocError>
    requires form { IsForm form.now }
    requires read { AreLinesRead form.now.extents bytes.now read.now }
    requires head { IsHeadRead form.now.extents read.now.spot
        (drop read.now.at bytes.now) head at }
    ensures { IfOk result (λ found. IfSome found (λ said.
        IsRead form.now.extents read.now.spot (drop read.now.at bytes.now) said.0 said.1)) }
{
    let Some(last) = read.lines.as_slice().last() else {
        return Ok(None);
    };
    let own = form.extents.at(head.function as usize);
    let others = form.extents.at(last.function as usize);
    let said = &bytes[read.tail..read.at];
    if !is_alike(own, others) || !stand_at(said, bytes, read.at + at) {
        return Ok(None);
    }
    let line = echo(alloc, head, last)?;
    Ok(Some((line, at + said.len())))
}

/// Reads the next line of a text, which begins there, and gives the byte at which its classes
/// begin, and the place behind it.
fn read_line(
    alloc: Global,
    form: &Form,
    bytes: &[u8],
    read: &Lines,
    text: &[u8],
) -> Result<(Line, usize, usize), Slip>
    requires form { IsForm form.now }
    requires read { AreLinesRead form.now.extents bytes.now read.now }
    requires text { text.now ≡ drop read.now.at bytes.now }
    requires some { 0 < length text.now }
    ensures line { IfOk result (λ said.
        IsRead form.now.extents read.now.spot text.now said.0 said.2) }
    ensures tail { IfOk result (λ said. IsTail text.now said.0 said.1 said.2) }
    ensures bad { IfErr result
        (IfBad (IsBadPlace (certificate_form form.now.extents) read.now.spot text.now)) }
{
    let (head, tail) = read_head(form, read.spot, text)?;
    if let Some((line, end)) = echoed(alloc, form, bytes, read, head, tail)? {
        return Ok((line, tail, end));
    }
    let (line, end) = read_tail(alloc, form, read.spot, text, head, tail)?;
    Ok((line, tail, end))
}

/// Reads the next line of a text.
fn add_line(alloc: Global, form: &Form, bytes: &[u8], read: &mut Lines) -> Result<(), Slip>
    requires form { IsForm form.now }
    requires read { AreLinesRead form.now.extents bytes.now read.old }
    requires some { read.old.at < length bytes.now }
    ensures read { OnOk result (AreLinesRead form.now.extents bytes.now read.new) }
    ensures further { OnOk result (read.old.at < read.new.at) }
    ensures bad { IfErr result
        (IfBad (IsBadPlace (certificate_form form.now.extents) start bytes.now)) }
{
    let at = read.at;
    match read_line(alloc, form, bytes, read, &bytes[at..]) {
        Ok((line, tail, len)) => {
            let spot = Spot {
                function: line.function,
                block: line.block + 1,
            };
            read.starts.push(at as u64)?;
            read.lines.push(line)?;
            read.spot = spot;
            read.tail = at + tail;
            read.at = at + len;
            Ok(())
        }
        Err(Slip::Bad { at: over }) => Err(Slip::Bad { at: at + over }),
        Err(Slip::Memory) => Err(Slip::Memory),
    }
}

/// Reads the lines of a certificate: these, and the bytes at which they begin.
pub(crate) fn read_lines(
    alloc: Global,
    form: &Form,
    bytes: &[u8],
) -> Result<(ListOf<Line>, ListOf<u64>), Slip>
    requires form { IsForm form.now }
    ensures lines { IfOk result (λ read. IsCertificate form.now.extents bytes.now read.0) }
    ensures starts { IfOk result (λ read. AreStarts read.0 read.1) }
    ensures bad { IfErr result
        (IfBad (IsBadPlace (certificate_form form.now.extents) start bytes.now)) }
{
    let mut read = Lines {
        lines: ListOf::new(alloc),
        starts: ListOf::new(alloc),
        spot: Spot {
            function: 0,
            block: 0,
        },
        tail: 0,
        at: 0,
    };
    while read.at < bytes.len() {
        add_line(alloc, form, bytes, &mut read)?;
    }
    Ok((read.lines, read.starts))
}
