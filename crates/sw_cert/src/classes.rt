//! Reading the classes of a line.
ghost use Rattle.std.specs.Prelude.{◌≡◌, ℕ, ◌≤◌, ◌↔◌, [], ◌∷◌, ◌++◌, length, IfOk, IfErr, IfSome};
ghost use Rattle.std.specs.Prelude.{IsTrue};
ghost use Rattle.sw_dictation.specs.Lines.{IsBadPlace};
ghost use Rattle.sw_cert.specs.Begun.{IsForm, IsNext, IsStuck, IsHeadRead};
ghost use Rattle.sw_cert.specs.Begun.{AreAllClassesRead};
ghost use Rattle.sw_cert.specs.Begun.{AreRoots};
ghost use Rattle.sw_cert.specs.Certificate.{AreClasses};
ghost use Rattle.sw_cert.specs.Choices.{MayBeNext};
ghost use Rattle.sw_cert.specs.Form.{certificate_form};
ghost use Rattle.sw_cert.specs.Slips.{IfBad};

use crate::form::{Form, next, number_at};
use crate::line::Spot;
use crate::slip::Slip;
use std::alloc::{AllocError, Global};
use sw_list::ListOf;

/// Whether a number may be named as the class of the next element: it is that element, or one
/// before it that is the least of its class.
fn may_be_next(classes: &[u64], class: u64) -> bool
    ensures { IsTrue result ↔ MayBeNext classes.now class }
{
    let class = class as usize;
    class == classes.len() || class < classes.len() && classes[class] == class as u64
}

/// The class of the next element, and the place behind it. It is quick, but it may overlook one.
fn quick_class(text: &[u8], classes: &[u64], at: usize) -> Option<(u64, usize)>
    requires { at ≤ length text.now }
    ensures { IfSome result (λ said.
        IsNext (λ n c. (c ≡ 32) × MayBeNext classes.now n) text.now at said.0 said.1) }
{
    let (class, closer, end) = number_at(text, at)?;
    if closer == b' ' && may_be_next(classes, class) {
        return Some((class, end));
    }
    None
}

/// The elements that are the least of their class.
fn roots_of(alloc: Global, classes: &[u64]) -> Result<ListOf<u64>, AllocError>
    ensures { IfOk result (AreRoots classes.now) }
{
    let mut roots = ListOf::new(alloc);
    for element in 0..classes.len() {
        if classes[element] == element as u64 {
            roots.push(element as u64)?;
        }
    }
    Ok(roots)
}

/// The class of the next element, and the place behind it.
fn next_class(alloc: Global, text: &[u8], classes: &[u64], at: usize) -> Result<(u64, usize), Slip>
    requires { at ≤ length text.now }
    ensures class { IfOk result (λ said.
        IsNext (λ n c. (c ≡ 32) × MayBeNext classes.now n) text.now at said.0 said.1) }
    ensures bad { IfErr result
        (IfBad (IsStuck (λ n c. (c ≡ 32) × MayBeNext classes.now n) text.now at)) }
{
    if let Some(said) = quick_class(text, classes, at) {
        return Ok(said);
    }
    let mut offered = roots_of(alloc, classes)?;
    offered.push(classes.len() as u64)?;
    next(text, at, &[], offered.as_slice())
}

/// Reads the class of the next element, and gives the place behind it.
fn read_class(
    alloc: Global,
    text: &[u8],
    classes: &mut ListOf<u64>,
    at: usize,
) -> Result<usize, Slip>
    requires { at ≤ length text.now }
    ensures class { IfOk result (λ end. (class : ℕ) × (classes.new ≡ classes.old ++ class ∷ [])
        × IsNext (λ n c. (c ≡ 32) × MayBeNext classes.old n) text.now at class end) }
    ensures bad { IfErr result
        (IfBad (IsStuck (λ n c. (c ≡ 32) × MayBeNext classes.old n) text.now at)) }
{
    let (class, end) = next_class(alloc, text, classes.as_slice(), at)?;
    classes.push(class)?;
    Ok(end)
}

/// Reads the classes of all elements of a line, and gives the place behind them.
pub(crate) fn read_classes(
    alloc: Global,
    form: &Form,
    spot: Spot,
    text: &[u8],
    head: Spot,
    at: usize,
) -> Result<(ListOf<u64>, usize), Slip>
    requires form { IsForm form.now }
    requires head { IsHeadRead form.now.extents spot text.now head at }
    ensures classes { IfOk result (λ read.
        AreAllClassesRead form.now.extents spot text.now head read.0 read.1) }
    ensures bad { IfErr result
        (IfBad (IsBadPlace (certificate_form form.now.extents) spot text.now)) }
{
    let elements = form.extents.at(head.function as usize).elements;
    let mut classes = ListOf::from_vec(Vec::with_capacity(alloc, elements as usize)?);
    let mut end = at;
    for _ in 0..elements {
        end = read_class(alloc, text, &mut classes, end)?;
    }
    Ok((classes, end))
}
