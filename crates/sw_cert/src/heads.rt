//! Reading the beginning of a line: its function, its block and the number of its elements.
ghost use Rattle.std.specs.Prelude.{◌≡◌, ℕ, ◌<◌, ◌≤◌, ◌↔◌, [], ◌∷◌, length, IfOk, IfErr};
ghost use Rattle.sw_dictation.specs.Lines.{IsBadPlace};
ghost use Rattle.sw_cert.specs.Begun.{IsForm, IsBegun, IsBlockRead, IsHeadRead};
ghost use Rattle.sw_cert.specs.Choices.{RisesTo, HasBlock};
ghost use Rattle.sw_cert.specs.Form.{certificate_form, AreFit};
ghost use Rattle.sw_cert.specs.Slips.{IfBad};

use crate::form::{Form, next_between};
use crate::line::{Extent, Spot};
use crate::slip::Slip;

/// The least number of a function that may have a line at a place.
fn first_function(extents: &[Extent], spot: Spot) -> usize
    requires { AreFit extents.now }
    ensures { (n : ℕ) → HasBlock extents.now spot n ↔ ((result ≤ n) × (n < length extents.now)) }
{
    let function = spot.function as usize;
    if function < extents.len() && extents[function].blocks <= spot.block {
        return function + 1;
    }
    function
}

/// The least number of a block that may have a line at a place, of a function that has one there.
fn first_block(spot: Spot, function: u64) -> usize
    requires { spot.function ≤ function }
    ensures { (n : ℕ) → RisesTo spot function n ↔ (result ≤ n) }
{
    if spot.function == function {
        spot.block as usize
    } else {
        0
    }
}

/// Reads the function of a line.
fn read_function(form: &Form, spot: Spot, text: &[u8]) -> Result<(u64, usize), Slip>
    requires form { IsForm form.now }
    requires some { 0 < length text.now }
    ensures block { IfOk result (λ said. HasBlock form.now.extents spot said.0) }
    ensures begun { IfOk result (λ said. IsBegun text.now (said.0 ∷ []) said.1) }
    ensures bad { IfErr result
        (IfBad (IsBadPlace (certificate_form form.now.extents) spot text.now)) }
{
    let extents = form.extents.as_slice();
    let from = first_function(extents, spot);
    next_between(form.scale.as_slice(), text, 0, from, extents.len())
}

/// Reads the block of a line.
fn read_block(
    form: &Form,
    spot: Spot,
    text: &[u8],
    function: u64,
    at: usize,
) -> Result<(u64, usize), Slip>
    requires form { IsForm form.now }
    requires block { HasBlock form.now.extents spot function }
    requires begun { IsBegun text.now (function ∷ []) at }
    ensures line { IfOk result (λ said.
        IsBlockRead form.now.extents spot text.now function said.0 said.1) }
    ensures bad { IfErr result
        (IfBad (IsBadPlace (certificate_form form.now.extents) spot text.now)) }
{
    let extent = form.extents.at(function as usize);
    let from = first_block(spot, function);
    next_between(
        form.scale.as_slice(),
        text,
        at,
        from,
        extent.blocks as usize,
    )
}

/// Reads the number of elements of a line, and gives it with the place behind.
fn read_elements(
    form: &Form,
    spot: Spot,
    text: &[u8],
    head: Spot,
    at: usize,
) -> Result<(u64, usize), Slip>
    requires form { IsForm form.now }
    requires line { IsBlockRead form.now.extents spot text.now head.function head.block at }
    ensures head { IfOk result (λ read. IsHeadRead form.now.extents spot text.now head read.1) }
    ensures bad { IfErr result
        (IfBad (IsBadPlace (certificate_form form.now.extents) spot text.now)) }
{
    let elements = form.extents.at(head.function as usize).elements as usize;
    next_between(form.scale.as_slice(), text, at, elements, elements + 1)
}

/// Reads the beginning of a line, up to the number of its elements: the function and the block, and
/// the place behind.
pub(crate) fn read_head(form: &Form, spot: Spot, text: &[u8]) -> Result<(Spot, usize), Slip>
    requires form { IsForm form.now }
    requires some { 0 < length text.now }
    ensures head { IfOk result (λ read. IsHeadRead form.now.extents spot text.now read.0 read.1) }
    ensures bad { IfErr result
        (IfBad (IsBadPlace (certificate_form form.now.extents) spot text.now)) }
{
    let (function, block_at) = read_function(form, spot, text)?;
    let (block, elements_at) = read_block(form, spot, text, function, block_at)?;
    let head = Spot { function, block };
    let (_, end) = read_elements(form, spot, text, head, elements_at)?;
    Ok((head, end))
}
