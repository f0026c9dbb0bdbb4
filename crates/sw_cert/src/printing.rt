//! The line of a state.
ghost use Rattle.std.specs.Prelude.{◌≡◌, ◌+◌, ◌<◌, ◌++◌, length, IfOk, OnOk};
ghost use Rattle.sw_dictation.specs.Lines.{line_text};
ghost use Rattle.sw_dictation.specs.Numbers.{spelled};
ghost use Rattle.sw_cert.specs.Certificate.{numbers_of, pair_numbers};
ghost use Rattle.sw_cert.specs.Shown.{AreClassesOf, ArePairsBelow, IsLineFor};

use crate::line::{Line, Pair};
use crate::shared::Shared;
use itoa::Buffer;
use std::alloc::{AllocError, Global};
use sw_list::ListOf;
use sw_partition::Partition;

/// Adds a number in decimal, and the byte that closes it.
fn add_number(text: &mut Vec<u8>, number: u64, closer: u8) -> Result<(), AllocError>
    ensures { OnOk result (text.new.items ≡ text.old.items ++ spelled number closer) }
{
    let mut buffer = Buffer::new();
    text.extend_from_slice(buffer.format(number).as_bytes())?;
    text.push(closer)?;
    Ok(())
}

/// The text of a line with these numbers.
fn text_of(alloc: Global, numbers: &[u64]) -> Result<Vec<u8>, AllocError>
    ensures { IfOk result (λ text. text.items ≡ line_text numbers.now) }
{
    let mut text = Vec::new(alloc);
    for i in 0..numbers.len() {
        let closer = if i + 1 == numbers.len() { b'\n' } else { b' ' };
        add_number(&mut text, numbers[i], closer)?;
    }
    Ok(text)
}

/// Adds the numbers of classes.
fn add_classes(numbers: &mut Vec<u64>, classes: &[u64]) -> Result<(), AllocError>
    ensures { OnOk result (numbers.new.items ≡ numbers.old.items ++ classes.now) }
{
    for class in classes {
        numbers.push(*class)?;
    }
    Ok(())
}

/// Adds the numbers of pairs.
fn add_pairs(numbers: &mut Vec<u64>, pairs: &[Pair]) -> Result<(), AllocError>
    ensures { OnOk result (numbers.new.items ≡ numbers.old.items ++ pair_numbers pairs.now) }
{
    for pair in pairs {
        numbers.push(pair.element)?;
        numbers.push(pair.site)?;
    }
    Ok(())
}

/// The numbers of a line.
fn numbers_of(alloc: Global, line: &Line) -> Result<Vec<u64>, AllocError>
    ensures { IfOk result (λ numbers. numbers.items ≡ numbers_of line.now) }
{
    let mut numbers = Vec::new(alloc);
    numbers.push(line.function)?;
    numbers.push(line.block)?;
    numbers.push(line.classes.get().len() as u64)?;
    add_classes(&mut numbers, line.classes.get().as_slice())?;
    numbers.push(line.pairs.len() as u64)?;
    add_pairs(&mut numbers, line.pairs.as_slice())?;
    Ok(numbers)
}

/// Of each element the least one of its class.
fn classes_of(alloc: Global, state: &Partition) -> Result<ListOf<u64>, AllocError>
    ensures { IfOk result (AreClassesOf state.now) }
{
    let mut classes = ListOf::new(alloc);
    for element in 0..state.elements() {
        classes.push(state.class_of(element) as u64)?;
    }
    Ok(classes)
}

/// Adds the pairs of an element.
fn add_pairs_of(pairs: &mut ListOf<Pair>, state: &Partition, element: u32) -> Result<(), AllocError>
    requires element { element < length state.now.labels }
    requires pairs { ArePairsBelow state.now element pairs.old }
    ensures { OnOk result (ArePairsBelow state.now (element + 1) pairs.new) }
{
    for site in state.sites() {
        if state.has(element, *site) {
            pairs.push(Pair {
                element: element as u64,
                site: *site as u64,
            })?;
        }
    }
    Ok(())
}

/// The pairs of a state.
fn pairs_of(alloc: Global, state: &Partition) -> Result<ListOf<Pair>, AllocError>
    ensures { IfOk result (ArePairsBelow state.now (length state.now.labels)) }
{
    let mut pairs = ListOf::new(alloc);
    for element in 0..state.elements() {
        if state.need(element).is_some() {
            add_pairs_of(&mut pairs, state, element)?;
        }
    }
    Ok(pairs)
}

/// The line of a certificate which says that control comes to the block with the state.
pub fn line_of(
    alloc: Global,
    function: u32,
    block: u32,
    state: &Partition,
) -> Result<Vec<u8>, AllocError>
    ensures { IfOk result (λ text. IsLineFor function block state.now text.items) }
{
    let listed = classes_of(alloc, state)?;
    let classes = Shared::new(alloc, listed)?;
    let pairs = pairs_of(alloc, state)?;
    let line = Line {
        function: function as u64,
        block: block as u64,
        classes,
        pairs,
    };
    let numbers = numbers_of(alloc, &line)?;
    let text = text_of(alloc, &numbers)?;
    Ok(text)
}
