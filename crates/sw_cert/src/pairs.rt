//! Reading the pairs of a line.
ghost use Rattle.std.specs.Prelude.{◌≡◌, ◌+◌, ◌<◌, ◌≤◌, ◌^◌, Some, length, slice_get, IfOk, IfErr};
ghost use Rattle.std.specs.Prelude.{slice_index, IfSome, IsTrue, ◌↔◌};
ghost use Rattle.sw_dictation.specs.Lines.{IsBadPlace};
ghost use Rattle.sw_cert.specs.Begun.{IsForm, IsScale, IsNext, IsStuck, IsRead};
ghost use Rattle.sw_cert.specs.Choices.{MayBePair, ClosesPair, HasRank};
ghost use Rattle.sw_cert.specs.Certificate.{IsPairOf};
ghost use Rattle.sw_cert.specs.Form.{certificate_form, pair_count, IsFit};
ghost use Rattle.sw_cert.specs.declared.line.Extent.{Extent};
ghost use Rattle.sw_cert.specs.declared.line.Pair.{Pair};
ghost use Rattle.sw_cert.specs.Pending.{MayBeCount, MayBeElement, MayBeSite, IsNextPair};
ghost use Rattle.sw_cert.specs.Pending.{ArePairsRead};
ghost use Rattle.sw_cert.specs.Slips.{IfBad};

use crate::form::{Form, next, next_between, number_at, range, scale};
use crate::line::{Extent, Line, Pair, Spot};
use crate::slip::Slip;
use std::alloc::Global;

/// How far the pairs of a line are read.
#[derive(Clone, Copy, Debug, PartialEq, Eq)]
pub(crate) struct Pending {
    /// The byte at which the next pair begins, or the line ends.
    pub at: usize,
    /// The least place that the next pair may have among all pairs of an element and a site.
    pub to: u64,
    /// How many pairs are to come.
    pub left: u64,
}

/// How many pairs of an element but `Here` and a site there are.
pub(crate) fn pair_count(extent: &Extent) -> u64
    requires { IsFit extent.now }
    ensures { result ≡ pair_count extent.now }
{
    (extent.elements - 1) * extent.sites.len() as u64
}

/// Whether this number of pairs, of at most so many, may be closed by the byte.
fn is_count(count: u64, closer: u8, most: u64) -> bool
    ensures { IsTrue result ↔ MayBeCount most count closer }
{
    if count == 0 {
        closer == b'\n'
    } else {
        count <= most && closer == b' '
    }
}

/// Reads the number of pairs, which is at most `most`.
pub(crate) fn read_count(
    alloc: Global,
    text: &[u8],
    at: usize,
    most: u64,
) -> Result<(u64, usize), Slip>
    requires at { at ≤ length text.now }
    requires most { most + 1 < 2 ^ 64 }
    ensures count { IfOk result (λ read. IsNext (MayBeCount most) text.now at read.0 read.1) }
    ensures bad { IfErr result (IfBad (IsStuck (MayBeCount most) text.now at)) }
{
    if let Some((count, closer, end)) = number_at(text, at) {
        if is_count(count, closer, most) {
            return Ok((count, end));
        }
    }
    let past = most as usize + 1;
    let numbers = scale(alloc, past)?;
    next(text, at, &[0], range(numbers.as_slice(), 1, past))
}

/// Reads the element of the next pair.
fn read_element(
    scale: &[u64],
    extent: &Extent,
    text: &[u8],
    pending: Pending,
) -> Result<(u64, usize), Slip>
    requires scale { IsScale scale.now }
    requires extent { IsFit extent.now }
    requires elements { extent.now.elements < length scale.now }
    requires at { pending.at ≤ length text.now }
    requires some { 0 < pending.left }
    requires room { pending.to + pending.left ≤ pair_count extent.now }
    ensures element { IfOk result (λ read.
        IsNext (MayBeElement extent.now pending.to pending.left) text.now pending.at read.0 read.1) }
    ensures bad { IfErr result
        (IfBad (IsStuck (MayBeElement extent.now pending.to pending.left) text.now pending.at)) }
{
    let width = extent.sites.len() as u64;
    let last = pair_count(extent) - pending.left;
    let from = pending.to / width + 1;
    let end = last / width + 2;
    next_between(scale, text, pending.at, from as usize, end as usize)
}

/// Reads the site of the next pair, whose element is read.
fn read_site(
    extent: &Extent,
    text: &[u8],
    pending: Pending,
    element: u64,
    at: usize,
) -> Result<(u64, usize), Slip>
    requires extent { IsFit extent.now }
    requires at { at ≤ length text.now }
    requires some { 0 < pending.left }
    requires element { (pair : Pair) × (pair.element ≡ element)
        × MayBePair extent.now pending.to pending.left pair }
    ensures site { IfOk result (λ read. IsNext
        (MayBeSite extent.now pending.to pending.left element) text.now at read.0 read.1) }
    ensures bad { IfErr result (IfBad (IsStuck
        (MayBeSite extent.now pending.to pending.left element) text.now at)) }
{
    let width = extent.sites.len() as u64;
    let first = (element - 1) * width;
    let last = pair_count(extent) - pending.left;
    let from = pending.to.saturating_sub(first);
    let end = (last - first + 1).min(width);
    let sites = &extent.sites.as_slice()[from as usize..end as usize];
    if pending.left == 1 {
        next(text, at, sites, &[])
    } else {
        next(text, at, &[], sites)
    }
}

/// The place of a pair among all pairs of an element but `Here` and a site.
fn rank(extent: &Extent, pair: Pair) -> u64
    requires extent { IsFit extent.now }
    requires pair { IsPairOf extent.now pair }
    ensures { HasRank extent.now pair result }
{
    let column = extent.sites.as_slice().binary_search(&pair.site).unwrap();
    (pair.element - 1) * extent.sites.len() as u64 + column as u64
}

/// Whether a byte may close the site of a pair, where this number of pairs is to come.
fn is_closer(left: u64, closer: u8) -> bool
    requires { 0 < left }
    ensures { IsTrue result ↔ ClosesPair left closer }
{
    if left == 1 {
        closer == b'\n'
    } else {
        closer == b' '
    }
}

/// The column of a site, if the function has it.
fn column_of(extent: &Extent, site: u64) -> Option<usize>
    requires { IsFit extent.now }
    ensures within { IfSome result (λ column. column < length extent.now.sites) }
    ensures site { IfSome result (λ column. slice_index extent.now.sites column ≡ site) }
{
    match extent.sites.as_slice().binary_search(&site) {
        Ok(column) => Some(column),
        Err(_) => None,
    }
}

/// The rank of a pair, if it may be the next one.
fn next_rank(extent: &Extent, pending: Pending, pair: Pair) -> Option<u64>
    requires { IsFit extent.now }
    ensures rank { IfSome result (HasRank extent.now pair) }
    ensures may { IfSome result (λ _. MayBePair extent.now pending.to pending.left pair) }
{
    if pair.element == 0 {
        return None;
    }
    if pair.element >= extent.elements {
        return None;
    }
    let column = column_of(extent, pair.site)?;
    let rank = (pair.element - 1) * extent.sites.len() as u64 + column as u64;
    if rank < pending.to {
        return None;
    }
    if pair_count(extent) - rank < pending.left {
        return None;
    }
    Some(rank)
}

/// The next pair, its rank and the place behind it. It is quick, but it may overlook one.
fn quick_pair(extent: &Extent, text: &[u8], pending: Pending) -> Option<(Pair, u64, usize)>
    requires extent { IsFit extent.now }
    requires at { pending.at ≤ length text.now }
    requires some { 0 < pending.left }
    ensures { IfSome result (λ read. IsNextPair extent.now text.now pending read.0 read.1 read.2) }
{
    let (element, blank, site_at) = number_at(text, pending.at)?;
    let (site, closer, end) = number_at(text, site_at)?;
    let pair = Pair { element, site };
    let rank = next_rank(extent, pending, pair)?;
    if blank == b' ' && is_closer(pending.left, closer) {
        return Some((pair, rank, end));
    }
    None
}

/// The next pair of a line, its rank and the place behind it.
fn next_pair(
    form: &Form,
    spot: Spot,
    text: &[u8],
    line: &Line,
    pending: Pending,
) -> Result<(Pair, u64, usize), Slip>
    requires form { IsForm form.now }
    requires some { 0 < pending.left }
    requires read { ArePairsRead form.now.extents spot text.now line.now pending }
    ensures read { IfOk result (λ read. (extent : Extent)
        → slice_get form.now.extents line.now.function ≡ Some extent
        → IsNextPair extent text.now pending read.0 read.1 read.2) }
    ensures bad { IfErr result
        (IfBad (IsBadPlace (certificate_form form.now.extents) spot text.now)) }
{
    let extent = form.extents.at(line.function as usize);
    if let Some(read) = quick_pair(extent, text, pending) {
        return Ok(read);
    }
    let (element, site_at) = read_element(form.scale.as_slice(), extent, text, pending)?;
    let (site, end) = read_site(extent, text, pending, element, site_at)?;
    let pair = Pair { element, site };
    Ok((pair, rank(extent, pair), end))
}

/// Reads the next pair of a line, and gives how far its pairs are read then.
fn read_pair(
    form: &Form,
    spot: Spot,
    text: &[u8],
    line: &mut Line,
    pending: Pending,
) -> Result<Pending, Slip>
    requires form { IsForm form.now }
    requires some { 0 < pending.left }
    requires read { ArePairsRead form.now.extents spot text.now line.old pending }
    ensures read { IfOk result (ArePairsRead form.now.extents spot text.now line.new) }
    ensures left { IfOk result (λ read. read.left + 1 ≡ pending.left) }
    ensures bad { IfErr result
        (IfBad (IsBadPlace (certificate_form form.now.extents) spot text.now)) }
{
    let (pair, rank, at) = next_pair(form, spot, text, line, pending)?;
    line.pairs.push(pair)?;
    Ok(Pending {
        at,
        to: rank + 1,
        left: pending.left - 1,
    })
}

/// Reads the pairs of a line that are to come, and gives the place behind the line.
pub(crate) fn read_pairs(
    form: &Form,
    spot: Spot,
    text: &[u8],
    line: &mut Line,
    pending: Pending,
) -> Result<usize, Slip>
    requires form { IsForm form.now }
    requires read { ArePairsRead form.now.extents spot text.now line.old pending }
    ensures read { IfOk result (IsRead form.now.extents spot text.now line.new) }
    ensures bad { IfErr result
        (IfBad (IsBadPlace (certificate_form form.now.extents) spot text.now)) }
{
    let mut read = pending;
    while read.left > 0 {
        read = read_pair(form, spot, text, line, read)?;
    }
    Ok(read.at)
}
