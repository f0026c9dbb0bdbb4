//! Tables of classes: each element has a label, which is an element of its class.
ghost use Rattle.std.specs.Prelude.{◌≡◌, ℕ, ◌^◌, ◌<◌, ◌≤◌, ◌↔◌, length, slice_index, IsTrue, IfOk};
ghost use Rattle.std.specs.Prelude.{SomeIndex};
ghost use Rattle.sw_partition.specs.Tables.{AreNumbers, AreLabels, IsRelabeled, IsReleased};
ghost use Rattle.sw_partition.specs.Tables.{KeepsLinks, IsUnited};

use crate::links::{flatten, link, sink};
use std::alloc::{AllocError, Global};

/// The numbers below `count`, in order: each element labels itself.
pub(crate) fn numbers(alloc: Global, count: u32) -> Result<Vec<u32>, AllocError>
    ensures { IfOk result (λ v. AreNumbers count v.items) }
{
    let mut labels = Vec::with_capacity(alloc, count as usize)?;
    for x in 0..count {
        labels.push(x)?;
    }
    Ok(labels)
}

/// Gives the elements with the label `from` the label `to`.
pub(crate) fn relabel(labels: &mut [u32], from: u32, to: u32)
    ensures { IsRelabeled from to labels.old labels.new }
{
    for label in labels.iter_mut() {
        if *label == from {
            *label = to;
        }
    }
}

/// Gives each element the label that the other table has for it.
pub(crate) fn replace(labels: &mut [u32], other: &[u64])
    requires length { length other.now ≡ length labels.old }
    requires few { length labels.old < 2 ^ 32 }
    requires other { AreLabels other.now }
    ensures { labels.new ≡ other.now }
{
    for x in 0..labels.len() {
        labels[x] = other[x] as u32;
    }
}

/// Makes the element its own label; another element of its class becomes the label of the others.
pub(crate) fn release(labels: &mut [u32], x: usize)
    requires x { x < length labels.old }
    requires few { length labels.old < 2 ^ 32 }
    ensures { IsReleased x labels.old labels.new }
{
    let mut heir = None;
    for p in 0..labels.len() {
        if labels[p] as usize == x && p != x {
            let label = heir.unwrap_or(p as u32);
            labels[p] = label;
            heir = Some(label);
        }
    }
    labels[x] = x as u32;
}

/// Whether the table puts together what the other table does.
pub(crate) fn is_coarser(labels: &[u32], other: &[u32]) -> bool
    requires length { length other.now ≡ length labels.now }
    requires other { AreLabels other.now }
    ensures { IsTrue result ↔ KeepsLinks other.now labels.now }
{
    for x in 0..labels.len() {
        if labels[x] != labels[other[x] as usize] {
            return false;
        }
    }
    true
}

/// Unites the classes with those of the other table, and answers whether that changed them.
pub(crate) fn unite(labels: &mut [u32], other: &[u32]) -> bool
    requires length { length other.now ≡ length labels.old }
    requires labels { AreLabels labels.old }
    requires other { AreLabels other.now }
    ensures { IsUnited labels.old other.now labels.new result }
{
    if is_coarser(labels, other) {
        return false;
    }
    sink(labels);
    for x in 0..labels.len() {
        link(labels, x, other[x] as usize);
    }
    flatten(labels);
    true
}

/// The first element that has the label.
pub(crate) fn first_with(labels: &[u32], label: u32) -> usize
    requires { SomeIndex labels.now (λ k. slice_index labels.now k ≡ label) }
    ensures there { result < length labels.now }
    ensures labelled { slice_index labels.now result ≡ label }
    ensures least { (k : ℕ) → k < length labels.now → slice_index labels.now k ≡ label
        → result ≤ k }
{
    for x in 0..labels.len() {
        if labels[x] == label {
            return x;
        }
    }
    labels.len()
}
