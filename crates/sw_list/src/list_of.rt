ghost use Rattle.std.specs.Prelude.{◌≡◌, [], ◌∷◌, ◌++◌, ◌<◌, ◌↔◌, length, take, slice_get};
ghost use Rattle.std.specs.Prelude.{slice_set, IsTrue, IfOk, OnSome, MatchOption, OnOk, OnErr};
ghost use Rattle.std.specs.Option.{option_copied};
ghost use Rattle.std.specs.Borrow.{Lends, sem};

use std::alloc::{AllocError, Global};
use std::marker::Model;

/// Items in order. A field of this type is made from a `Vec` and gives it back without taking
/// memory.
#[derive(Debug, Drop)]
pub struct ListOf<T> {
    items: Vec<T>,
}

impl<T> Model for ListOf<T> {
    ghost use Rattle.std.specs.Prelude.{List};
    ghost use Rattle.std.specs.Coded.{coded_list};

    ghost Value = { List T };

    ghost coded = { coded_list T.code };

    ghost view = { λ l. l.items.items };
}

impl<T> ListOf<T> {
    /// The empty list, which holds no memory.
    pub fn new(alloc: Global) -> ListOf<T>
        ensures { result ≡ [] }
    {
        ListOf {
            items: Vec::new(alloc),
        }
    }

    /// The items of a `Vec`. It takes no memory.
    pub fn from_vec(items: Vec<T>) -> ListOf<T>
        ensures { result ≡ items.items }
    {
        ListOf { items }
    }

    /// Its items as a `Vec`. It takes no memory.
    pub fn into_vec(self) -> Vec<T>
        ensures { result.items ≡ self }
    {
        let ListOf { items } = self;
        items
    }

    /// Lends the items.
    pub fn as_slice(&self) -> &[T]
        ensures { result.now ≡ self.now }
    {
        self.items.as_slice()
    }

    /// The number of items.
    pub fn len(&self) -> usize
        ensures { result ≡ length self.now }
    {
        self.items.len()
    }

    /// Whether there is no item.
    pub fn is_empty(&self) -> bool
        ensures { IsTrue result ↔ (self.now ≡ []) }
    {
        self.items.is_empty()
    }

    /// Lends the item at an index, if there is one.
    pub fn get(&self, index: usize) -> Option<&T>
        ensures value { option_copied result ≡ slice_get self.now index }
        ensures within { OnSome result (index < length self.now) }
    {
        self.items.get(index)
    }

    /// Lends the item at an index within the list.
    pub fn at(&self, index: usize) -> &T
        requires { index < length self.now }
        ensures { slice_get self.now index ≡ Some result.now }
    {
        &self.items[index]
    }

    /// Removes the last item and returns it.
    pub fn pop(&mut self) -> Option<T>
        ensures { MatchOption result ((self.old ≡ []) × (self.new ≡ []))
            (λ last. self.old ≡ self.new ++ last ∷ []) }
    {
        self.items.pop()
    }
}

impl<T> ListOf<T> {
    ghost use Rattle.sw_list.specs.contracts.list_of.ListOf.{the_row};

    /// Lends the item at an index within the list for writing; the other items stay.
    pub fn at_mut(&mut self, index: usize) -> &mut T
        requires { index < length self.old }
        ensures* writes_back { sem 𝓛
            (Lends (the_row T.row) T.row self.entry result (slice_set self.old index)) }
        ensures value { slice_get self.old index ≡ Some result.now }
    {
        &mut self.items[index]
    }
}

impl<T: Drop> ListOf<T> {
    /// The list of one item.
    pub fn one(alloc: Global, item: T) -> Result<ListOf<T>, AllocError>
        ensures { IfOk result (λ list. list ≡ item ∷ []) }
    {
        let mut list = ListOf::new(alloc);
        list.push(item)?;
        Ok(list)
    }

    /// The list of two items.
    pub fn two(alloc: Global, first: T, second: T) -> Result<ListOf<T>, AllocError>
        ensures { IfOk result (λ list. list ≡ first ∷ second ∷ []) }
    {
        let mut list = ListOf::one(alloc, first)?;
        list.push(second)?;
        Ok(list)
    }

    /// Replaces the item at an index within the list.
    pub fn set(&mut self, index: usize, item: T)
        requires { index < length self.old }
        ensures { self.new ≡ slice_set self.old index item }
    {
        self.items[index] = item;
    }

    /// Keeps the first `count` items and drops the others; a shorter list stays as it is.
    pub fn truncate(&mut self, count: usize)
        ensures { self.new ≡ take count self.old }
    {
        self.items.truncate(count);
    }

    /// Adds an item at the end. Where memory runs out the item is dropped.
    pub fn push(&mut self, item: T) -> Result<(), AllocError>
        ensures ok { OnOk result (self.new ≡ self.old ++ item ∷ []) }
        ensures err { OnErr result (self.new ≡ self.old) }
    {
        self.items.push(item)?;
        Ok(())
    }
}

impl<T: Copy> ListOf<T> {
    /// A copy of a slice.
    pub fn from_slice(alloc: Global, items: &[T]) -> Result<ListOf<T>, AllocError>
        ensures { IfOk result (λ list. list ≡ items.now) }
    {
        Ok(ListOf {
            items: Vec::from_slice(alloc, items)?,
        })
    }
}
