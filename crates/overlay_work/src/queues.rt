//! Lists from whose fronts items are taken, one after the other.

ghost use Rattle.std.specs.Prelude.{◌≡◌, ◌∷◌, ◌++◌, [], IsTrue, IsPermutation, IfOk, IfSome, IfNone, OnOk};
ghost use Rattle.overlay_work.specs.Sharing.{joined};

use std::alloc::{AllocError, Allocator};
use std::marker::Model;

/// What is left of some lists. Contracts see the lists.
#[derive(Drop)]
pub(crate) struct Queues<'l, T, A: Allocator> {
    lists: Vec<&'l [T], A>,
}

impl<'l, T, A: Allocator> Model for Queues<'l, T, A> {
    ghost use Rattle.std.specs.Prelude.{List, map};

    ghost Value = { List (List T) };

    ghost view = { λ queues. map (λ list. list.now) queues.lists.items };
}

impl<'l, T: Copy, A: Allocator> Queues<'l, T, A> {
    /// No lists, with room for so many.
    pub(crate) fn with_capacity(alloc: A, count: usize) -> Result<Queues<'l, T, A>, AllocError>
        ensures { IfOk result (λ queues. queues ≡ []) }
    {
        let lists = Vec::with_capacity(alloc, count)?;
        Ok(Queues { lists })
    }

    /// Adds a list, from which nothing was taken.
    pub(crate) fn push(&mut self, list: &'l [T]) -> Result<(), AllocError>
        ensures { OnOk result (self.new ≡ self.old ++ list.now ∷ []) }
    {
        self.lists.push(list)?;
        Ok(())
    }

    /// How many lists there are.
    pub(crate) fn len(&self) -> usize {
        self.lists.len()
    }

    /// The first item of a list, where it has one.
    pub(crate) fn first(&self, at: usize) -> Option<T> {
        let list = self.lists.as_slice().get(at)?;
        list.first().copied()
    }

    /// Takes the first item of a list, where it has one.
    pub(crate) fn take(&mut self, at: usize) -> Option<T>
        ensures some { IfSome result (λ item. IsPermutation (joined self.old) (item ∷ joined self.new)) }
        ensures none { IfNone result (self.new ≡ self.old) }
    {
        if at >= self.lists.len() {
            return None;
        }
        let (first, rest) = self.lists[at].split_first()?;
        let item = *first;
        self.lists[at] = rest;
        Some(item)
    }

    /// Puts what is left of each list behind other items.
    pub(crate) fn put_behind<B: Allocator>(&self, items: &mut Vec<T, B>) -> Result<(), AllocError>
        ensures { OnOk result (items.new.items ≡ items.old.items ++ joined self.now) }
    {
        for list in self.lists.as_slice() {
            items.extend_from_slice(list)?;
        }
        Ok(())
    }

    /// Whether nothing is left of any list.
    pub(crate) fn are_empty(&self) -> bool
        ensures { IsTrue result → joined self.now ≡ [] }
    {
        for list in self.lists.as_slice() {
            if !list.is_empty() {
                return false;
            }
        }
        true
    }
}
