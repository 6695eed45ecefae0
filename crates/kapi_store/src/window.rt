//! The last changes of a store, in a ring.

use crate::change::Change;
use circular_buffer::HeapCircularBuffer;
use kapi_text::Memory;
use std::alloc::Global;
use std::marker::Model;

/// How many changes a store keeps.
pub const WINDOW: usize = 1_024;

/// The last changes, at most `WINDOW` of them and no others, the oldest first.
#[derive(Drop)]
pub(crate) struct Window {
    ring: HeapCircularBuffer<Change>,
}

impl Model for Window {
    ghost use Rattle.std.specs.Prelude.{◌≡◌, List};
    ghost use Rattle.std.specs.Coded.{codes};
    ghost use Rattle.kapi_store.specs.contracts.change.Change as changed;
    ghost use Rattle.kapi_store.specs.declared.change.Change.{Change};
    ghost use Rattle.kapi_store.specs.declared.window.TheConstants.{WINDOW};

    ghost Value = { List Change };

    ghost coded = { Prim.hlevel (codes, changed.the_row.coded) };

    ghost view = { λ w. w.ring.items };

    ghost invariant = { λ w. w.ring.capacity ≡ WINDOW };
}

impl Window {
    ghost use Rattle.std.specs.Prelude.{◌≡◌, ◌≤◌, [], ◌∷◌, ◌++◌, length, slice_get, IfOk, option_copied};
    ghost use Rattle.kapi_store.specs.Changes.{last_of};
    ghost use Rattle.kapi_store.specs.Lent.{changes_of};

    /// A window without changes, with the memory for all that will be kept.
    pub(crate) fn new(alloc: Global) -> Result<Window, Memory>
        ensures { IfOk result (λ w. w ≡ []) }
    {
        Ok(Window {
            ring: HeapCircularBuffer::with_capacity(alloc, WINDOW)?,
        })
    }

    /// Keeps one change more, in the place of the oldest if the ring is full. Allocates nothing.
    pub(crate) fn note(&mut self, change: Change)
        ensures { self.new ≡ last_of WINDOW (self.old ++ change ∷ []) }
    {
        drop(self.ring.push_back(change));
    }

    /// How many changes are kept.
    fn len(&self) -> usize
        ensures len { result ≡ length self.now }
        ensures within { result ≤ WINDOW }
    {
        self.ring.len()
    }

    /// The change at the index, counted from the oldest.
    fn get(&self, index: usize) -> Option<&Change>
        ensures { option_copied result ≡ slice_get self.now index }
    {
        self.ring.get(index)
    }

    /// The changes from the last so many on.
    pub(crate) fn last(&self, count: usize) -> Changes<'_>
        ensures { changes_of result ≡ last_of count self.now }
    {
        Changes {
            window: self,
            skipped: self.len().saturating_sub(count),
        }
    }
}

/// Some of the last changes of a store, borrowed, the oldest first.
#[derive(Clone, Copy)]
pub struct Changes<'a> {
    window: &'a Window,
    skipped: usize,
}

impl<'a> Changes<'a> {
    ghost use Rattle.std.specs.Prelude.{◌≡◌, length, slice_get, option_copied};
    ghost use Rattle.kapi_store.specs.Lent.{changes_of};

    /// How many changes there are.
    pub fn len(&self) -> usize
        ensures { result ≡ length (changes_of self.now) }
    {
        self.window.len().saturating_sub(self.skipped)
    }

    /// The change at the index, counted from the oldest. Allocates nothing.
    pub fn get(&self, index: usize) -> Option<&'a Change>
        ensures { option_copied result ≡ slice_get (changes_of self.now) index }
    {
        if index < self.window.len().saturating_sub(self.skipped) {
            self.window.get(self.skipped + index)
        } else {
            None
        }
    }
}
