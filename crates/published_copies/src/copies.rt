//! The writer of two copies, whose own facts stay inside.
ghost use Rattle.std.specs.Prelude.{◌≡◌, ◌<◌, ◌^◌, [], ◌∷◌, ◌++◌, fold, IfOk, MatchResult};

use left_right::{Absorb, ReadHandle, WriteHandle};
use std::alloc::{AllocError, Allocator};
use std::marker::Model;
use std::sync::Wait;

/// The writer of two copies. Contracts see the state of the copy that readers take, and the operations that it lacks.
#[derive(Drop)]
pub(crate) struct Copies<V: Absorb<O> + Drop, O: Drop, R: Wait + Drop, A: Allocator> {
    writer: WriteHandle<V, O, R, A>,
}

impl<V: Absorb<O> + Drop, O: Drop, R: Wait + Drop, A: Allocator> Model for Copies<V, O, R, A> {
    ghost use Rattle.left_right.specs.Handles.{published, pending};
    ghost use Rattle.published_copies.specs.own.Keeping.{Written};

    ghost Value = { Written V.State O };

    ghost view = { λ copies. record { shown = V.state (published copies.writer); pending = pending copies.writer } };
}

impl<V: Absorb<O> + Drop, O: Drop, R: Wait + Drop, A: Allocator> Copies<V, O, R, A> {
    /// A writer of two copies that are alike, with room for so many readers.
    pub(crate) fn new(
        alloc: A,
        rt: R,
        first: V,
        second: V,
        readers: usize,
    ) -> Result<Copies<V, O, R, A>, AllocError>
    where
        A: Clone,
        requires readers { (0 < readers) × (readers < 2 ^ 32) }
        requires alike { V.state first ≡ V.state second }
        ensures { IfOk result (λ copies. copies ≡ record { shown = V.state first; pending = [] }) }
    {
        let writer = WriteHandle::new(alloc, rt, first, second, readers)?;
        Ok(Copies { writer })
    }

    /// A reader of the copy that is shown.
    pub(crate) fn reader(&self) -> Result<ReadHandle<V, A>, AllocError> {
        self.writer.handle()
    }

    /// Logs an operation, which comes back where there is no memory.
    pub(crate) fn append(&mut self, operation: O) -> Result<(), O>
        ensures shown { self.new.shown ≡ self.old.shown }
        ensures pending { MatchResult result
            (λ _. self.new.pending ≡ self.old.pending ++ operation ∷ [])
            (λ back. (back ≡ operation) × (self.new.pending ≡ self.old.pending)) }
    {
        self.writer.append(operation)
    }

    /// Shows readers a copy with all operations.
    pub(crate) fn publish(&mut self) -> Result<(), AllocError>
        ensures { MatchResult result
            (λ _. (self.new.shown ≡ fold V.applied self.old.shown self.old.pending) × (self.new.pending ≡ []))
            (λ _. (self.new.shown ≡ self.old.shown) × (self.new.pending ≡ self.old.pending)) }
    {
        self.writer.publish()
    }
}
