//! The writer of a journal.

ghost use Rattle.std.specs.Prelude.{◌≡◌, ◌+◌, ◌^◌, ◌<◌, [], false, true, IfOk};
ghost use Rattle.std.specs.Prelude.{IfSome, OnOk, OnErr};
ghost use Rattle.journal_records.specs.Journals.{header_line, record_text, record_seal, ended};
ghost use Rattle.journal_writers.specs.Files.{with_more};
ghost use Rattle.journal_writers.specs.Writers.{IsDraftOf, IsKept, IsKeptUnlessBroken};

use crate::draft::Draft;
use crate::file::{FileFailed, JournalFile};
use crate::synced::Written;
use journal_records::{Seal, Stamp, is_two_lines, push_header, push_record};
use ring_edits::Edit;
use std::alloc::{AllocError, Allocator};
use std::marker::{Model, PhantomData};

/// A journal that is written: unless a write failed, its file has the header of its layer and the lines of its records,
/// in order, and nothing else. Once a write failed, none is made any more.
///
/// Contracts see which file it is, the digest of its layer, the bytes of its file, where that tells them, how many
/// records it has, the digest of the last (of the layer, where there is none), and whether a write failed.
#[derive(Drop)]
pub struct JournalWriter<K: JournalFile, B: Allocator> {
    file: K,
    layer: Seal,
    records: u64,
    seal: Seal,
    is_broken: bool,
    of: PhantomData<B>,
}

impl<K: JournalFile, B: Allocator> Model for JournalWriter<K, B> {
    ghost use Rattle.journal_writers.specs.Writers.{WriterState, IsKeptUnlessBroken};

    ghost Value = { WriterState };

    ghost view = { λ writer. record {
      file = K.which writer.file;
      layer = writer.layer.digits;
      bytes = K.bytes writer.file;
      records = writer.records;
      seal = writer.seal.digits;
      is_broken = writer.is_broken;
    } };

    ghost invariant = { λ writer. IsKeptUnlessBroken B (record {
      file = K.which writer.file;
      layer = writer.layer.digits;
      bytes = K.bytes writer.file;
      records = writer.records;
      seal = writer.seal.digits;
      is_broken = writer.is_broken;
    }) };
}

impl<K: JournalFile, B: Allocator> JournalWriter<K, B> {
    /// Begins the journal of a layer in an empty file.
    ///
    /// # Errors
    ///
    /// [`FileFailed`], also where memory is refused. A beginning of the header may be written then.
    pub fn begin<A: Allocator>(
        alloc: A,
        file: K,
        layer: &Seal,
    ) -> Result<JournalWriter<K, B>, FileFailed>
        requires empty { IfSome (K.bytes file) (λ bytes. bytes ≡ []) }
        ensures file { IfOk result (λ writer. writer.file ≡ K.which file) }
        ensures bytes { IfOk result (λ writer.
            writer.bytes ≡ with_more (header_line layer.now.digits) (K.bytes file)) }
        ensures layer { IfOk result (λ writer. writer.layer ≡ layer.now.digits) }
        ensures records { IfOk result (λ writer. writer.records ≡ 0) }
        ensures seal { IfOk result (λ writer. writer.seal ≡ layer.now.digits) }
        ensures whole { IfOk result (λ writer. writer.is_broken ≡ false) }
    {
        let mut file = file;
        let mut header = Vec::new(alloc);
        let Ok(()) = push_header(&mut header, layer) else {
            return Err(FileFailed);
        };
        file.append(header.as_slice())?;
        Ok(JournalWriter {
            file,
            layer: *layer,
            records: 0,
            seal: *layer,
            is_broken: false,
            of: PhantomData,
        })
    }

    /// Goes on, in an empty file, with a journal of this layer, of so many records, the last with this digest: its text
    /// is written to the file, with the line feed that it lacks at its end.
    ///
    /// # Errors
    ///
    /// [`FileFailed`]. A beginning of the text may be written then.
    pub fn go_on(
        file: K,
        layer: &Seal,
        records: u64,
        seal: Seal,
        text: &[u8],
        lacks_end: bool,
    ) -> Result<JournalWriter<K, B>, FileFailed>
        requires empty { IfSome (K.bytes file) (λ bytes. bytes ≡ []) }
        requires kept { IsKept B layer.now.digits (ended lacks_end text.now) records seal.digits }
        ensures file { IfOk result (λ writer. writer.file ≡ K.which file) }
        ensures bytes { IfOk result (λ writer.
            writer.bytes ≡ with_more (ended lacks_end text.now) (K.bytes file)) }
        ensures layer { IfOk result (λ writer. writer.layer ≡ layer.now.digits) }
        ensures records { IfOk result (λ writer. writer.records ≡ records) }
        ensures seal { IfOk result (λ writer. writer.seal ≡ seal.digits) }
        ensures whole { IfOk result (λ writer. writer.is_broken ≡ false) }
    {
        let mut file = file;
        append_ended(&mut file, text, lacks_end)?;
        Ok(JournalWriter {
            file,
            layer: *layer,
            records,
            seal,
            is_broken: false,
            of: PhantomData,
        })
    }

    /// Only teaches the prover: unless a write failed, the file has, where it tells its bytes, the header of the layer
    /// and the lines of its records: in order, numbered from 1, each behind the digest of the one before.
    pub fn use_invariant(&self)
        ensures kept { IsKeptUnlessBroken B self.now }
    {
        let _ = &self.is_broken;
    }

    /// How many records there are.
    pub fn records(&self) -> u64
        ensures { result ≡ self.now.records }
    {
        self.records
    }

    /// Whether a write failed.
    pub fn is_broken(&self) -> bool
        ensures { result ≡ self.now.is_broken }
    {
        self.is_broken
    }

    /// Has nothing more be written.
    pub fn give_up(&mut self)
        ensures { self.new ≡ record self.old { is_broken = true } }
    {
        self.is_broken = true;
    }

    /// That its records were written.
    pub fn written(&self) -> Written
        ensures file { result.file ≡ self.now.file }
        ensures records { result.records ≡ self.now.records }
    {
        Written {
            file: self.file.id(),
            records: self.records,
        }
    }

    /// What it is written to.
    pub fn file(&self) -> &K
        ensures { K.which result.now ≡ self.now.file }
    {
        &self.file
    }

    /// The record with this stamp and this edit, behind those that there are. Nothing is written.
    ///
    /// # Errors
    ///
    /// [`AllocError`] where an allocation fails.
    pub fn draft<A: Allocator + Copy>(
        &self,
        alloc: A,
        stamp: &Stamp<'_>,
        edit: &Edit<B>,
    ) -> Result<Draft<A, B>, AllocError>
        ensures before { IfOk result (λ draft. draft.before ≡ self.now.seal) }
        ensures drafted { IfOk result (λ draft. IsDraftOf draft stamp.now edit.now) }
    {
        let mut text = Vec::new(alloc);
        let seal = push_record(alloc, &mut text, &self.seal, stamp, edit)?;
        Ok(Draft {
            number: stamp.number,
            before: self.seal,
            seal,
            text,
            of: PhantomData,
        })
    }

    /// Adds a record that was drafted of this journal as it is.
    ///
    /// # Errors
    ///
    /// [`FileFailed`] where it could not be written, is not the next one or not two lines, or a write failed before.
    /// Nothing is written from then on.
    pub fn add<A: Allocator>(&mut self, draft: &Draft<A, B>) -> Result<(), FileFailed>
        ensures bytes { OnOk result (self.new.bytes ≡ with_more draft.now.text self.old.bytes) }
        ensures layer { OnOk result (self.new.layer ≡ self.old.layer) }
        ensures file { self.new.file ≡ self.old.file }
        ensures follows { OnOk result (draft.now.before ≡ self.old.seal) }
        ensures next { OnOk result (draft.now.number ≡ self.old.records + 1) }
        ensures records { OnOk result (self.new.records ≡ draft.now.number) }
        ensures seal { OnOk result (self.new.seal ≡ draft.now.seal) }
        ensures whole { OnOk result ((self.old.is_broken ≡ false) × (self.new.is_broken ≡ false)) }
        ensures broken { OnErr result (self.new.is_broken ≡ true) }
    {
        if self.is_broken {
            return Err(FileFailed);
        }
        self.is_broken = true;
        if draft.before != self.seal || self.records.checked_add(1) != Some(draft.number) {
            return Err(FileFailed);
        }
        if !is_two_lines(draft.text.as_slice()) {
            return Err(FileFailed);
        }
        self.file.append(draft.text.as_slice())?;
        self.records = draft.number;
        self.seal = draft.seal;
        self.is_broken = false;
        Ok(())
    }
}

/// Adds a text to a file, with the line feed that it lacks at its end.
fn append_ended<K: JournalFile>(
    file: &mut K,
    text: &[u8],
    lacks_end: bool,
) -> Result<(), FileFailed>
    ensures bytes { OnOk result (K.bytes file.new ≡ with_more (ended lacks_end text.now) (K.bytes file.old)) }
    ensures same { OnOk result (K.which file.new ≡ K.which file.old) }
{
    file.append(text)?;
    if lacks_end {
        file.append(b"\n")
    } else {
        Ok(())
    }
}
