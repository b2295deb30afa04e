//! A writer that a text is gathered for.

ghost use Rattle.std.specs.Prelude.{◌≡◌, ◌++◌, [], OnOk, OnErr};
ghost use Rattle.std.specs.Io.KnownBytes.{Appends};
ghost use Rattle.geo_exact.specs.Bytes.{raised};
ghost use Rattle.text_pieces.specs.Beginnings.{AppendsBeginning};
ghost use Rattle.text_pieces.specs.Pending.{Passes};

use crate::pending::Pending;
use crate::sink::Sink;
use geo_exact::{ByteOut, Failed};

/// A writer, and the end of a text that is gathered and not put there yet, so that short pieces make few puts. It takes
/// no memory but its own.
#[derive(Drop)]
pub struct Gathered<'w, W: ByteOut> {
    pending: Pending,
    out: &'w mut W,
}

impl<'w, W: ByteOut> Gathered<'w, W> {
    /// Nothing is pending for this writer.
    pub fn new(out: &'w mut W) -> Gathered<'w, W>
        ensures pending { result.pending ≡ [] }
        ensures out { result.out.now ≡ out.old }
        ensures same_reference { result.out.ghost_name ≡ out.entry.ghost_name }
    {
        Gathered {
            pending: Pending::new(),
            out,
        }
    }

    /// Puts all that is pending.
    ///
    /// # Errors
    ///
    /// [`Failed`] where the writer failed: a beginning of what was pending was written then.
    pub fn finish(&mut self) -> Result<(), Failed>
        ensures ok { OnOk result (Appends (W.written self.old.out.now) (W.written self.new.out.now) self.old.pending) }
        ensures none_left { OnOk result (self.new.pending ≡ []) }
        ensures err { OnErr result (AppendsBeginning (W.written self.old.out.now) (W.written self.new.out.now)
            self.old.pending) }
        ensures failed { OnErr result (W.failure_count self.new.out.now ≡ raised (W.failure_count self.old.out.now)) }
        ensures no_failure { OnOk result (W.failure_count self.new.out.now ≡ W.failure_count self.old.out.now) }
        ensures same_reference { self.new.out.ghost_name ≡ self.old.out.ghost_name }
    {
        self.pending.finish(self.out)
    }
}

impl<'w, W: ByteOut> Sink for Gathered<'w, W> {
    type Fault = Failed;

    ghost use Rattle.std.proofs.Common.{refl, ap, ◌∙◌};
    ghost use Rattle.text_pieces.specs.own.Gathering.{passes_nothing, passes_both, begins_later, begins_before};

    ghost takes = { λ old piece new. Passes (W.written old.out.now) (W.written new.out.now)
        old.pending piece new.pending
        × (W.failure_count new.out.now ≡ W.failure_count old.out.now) × (new.out.ghost_name ≡ old.out.ghost_name) };

    ghost breaks_off = { λ old piece new. AppendsBeginning (W.written old.out.now) (W.written new.out.now)
        (old.pending ++ piece)
        × (W.failure_count new.out.now ≡ raised (W.failure_count old.out.now))
        × (new.out.ghost_name ≡ old.out.ghost_name) };

    fn push_piece(&mut self, piece: &str) -> Result<(), Failed> {
        self.pending.add(piece.as_bytes(), self.out)
    }

    ghost takes_nothing = { λ text. (passes_nothing (W.written text.out.now) text.pending, refl, refl) };

    ghost takes_both = { λ a b c first second h k. (
      passes_both _ _ _ _ _ _ first second h.0 k.0,
      k.1 ∙ h.1,
      k.2 ∙ h.2,
    ) };

    ghost breaks_off_later = { λ a b c first second h k. (
      begins_later _ _ _ _ _ first second h.0 k.0,
      k.1 ∙ ap raised h.1,
      k.2 ∙ h.2,
    ) };

    ghost breaks_off_before = { λ a b first second h. (begins_before _ _ _ first second h.0, h.1, h.2) };
}
