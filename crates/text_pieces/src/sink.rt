//! What takes a text piece by piece.

ghost use Rattle.std.specs.Prelude.{◌≡◌, ◌++◌, [], ⊤, ℕ, List, OnOk, OnErr};

use std::alloc::{AllocError, Allocator};
use std::fmt;
use std::fmt::Formatter;

/// What takes a text piece by piece, each behind those before it: a list of bytes, a formatter, or a writer that a text
/// is gathered for ([`Gathered`](crate::Gathered)).
pub trait Sink {
    /// Why a piece was not taken.
    type Fault;

    // The sink before a piece, the piece, and the sink that has taken it.
    ghost takes: { Self → List ℕ → Self → Type 0 };

    // The sink before a piece, the piece, and the sink that failed: it has taken a beginning of the piece at most.
    ghost breaks_off: { Self → List ℕ → Self → Type 0 };

    /// Takes a piece.
    fn push_piece(&mut self, piece: &str) -> Result<(), Self::Fault>
        ensures ok { OnOk result (takes self.old piece.now self.new) }
        ensures err { OnErr result (breaks_off self.old piece.now self.new) };

    // A sink has taken nothing more at first,
    ghost takes_nothing: { (sink : Self) → takes sink [] sink };

    // two pieces as their text,
    ghost takes_both: { (a b c : Self) (first second : List ℕ) → takes a first b → takes b second c
        → takes a (first ++ second) c };

    // a beginning of the text where the second is broken off,
    ghost breaks_off_later: { (a b c : Self) (first second : List ℕ) → takes a first b → breaks_off b second c
        → breaks_off a (first ++ second) c };

    // and so where the first is.
    ghost breaks_off_before: { (a b : Self) (first second : List ℕ) → breaks_off a first b
        → breaks_off a (first ++ second) b };
}

impl<A: Allocator> Sink for Vec<u8, A> {
    type Fault = AllocError;

    ghost use Rattle.std.specs.Prelude.{Some};
    ghost use Rattle.std.proofs.Common.{ap, sym, ◌∙◌, append_assoc, append-nil};
    ghost use Rattle.text_pieces.specs.Beginnings.{AppendsBeginning};
    ghost use Rattle.text_pieces.specs.own.Gathering.{begins_more, begins_behind};

    ghost takes = { λ old piece new. new.items ≡ old.items ++ piece };

    ghost breaks_off = { λ old piece new. AppendsBeginning (Some old.items) (Some new.items) piece };

    fn push_piece(&mut self, piece: &str) -> Result<(), AllocError> {
        self.extend_from_slice(piece.as_bytes())
    }

    ghost takes_nothing = { λ sink. sym (append-nil sink.items) };

    ghost takes_both = { λ a b c first second h k. k ∙ ap (λ t. t ++ second) h ∙ append_assoc a.items first second };

    ghost breaks_off_later = { λ a b c first second h k.
        begins_behind (Some a.items) (Some b.items) (Some c.items) first second h k };

    ghost breaks_off_before = { λ a b first second h. begins_more (Some a.items) (Some b.items) first second h };
}

// What a formatter has written is not told.
impl<W: fmt::Write> Sink for Formatter<W> {
    type Fault = fmt::Error;

    ghost takes = { λ _ _ _. ⊤ };

    ghost breaks_off = { λ _ _ _. ⊤ };

    fn push_piece(&mut self, piece: &str) -> fmt::Result {
        self.write_str(piece)
    }

    ghost takes_nothing = { λ _. tt };

    ghost takes_both = { λ _ _ _ _ _ _ _. tt };

    ghost breaks_off_later = { λ _ _ _ _ _ _ _. tt };

    ghost breaks_off_before = { λ _ _ _ _ _. tt };
}
