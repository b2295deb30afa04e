//! What is answered to a line that is not carried out.

ghost use Rattle.std.specs.Prelude.{◌≡◌, OnOk, OnErr};
ghost use Rattle.std.specs.List.{flat_map};
ghost use Rattle.text_pieces.specs.PieceText.{piece_text};
ghost use Rattle.session_lines.specs.Answers.{fault_text, error_line};

use text_pieces::{Piece, Sink, push_parts, push_pieces};

/// Why a line of a session is not carried out. It has changed nothing, but for an edit that is answered by
/// [`SessionFault::JournalFailed`] or [`SessionFault::NoMemory`]: its entry may
/// stand at the office, and in the journal.
#[derive(Clone, Copy, Debug, PartialEq, Eq)]
pub enum SessionFault {
    /// L1: the line asks for nothing that there is, or is too long.
    BadLine,
    /// K4: there is no version to answer from.
    NoVersion,
    /// An allocation failed.
    NoMemory,
    /// The line is one of the operator's, and came from another desk.
    OperatorOnly,
    /// The line is an edit, and the operator's desk has no card.
    NoCard,
    /// The line is a question, and the operator's desk has no window.
    NoWindow,
    /// The line is an edit, and the journal could not be written.
    JournalFailed,
    /// The session is closed.
    Closed,
    /// The line asks for an overlay, and the session has no zones.
    NoZones,
    /// K2: the session has so many clerks, and so many cards were handed in at its close.
    CardsMissing(usize, usize),
}

/// Adds the answer to a line that is not carried out: `error: TEXT`.
///
/// # Errors
///
/// The sink's fault; a beginning of the line may have been taken then.
pub fn push_error<S: Sink>(text: &mut S, fault: SessionFault) -> Result<(), S::Fault>
    ensures ok { OnOk result (S.takes text.old (error_line (fault_text fault)) text.new) }
    ensures err { OnErr result (S.breaks_off text.old (error_line (fault_text fault)) text.new) }
{
    push_parts(
        text,
        &[
            &[Piece::Text("error: ")],
            &fault_pieces(fault),
            &[Piece::EndOfLine],
        ],
    )
}

/// Adds the answer to a report that fails, as an export whose files can't be written: `error: TEXT`, the text being
/// that which the program prints of this fault elsewhere.
///
/// # Errors
///
/// The sink's fault; a beginning of the line may have been taken then.
pub fn push_failure<S: Sink>(text: &mut S, why: &str) -> Result<(), S::Fault>
    ensures ok { OnOk result (S.takes text.old (error_line why.now) text.new) }
    ensures err { OnErr result (S.breaks_off text.old (error_line why.now) text.new) }
{
    push_pieces(
        text,
        &[Piece::Text("error: "), Piece::Text(why), Piece::EndOfLine],
    )
}

/// What a fault is called, as the pieces of that text. The last ones are empty where it is shorter.
fn fault_pieces(fault: SessionFault) -> [Piece<'static>; 4]
    ensures { flat_map piece_text result ≡ fault_text fault }
{
    match fault {
        SessionFault::BadLine => name("L1"),
        SessionFault::NoVersion => name("K4"),
        SessionFault::NoMemory => name("no memory"),
        SessionFault::OperatorOnly => name("operator"),
        SessionFault::NoCard => name("no card"),
        SessionFault::NoWindow => name("no window"),
        SessionFault::JournalFailed => name("journal"),
        SessionFault::Closed => name("closed"),
        SessionFault::NoZones => name("no zones"),
        SessionFault::CardsMissing(clerks, cards) => [
            Piece::Text("K2 "),
            Piece::Number(clerks as u64),
            Piece::Text(" "),
            Piece::Number(cards as u64),
        ],
    }
}

/// A name alone.
fn name(text: &'static str) -> [Piece<'static>; 4]
    ensures { flat_map piece_text result ≡ text.now }
{
    [
        Piece::Text(text),
        Piece::Text(""),
        Piece::Text(""),
        Piece::Text(""),
    ]
}
