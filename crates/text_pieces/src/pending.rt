//! A text's end that is gathered before it is put.

ghost use Rattle.std.specs.Prelude.{◌≡◌, ◌++◌, [], OnErr, OnOk};
ghost use Rattle.std.specs.Io.KnownBytes.{Appends};
ghost use Rattle.geo_exact.specs.Bytes.{raised};
ghost use Rattle.text_pieces.specs.Beginnings.{AppendsBeginning};
ghost use Rattle.text_pieces.specs.Pending.{Passes};

use crate::put::put_all;
use arrayvec::ArrayVec;
use geo_exact::{ByteOut, Failed};
use std::marker::Model;

// How many bytes are gathered before they are put: so many that puts are few, and so few that they fit on a stack.
const ROOM: usize = 4096;

/// The end of a text, which is gathered and not put yet, so that short pieces make few puts. It
/// takes no memory but its own. Contracts see its bytes.
#[derive(Drop)]
pub struct Pending {
    bytes: ArrayVec<u8, ROOM>,
}

impl Model for Pending {
    ghost use Rattle.std.specs.Prelude.{ℕ, List};

    ghost Value = { List ℕ };

    ghost view = { λ pending. pending.bytes.items };
}

impl Pending {
    /// Nothing is pending.
    pub fn new() -> Pending
        ensures { result ≡ [] }
    {
        Pending {
            bytes: ArrayVec::new(),
        }
    }

    /// Adds a piece of a text, and puts what is pending where there is no room for it.
    ///
    /// # Errors
    ///
    /// [`Failed`] where the writer failed: a beginning of the text was written then.
    pub fn add<W: ByteOut>(&mut self, piece: &[u8], out: &mut W) -> Result<(), Failed>
        ensures ok { OnOk result (Passes (W.written out.old) (W.written out.new) self.old piece.now self.new) }
        ensures err { OnErr result (AppendsBeginning (W.written out.old) (W.written out.new) (self.old ++ piece.now)) }
        ensures failed { OnErr result (W.failure_count out.new ≡ raised (W.failure_count out.old)) }
        ensures no_failure { OnOk result (W.failure_count out.new ≡ W.failure_count out.old) }
    {
        if self.bytes.try_extend_from_slice(piece).is_ok() {
            return Ok(());
        }
        self.finish(out)?;
        put_all(piece, out)
    }

    /// Puts all that is pending.
    ///
    /// # Errors
    ///
    /// [`Failed`] where the writer failed: a beginning of what was pending was written then.
    pub fn finish<W: ByteOut>(&mut self, out: &mut W) -> Result<(), Failed>
        ensures ok { OnOk result (Appends (W.written out.old) (W.written out.new) self.old) }
        ensures none_left { OnOk result (self.new ≡ []) }
        ensures err { OnErr result (AppendsBeginning (W.written out.old) (W.written out.new) self.old) }
        ensures failed { OnErr result (W.failure_count out.new ≡ raised (W.failure_count out.old)) }
        ensures no_failure { OnOk result (W.failure_count out.new ≡ W.failure_count out.old) }
    {
        put_all(self.bytes.as_slice(), out)?;
        self.bytes.clear();
        Ok(())
    }
}
