//! A whole text put into a writer.

ghost use Rattle.std.specs.Prelude.{◌≡◌, OnErr, OnOk};
ghost use Rattle.std.specs.Io.KnownBytes.{Appends};
ghost use Rattle.geo_exact.specs.Bytes.{raised};
ghost use Rattle.text_pieces.specs.Beginnings.{AppendsBeginning};

use geo_exact::{ByteOut, Failed};

/// Puts the whole text, in as many puts as the writer takes. After a failure a beginning of it was written.
pub fn put_all<W: ByteOut>(text: &[u8], out: &mut W) -> Result<(), Failed>
    ensures ok { OnOk result (Appends (W.written out.old) (W.written out.new) text.now) }
    ensures err { OnErr result (AppendsBeginning (W.written out.old) (W.written out.new) text.now) }
    ensures failed { OnErr result (W.failure_count out.new ≡ raised (W.failure_count out.old)) }
    ensures no_failure { OnOk result (W.failure_count out.new ≡ W.failure_count out.old) }
{
    let mut rest = text;
    while !rest.is_empty() {
        let count = out.put(rest)?;
        rest = &rest[count..];
    }
    Ok(())
}
