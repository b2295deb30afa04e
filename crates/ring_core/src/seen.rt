//! How far the kinds of the corners that are left were looked through.

ghost use Rattle.std.specs.Prelude.{◌≡◌, ◌≤◌};
ghost use Rattle.ring_core.specs.own.Blocks.{number_less};

use crate::kind::Kind;
use crate::places::renumbered;

/// How far the kinds of the corners that are left were looked through: no corner before number `flats` is
/// flat, and none before number `candidates` is a candidate.
#[derive(Clone, Copy, Debug)]
pub struct Seen {
    /// The number up to which none is flat.
    pub flats: usize,
    /// The number up to which none is a candidate.
    pub candidates: usize,
}

impl Seen {
    /// The same, once corner `k` went.
    pub fn without(self, k: usize) -> Seen
        ensures flats { result.flats ≡ number_less k self.flats }
        ensures candidates { result.candidates ≡ number_less k self.candidates }
    {
        Seen {
            flats: renumbered(k, self.flats),
            candidates: renumbered(k, self.candidates),
        }
    }

    /// The same, once corner `k` is of the kind.
    pub fn with(self, k: usize, kind: Kind) -> Seen
        ensures flats { result.flats ≤ self.flats }
        ensures candidates { result.candidates ≤ self.candidates }
        ensures flat { kind ≡ Kind.Flat → result.flats ≤ k }
        ensures candidate { kind ≡ Kind.Candidate → result.candidates ≤ k }
    {
        match kind {
            Kind::Flat => Seen {
                flats: self.flats.min(k),
                candidates: self.candidates,
            },
            Kind::Candidate => Seen {
                flats: self.flats,
                candidates: self.candidates.min(k),
            },
            _ => self,
        }
    }
}
