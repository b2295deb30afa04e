//! Parts rounded to whole numbers.

ghost use Rattle.std.specs.Prelude.{◌≡◌, ℕ, ◌*◌, ◌^◌, ◌≤◌};
ghost use Rattle.geo_exact.specs.Limit.{IsWithin};
ghost use Rattle.common_areas.specs.Fractions.{Fraction};
ghost use Rattle.area_bounds.specs.Parts.{IsCounted};
ghost use Rattle.area_shares.specs.own.Rounded.{IsRounded, taken};

use crate::share::Share;
use area_bounds::{PARTS, Parts};

impl Share {
    /// The whole numbers for so many parts: those on both sides of them or, where these are more than 1 apart,
    /// the one between them.
    pub fn of_parts(zone: u64, parts: Parts) -> Share
        requires small { IsWithin (3 * 2 ^ 124) parts.low }
        requires lost { parts.lost ≤ PARTS }
        ensures zone { result.zone ≡ zone }
        ensures rounded { (f : Fraction) (lost : ℕ) → parts.lost ≤ lost → IsCounted parts.low parts.lost f
            → IsRounded lost f result.least result.has_next }
    {
        let whole = parts.low.div_euclid(i128::from(PARTS));
        let over = parts.low.rem_euclid(i128::from(PARTS)) as u64 + parts.lost;
        if PARTS < over {
            return Share {
                zone,
                least: whole + 1,
                has_next: false,
            };
        }
        Share {
            zone,
            least: whole,
            has_next: 0 < over,
        }
    }

    /// How many of those that are left over it takes, one or none.
    pub fn takes(self, rest: i128) -> i128
        ensures value { result ≡ taken self.has_next rest }
        ensures small { IsWithin 1 result }
    {
        if self.has_next && 0 < rest { 1 } else { 0 }
    }
}
