//! The whole numbers round what a parcel and a zone have in common.

ghost use Rattle.std.specs.Prelude.{◌^◌};
ghost use Rattle.geo_exact.specs.Limit.{IsWithin};

/// How much of a parcel a zone has: `least` and, where `has_next`, else 1 more, are the whole numbers for it.
#[derive(Clone, Copy, Debug)]
pub struct Share {
    /// The zone's id.
    pub zone: u64,
    /// The least whole number.
    pub least: i128,
    /// Whether the next one is as good.
    pub has_next: bool,
    pub ghost is_small: { IsWithin (2 ^ 100) least },
}
