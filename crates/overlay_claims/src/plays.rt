//! The rule of the words, and what each step on them tells.
ghost use Rattle.std.specs.Prelude.{◌≡◌, ◌<◌, ℕ, length};
ghost use Rattle.overlay_claims.specs.own.Spread.{word_of, IsClaimedApart};
ghost use Rattle.overlay_claims.specs.Claims.{view_of, with_fewer_parts, joined, spent_view, Claims, KnowsAll};

use crate::view::View;
use atomic_table::{Join, Play, Split, TableRule};
use std::alloc::Allocator;

/// The rule of the words.
pub struct Rule;

impl<A: Allocator> TableRule<(), View, Vec<u64, A>> for Rule {
    ghost holds = { λ lengths state. IsClaimedApart lengths.items state.words state.views };

    ghost first = { λ lengths. view_of lengths.items (length lengths.items) };
}

/// One is added to a list's word: a place is claimed, or the list's end noted.
pub struct Claim;

impl Play<(), View> for Claim {
    ghost then = { λ step before found after. (list : ℕ) × (step.word ≡ word_of list)
        × Claims before.0 list found after.0 × (after.1 ≡ before.1) };
}

/// A word is read, and what is known of all views is put together.
pub struct Confirm;

impl Play<(), View> for Confirm {
    ghost then = { λ step before found after. (after ≡ before) × KnowsAll before.0 };
}

/// A part is cut off for another hand.
pub struct PartOff;

impl Split<View> for PartOff {
    ghost left = { λ view. with_fewer_parts view };

    ghost right = { λ view. view_of view.lengths 1 };
}

/// All that another hand knows is taken in.
pub struct Together;

impl Join<View> for Together {
    ghost both = { λ view other. joined view other };

    ghost spent = { spent_view };
}
