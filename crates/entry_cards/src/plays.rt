//! The rule of the views, and what each step tells.
ghost use Rattle.std.specs.Prelude.{◌≡◌, []};
ghost use mathlib.Core.Option.{none};
ghost use Rattle.entry_cards.specs.own.Rule.{IsKept, KnowsCards, keeper_view, blank_cards, spent_view};
ghost use Rattle.entry_cards.specs.own.Rule.{joined, without_first, first_of, with_all_met, with_more};

use crate::view::View;
use atomic_table::{Join, Play, Split, TableRule};
use std::marker::{Brand, PhantomData};

/// The rule of the views.
pub struct Rule;

impl<E> TableRule<(), View<E>, u32> for Rule {
    ghost holds = { λ clerks state. IsKept clerks state.views };

    ghost first = { λ clerks. keeper_view clerks [] (blank_cards 0 clerks) };
}

/// Names the entry that a step adds, since a step has no argument of its own. Each call picks it.
pub trait NamesEntry<E> {
    ghost use mathlib.Core.Option.{Option};

    ghost entry: { Option E };
}

impl<E> NamesEntry<E> for Brand {
    ghost entry = { none };
}

/// Cards are compared with the list. Then the entry that is told is added to the list and to the
/// first card, which has met the list with it.
pub struct AddEntry<B> {
    of: PhantomData<B>,
}

impl<E, B: NamesEntry<E>> Play<(), View<E>> for AddEntry<B> {
    ghost then = { λ step before found after. (after ≡ (with_more before.0 B.entry, before.1)) × KnowsCards before.0 };
}

/// Cards are compared with the list, and the first card has met it then.
pub struct Meet;

impl<E> Play<(), View<E>> for Meet {
    ghost then = { λ step before found after. (after ≡ (with_all_met before.0, before.1)) × KnowsCards before.0 };
}

/// Cards are compared with the list.
pub struct Compare;

impl<E> Play<(), View<E>> for Compare {
    ghost then = { λ step before found after. (after ≡ before) × KnowsCards before.0 };
}

/// The first card is cut off.
pub struct CardOff;

impl<E> Split<View<E>> for CardOff {
    ghost left = { λ view. without_first view };

    ghost right = { λ view. first_of view };
}

/// Another's cards are taken in.
pub struct Together;

impl<E> Join<View<E>> for Together {
    ghost both = { λ view other. joined view other };

    ghost spent = { spent_view };
}
