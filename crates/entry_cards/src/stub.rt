//! A clerk's stub: which entries were made with it, and what the keeper had when they last met.

use crate::view::View;
use atomic_table::Badge;
use std::marker::Model;

/// A clerk's stub: the proof's part of the clerk's card, which knows the entries that were made
/// with it, and all that its keeper had when they last met. It has no bytes, and may go to another
/// thread. Contracts see an `Own`.
#[derive(Drop)]
pub struct Stub<E> {
    pub(crate) badge: Badge<View<E>>,
}

impl<E> Model for Stub<E> {
    ghost use Rattle.std.specs.Prelude.{◌≡◌, [], ◌∷◌};
    ghost use Rattle.entry_cards.specs.Cards.{Own};
    ghost use Rattle.entry_cards.specs.own.Rule.{stub_view, card_in};

    ghost Value = { Own E };

    ghost view = { λ stub. record {
      name = stub.badge.table_id;
      clerk = (card_in stub.badge.views).clerk;
      made = (card_in stub.badge.views).made;
      met = (card_in stub.badge.views).met;
    } };

    ghost invariant = { λ stub. stub.badge.views ≡ stub_view (card_in stub.badge.views) ∷ [] };
}
