//! A list that only grows, and who may add to it.

ghost use Rattle.std.specs.Prelude.{◌≡◌, []};

use crate::front::Front;
use crate::steps::Law;
use logbook::{Seen, Start, Word};
use std::marker::{Brand, Model, PhantomData};

/// Which list it is. Each call of a program picks it.
pub trait Naming {
    ghost use Rattle.logbook.specs.Pages.{Book};

    ghost book: { Book };
}

impl Naming for Brand {
    ghost book = { record { number = 0; log_name = 0; cells_name = 0 } };
}

/// An empty list, which has no name yet. It takes no memory. Contracts see which list it is.
#[derive(Drop)]
pub struct Opened<E> {
    head: Word<E, u64, Law>,
    seen: Seen<E, u64, Law>,
}

impl<E> Model for Opened<E> {
    ghost use Rattle.std.specs.Prelude.{◌≡◌, []};
    ghost use Rattle.logbook.specs.Pages.{Book};
    ghost use Rattle.entry_history.specs.own.Steps.{head_of};

    ghost Value = { Book };

    ghost view = { λ opened. opened.seen.book };

    ghost invariant = { λ opened. (opened.seen.log ≡ []) × (opened.head ≡ head_of opened.seen.book) };
}

impl<E> Opened<E> {
    /// An empty list.
    pub fn new() -> Opened<E> {
        let (seen, mut first, _second) = Seen::open(Start::alone(), 0, 0);
        Opened {
            head: Word::tracked(0, &mut first),
            seen,
        }
    }

    /// The list under a name, and its beginning that has no entry.
    pub fn named<J: Naming>(self) -> (History<E, J>, Front<E, J>)
        requires { self ≡ J.book }
        ensures { result.1 ≡ [] }
    {
        let Opened { head, seen } = self;
        (
            History {
                head,
                of: PhantomData,
            },
            Front::new(seen),
        )
    }
}

/// The word that all threads share: how many entries the list has. Contracts see which list it is.
#[derive(Drop)]
pub struct History<E, J: Naming> {
    pub(crate) head: Word<E, u64, Law>,
    of: PhantomData<J>,
}

impl<E, J: Naming> Model for History<E, J> {
    ghost use Rattle.std.specs.Prelude.{◌≡◌};
    ghost use Rattle.logbook.specs.Pages.{Book};
    ghost use Rattle.entry_history.specs.own.Steps.{head_of};

    ghost Value = { Book };

    ghost view = { λ history. history.head.book };

    ghost invariant = { λ history. history.head ≡ head_of J.book };
}
