//! Opening an office.
ghost use Rattle.std.specs.Prelude.{◌≡◌, ◌⊎◌, ◌↔◌, ℕ, ◌+◌, ◌<◌, ◌≤◌, ◌^◌, [], ◌∷◌, ◌++◌, replicate, IfOk, IfErr};
ghost use Rattle.std.specs.Prelude.{OnOk, IsOk, IsTrue};
ghost use Rattle.desk_lock.specs.declared.opening.OpenFault.{OpenFault};
ghost use Rattle.desk_lock.specs.declared.opening.OpenFault.TheVariants.{Places, NoWindow, NoMemory};
ghost use Rattle.desk_lock.specs.Offices.{origin_of, fresh_cards, window_of};
ghost use Rattle.desk_lock.specs.Places.{IsWrongCount, IsWrong};
ghost use Rattle.desk_lock.specs.declared.opening.TheConstants.{MOST_PLACES};

use crate::card::Card;
use crate::copied::Copied;
use crate::desk::Copies;
use crate::name::{Name, Naming};
use crate::window::Window;
use entry_cards::Keeper;
use entry_history::Opened;
use fabric_core::{Entry, Fabric};
use published_copies::Publisher;
use std::alloc::{AllocError, Allocator};
use std::marker::PhantomData;
use std::sync::Wait;

/// The most clerks, and the most windows, of an office.
pub const MOST_PLACES: usize = 8;

/// Why an office is not opened: the first that applies, in this order.
#[derive(Clone, Copy, Debug, PartialEq, Eq)]
pub enum OpenFault {
    /// K1: so many clerks, or else so many windows, which is none or more than 8.
    Places(usize),
    /// K3: the window of this number, from 1, was given no reader.
    NoWindow(usize),
    /// An allocation failed.
    NoMemory,
}

impl From<AllocError> for OpenFault {
    ghost use Rattle.std.specs.Prelude.{◌≡◌};

    ghost from_gives = { λ _ e. e ≡ NoMemory };

    fn from(_: AllocError) -> OpenFault {
        OpenFault::NoMemory
    }
}

/// Refuses a number of clerks or windows.
pub(crate) fn check_places(clerks: usize, windows: usize) -> Result<(), OpenFault>
    ensures ok { IsOk result ↔ ((¬ IsWrongCount clerks) × (¬ IsWrongCount windows)) }
    ensures fault { IfErr result (λ fault. ((n : ℕ) × IsWrong clerks windows n × (fault ≡ Places n))) }
{
    if is_wrong(clerks) {
        return Err(OpenFault::Places(clerks));
    }
    if is_wrong(windows) {
        return Err(OpenFault::Places(windows));
    }
    Ok(())
}

/// Whether there are none, or too many.
fn is_wrong(count: usize) -> bool
    ensures { IsTrue result ↔ IsWrongCount count }
{
    count == 0 || count > MOST_PLACES
}

/// The cards of so many clerks.
pub(crate) fn deal<'a, H: Allocator, J: Naming<H>>(
    heap: &'a H,
    keeper: &mut Keeper<Entry<&'a H>, &'a H>,
    clerks: usize,
) -> Result<Vec<Card<'a, H, J>, &'a H>, AllocError>
    requires name { keeper.old.name ≡ J.office.cards }
    requires none { keeper.old.dealt ≡ 0 }
    requires enough { clerks ≤ keeper.old.clerks }
    requires few { clerks ≤ MOST_PLACES }
    ensures cards { IfOk result (λ cards. cards.items ≡ fresh_cards 0 clerks) }
    ensures dealt { IfOk result (λ cards. keeper.new ≡ record keeper.old { dealt = clerks }) }
{
    let mut cards = Vec::new(heap);
    for place in 0..clerks {
        let stub = keeper.deal();
        cards.push(Card {
            stub,
            clerk: place as u32 + 1,
            count: 0,
            heap,
            of: PhantomData,
        })?;
    }
    Ok(cards)
}

/// The writer of the versions, which are copies of the fabric.
pub(crate) fn publisher_of<'a, H: Allocator, J: Naming<H>, R: Wait + Drop>(
    rt: R,
    heap: &'a H,
    opened: Opened<Entry<&'a H>>,
    fabric: &Fabric<'a, H>,
    clerks: usize,
    windows: usize,
) -> Result<Copies<'a, H, J, R>, AllocError>
    requires book { opened ≡ J.book }
    requires origin { origin_of fabric.now ≡ J.office.origin }
    requires clerks { clerks ≡ J.office.clerks }
    requires windows { (0 < windows) × (windows < 2 ^ 32) }
    ensures { IfOk result (λ publisher. publisher ≡ record { handed = []; shown = [] }) }
{
    let first = Copied::new(fabric.copy()?, clerks);
    let second = Copied::new(fabric.copy()?, clerks);
    Publisher::open(rt, heap, opened, first, second, windows)
}

/// So many windows.
pub(crate) fn windows_of<'a, H: Allocator, J: Naming<H>, R: Wait + Drop>(
    heap: &'a H,
    publisher: &Copies<'a, H, J, R>,
    windows: usize,
) -> Result<Vec<Window<'a, H, J>, &'a H>, OpenFault>
    requires { publisher.now.handed ≡ [] }
    ensures windows { IfOk result (λ made. made.items ≡ replicate windows (window_of J.office.origin)) }
    ensures fault { IfErr result (λ fault.
        ((k : ℕ) × (1 ≤ k) × (k ≤ windows) × (fault ≡ NoWindow k)) ⊎ (fault ≡ NoMemory)) }
{
    let mut made = Vec::new(heap);
    for place in 0..windows {
        let window = new_window(heap, publisher, place + 1)?;
        push_window(&mut made, window)?;
    }
    Ok(made)
}

/// The window of this number, from 1; K3 with its number where it is given no reader.
fn new_window<'a, H: Allocator, J: Naming<H>, R: Wait + Drop>(
    heap: &'a H,
    publisher: &Copies<'a, H, J, R>,
    number: usize,
) -> Result<Window<'a, H, J>, OpenFault>
    requires { publisher.now.handed ≡ [] }
    ensures fresh { IfOk result (λ window. window ≡ window_of J.office.origin) }
    ensures fault { IfErr result (λ fault. fault ≡ NoWindow number) }
{
    let Ok(reader) = publisher.reader() else {
        return Err(OpenFault::NoWindow(number));
    };
    let front = publisher.front().again();
    Ok(Window {
        reader,
        front,
        heap,
    })
}

/// Puts a window behind the others; out of memory where the list has no room.
fn push_window<'a, H: Allocator, J: Naming<H>>(
    made: &mut Vec<Window<'a, H, J>, &'a H>,
    window: Window<'a, H, J>,
) -> Result<(), OpenFault>
    ensures pushed { OnOk result (made.new.items ≡ made.old.items ++ window.entry ∷ []) }
    ensures fault { IfErr result (λ fault. fault ≡ NoMemory) }
{
    let Ok(()) = made.push(window) else {
        return Err(OpenFault::NoMemory);
    };
    Ok(())
}

/// What an office has beside the fabric.
#[derive(Drop)]
pub(crate) struct Parts<'a, H: Allocator, J: Naming<H>, R: Wait + Drop> {
    pub(crate) keeper: Keeper<Entry<&'a H>, &'a H>,
    pub(crate) publisher: Copies<'a, H, J, R>,
    pub(crate) cards: Vec<Card<'a, H, J>, &'a H>,
    pub(crate) windows: Vec<Window<'a, H, J>, &'a H>,
}

/// What an office has beside the fabric, newly made.
pub(crate) fn parts_of<'a, H: Allocator, J: Naming<H>, R: Wait + Drop>(
    rt: R,
    heap: &'a H,
    name: Name<&'a H>,
    fabric: &Fabric<'a, H>,
    clerks: usize,
    windows: usize,
) -> Result<Parts<'a, H, J, R>, OpenFault>
    requires names { (name.book ≡ J.book) × (name.cards ≡ J.office.cards) }
    requires origin { origin_of fabric.now ≡ J.office.origin }
    requires clerks { clerks ≡ J.office.clerks }
    requires few { clerks ≤ MOST_PLACES }
    requires windows { (0 < windows) × (windows < 2 ^ 32) }
    ensures keeper { IfOk result (λ parts. parts.keeper
        ≡ record { name = J.office.cards; clerks = MOST_PLACES; dealt = clerks; all = [] }) }
    ensures publisher { IfOk result (λ parts. parts.publisher ≡ record { handed = []; shown = [] }) }
    ensures cards { IfOk result (λ parts. parts.cards.items ≡ fresh_cards 0 clerks) }
    ensures windows { IfOk result (λ parts. parts.windows.items ≡ replicate windows (window_of J.office.origin)) }
    ensures fault { IfErr result (λ fault.
        ((k : ℕ) × (1 ≤ k) × (k ≤ windows) × (fault ≡ NoWindow k)) ⊎ (fault ≡ NoMemory)) }
{
    let Name { opened, mut keeper } = name;
    let cards = deal(heap, &mut keeper, clerks)?;
    let publisher = publisher_of(rt, heap, opened, fabric, clerks, windows)?;
    match windows_of(heap, &publisher, windows) {
        Ok(windows) => Ok(Parts {
            keeper,
            publisher,
            cards,
            windows,
        }),
        Err(fault) => {
            publisher.end();
            Err(fault)
        }
    }
}
