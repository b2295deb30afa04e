//! Clerks who make edits that are drawn at random, and readers who ask meanwhile where corners lie,
//! each in a thread of their own.

use crate::answers::{Cards, Windows};
use crate::city_of_many::{large_city, place_in_large_city};
use crate::drawn::drawn_edit;
use crate::plays::Told;
use crate::replays::follow_to;
use crate::scans::is_found;
use desk_lock::{Card, Naming, Office, Window};
use fabric_core::{At, Entry, Fabric};
use geo_exact::Corner;
use job_threads::{AllDone, Job, do_all};
use rand_core::utils::NextWord;
use rand_pcg::Pcg32;
use std::alloc::{AllocError, Allocator};
use std::sync::Wait;
use std::test::Fail;
use std::thread;
use std::thread::Threads;

/// How many edits of each clerk are accepted.
pub const EDITS: u64 = 1000;

/// So many edits a clerk draws from one sheet.
const DRAWN: u64 = 400;

/// So many sheets a clerk draws from for each edit that is to be accepted.
const TRIES: u64 = 10;

/// So many answers a reader asks for at most.
const TURNS: u64 = 1_000_000;

/// So many of a reader's answers, from the first, are looked for by a scan, too.
const SCANNED: usize = 400;

/// So many times a reader lets others go first between two answers.
const YIELDS: u64 = 1000;

/// What a window answered: how many entries it had seen, and where the corner is.
#[derive(Drop)]
struct Answer<'a, H: Allocator> {
    entries: u64,
    place: Corner,
    at: At<&'a H>,
    // Where the ids lie.
    heap: &'a H,
}

/// Who works in a thread of their own: a clerk with a card, or a reader at a window.
#[derive(Drop)]
struct Worker<'a, H: Allocator, J: Naming<H>, W: Wait + Drop> {
    rt: W,
    heap: &'a H,
    card: Option<Card<'a, H, J>>,
    window: Option<Window<'a, H, J>>,
    words: Pcg32,
    // How many entries there are at last.
    entries: u64,
    answers: Vec<Answer<'a, H>, &'a H>,
}

/// Draws edits from a sheet and submits them, as long as there are too few; whether that can go on.
fn draw<'a, H: Allocator, J: Naming<H>, R: Wait + Drop, W: Wait>(
    rt: &W,
    heap: &'a H,
    office: &Office<'a, H, J, R>,
    card: &mut Card<'a, H, J>,
    words: &mut Pcg32,
) -> bool {
    let Ok(sheet) = office.sheet(rt, &mut []) else {
        return false;
    };
    for _ in 0..DRAWN {
        if card.count() >= EDITS {
            break;
        }
        if let Some(edit) = drawn_edit(heap, &sheet, words) {
            let _ = office.submit(rt, card, &edit);
        }
    }
    true
}

/// Lets others go first.
fn rest() {
    for _ in 0..YIELDS {
        thread::yield_now();
    }
}

impl<'a, H: Allocator, J: Naming<H>, W: Wait + Drop> Worker<'a, H, J, W> {
    /// The worker of this number, who ends where there are so many entries.
    fn new(
        rt: W,
        heap: &'a H,
        number: u64,
        entries: u64,
        card: Option<Card<'a, H, J>>,
        window: Option<Window<'a, H, J>>,
    ) -> Worker<'a, H, J, W> {
        Worker {
            rt,
            heap,
            card,
            window,
            words: Pcg32::new(42, number),
            entries,
            answers: Vec::new(heap),
        }
    }

    /// Draws edits until enough of them are accepted, and submits them; nothing without a card.
    fn draw_all<R: Wait + Drop>(&mut self, office: &Office<'a, H, J, R>) {
        let Some(card) = &mut self.card else {
            return;
        };
        for _ in 0..EDITS * TRIES {
            if card.count() >= EDITS || !draw(&self.rt, self.heap, office, card, &mut self.words) {
                return;
            }
        }
    }

    /// Asks where a corner lies that is drawn, and keeps the answer; how many entries it rests on. Nothing without a
    /// window.
    fn ask(&mut self) -> Option<u64> {
        let window = self.window.as_mut()?;
        let place = place_in_large_city(self.words.next_word(), self.words.next_word())?;
        let (entries, at) = window.locate(place).ok()?;
        let answer = Answer {
            entries,
            place,
            at,
            heap: self.heap,
        };
        self.answers.push(answer).ok()?;
        Some(entries)
    }

    /// Asks until all entries are seen.
    fn ask_all(&mut self) {
        for _ in 0..TURNS {
            match self.ask() {
                Some(entries) if entries < self.entries => rest(),
                _ => return,
            }
        }
    }

    /// The card.
    fn into_card(self) -> Option<Card<'a, H, J>> {
        self.card
    }
}

impl<
    'a,
    H: Allocator + Send + Sync,
    J: Naming<H> + Send + Sync,
    R: Wait + Drop + Send + Sync,
    W: Wait + Drop + Send + Sync,
> Job<Office<'a, H, J, R>> for Worker<'a, H, J, W> {
    ghost stays = { λ before after. Unit {0} };

    ghost rank_of = { λ worker. 0 };

    fn rank(&self) -> usize {
        0
    }

    fn work(mut self, with: &Office<'a, H, J, R>) -> Worker<'a, H, J, W> {
        self.draw_all(with);
        self.ask_all();
        self
    }
}

/// A worker for each card, and then one for each window.
fn workers_of<'a, H: Allocator, J: Naming<H>, R: Wait + Copy>(
    rt: R,
    heap: &'a H,
    cards: &mut Cards<'a, H, J>,
    windows: &mut Windows<'a, H, J>,
) -> Result<Vec<Worker<'a, H, J, R>, &'a H>, AllocError> {
    let clerks = cards.len() as u64;
    let entries = EDITS.wrapping_mul(clerks);
    let mut workers = Vec::new(heap);
    for number in 0..clerks {
        workers.push(Worker::new(rt, heap, number, entries, cards.pop(), None))?;
    }
    for number in 0..windows.len() as u64 {
        let number = number.wrapping_add(clerks);
        workers.push(Worker::new(rt, heap, number, entries, None, windows.pop()))?;
    }
    Ok(workers)
}

/// Puts the card of a worker back, where they have one.
fn put_card<'a, H: Allocator, J: Naming<H>, W: Wait + Drop>(
    cards: &mut Cards<'a, H, J>,
    worker: Worker<'a, H, J, W>,
) -> Result<(), AllocError> {
    if let Some(card) = worker.into_card() {
        cards.push(card)?;
    }
    Ok(())
}

/// Puts the cards of workers back.
fn put_back<'a, H: Allocator, J: Naming<H>, W: Wait + Drop>(
    cards: &mut Cards<'a, H, J>,
    mut workers: Vec<Worker<'a, H, J, W>, &'a H>,
) -> Result<(), AllocError> {
    for _ in 0..workers.len() {
        if let Some(worker) = workers.pop() {
            put_card(cards, worker)?;
        }
    }
    Ok(())
}

/// Whether two answers say the same.
fn are_same<A: Allocator>(one: &At<A>, other: &At<A>) -> bool {
    match (one, other) {
        (At::Inside(id), At::Inside(other)) => id == other,
        (At::OnEdge(ids), At::OnEdge(others)) => ids.as_slice() == others.as_slice(),
        (At::Outside, At::Outside) => true,
        _ => false,
    }
}

/// Whether an answer is that of a fabric with as many entries, and what a scan finds in it where that is asked for.
fn is_right<'a, H: Allocator>(
    copy: &Fabric<'a, H>,
    answer: &Answer<'a, H>,
    is_scanned: bool,
) -> Result<bool, Fail> {
    let at = copy.locate(answer.place)?;
    let is_same = copy.entries() == answer.entries && are_same(&at, &answer.at);
    Ok(is_same && (!is_scanned || is_found(copy, answer.place, &answer.at)))
}

/// A reader's answers rest on more and more entries, and each is that of the fabric after these.
fn check_answers<'a, H: Allocator>(
    copy: &mut Fabric<'a, H>,
    journal: &[Entry<&'a H>],
    answers: &[Answer<'a, H>],
) -> Result<(), Fail> {
    for place in 0..answers.len() {
        let answer = &answers[place];
        follow_to(copy, journal, answer.entries)?;
        if !is_right(copy, answer, place < SCANNED || place + 1 == answers.len())? {
            return Err(Fail::new("another answer"));
        }
    }
    Ok(())
}

/// Checks a reader's answers, of which the last rests on all entries, against a journal.
fn check_reader<'a, H: Allocator>(
    heap: &'a H,
    journal: &[Entry<&'a H>],
    answers: &[Answer<'a, H>],
) -> Result<(), Fail> {
    if answers.last().map(|answer| answer.entries) != Some(journal.len() as u64) {
        return Err(Fail::new("a reader stopped before all entries were seen"));
    }
    let mut copy = large_city(heap)?;
    check_answers(&mut copy, journal, answers)
}

/// Checks all answers against a journal.
fn check_all<'a, H: Allocator, J: Naming<H>, W: Wait + Drop>(
    heap: &'a H,
    workers: &[Worker<'a, H, J, W>],
    journal: &[Entry<&'a H>],
) -> Result<(), Fail> {
    for worker in workers {
        if worker.window.is_some() {
            check_reader(heap, journal, worker.answers.as_slice())?;
        }
    }
    Ok(())
}

/// Checks all answers against the journal of an office.
fn check_at<'a, H: Allocator, J: Naming<H>, R: Wait + Drop, W: Wait, V: Wait + Drop>(
    rt: &W,
    heap: &'a H,
    office: &Office<'a, H, J, R>,
    workers: &[Worker<'a, H, J, V>],
) -> Result<(), Fail> {
    let sheet = office.sheet(rt, &mut [])?;
    check_all(heap, workers, sheet.journal())
}

/// Lets clerks and readers work, each in a thread of their own.
pub fn read_meanwhile<
    'a,
    H: Allocator + Send + Sync,
    J: Naming<H> + Send + Sync,
    R: Threads + Wait + Copy + Send + Sync,
>(
    rt: R,
    heap: &'a H,
    office: &Office<'a, H, J, R>,
    cards: &mut Cards<'a, H, J>,
    windows: &mut Windows<'a, H, J>,
) -> Result<Told, Fail> {
    let workers = workers_of(rt, heap, cards, windows)?;
    let Ok(
        AllDone {
            jobs: workers,
            refused: None,
            ..
        },
    ) = do_all(&rt, office, workers)
    else {
        return Err(Fail::new("a thread is refused"));
    };
    check_at(&rt, heap, office, workers.as_slice())?;
    put_back(cards, workers)?;
    Ok(Told::Done)
}
