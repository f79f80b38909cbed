//! How often each message is sent and received, and the first spend with one for which these differ.
ghost use Rattle.std.specs.Prelude.{◌≡◌, ◌+◌, ◌-◌, ◌<◌, ◌≤◌, ◌^◌, [], ◌∷◌, length, option_map, slice_get, unwrap_or, OnOk};
ghost use Rattle.std.specs.Map.{lookup};
ghost use Rattle.indexmap.specs.IndexMap.{spare};
ghost use Rattle.cond_spec.specs.Messages.{is_same_message};
ghost use Rattle.cond_rules.specs.Letters.{times_of, is_even, more, fresh, AddsLetters, first_uneven};
ghost use Rattle.cond_rules.specs.LettersInside.{IsQueued, is_uneven_at, IsSettled};
ghost use Rattle.cond_rules.specs.IndexQueue.{holds};

use crate::index_queue::IndexQueue;
use crate::letter::{Letter, Way};
use crate::message::Message;
use coin_facts::OutOfMemory;
use indexmap::IndexMap;
use std::alloc::Global;
use std::marker::Model;

/// How often a message is sent and received, and the place of the first spend that does either.
#[derive(Clone, Copy, Debug)]
pub(crate) struct Counts {
    first: u32,
    sent: u64,
    received: u64,
}

impl Counts {
    // Of a message that the spend of a place is the first to have.
    fn fresh(place: u32) -> Counts
        ensures { result ≡ fresh place }
    {
        Counts {
            first: place,
            sent: 0,
            received: 0,
        }
    }

    fn is_even(&self) -> bool
        ensures { result ≡ is_even self.now }
    {
        self.sent == self.received
    }

    // With one more this way.
    fn more(self, way: Way) -> Counts
        requires { times_of way self < 2 ^ 64 - 1 }
        ensures { result ≡ more way self }
    {
        match way {
            Way::Sent => Counts {
                sent: self.sent + 1,
                ..self
            },
            Way::Received => Counts {
                received: self.received + 1,
                ..self
            },
        }
    }
}

/// The messages of spends in the order of their first places, with their counts.
#[derive(Debug, Drop)]
pub(crate) struct Letters {
    counts: IndexMap<Message, Counts>,
    // Each message of unequal counts waits here. Others may, but not as the first.
    uneven: IndexQueue,
    // How many letters were counted.
    total: u64,
}

impl Model for Letters {
    ghost use Rattle.cond_rules.specs.Letters.{Letters as Seen};

    ghost Value = { Seen };

    ghost use Rattle.cond_rules.specs.LettersSeen.{seen, AreSettled};

    ghost view = { seen };

    ghost invariant = { AreSettled };
}

// The counts of a message, or those of one that the spend of a place is the first to have.
fn counts_of(counts: &IndexMap<Message, Counts>, message: &Message, place: u32) -> Counts
    ensures { result ≡ unwrap_or (lookup (is_same_message message.now) counts.now.entries) (fresh place) }
{
    match counts.get(message) {
        Some(known) => *known,
        None => Counts::fresh(place),
    }
}

// The first place of the message at an index.
fn first_at(counts: &IndexMap<Message, Counts>, index: usize) -> Option<u32>
    ensures { result ≡ option_map (λ entry. entry.1.first) (slice_get counts.now.entries index) }
{
    match counts.get_index(index) {
        Some((_, known)) => Some(known.first),
        None => None,
    }
}

// Whether the message at an index has unequal counts.
fn is_uneven_at(counts: &IndexMap<Message, Counts>, index: usize) -> bool
    ensures { result ≡ is_uneven_at counts.now.entries index }
{
    match counts.get_index(index) {
        Some((_, known)) => !known.is_even(),
        None => false,
    }
}

// Counts a letter of the spend of a place, where there is room for it.
fn count_letter(
    counts: &mut IndexMap<Message, Counts>,
    uneven: &mut IndexQueue,
    total: u64,
    place: u32,
    letter: Letter,
)
    requires room { (0 < spare counts.old) × (0 < uneven.old.room) }
    requires few { total < 2 ^ 64 - 1 }
    requires queued { IsQueued total counts.old.entries uneven.old.indexes }
    ensures adds { AddsLetters counts.old.entries place (letter ∷ []) counts.new.entries }
    ensures queued { IsQueued (total + 1) counts.new.entries uneven.new.indexes }
    ensures room { (spare counts.old ≤ spare counts.new + 1) × (uneven.old.room ≤ uneven.new.room + 1) }
{
    let Letter { way, message } = letter;
    let before = counts_of(counts, &message, place);
    let (index, _) = counts.insert_full(message, before.more(way)).unwrap();
    if before.is_even() {
        uneven.push(index);
    }
}

// Counts the letters of the spend of a place, where there is room for them, and tells how many there are now.
fn count_letters(
    counts: &mut IndexMap<Message, Counts>,
    uneven: &mut IndexQueue,
    before: u64,
    place: u32,
    letters: Vec<Letter>,
) -> u64
    requires room { (length letters.items ≤ spare counts.old) × (length letters.items ≤ uneven.old.room) }
    requires few { before + length letters.items < 2 ^ 64 }
    requires queued { IsQueued before counts.old.entries uneven.old.indexes }
    ensures adds { AddsLetters counts.old.entries place letters.items counts.new.entries }
    ensures queued { IsQueued result counts.new.entries uneven.new.indexes }
    ensures total { result ≡ before + length letters.items }
{
    let mut total = before;
    for letter in letters {
        count_letter(counts, uneven, total, place, letter);
        total += 1;
    }
    total
}

// Passes over messages of equal counts at the head of the queue.
fn settle(counts: &IndexMap<Message, Counts>, uneven: &mut IndexQueue, total: u64)
    requires { IsQueued total counts.now.entries uneven.old.indexes }
    ensures queued { IsQueued total counts.now.entries uneven.new.indexes }
    ensures settled { IsSettled counts.now.entries uneven.new.indexes }
{
    while let Some(index) = uneven.first() {
        if is_uneven_at(counts, index) {
            return;
        }
        uneven.pop();
    }
}

impl Letters {
    /// No message.
    pub(crate) fn new(alloc: Global) -> Letters
        ensures counts { result.counts ≡ [] }
        ensures total { result.total ≡ 0 }
    {
        Letters {
            counts: IndexMap::new(alloc),
            uneven: IndexQueue::new(alloc),
            total: 0,
        }
    }

    /// Makes room for so many more letters.
    pub(crate) fn reserve(&mut self, letters: usize) -> Result<(), OutOfMemory>
        ensures ok { OnOk result (letters ≤ self.new.room) }
        ensures same { (self.new.counts ≡ self.old.counts) × (self.new.total ≡ self.old.total) }
    {
        self.counts.reserve(letters)?;
        self.uneven.reserve(letters)?;
        Ok(())
    }

    /// Counts the letters of the spend of a place.
    pub(crate) fn add(&mut self, place: u32, letters: Vec<Letter>)
        requires room { length letters.items ≤ self.old.room }
        requires few { self.old.total + length letters.items < 2 ^ 64 }
        ensures adds { AddsLetters self.old.counts place letters.items self.new.counts }
        ensures total { self.new.total ≡ self.old.total + length letters.items }
    {
        self.total = count_letters(
            &mut self.counts,
            &mut self.uneven,
            self.total,
            place,
            letters,
        );
        settle(&self.counts, &mut self.uneven, self.total);
    }

    /// The place of the first spend with a message that is sent and received in unequal numbers.
    pub(crate) fn first_uneven(&self) -> Option<u32>
        ensures { result ≡ first_uneven self.now.counts }
    {
        let index = self.uneven.first()?;
        first_at(&self.counts, index)
    }
}
