//! What the spends of a list ask of it, what is made in it, and the first ask that isn't met.
ghost use Rattle.std.specs.Prelude.{◌≡◌, ◌+◌, ◌≤◌, [], ◌++◌, length, option_map, slice_get, OnOk, vec_len, vec_capacity};
ghost use Rattle.indexmap.specs.IndexSet.{spare};
ghost use Rattle.cond_rules.specs.Wants.{Makes, HasRoom, AddsWants, is_open, count_met, asks_at, first_open};

use crate::want::Want;
use coin_facts::OutOfMemory;
use indexmap::IndexSet;
use std::alloc::Global;
use std::marker::Model;

/// A want, and the place of the spend that asks it.
#[derive(Clone, Copy, Debug)]
pub(crate) struct Ask {
    place: u32,
    want: Want,
}

/// What is asked, in order, and what is made. What is made stays so: the asks that are met are passed over once.
#[derive(Debug, Drop)]
pub(crate) struct Wants {
    asked: Vec<Ask>,
    made: IndexSet<Want>,
    // How many asks stand before the first that isn't met.
    met: usize,
}

impl Model for Wants {
    ghost use Rattle.cond_rules.specs.Wants.{Wants as Seen};

    ghost Value = { Seen };

    ghost use Rattle.cond_rules.specs.WantsInside.{seen, IsCounted};

    ghost view = { seen };

    ghost invariant = { IsCounted };
}

// Makes wants, in a set that has room for them.
fn insert_made(made: &mut IndexSet<Want>, wants: &[Want])
    requires { length wants.now ≤ spare made.old }
    ensures { Makes made.old.keys wants.now made.new.keys }
{
    for want in wants {
        made.insert(*want).unwrap();
    }
}

// Asks wants for the spend of a place, in a list that has room for them.
fn push_asks(asked: &mut Vec<Ask>, place: u32, wants: &[Want])
    requires { vec_len asked.old + length wants.now ≤ vec_capacity asked.old }
    ensures { asked.new.items ≡ asked.old.items ++ asks_at place wants.now }
{
    for want in wants {
        asked.push(Ask { place, want: *want }).unwrap();
    }
}

// Whether an ask isn't met.
fn is_open(made: &IndexSet<Want>, ask: &Ask) -> bool
    ensures { result ≡ is_open made.now.keys ask.now }
{
    !made.contains(&ask.want)
}

// How many asks stand before the first that isn't met, where so many are known to be.
fn count_met(made: &IndexSet<Want>, asked: &[Ask], known: usize) -> usize
    requires within { known ≤ length asked.now }
    requires met { known ≤ count_met made.now.keys asked.now }
    ensures { result ≡ count_met made.now.keys asked.now }
{
    let mut met = known;
    while met < asked.len() && !is_open(made, &asked[met]) {
        met += 1;
    }
    met
}

// The place of the ask at an index.
fn place_at(asked: &[Ask], index: usize) -> Option<u32>
    ensures { result ≡ option_map (λ ask. ask.place) (slice_get asked.now index) }
{
    match asked.get(index) {
        Some(ask) => Some(ask.place),
        None => None,
    }
}

impl Wants {
    /// Nothing asked and nothing made.
    pub(crate) fn new(alloc: Global) -> Wants
        ensures { result.wanted ≡ record { asked = []; made = [] } }
    {
        Wants {
            asked: Vec::new(alloc),
            made: IndexSet::new(alloc),
            met: 0,
        }
    }

    /// Makes room for so many more asks and made wants.
    pub(crate) fn reserve(&mut self, asks: usize, makes: usize) -> Result<(), OutOfMemory>
        ensures ok { OnOk result (HasRoom self.new asks makes) }
        ensures same { self.new.wanted ≡ self.old.wanted }
    {
        self.asked.reserve(asks)?;
        self.made.reserve(makes)?;
        Ok(())
    }

    /// Adds what the spend of a place asks and makes.
    pub(crate) fn add(&mut self, place: u32, asked: &[Want], made: &[Want])
        requires { HasRoom self.old (length asked.now) (length made.now) }
        ensures { AddsWants self.old.wanted place asked.now made.now self.new.wanted }
    {
        push_asks(&mut self.asked, place, asked);
        insert_made(&mut self.made, made);
        self.met = count_met(&self.made, self.asked.as_slice(), self.met);
    }

    /// The place of the first ask that isn't met.
    pub(crate) fn first_open(&self) -> Option<u32>
        ensures { result ≡ first_open self.now.wanted }
    {
        place_at(self.asked.as_slice(), self.met)
    }
}
