ghost use Rattle.std.specs.Prelude.{◌≡◌, ◌+◌, ◌<◌, ◌^◌, [], OnOk, OnErr};
ghost use Rattle.judge_spec.specs.Rules.{number_of};
ghost use Rattle.cond_rules.specs.Tallies.{IsTallyOf, Adds, number_of_spends, IsFirstBroken};
ghost use Rattle.cond_rules.specs.Rules.{lacking, broken_in};

use crate::OutOfMemory;
use crate::deeds::Deeds;
use crate::letters::Letters;
use crate::want::Want;
use crate::wants::Wants;
use coin_facts::Coin;
use cond_parse::Conditions;
use judge_spec::Rule;
use std::alloc::Global;
use std::marker::Model;

/// What the added spends make and ask of each other.
#[derive(Debug, Drop)]
pub struct Tally {
    count: u32,
    announcements: Wants,
    spends: Wants,
    creations: Wants,
    letters: Letters,
    spent: u128,
    claims: u128,
}

impl Model for Tally {
    ghost use Rattle.cond_rules.specs.TallySeen.{Tallied};

    ghost Value = { Tallied };

    ghost use Rattle.cond_rules.specs.Tallied.{seen, AreSmall};

    ghost view = { seen };

    ghost invariant = { AreSmall };
}

fn numbered(rule: Rule, place: u32) -> (u8, u32)
    ensures { result ≡ (number_of rule, place) }
{
    (rule.number(), place)
}

impl Tally {
    /// No spend.
    pub fn new(alloc: Global) -> Tally
        ensures is { IsTallyOf result [] }
        ensures count { number_of_spends result ≡ 0 }
    {
        Tally {
            count: 0,
            announcements: Wants::new(alloc),
            spends: Wants::new(alloc),
            creations: Wants::new(alloc),
            letters: Letters::new(alloc),
            spent: 0,
            claims: 0,
        }
    }

    /// Adds a spend of this coin with these conditions; its number is that of the spends before it, from 0. Without memory
    /// nothing changes.
    pub fn add(
        &mut self,
        alloc: Global,
        spend: u32,
        coin: &Coin,
        conditions: &Conditions,
    ) -> Result<(), OutOfMemory>
        requires next { spend ≡ number_of_spends self.old }
        requires few { spend < 4_294_967_295 }
        ensures ok { OnOk result (Adds self.old coin.now conditions.now self.new) }
        ensures count { OnOk result (number_of_spends self.new ≡ spend + 1) }
        ensures out_of_memory { OnErr result (self.new ≡ self.old) }
    {
        let Deeds {
            announcements_asked,
            announcements_made,
            spends_asked,
            creations_asked,
            creations_made,
            letters,
            claims,
        } = Deeds::new(alloc, coin, conditions.as_slice())?;
        let spend_made = [Want::Spend(coin.id()), Want::Puzzle(coin.puzzle_hash)];
        self.announcements
            .reserve(announcements_asked.len(), announcements_made.len())?;
        self.spends.reserve(spends_asked.len(), spend_made.len())?;
        self.creations
            .reserve(creations_asked.len(), creations_made.len())?;
        self.letters.reserve(letters.len())?;
        self.announcements.add(
            spend,
            announcements_asked.as_slice(),
            announcements_made.as_slice(),
        );
        self.spends
            .add(spend, spends_asked.as_slice(), spend_made.as_slice());
        self.creations.add(spend, creations_asked.as_slice(), creations_made.as_slice());
        self.letters.add(spend, letters);
        self.spent += u128::from(coin.amount);
        self.claims += claims;
        self.count += 1;
        Ok(())
    }

    // The same by what is kept.
    fn broken(&self) -> Option<(u8, u32)>
        ensures { result ≡ broken_in self.now }
    {
        if let Some(place) = self.announcements.first_open() {
            return Some(numbered(Rule::UnmadeAnnouncement, place));
        }
        if let Some(place) = self.spends.first_open() {
            return Some(numbered(Rule::AbsentSpend, place));
        }
        if let Some(place) = self.creations.first_open() {
            return Some(numbered(Rule::NotEphemeral, place));
        }
        if let Some(place) = self.letters.first_uneven() {
            return Some(numbered(Rule::UnevenMessage, place));
        }
        if self.spent < self.claims {
            return Some(numbered(Rule::LacksReservedFee, self.count));
        }
        None
    }

    /// The first of the rules 16, 17, 18, 19 and 21 that the added spends break, by its number, and the place of the spend,
    /// from 0; of 21 the number of spends. None exactly where none is broken.
    pub fn first_broken(&self) -> Option<(u8, u32)>
        ensures { IsFirstBroken self.now result }
    {
        self.broken()
    }
}
