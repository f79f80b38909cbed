//! What one spend asks of the list that it stands in, and makes for it.
ghost use Rattle.std.specs.Prelude.{◌<◌, ◌^◌, length, IfOk};
ghost use Rattle.cond_rules.specs.DeedsOf.{AreDeedsOf};

use crate::given::{
    claim, push_announcement_asked, push_announcement_made, push_creation_asked,
    push_creation_made, push_letter, push_spend_asked,
};
use crate::letter::Letter;
use crate::want::Want;
use coin_facts::{Coin, OutOfMemory};
use cond_parse::Condition;
use std::alloc::Global;

/// What the conditions of one spend ask, make and claim.
#[derive(Debug, Drop)]
pub(crate) struct Deeds {
    pub(crate) announcements_asked: Vec<Want>,
    pub(crate) announcements_made: Vec<Want>,
    pub(crate) spends_asked: Vec<Want>,
    pub(crate) creations_asked: Vec<Want>,
    pub(crate) creations_made: Vec<Want>,
    pub(crate) letters: Vec<Letter>,
    /// The created amounts and the reserved fees together, in mojos.
    pub(crate) claims: u128,
}

impl Deeds {
    /// The deeds of a spend of this coin with these conditions.
    pub(crate) fn new(
        alloc: Global,
        coin: &Coin,
        conditions: &[Condition],
    ) -> Result<Deeds, OutOfMemory>
        requires { length conditions.now < 2 ^ 32 }
        ensures { IfOk result (AreDeedsOf coin.now conditions.now) }
    {
        let mut announcements_asked = Vec::new(alloc);
        let mut announcements_made = Vec::new(alloc);
        let mut spends_asked = Vec::new(alloc);
        let mut creations_asked = Vec::new(alloc);
        let mut creations_made = Vec::new(alloc);
        let mut letters = Vec::new(alloc);
        let mut claims = 0;
        for condition in conditions {
            push_announcement_asked(&mut announcements_asked, coin, condition)?;
            push_announcement_made(&mut announcements_made, coin, condition)?;
            push_spend_asked(&mut spends_asked, coin, condition)?;
            push_creation_asked(&mut creations_asked, coin, condition)?;
            push_creation_made(&mut creations_made, coin, condition)?;
            push_letter(alloc, &mut letters, coin, condition)?;
            claims += u128::from(claim(condition));
        }
        Ok(Deeds {
            announcements_asked,
            announcements_made,
            spends_asked,
            creations_asked,
            creations_made,
            letters,
            claims,
        })
    }
}
