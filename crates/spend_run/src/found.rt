ghost use Rattle.std.specs.Prelude.{◌≡◌, Ok, IfOk};
ghost use Rattle.judge_spec.specs.declared.limits.TheConstants.{GREATEST_MAX_COST};
ghost use Rattle.judge_spec.specs.Facts.{facts_of};

use crate::copies::{copy_conditions, copy_spend};
use block_form::Spend;
use coin_facts::OutOfMemory;
use cond_parse::Conditions;
use small_lists::ShortList;
use std::alloc::Global;
use std::marker::Model;

/// A spend that breaks none of the rules 3 to 10 with the greatest limit, what its run and its conditions cost together,
/// and the conditions that its run gives.
#[derive(Debug, Drop)]
pub struct Facts {
    pub(crate) spend: Spend,
    pub(crate) cost: u64,
    pub(crate) conditions: Conditions,
}

/// A list of facts, of which there are fewer than 2^32.
pub type FactList = ShortList<Facts>;

impl Model for Facts {
    ghost use Rattle.judge_spec.specs.Facts.{Facts as FactsView};
    ghost use Rattle.spend_run.specs.Found.{facts_seen, IsFound};

    ghost Value = { FactsView };

    ghost view = { λ f. facts_seen f.spend f.cost f.conditions };

    ghost invariant = { λ f. IsFound f.spend f.cost f.conditions };
}

impl Facts {
    /// The spend, lent.
    pub fn spend(&self) -> &Spend
        ensures value { result.now ≡ self.now.spend }
        ensures found { facts_of GREATEST_MAX_COST result.now ≡ Ok self.now }
    {
        &self.spend
    }

    /// What the run and the conditions cost together.
    pub fn cost(&self) -> u64
        ensures { result ≡ self.now.cost }
    {
        self.cost
    }

    /// The conditions that the run gives, lent.
    pub fn conditions(&self) -> &Conditions
        ensures { result.now ≡ self.now.conditions }
    {
        &self.conditions
    }

    /// Equal facts.
    pub fn copy(&self, alloc: Global) -> Result<Facts, OutOfMemory>
        ensures { IfOk result (λ copy. copy ≡ self.now) }
    {
        let spend = copy_spend(alloc, &self.spend)?;
        let conditions = copy_conditions(alloc, &self.conditions)?;
        Ok(Facts {
            spend,
            cost: self.cost,
            conditions,
        })
    }
}
