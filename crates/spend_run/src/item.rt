ghost use Rattle.std.specs.Prelude.{◌≡◌, ◌<◌, ◌≤◌, ◌^◌, length};
ghost use Rattle.spend_run.specs.Items.{item_seen};

use crate::FactList;
use block_form::Bundle;
use judge_spec::Class;
use std::marker::Model;

/// A bundle of the pool, with the facts of its fit's spends and their classes place by place, and the fit's fee in mojos
/// and cost.
#[derive(Debug, Drop)]
pub struct Item {
    bundle: Bundle,
    fit: FactList,
    classes: Vec<Class>,
    fee: u128,
    cost: u64,
}

impl Model for Item {
    ghost use Rattle.pool_spec.specs.Prices.{Priced};
    ghost use Rattle.spend_run.specs.Items.{item_seen, IsSized};

    ghost Value = { Priced };

    ghost view = { λ i. item_seen i.bundle i.fit i.classes.items i.fee i.cost };

    ghost invariant = { λ i. IsSized i.fit i.classes.items i.fee i.cost };
}

impl Item {
    /// An item of these parts.
    pub fn new(bundle: Bundle, fit: FactList, classes: Vec<Class>, fee: u128, cost: u64) -> Item
        requires classes { length classes.items ≡ length fit }
        requires fee { fee < 2 ^ 96 }
        requires cost { 1 ≤ cost }
        ensures { result ≡ item_seen bundle fit classes.items fee cost }
    {
        Item {
            bundle,
            fit,
            classes,
            fee,
            cost,
        }
    }

    /// The bundle, lent.
    pub fn bundle(&self) -> &Bundle
        ensures { result.now ≡ self.now.bundle }
    {
        &self.bundle
    }

    /// The facts of the fit's spends, lent.
    pub fn fit(&self) -> &FactList
        ensures { result.now ≡ self.now.fit }
    {
        &self.fit
    }

    /// The classes of the fit's spends, lent, one a spend.
    pub fn classes(&self) -> &[Class]
        ensures value { result.now ≡ self.now.classes }
        ensures count { length result.now ≡ length self.now.fit }
    {
        self.classes.as_slice()
    }

    /// The fee in mojos: the spent amounts less the created ones.
    pub fn fee(&self) -> u128
        ensures value { result ≡ self.now.fee }
        ensures small { result < 2 ^ 96 }
    {
        self.fee
    }

    /// What the fit's spends cost as a list.
    pub fn cost(&self) -> u64
        ensures value { result ≡ self.now.cost }
        ensures positive { 1 ≤ result }
    {
        self.cost
    }
}
