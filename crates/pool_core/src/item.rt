ghost use Rattle.std.specs.Prelude.{◌≡◌, ◌<◌, ◌≤◌, ◌^◌};

use block_form::Bundle;
use std::marker::Model;

/// A bundle of the pool, with the fee that it leaves in mojos and what it costs.
#[derive(Debug, Drop)]
pub struct Item {
    bundle: Bundle,
    fee: u128,
    cost: u64,
}

impl Model for Item {
    ghost use Rattle.std.specs.Prelude.{◌<◌, ◌≤◌, ◌^◌};
    ghost use Rattle.pool_core.specs.ItemView.{ItemView};

    ghost Value = { ItemView };

    ghost view = { λ i. record { bundle = i.bundle; fee = i.fee; cost = i.cost } };

    ghost invariant = { λ i. (i.fee < 2 ^ 96) × (1 ≤ i.cost) };
}

impl Item {
    pub(crate) fn new(bundle: Bundle, fee: u128, cost: u64) -> Item
        requires fee { fee < 2 ^ 96 }
        requires cost { 1 ≤ cost }
        ensures { result ≡ record { bundle = bundle; fee = fee; cost = cost } }
    {
        Item { bundle, fee, cost }
    }

    /// The bundle, lent.
    pub fn bundle(&self) -> &Bundle
        ensures { result.now ≡ self.now.bundle }
    {
        &self.bundle
    }

    /// The fee in mojos: the spent amounts less the created ones.
    pub fn fee(&self) -> u128
        ensures value { result ≡ self.now.fee }
        ensures small { result < 2 ^ 96 }
    {
        self.fee
    }

    /// What the bundle's spends cost as a list.
    pub fn cost(&self) -> u64
        ensures value { result ≡ self.now.cost }
        ensures positive { 1 ≤ result }
    {
        self.cost
    }
}
