//! The limits of a session. The numbers are this project's own.
use coin_facts::Hash32;
use std::marker::Model;

/// The greatest `max_cost`.
pub const GREATEST_MAX_COST: u64 = 22_000_000_000;

/// The greatest `pool_cost`.
pub const GREATEST_POOL_COST: u64 = 220_000_000_000;

/// The `max_cost` of a session that says nothing of it.
pub const DEFAULT_MAX_COST: u64 = 11_000_000_000;

/// The `pool_cost` of a session that says nothing of it.
pub const DEFAULT_POOL_COST: u64 = 110_000_000_000;

/// The limits of a session: the most that one list of spends may cost, at most `GREATEST_MAX_COST`; the most that all
/// bundles of the pool may cost together, at most `GREATEST_POOL_COST`; the reward of a block in mojos; and the tree
/// hash of the singletons' top layer.
#[derive(Clone, Copy, Debug)]
pub struct Limits {
    pub max_cost: u64,
    pub pool_cost: u64,
    pub reward: u64,
    pub singleton: Hash32,
}

impl Model for Limits {
    ghost use Rattle.std.specs.Prelude.{◌≤◌};
    ghost use Rattle.judge_spec.specs.declared.limits.TheConstants.{GREATEST_MAX_COST, GREATEST_POOL_COST};
    ghost use Rattle.judge_spec.specs.LimitsView.{LimitsView};

    ghost Value = { LimitsView };

    ghost view = { λ l. record { max_cost = l.max_cost; pool_cost = l.pool_cost; reward = l.reward; singleton = l.singleton } };

    ghost invariant = { λ l. (l.max_cost ≤ GREATEST_MAX_COST) × (l.pool_cost ≤ GREATEST_POOL_COST) };

    ghost inverse = { λ v. record { max_cost = v.max_cost; pool_cost = v.pool_cost; reward = v.reward; singleton = v.singleton } };
}
