//! Whether a bundle may replace those that it conflicts with.
ghost use Rattle.std.specs.Prelude.{◌≡◌, ◌<◌, ◌≤◌, ◌-◌, ◌*◌, ◌^◌, length, slice_get, option_map, None, if◌then◌else◌};
ghost use Rattle.std.specs.List.{list_all};
ghost use Rattle.judge_spec.specs.Checks.{id_of};
ghost use Rattle.pool_spec.specs.Prices.{fees_of, costs_of};
ghost use Rattle.pool_spec.specs.Replacement.{conflicts as conflict_places, left_coins, replaced_by, unreplaced};
ghost use Rattle.fee_replace.specs.Coins.{spends};
ghost use Rattle.fee_replace.specs.Told.{numbered, told};

use crate::Rate;
use coin_facts::Hash32;
use judge_spec::Rule;
use pool_spec::limits::LEAST_RAISE;
use spend_run::Item;

// Whether the fit of a bundle spends the coin with this id.
fn spends(item: &Item, id: Hash32) -> bool
    ensures { result ≡ spends item.now id }
{
    item.fit()
        .as_slice()
        .iter()
        .any(|facts| facts.spend().coin.id() == id)
}

// Whether the fit of a bundle spends all coins that another's fit spends.
fn covers(new: &Item, item: &Item) -> bool
    ensures { result ≡ list_all (λ facts. spends new.now (id_of facts)) item.now.fit }
{
    item.fit()
        .as_slice()
        .iter()
        .all(|facts| spends(new, facts.spend().coin.id()))
}

// The place of the first conflicting bundle that has a coin which the new one doesn't spend.
fn left_coins(new: &Item, items: &[Item], conflicts: &[u32]) -> Option<u32>
    requires few { length items.now < 2 ^ 32 }
    requires places { conflicts.now ≡ conflict_places new.now items.now }
    ensures { result ≡ left_coins new.now items.now }
{
    for place in conflicts {
        if !covers(new, &items[*place as usize]) {
            return Some(*place);
        }
    }
    None
}

// What the conflicting bundles pay and cost together.
fn rate_of_replaced(new: &Item, items: &[Item], conflicts: &[u32]) -> Rate
    requires few { length items.now < 2 ^ 32 }
    requires places { conflicts.now ≡ conflict_places new.now items.now }
    ensures fee { result.fee ≡ fees_of (replaced_by new.now items.now) }
    ensures cost { result.cost ≡ costs_of (replaced_by new.now items.now) }
    ensures small { result.fee ≤ (2 ^ 32 - 1) * 2 ^ 96 }
{
    let mut together = Rate { fee: 0, cost: 0 };
    for place in conflicts {
        let item = &items[*place as usize];
        together.fee += item.fee();
        together.cost += item.cost() as u128;
    }
    together
}

// Nothing where a test holds, else the first place.
fn first_unless(holds: bool, conflicts: &[u32]) -> Option<u32>
    ensures { result ≡ (if holds then None else slice_get conflicts.now 0) }
{
    if holds {
        None
    } else {
        conflicts.first().copied()
    }
}

// A rule's number, with the place where it is broken.
fn broken_at(rule: Rule, place: Option<u32>) -> Option<(u8, u32)>
    ensures { result ≡ option_map (numbered rule) place }
{
    place.map(|p| (rule.number(), p))
}

/// The first of the rules 31 to 33 that a new bundle breaks where it is to replace those that it conflicts with, with the
/// place in the pool of the bundle at which it does. Nothing where it breaks none of them.
pub fn replaces(new: &Item, items: &[Item], conflicts: &[u32]) -> Option<(u8, u32)>
    requires few { length items.now < 2 ^ 32 }
    requires places { conflicts.now ≡ conflict_places new.now items.now }
    ensures { result ≡ option_map told (unreplaced new.now items.now) }
{
    let rate = Rate {
        fee: new.fee(),
        cost: new.cost() as u128,
    };
    let replaced = rate_of_replaced(new, items, conflicts);
    let is_higher = rate.is_higher_than(replaced);
    let is_raised = replaced.fee + LEAST_RAISE <= rate.fee;
    broken_at(Rule::LeavesCoins, left_coins(new, items, conflicts))
        .or(broken_at(Rule::LowerRate, first_unless(is_higher, conflicts)))
        .or(broken_at(Rule::SmallRaise, first_unless(is_raised, conflicts)))
}
