//! Which bundles have spends of one coin that don't go together.
ghost use Rattle.std.specs.Prelude.{◌≡◌, ◌<◌, ◌≤◌, ◌^◌, ◌&&◌, ◌++◌, ◌∷◌, [], length, not, vec_capacity};
ghost use Rattle.std.specs.List.{list_any};
ghost use Rattle.coin_facts.specs.IdLists.{is_same_id};
ghost use Rattle.judge_spec.specs.Checks.{id_of};
ghost use Rattle.pool_spec.specs.Replacement.{has_same_codes, go_together, clash, fit_with_classes, do_conflict, conflicts};

use block_form::Spend;
use coin_facts::Hash32;
use spend_run::{Class, Facts, Item};

// Whether two spends have equal puzzles and solutions.
fn has_same_codes(one: &Spend, other: &Spend) -> bool
    ensures { result ≡ has_same_codes one.now other.now }
{
    one.puzzle == other.puzzle && one.solution == other.solution
}

// Whether two spends of one coin go together.
fn go_together(one: Class, other: Class, spend: &Spend, other_spend: &Spend) -> bool
    ensures { result ≡ go_together one other spend.now other_spend.now }
{
    match (one, other) {
        (Class::Forward, Class::Forward) => true,
        (Class::Same, Class::Same) => has_same_codes(spend, other_spend),
        _ => false,
    }
}

// Whether a spend of the coin with this id clashes with another spend.
fn clashes(id: Hash32, spend: &Spend, class: Class, other: &Facts, other_class: Class) -> bool
    ensures { result ≡ (is_same_id id (id_of other.now) && not (go_together class other_class spend.now other.now.spend)) }
{
    id == other.spend().coin.id() && !go_together(class, other_class, spend, other.spend())
}

// Whether a spend clashes with one of a bundle's fit.
fn clashes_with(one: &Facts, class: Class, item: &Item) -> bool
    ensures { result ≡ list_any (clash (one.now, class)) (fit_with_classes item.now) }
{
    let spend = one.spend();
    let id = spend.coin.id();
    item.fit().as_slice().iter().zip(item.classes()).any(|(other, other_class)| clashes(
        id,
        spend,
        class,
        other,
        *other_class,
    ))
}

fn do_conflict(new: &Item, item: &Item) -> bool
    ensures { result ≡ do_conflict new.now item.now }
{
    new.fit()
        .as_slice()
        .iter()
        .zip(new.classes())
        .any(|(one, class)| clashes_with(one, *class, item))
}

// Adds a place where there is room for it.
fn push_place(into: &mut Vec<u32>, place: u32)
    requires { length into.old.items < vec_capacity into.old }
    ensures value { into.new.items ≡ into.old.items ++ place ∷ [] }
    ensures room { vec_capacity into.old ≤ vec_capacity into.new }
{
    match into.push(place) {
        Ok(()) => {}
        Err(_) => unreachable!(),
    }
}

/// Writes the places in the pool of the bundles that a new one conflicts with.
pub fn conflicts(new: &Item, items: &[Item], into: &mut Vec<u32>)
    requires few { length items.now < 2 ^ 32 }
    requires empty { into.old.items ≡ [] }
    requires room { length items.now ≤ vec_capacity into.old }
    ensures { into.new.items ≡ conflicts new.now items.now }
{
    for (place, item) in items.iter().enumerate() {
        if do_conflict(new, item) {
            push_place(into, place as u32);
        }
    }
}
