ghost use Rattle.std.specs.Prelude.{◌≡◌, ◌≤◌};
ghost use Rattle.cond_spec.specs.ConditionTable.{cost_of_condition};
ghost use Rattle.cond_spec.specs.Conditions.{cost_of_conditions};

use crate::Conditions;
use case_table::condition_rows;
use case_table::condition_table::{CREATE_COIN_COST, FREE, SIGNATURE_COST};
use cond_spec::Condition;

/// What the conditions of a spend cost together.
pub fn conditions_cost(conditions: &Conditions) -> u64
    ensures { result ≡ cost_of_conditions conditions.now }
{
    let mut cost = 0;
    for condition in conditions.as_slice() {
        cost += u64::from(condition_cost(condition));
    }
    cost
}

// What a condition costs by its row.
fn condition_cost(condition: &Condition) -> u32
    ensures value { result ≡ cost_of_condition condition.now }
    ensures most { result ≤ CREATE_COIN_COST }
{
    macro_rules! costs {
        (($condition:expr) $(($code:literal, $name:literal, $least:literal, $cost:ident, $kind:ident, $variant:ident))*) => {
            match $condition {
                $(Condition::$variant { .. } => $cost,)*
            }
        };
    }
    condition_rows!(costs(condition))
}
