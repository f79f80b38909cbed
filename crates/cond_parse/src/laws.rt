//! Laws of the tables of conditions. Each is the contract of a function that does nothing.

ghost use Rattle.std.specs.Prelude.{◌≡◌, ◌<◌, List, Option, None, length, map};
ghost use Rattle.clvm_spec.specs.Tree.{Tree, list_tree};
ghost use Rattle.cond_spec.specs.declared.condition.Condition.{Condition};
ghost use Rattle.cond_spec.specs.ConditionTable.{rows};
ghost use Rattle.case_table.specs.Conditions.{Kind, conditions as numbers, least_count};
ghost use Rattle.cond_parse.specs.Kinds.{HasKind, HaveKinds};

/// Each column of the table of numbers is that of the definitions: codes, names, costs, and the kinds of operands.
pub fn columns_are_the_definitions()
    ensures codes { map (λ row. row.code) numbers ≡ map (λ row. row.code) rows }
    ensures names { map (λ row. row.name) numbers ≡ map (λ row. row.name) rows }
    ensures costs { map (λ row. row.cost) numbers ≡ map (λ row. row.cost) rows }
    ensures kinds { HaveKinds numbers rows }
{}

/// With fewer operands than the least count of its kind a condition is malformed.
pub fn least_counts_are_needed()
    ensures { (kind : Kind) (read : Tree → Option Condition) (operands : List Tree) → HasKind kind read → length operands < least_count kind → read (list_tree operands) ≡ None }
{}
