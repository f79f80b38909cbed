//! Laws of evaluation on its fuel. Each is the contract of a function that does nothing.

ghost use Rattle.clvm_spec.specs.FuelLaws.{DoneRunUsesTheSame, MoreFuelKeepsFailures, MoreFuelKeepsWide, StepsAreWithinTheCost, EvaluationIsItsStep, OperatorsCostSomething};

/// A done run leaves the fuel less what it uses, and with any fuel that has as much it is done with the same value.
pub fn done_run_uses_the_same()
    ensures { DoneRunUsesTheSame }
{}

/// More fuel keeps a failure, with the reason and the form.
pub fn more_fuel_keeps_failures()
    ensures { MoreFuelKeepsFailures }
{}

/// More fuel keeps a number too wide.
pub fn more_fuel_keeps_wide()
    ensures { MoreFuelKeepsWide }
{}

/// Evaluation needs no more steps than its cost, so the definition's bound on steps is no part of its meaning.
pub fn steps_are_within_the_cost()
    ensures { StepsAreWithinTheCost }
{}

/// Evaluation is one step, with evaluation for what the step goes on with.
pub fn evaluation_is_its_step()
    ensures { EvaluationIsItsStep }
{}

/// Whatever an operator gives costs something.
pub fn operators_cost_something()
    ensures { OperatorsCostSomething }
{}
