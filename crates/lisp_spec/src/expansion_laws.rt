//! Laws of macros and their expansion. Each is the contract of a function that does nothing.

ghost use Rattle.lisp_spec.specs.ExpansionLaws.{BodyBoundIsEnough, BodyIsItsStep, ExpansionBoundIsEnough, ExpansionIsItsStep, TurnsFall, FaultsLeaveNoMore, SpentTurnsLeaveNone, MoreTurnsKeepForms, MoreTurnsKeepFaults, FaultsStandAtTheWrittenCall, WhatIsExpandedIsSettled, WithoutMacrosAllIsSettled};

/// What a body gives is one step, with what the step goes on with. The definition's bound on expressions within each
/// other is no part of its meaning.
pub fn body_is_its_step()
    ensures bound { BodyBoundIsEnough }
    ensures step { BodyIsItsStep }
{}

/// The expansion of a form is one step, with the expansion of what its calls give. The definition's bound on results
/// within each other is no part of its meaning.
pub fn expansion_is_its_step()
    ensures bound { ExpansionBoundIsEnough }
    ensures step { ExpansionIsItsStep }
{}

/// No turn comes back, and where the turns are spent none is left.
pub fn turns_fall()
    ensures forms { TurnsFall }
    ensures faults { FaultsLeaveNoMore }
    ensures spent { SpentTurnsLeaveNone }
{}

/// More turns keep the expanded form, and each fault but that of spent turns.
pub fn more_turns_keep_what_is_expanded()
    ensures forms { MoreTurnsKeepForms }
    ensures faults { MoreTurnsKeepFaults }
{}

/// Each fault in what a call gave stands where that call is written.
pub fn faults_stand_at_the_written_call()
    ensures { FaultsStandAtTheWrittenCall }
{}

/// What is expanded has no call any more, and nothing has one where there is no macro.
pub fn what_is_expanded_is_settled()
    ensures expanded { WhatIsExpandedIsSettled }
    ensures without { WithoutMacrosAllIsSettled }
{}
