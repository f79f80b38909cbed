//! Laws of the definitions. Each is the contract of a function that does nothing.
ghost use Rattle.step_spec.specs.StepLaws.{LeadsOn, BeginningLeads, StepIsAnswered, StateIsOfHistory, LeadsToOne, LegalIsInOrder, StepKeepsPriced, HistoryKeepsPriced};

/// What leads to a state and on from it leads over both lists, and the other way round.
pub fn leads_on()
    ensures on { LeadsOn }
    ensures beginning { BeginningLeads }
{}

/// No step's own reply is want of memory.
pub fn step_is_answered()
    ensures { StepIsAnswered }
{}

/// The state is a function of the history.
pub fn state_is_of_history()
    ensures function { StateIsOfHistory }
    ensures one { LeadsToOne }
{}

/// A legal history has each command of each lane once, in the lane's order.
pub fn legal_is_in_order()
    ensures { LegalIsInOrder }
{}

/// Every bundle of a pool to which a history leads has a price.
pub fn keeps_priced()
    ensures step { StepKeepsPriced }
    ensures history { HistoryKeepsPriced }
{}
