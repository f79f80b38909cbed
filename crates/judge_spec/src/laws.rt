//! Laws of the definitions. Each is the contract of a function that does nothing.
ghost use Rattle.judge_spec.specs.Agreement.{LooksAtItsCoins, SpendsLookAtTheirCoins, RecordsAgree, PartDecides};
ghost use Rattle.judge_spec.specs.ConnectLaws.{FineConnects, FineStaysSound};
ghost use Rattle.judge_spec.specs.FineLaws.{FineIsSpendable, FineCostsSomething, FineFeeFits, FineHasFacts, FineHasItsPuzzles};
ghost use Rattle.judge_spec.specs.GrowthLaws.{SpentTwiceGrows, CostsGrow, SpendsGrow, ActsGrow, NewCoinsGrow, BirthsGrow, MessagesGrow, SumsGrow};
ghost use Rattle.judge_spec.specs.JudgeLaws.{FactsKeep, FactsOrSpent, FactsDecide, FirstIsTold, NoneIsTold, AttestedIsASet, FineIsKept, FineIsWithinTheLimit, NewCoinsLast};

/// More of a limit keeps facts, and less of it finds the same or is spent.
pub fn facts_keep()
    ensures more { FactsKeep }
    ensures less { FactsOrSpent }
{}

/// Facts that were found with a greater limit give the verdict.
pub fn facts_decide()
    ensures { FactsDecide }
{}

/// The first broken rule is told.
pub fn first_is_told()
    ensures broken { FirstIsTold }
    ensures kept { NoneIsTold }
{}

/// What is attested is a set.
pub fn attested_is_a_set()
    ensures { AttestedIsASet }
{}

/// A Fine verdict tells the cost and the fee, breaks no rule, and is within the limit where there is a spend.
pub fn fine_is_sound()
    ensures kept { FineIsKept }
    ensures within { FineIsWithinTheLimit }
{}

/// The coins of a Fine list can be spent and made, its cost is at least that of no spend, and its fee fits 96 bits.
pub fn fine_is_spendable()
    ensures coins { FineIsSpendable }
    ensures cost { FineCostsSomething }
    ensures fee { FineFeeFits }
{}

/// A Fine list has the facts of its spends, and each puzzle is its coin's.
pub fn fine_has_facts()
    ensures facts { FineHasFacts }
    ensures puzzles { FineHasItsPuzzles }
{}

/// A block that breaks no rule can be connected, with its reward coin, and the chain stays sound.
pub fn fine_connects()
    ensures block { FineConnects }
    ensures chain { FineStaysSound }
{}

/// Created ids are looked up last.
pub fn new_coins_last()
    ensures { NewCoinsLast }
{}

/// A verdict looks at nothing of a ledger but what is said of the list's coins, its locks, and the genesis data.
pub fn looks_at_its_coins()
    ensures facts { LooksAtItsCoins }
    ensures spends { SpendsLookAtTheirCoins }
{}

/// Ledgers with the same peak and records of a list's coins agree on it, so a part of a ledger decides.
pub fn part_decides()
    ensures agree { RecordsAgree }
    ensures part { PartDecides }
{}

/// When a list that breaks no rule grows, the kept spends can break the rules 13 and 19 alone, and 20 and 21 go by sums;
/// every other rule is asked of the added spends.
pub fn lists_grow()
    ensures spent_twice { SpentTwiceGrows }
    ensures costs { CostsGrow }
    ensures spends { SpendsGrow }
    ensures acts { ActsGrow }
    ensures new_coins { NewCoinsGrow }
    ensures births { BirthsGrow }
    ensures messages { MessagesGrow }
    ensures sums { SumsGrow }
{}
