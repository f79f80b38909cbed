ghost use Rattle.clvm_spec.specs.Laws.{HasOneSpelling, BeginsNoOther, FindsSpelled, ReadsSpelled, FoundIsSpelled, FaultIsFound, FlawIsFound, WholeIsSpelled, ShortestHasNumber, ShortestIsItself, ShortestIsLeast};

/// The law of spellings: a tree has at most one, and none begins another.
pub fn spellings_are_apart()
    ensures one { HasOneSpelling }
    ensures apart { BeginsNoOther }
{}

/// The law of reading: what is spelled at the front is found, with the count of its bytes, and what is found is spelled
/// there. Else the flaw is found that stands behind the longest list of heads that leaves trees open.
pub fn reading_finds_spellings()
    ensures finds { FindsSpelled }
    ensures reads { ReadsSpelled }
    ensures found { FoundIsSpelled }
    ensures fault { FaultIsFound }
    ensures flaw { FlawIsFound }
    ensures whole { WholeIsSpelled }
{}

/// The law of numbers: an atom is written for each number, and it is the shortest of those with that number.
pub fn numbers_have_shortest_atoms()
    ensures number { ShortestHasNumber }
    ensures itself { ShortestIsItself }
    ensures least { ShortestIsLeast }
{}
