ghost use Rattle.std.specs.Prelude.{◌≡◌};
ghost use Rattle.judge_spec.specs.Rules.{number_of};

/// The rules, by what is so where they are broken, each with its number. 1 to 23 are those of a list of spends, 30 to 34
/// those of admission to the pool, 40 to 42 those of a block, and 43 that of a rollback.
#[derive(Clone, Copy, Debug, PartialEq, Eq)]
pub enum Rule {
    /// A bundle has no spend.
    NoSpend,
    /// A coin is spent twice.
    SpentTwice,
    /// The puzzle's tree hash isn't the coin's.
    WrongPuzzleHash,
    /// The run of the puzzle on the solution fails.
    RunFails,
    /// The run, or the list up to this spend, costs more than the limit.
    TooCostly,
    /// The run meets a number that 128 bits don't hold.
    RunIsWide,
    /// A condition is malformed.
    MalformedCondition,
    /// A condition is unknown.
    UnknownCondition,
    /// Two created coins of one spend have equal puzzle hash and amount.
    SameOutput,
    /// What a condition says of the spent coin differs from it.
    WrongOwnFact,
    /// The coin is neither in the chain nor created by the list.
    UnknownCoin,
    /// The coin is spent in the chain.
    SpentInChain,
    /// What a condition says of the coin's birth differs from its record, or the list creates the coin and a condition
    /// looks at its record.
    WrongBirth,
    /// A moment that has to be reached isn't.
    TooEarly,
    /// A moment that has to be ahead isn't.
    TooLate,
    /// An asserted announcement isn't made in the list.
    UnmadeAnnouncement,
    /// A spend that has to be in the list isn't.
    AbsentSpend,
    /// A coin that has to be created by the list isn't.
    NotEphemeral,
    /// A message is sent and received in unequal numbers.
    UnevenMessage,
    /// The created amounts are more than the spent ones.
    CreatesTooMuch,
    /// The created amounts and the reserved fees are more than the spent amounts.
    LacksReservedFee,
    /// A pair to be signed isn't attested.
    NotAttested,
    /// A created coin is in the chain already, or created by the list before.
    CoinExists,
    /// The bundle's id is in the pool.
    InPool,
    /// The bundle doesn't spend all coins of a bundle that it conflicts with.
    LeavesCoins,
    /// The bundle's fee per cost isn't higher than that of those that it conflicts with.
    LowerRate,
    /// The bundle's fee isn't enough more than the fees of those that it conflicts with.
    SmallRaise,
    /// The pool would cost more than it may.
    PoolIsFull,
    /// The bytes aren't a block.
    NotABlock,
    /// Previous hash or height don't follow the peak.
    NotNext,
    /// The seconds aren't more than the peak's.
    NotLater,
    /// More blocks are asked back than there are.
    TooFarBack,
}

impl Rule {
    /// The rule's number.
    pub fn number(self) -> u8
        ensures { result ≡ number_of self }
    {
        match self {
            Self::NoSpend => 1,
            Self::SpentTwice => 2,
            Self::WrongPuzzleHash => 3,
            Self::RunFails => 4,
            Self::TooCostly => 5,
            Self::RunIsWide => 6,
            Self::MalformedCondition => 7,
            Self::UnknownCondition => 8,
            Self::SameOutput => 9,
            Self::WrongOwnFact => 10,
            Self::UnknownCoin => 11,
            Self::SpentInChain => 12,
            Self::WrongBirth => 13,
            Self::TooEarly => 14,
            Self::TooLate => 15,
            Self::UnmadeAnnouncement => 16,
            Self::AbsentSpend => 17,
            Self::NotEphemeral => 18,
            Self::UnevenMessage => 19,
            Self::CreatesTooMuch => 20,
            Self::LacksReservedFee => 21,
            Self::NotAttested => 22,
            Self::CoinExists => 23,
            Self::InPool => 30,
            Self::LeavesCoins => 31,
            Self::LowerRate => 32,
            Self::SmallRaise => 33,
            Self::PoolIsFull => 34,
            Self::NotABlock => 40,
            Self::NotNext => 41,
            Self::NotLater => 42,
            Self::TooFarBack => 43,
        }
    }
}
