ghost use Rattle.std.specs.Prelude.{◌≡◌};
ghost use Rattle.session_spec.specs.MemberNames.{name_of};

/// The members of a session's lines, and of the objects in them.
#[derive(Clone, Copy, Debug, PartialEq, Eq)]
pub enum Member {
    Session,
    Genesis,
    Seconds,
    Lanes,
    MaxCost,
    PoolCost,
    Reward,
    Module,
    Source,
    Curry,
    Arguments,
    Singleton,
    Coin,
    ParentCoinInfo,
    PuzzleHash,
    Amount,
    Do,
    Lane,
    Bundle,
    CoinSpends,
    PuzzleReveal,
    Solution,
    Attested,
    RewardHash,
    Bytes,
    Blocks,
    Id,
}

impl Member {
    /// The member's name in its object, and in the text of its fault.
    pub fn name(self) -> &'static str
        ensures { result.now ≡ name_of self }
    {
        match self {
            Member::Session => "session",
            Member::Genesis => "genesis",
            Member::Seconds => "seconds",
            Member::Lanes => "lanes",
            Member::MaxCost => "max_cost",
            Member::PoolCost => "pool_cost",
            Member::Reward => "reward",
            Member::Module => "module",
            Member::Source => "source",
            Member::Curry => "curry",
            Member::Arguments => "arguments",
            Member::Singleton => "singleton",
            Member::Coin => "coin",
            Member::ParentCoinInfo => "parent_coin_info",
            Member::PuzzleHash => "puzzle_hash",
            Member::Amount => "amount",
            Member::Do => "do",
            Member::Lane => "lane",
            Member::Bundle => "bundle",
            Member::CoinSpends => "coin_spends",
            Member::PuzzleReveal => "puzzle_reveal",
            Member::Solution => "solution",
            Member::Attested => "attested",
            Member::RewardHash => "reward_hash",
            Member::Bytes => "bytes",
            Member::Blocks => "blocks",
            Member::Id => "id",
        }
    }
}
