// What judging looks at.
ghost use Rattle.std.specs.Prelude.{◌≡◌};
ghost use Rattle.std.specs.Option.{option_copied};
ghost use Rattle.std.specs.List.{IsDistinct};
ghost use Rattle.coin_facts.specs.IdLists.{is_same_id};
ghost use Rattle.chain_spec.specs.Chain.{Ledger, look_up};
ghost use Rattle.chain_spec.specs.ChainLaws.{ids_of};

use chain_spec::{Peak, Record};
use coin_facts::Hash32;

/// The coins of a chain: its genesis data, its newest block, and a record of each coin, found by the coin's id. No two
/// records have one id.
pub trait Coins {
    /// The ledger that these calls answer of.
    ghost seen: { Self → Ledger };

    /// The genesis data.
    fn genesis(&self) -> Hash32
        ensures { result ≡ (seen self.now).genesis };

    /// The newest block. At height 0 its hash is the genesis data.
    fn peak(&self) -> Peak
        ensures value { result ≡ (seen self.now).peak }
        ensures apart { IsDistinct is_same_id (ids_of (seen self.now).records) };

    /// The record of the coin with this id, lent, None exactly where there is none.
    fn look_up(&self, id: &Hash32) -> Option<&Record>
        ensures { option_copied result ≡ look_up (seen self.now) id.now };
}
