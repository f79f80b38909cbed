// What there is of unspent coins among records.
ghost use Rattle.std.specs.Prelude.{◌≡◌};
ghost use Rattle.coin_facts.specs.CoinId.{coin_id};
ghost use Rattle.chain_store.specs.Unspents.{is_asked, with_any, with_one};

use chain_spec::{Record, Unspent};
use coin_facts::Hash32;

// Whether the coin is unspent, of this puzzle hash and amount, and none of the excepted ones.
fn is_asked(one: &Record, puzzle_hash: &Hash32, amount: u64, except: &[Hash32]) -> bool
    ensures { result ≡ is_asked puzzle_hash.now amount except.now one.now }
{
    one.coin.puzzle_hash == *puzzle_hash
        && one.coin.amount == amount
        && one.spent.is_none()
        && !except.contains(&one.coin.id())
}

fn with_one(found: Unspent, id: Hash32) -> Unspent
    ensures { result ≡ with_one id found }
{
    match found {
        Unspent::None => Unspent::One(id),
        Unspent::One(_) => Unspent::Many,
        Unspent::Many => Unspent::Many,
    }
}

/// What was found, and this record, where it is asked for.
pub(crate) fn with_record(
    found: Unspent,
    one: &Record,
    puzzle_hash: &Hash32,
    amount: u64,
    except: &[Hash32],
) -> Unspent
    ensures { result ≡ with_any (is_asked puzzle_hash.now amount except.now one.now) (coin_id one.now.coin) found }
{
    if is_asked(one, puzzle_hash, amount, except) {
        with_one(found, one.coin.id())
    } else {
        found
    }
}
