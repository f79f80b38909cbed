ghost use Rattle.std.specs.Prelude.{◌≡◌, ◌++◌};
ghost use Rattle.sha2.specs.Sha256.{sha256};
ghost use Rattle.coin_facts.specs.CoinId.{coin_id};

use crate::Hash32;
use clvm_spec::shortest_bytes;
use sha2::{Digest, Sha256};

/// A coin: the id of the coin that made it, the tree hash of its puzzle, and its amount in mojos.
/// Source: Chia documentation of the coin set.
#[derive(Clone, Copy, Debug, PartialEq, Eq)]
pub struct Coin {
    pub parent: Hash32,
    pub puzzle_hash: Hash32,
    pub amount: u64,
}

impl Coin {
    /// The coin's id.
    #[tactic(auto, unfolding(clvm_spec::specs::Numbers::shortest_atom))]
    pub fn id(&self) -> Hash32
        ensures { result ≡ coin_id self.now }
    {
        let amount = u128::from(self.amount).to_be_bytes();
        Hash32 {
            bytes: digest(self, shortest_bytes(amount.as_slice())),
        }
    }
}

// What a coin's id is, with its amount as an atom's bytes.
fn digest(coin: &Coin, amount: &[u8]) -> [u8; 32]
    ensures { result ≡ sha256 (coin.now.parent.bytes ++ coin.now.puzzle_hash.bytes ++ amount.now) }
{
    let mut hasher = Sha256::new();
    hasher.update(coin.parent.bytes);
    hasher.update(coin.puzzle_hash.bytes);
    hasher.update(amount);
    hasher.finalize()
}

#[cfg(test)]
mod tests {
    use super::*;

    fn hash(high: u128, low: u128) -> Hash32 {
        let mut bytes = [0; 32];
        bytes[..16].copy_from_slice(high.to_be_bytes().as_slice());
        bytes[16..].copy_from_slice(low.to_be_bytes().as_slice());
        Hash32 { bytes }
    }

    #[test]
    fn ids_of_coins_by_amount(rt: HostRuntime) {
        let parent = Hash32 { bytes: [0; 32] };
        let puzzle_hash = hash(
            0x9dcf97a184f32623d11a73124ceb99a5,
            0x709b083721e878a16d78f596718ba7b2,
        );
        let ids = [
            (
                0,
                hash(
                    0x059dd91d99d28fc1408e19689ecab815,
                    0xeb2041728965adc6651f63e9f40d97ea,
                ),
            ),
            (
                1,
                hash(
                    0xd15f29e0b93e80d7aa828af974cc37d0,
                    0xbe047ca052fe505f0ad0661ddb6aa5c0,
                ),
            ),
            (
                127,
                hash(
                    0x48f05a5fde167c6ff581411924992878,
                    0x073f31ac38112f99e443e94446da3be1,
                ),
            ),
            (
                128,
                hash(
                    0x8fc3dcd6b6fb32985022d2b5a4775024,
                    0xdb51cd30696f18583b487748a3a2fe89,
                ),
            ),
            (
                1000,
                hash(
                    0xbeebc9b9c769d759ff96c7e14d68d199,
                    0xb440926902bd0a9bef17b73dc5b8ffa7,
                ),
            ),
            (
                1 << 63,
                hash(
                    0x019faa4313b89c791b7539f841b75e0a,
                    0x82f0b5dcb7e1204a1ee31c0bb07b58aa,
                ),
            ),
            (
                u64::MAX,
                hash(
                    0x1d30f9a0e19cf894a0837842f2e01062,
                    0xe0d485e5113ec4f8cc337806c3997a94,
                ),
            ),
        ];
        for (amount, id) in ids {
            let coin = Coin {
                parent,
                puzzle_hash,
                amount,
            };
            assert_eq!(rt; coin.id(), id, "at {amount}");
        }
    }
}
