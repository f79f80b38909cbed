use coin_facts::Coin;

/// The newest coin of a singleton, and the coin that made it.
#[derive(Clone, Copy, Debug, PartialEq, Eq)]
pub struct Lineage {
    pub coin: Coin,
    pub parent: Coin,
}
