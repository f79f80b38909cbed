use coin_facts::Hash32;

/// What a session begins with: the genesis data, the Unix seconds of its start, how many lanes it has, the greatest cost of
/// a list of spends and of the whole pool, a block's reward in mojos, and the tree hash of the singletons' top layer.
#[derive(Clone, Copy, Debug)]
pub struct Header {
    pub genesis: Hash32,
    pub seconds: u64,
    pub lanes: u32,
    pub max_cost: u64,
    pub pool_cost: u64,
    pub reward: u64,
    pub singleton: Hash32,
}
