//! What a run may use. Contracts and code share these types.

/// What a run may still use: cost, new pairs, bytes of new atoms, and the depth to which operator forms may nest.
#[derive(Clone, Copy, Debug, PartialEq, Eq)]
pub struct Fuel {
    pub cost: u64,
    pub pairs: u64,
    pub bytes: u64,
    pub depth: u32,
}

/// Which of the four counts doesn't suffice.
#[derive(Clone, Copy, Debug, PartialEq, Eq)]
pub enum Which {
    Cost,
    Pairs,
    Bytes,
    Depth,
}
