use crate::{Attested, Spends};

/// A bundle: the spends that go together, and what is attested to be signed.
#[derive(Debug, Drop)]
pub struct Bundle {
    pub spends: Spends,
    pub attested: Attested,
}
