//! Fees per cost, compared exactly.
ghost use Rattle.std.specs.Prelude.{◌≡◌, ◌*◌, nat_lt};
ghost use Rattle.pool_spec.specs.Prices.{is_higher_rate};

/// What is paid, in mojos, for what it costs.
#[derive(Clone, Copy, Debug, PartialEq, Eq)]
pub struct Rate {
    pub fee: u128,
    pub cost: u128,
}

// Whether a product is less than another. Each stands in two words of 128 bits.
fn is_product_less(a: u128, b: u128, c: u128, d: u128) -> bool
    ensures { result ≡ nat_lt (a * b) (c * d) }
{
    let (low, high) = a.carrying_mul(b, 0);
    let (other_low, other_high) = c.carrying_mul(d, 0);
    high < other_high || (high == other_high && low < other_low)
}

impl Rate {
    /// Whether it has more fee per cost than another.
    pub fn is_higher_than(self, other: Rate) -> bool
        ensures { result ≡ is_higher_rate self.fee self.cost other.fee other.cost }
    {
        is_product_less(other.fee, self.cost, self.fee, other.cost)
    }
}
