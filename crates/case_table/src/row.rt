//! The rows of a table.

ghost use Rattle.std.specs.Prelude.{◌≡◌, ℕ, List};

/// One row of a table.
#[derive(Clone, Copy, Debug, PartialEq, Eq)]
pub struct Row {
    /// The code of the case.
    pub code: u8,
    /// Its name in a text.
    pub name: &'static str,
    /// How many operands it has at least.
    pub arity_low: u8,
    /// How many it has at most; `ANY_COUNT` stands for any count.
    pub arity_high: u8,
    /// What it costs, whatever its operands are.
    pub cost: u32,
    /// Which kind of operands it has; each table says which.
    pub kind: u8,
}

/// What has a code and a name. A function over arrays of every length is proved for a type parameter,
/// and not for `Row` itself, which holds a reference.
pub trait Case {
    ghost code: { Self → ℕ };

    ghost name: { Self → List ℕ };

    fn code(&self) -> u8
        ensures { result ≡ code self.now };

    fn name(&self) -> &str
        ensures { result.now ≡ name self.now };
}

impl Case for Row {
    ghost code = { λ row. row.code };

    ghost name = { λ row. row.name.now };

    fn code(&self) -> u8 {
        self.code
    }

    fn name(&self) -> &str {
        self.name
    }
}
