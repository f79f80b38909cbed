// Where texts come from by name.
ghost use Rattle.std.specs.Prelude.{◌≤◌, ℕ, List, Option, IfOk, IsErrOf, option_map};
ghost use Rattle.ports_io.specs.Outside.{IsTextOf, Rose, Stays};

use crate::LibraryError;
use std::alloc::Global;

/// Texts by name.
pub trait Library {
    /// The text of each name, where the library tells its texts.
    ghost texts: { Self → Option (List ℕ → Option (List ℕ)) };

    /// How often the library has failed.
    ghost faults: { Self → ℕ };

    /// The text of this name, or None where there is none. It leaves the texts that it tells as they are.
    fn fetch(&mut self, alloc: Global, name: &str) -> Result<Option<Vec<u8>>, LibraryError>
        ensures answer { IfOk result (λ found.
            IsTextOf name.now (texts self.old) (option_map (λ text. text.items) found)) }
        ensures texts { Stays (texts self.old) (texts self.new) }
        ensures later { faults self.old ≤ faults self.new }
        ensures cause { IsErrOf result LibraryError.Fault → Rose (faults self.old) (faults self.new) };
}
