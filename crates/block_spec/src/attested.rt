ghost use Rattle.std.specs.Prelude.{◌≡◌, ◌+◌, ◌<◌, ◌^◌, ◌↔◌, [], ◌∷◌, ◌++◌, length, IsTrue, OnOk, OnErr};
ghost use Rattle.block_spec.specs.Attestable.{IsAttestable, AreAttestable};

use coin_facts::{Bytes, OutOfMemory};
use small_lists::ShortList;
use std::alloc::Global;
use std::marker::Model;

/// A message that is taken as signed by a key.
#[derive(Debug, Drop)]
pub struct Signed {
    pub key: Bytes,
    pub message: Bytes,
}

/// A list of attested messages, of which there are fewer than 2^32. Each key has 48 bytes and each message at most
/// 67,108,864.
#[derive(Debug, Drop)]
pub struct Attested {
    list: ShortList<Signed>,
}

impl Model for Attested {
    ghost use Rattle.std.specs.Prelude.{List};
    ghost use Rattle.block_spec.specs.declared.attested.Signed.{Signed};
    ghost use Rattle.block_spec.specs.Attestable.{AreAttestable};

    ghost Value = { List Signed };

    ghost view = { λ attested. attested.list };

    ghost invariant = { λ attested. AreAttestable attested.list };
}

impl Attested {
    /// Nothing attested.
    pub fn new(alloc: Global) -> Attested
        ensures { result ≡ [] }
    {
        Attested {
            list: ShortList::new(alloc),
        }
    }

    /// Adds a message at the end. Without memory nothing changes.
    pub fn push(&mut self, alloc: Global, signed: Signed) -> Result<(), OutOfMemory>
        requires few { length self.old + 1 < 2 ^ 32 }
        requires attestable { IsAttestable signed }
        ensures ok { OnOk result (self.new ≡ self.old ++ signed ∷ []) }
        ensures out_of_memory { OnErr result (self.new ≡ self.old) }
    {
        self.list.push(alloc, signed)
    }

    /// Whether one more has room.
    pub fn has_room(&self) -> bool
        ensures { IsTrue result ↔ (length self.now + 1 < 2 ^ 32) }
    {
        self.list.has_room()
    }

    /// The messages, lent.
    pub fn as_slice(&self) -> &[Signed]
        ensures value { result.now ≡ self.now }
        ensures few { length self.now < 2 ^ 32 }
        ensures attestable { AreAttestable self.now }
    {
        self.list.as_slice()
    }
}

#[cfg(test)]
mod tests {
    use super::*;
    use coin_facts::KEY_BYTES;
    use std::test::Fail;

    #[test]
    fn a_pair_stands_as_it_was_added(rt: HostRuntime) -> Result<(), Fail> {
        let mut attested = Attested::new(rt.alloc());
        let key = Bytes::from_slice(rt.alloc(), [7; KEY_BYTES].as_slice())?;
        let message = Bytes::from_slice(rt.alloc(), [5, 6].as_slice())?;
        attested.push(rt.alloc(), Signed { key, message })?;
        assert!(rt; attested.has_room());
        let pairs = attested.as_slice();
        assert_eq!(rt; pairs.len(), 1);
        for pair in pairs {
            assert_eq!(rt; pair.key.as_slice(), [7; KEY_BYTES].as_slice());
            assert_eq!(rt; pair.message.as_slice(), [5, 6].as_slice());
        }
        Ok(())
    }
}
