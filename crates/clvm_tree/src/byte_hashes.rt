//! The tree hashes of the atoms of one byte.

ghost use Rattle.std.specs.Prelude.{◌≡◌, [], ◌∷◌};
ghost use Rattle.clvm_spec.specs.Hashing.{atom_hash};
ghost use Rattle.clvm_tree.specs.ByteHashes.{AreByteHashes};

use crate::hasher::{Hash, atom_hash};

/// The tree hashes of the atoms of one byte, each once it is needed. Most atoms of a program are of one byte.
#[derive(Drop)]
pub(crate) struct ByteHashes {
    known: [Option<Hash>; 256],
    ghost right: { AreByteHashes known },
}

impl ByteHashes {
    /// None yet.
    pub(crate) fn new() -> ByteHashes {
        ByteHashes { known: [None; 256] }
    }

    /// The tree hash of the atom of these bytes.
    pub(crate) fn atom_hash(&mut self, bytes: &[u8]) -> Hash
        ensures { result ≡ atom_hash bytes.now }
    {
        match bytes {
            [byte] => self.byte_hash(*byte),
            _ => atom_hash(bytes),
        }
    }

    fn byte_hash(&mut self, byte: u8) -> Hash
        ensures { result ≡ atom_hash (byte ∷ []) }
    {
        let place = byte as usize;
        if let Some(hash) = self.known[place] {
            return hash;
        }
        let hash = atom_hash(&[byte]);
        self.known[place] = Some(hash);
        hash
    }
}
