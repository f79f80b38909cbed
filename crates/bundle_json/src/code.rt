ghost use Rattle.std.specs.Prelude.{◌≡◌};
ghost use Rattle.clvm_spec.specs.Spelled.{spelled_tree};
ghost use Rattle.block_spec.specs.BlockReading.{hash_of_tree};
ghost use Rattle.bundle_json.specs.Codes.{IsCode, hash_of_code};

use coin_facts::{Bytes, Hash32};
use std::marker::Model;

// The code of a module: the bytes of exactly one spelled tree, at most 33,554,432 of them, with that tree's hash.
#[derive(Debug, Drop)]
pub(crate) struct Code {
    bytes: Bytes,
    hash: Hash32,
}

impl Model for Code {
    ghost use Rattle.std.specs.Prelude.{◌≡◌, ℕ, List};
    ghost use Rattle.bundle_json.specs.Codes.{IsCode, hash_of_code};

    ghost Value = { List ℕ };

    ghost view = { λ code. code.bytes };

    ghost invariant = { λ code. IsCode code.bytes × (code.hash ≡ hash_of_code code.bytes) };
}

impl Code {
    pub(crate) fn new(bytes: Bytes, hash: Hash32) -> Code
        requires code { IsCode bytes }
        requires hash { hash ≡ hash_of_code bytes }
        ensures { result ≡ bytes }
    {
        Code { bytes, hash }
    }

    pub(crate) fn bytes(&self) -> &Bytes
        ensures value { result.now ≡ self.now }
        ensures code { IsCode self.now }
    {
        &self.bytes
    }

    pub(crate) fn hash(&self) -> &Hash32
        ensures { result.now ≡ hash_of_code self.now }
    {
        &self.hash
    }
}
