//! Laws of the definitions. Each is the contract of a function that does nothing.
ghost use Rattle.std.specs.Prelude.{List};
ghost use Rattle.block_spec.specs.declared.spend.Spend.{Spend};
ghost use Rattle.block_spec.specs.Added.{AddsUp};
ghost use Rattle.block_spec.specs.BlockLaws.{WrittenIsRead};

/// The spelling of a list's generator has 5 bytes, and those that each spend adds.
pub fn generator_bytes_law()
    ensures { (spends : List Spend) → AddsUp spends }
{}

/// A block's bytes are read as that block, where its coins have their puzzles' hashes.
pub fn written_is_read()
    ensures { WrittenIsRead }
{}
