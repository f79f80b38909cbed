//! The shape of a spend that can be moved.

ghost use Rattle.std.specs.Prelude.{◌≡◌, Some, IsTrue, is_some, IfOk};
ghost use Rattle.clvm_spec.specs.Spelled.{spelled_tree};
ghost use Rattle.pool_spec.specs.Shape.{layer_of, solution_of};
ghost use Rattle.singleton_forward.specs.Shapes.{shape_seen};
ghost use Rattle.singleton_forward.specs.Solutions.{HasProof};

use crate::solution::Proof;
use block_form::Spend;
use coin_facts::OutOfMemory;
use std::alloc::Global;
use std::marker::Model;

/// A spend of the Forward shape. Its puzzle is curried with exactly two arguments. Its solution is a list of a lineage
/// proof, the coin's amount, and one more element.
#[derive(Debug, Drop)]
pub struct Shape {
    pub(crate) spend: Spend,
    pub(crate) proof: Proof,
}

impl Model for Shape {
    ghost use Rattle.pool_spec.specs.Shape.{Shape as ShapeView};
    ghost use Rattle.singleton_forward.specs.ShapeCode.{shape_code};

    ghost Value = { ShapeView };

    ghost coded = { shape_code };

    ghost use Rattle.singleton_forward.specs.Shapes.{shape_seen, IsShaped};

    ghost view = { λ s. shape_seen s.spend s.proof };

    ghost invariant = { λ s. IsShaped s.spend s.proof };
}

impl Shape {
    /// The spend that was handed in, lent.
    pub fn spend(&self) -> &Spend
        ensures value { result.now ≡ self.now.spend }
        ensures curried { IsTrue (is_some (layer_of (spelled_tree result.now.puzzle))) }
        ensures solution { solution_of result.now ≡ Some self.now.solution }
    {
        &self.spend
    }
}

/// The shape of a spend with this proof.
pub(crate) fn shape_with(alloc: Global, spend: &Spend, proof: Proof) -> Result<Shape, OutOfMemory>
    requires curried { IsTrue (is_some (layer_of (spelled_tree spend.now.puzzle))) }
    requires solution { HasProof (solution_of spend.now) proof }
    ensures { IfOk result (λ shape. shape ≡ shape_seen spend.now proof) }
{
    let puzzle = spend.puzzle.copy(alloc)?;
    let solution = spend.solution.copy(alloc)?;
    let spend = Spend {
        coin: spend.coin,
        puzzle,
        solution,
    };
    Ok(Shape { spend, proof })
}
