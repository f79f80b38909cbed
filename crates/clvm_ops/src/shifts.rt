//! Shifts.

ghost use Rattle.std.specs.Prelude.{◌≡◌, ℕ, ◌+◌, ◌<◌, ◌≤◌, ◌^◌, length};
ghost use Rattle.clvm_spec.specs.declared.limits.TheConstants.{NUMBER_BYTES};
ghost use Rattle.clvm_spec.specs.Operators.{or_wide, new_shifted, shift_of_number, shift_of_bits};
ghost use Rattle.clvm_tree.specs.Nodes.{AreKnown};
ghost use Rattle.clvm_tree.specs.Operators.{trees_at};
ghost use Rattle.clvm_ops.specs.Answering.{CanApply, Yields, Applies};

use crate::application::Application;
use crate::arithmetic::{bits_shifted, shifted};
use crate::operands::two_numbers;
use clvm_spec::arithmetic::is_shift_amount;
use clvm_spec::{costs, number_length};
use clvm_tree::{Answer, Node, OpFault, Trees, number, unsigned};
use std::alloc::Global;

impl Application<'_> {
    pub(crate) fn shift_of_number(&self, trees: &mut Trees) -> Result<Answer, OpFault>
        requires { CanApply trees.old self.now }
        ensures { Applies shift_of_number trees.old trees.new self.now result }
    {
        let (value, by) = two_numbers(trees, self.operands)?;
        let size = value.len();
        let by = number(by);
        if !is_shift_amount(by) {
            return Err(OpFault::Shift);
        }
        let shifted = shifted(number(value), by);
        self.give_shifted(trees, shifted, size)
    }

    pub(crate) fn shift_of_bits(&self, trees: &mut Trees) -> Result<Answer, OpFault>
        requires { CanApply trees.old self.now }
        ensures { Applies shift_of_bits trees.old trees.new self.now result }
    {
        let (value, by) = two_numbers(trees, self.operands)?;
        let size = value.len();
        let by = number(by);
        if !is_shift_amount(by) {
            return Err(OpFault::Shift);
        }
        let bits = bits_shifted(unsigned(value), by);
        self.give_shifted(trees, bits, size)
    }

    // Answers a shifted number where there is one. The bytes of the value and its own cost more, those of the shift don't.
    fn give_shifted(
        &self,
        trees: &mut Trees,
        number: Option<i128>,
        size: usize,
    ) -> Result<Answer, OpFault>
        requires size { size ≤ NUMBER_BYTES }
        requires can { CanApply trees.old self.now }
        ensures { Yields trees.old trees.new self.now (or_wide number (new_shifted self.now.cost size)) result }
    {
        match number {
            Some(number) => {
                let sizes = size + number_length(number);
                let cost = self.cost as u64 + costs::SHIFT_BYTE_COST * sizes as u64;
                self.give_number(trees, number, cost)
            }
            None => Err(OpFault::Wide),
        }
    }
}
