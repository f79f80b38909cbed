use crate::first_fault;
use clvm_spec::Operands;
use clvm_tree::{OpFault, Trees};
use std::test::Fail;

#[test]
fn tells_the_first_operand_that_is_not_of_its_kind(rt: HostRuntime) -> Result<(), Fail> {
    let alloc = rt.alloc();
    let mut trees = Trees::new(alloc);
    let nil = trees.nil();
    let five = trees.atom(alloc, &[5])?;
    let widest = trees.atom(alloc, &[1; 16])?;
    let long = trees.atom(alloc, &[1; 17])?;
    let pair = trees.pair(alloc, nil, nil)?;
    for (kind, operands, answer) in [
        (Operands::Any, [pair, long, five], Ok(())),
        (Operands::Pairs, [pair, pair, pair], Ok(())),
        (Operands::Pairs, [pair, five, nil], Err(OpFault::Operand(1))),
        (Operands::Atoms, [nil, long, five], Ok(())),
        (Operands::Atoms, [nil, long, pair], Err(OpFault::Operand(2))),
        (Operands::Numbers, [nil, five, widest], Ok(())),
        (
            Operands::Numbers,
            [five, pair, long],
            Err(OpFault::Operand(1)),
        ),
        (Operands::Numbers, [five, long, pair], Err(OpFault::Wide)),
        (Operands::AtomAndNumbers, [long, five, widest], Ok(())),
        (
            Operands::AtomAndNumbers,
            [pair, long, five],
            Err(OpFault::Operand(0)),
        ),
        (
            Operands::AtomAndNumbers,
            [long, five, pair],
            Err(OpFault::Operand(2)),
        ),
        (
            Operands::AtomAndNumbers,
            [five, long, pair],
            Err(OpFault::Wide),
        ),
    ] {
        assert_eq!(rt; first_fault(&trees, kind, &operands), answer);
    }
    Ok(())
}
