//! Forms of small texts as expressions. The outcomes are worked out by hand.

use crate::{FormFault, Place, Scope, expression};
use indexmap::IndexSet;
use lisp_read::{Word, forms};
use std::alloc::Global;
use std::test::Fail;

fn names(alloc: Global, name: &[u8]) -> Result<IndexSet<Word>, Fail> {
    let mut names = IndexSet::new(alloc);
    names.insert(Word::from_slice(alloc, name)?)?;
    Ok(names)
}

// How many nodes the one form of a text has, where X is a parameter, C a constant, F a function and I an inline.
fn count(alloc: Global, text: &[u8]) -> Result<Result<usize, FormFault>, Fail> {
    if text.len() > 1_000 {
        return Err(Fail::new("the text is too long"));
    }
    let mut read = forms(alloc, text, 0).map_err(|_| Fail::new("it can't be read"))?;
    let Some(form) = read.pop() else {
        return Err(Fail::new("there is no form"));
    };
    let parameters = names(alloc, b"X")?;
    let constants = names(alloc, b"C")?;
    let functions = names(alloc, b"F")?;
    let inlines = names(alloc, b"I")?;
    let scope = Scope {
        parameters: &parameters,
        constants: &constants,
        functions: &functions,
        inlines: &inlines,
        may_run: true,
    };
    Ok(match expression(alloc, &form, &scope) {
        Ok(found) => Ok(found.nodes.len()),
        Err(fault) => Err(fault),
    })
}

#[test]
fn reads_each_kind_of_expression(rt: HostRuntime) -> Result<(), Fail> {
    let at = |at| Place { text: 0, at };
    for (text, outcome) in [
        ("X", Ok(1)),
        ("(q 1 2)", Ok(1)),
        ("(quote (1 2))", Ok(1)),
        ("(if X 1 2)", Ok(4)),
        ("(list 1 C)", Ok(6)),
        ("(a X C)", Ok(6)),
        ("(F X)", Ok(4)),
        ("(I)", Ok(2)),
        ("(qq (1 (unquote X)))", Ok(7)),
        ("Y", Err(FormFault::Unbound(at(0)))),
        ("((F) 1)", Err(FormFault::BadForm(at(0)))),
        ("(G . 1)", Err(FormFault::BadForm(at(0)))),
        ("(list (if 1 2) Y)", Err(FormFault::BadForm(at(6)))),
        ("(list (G) Y)", Err(FormFault::Unbound(at(7)))),
        ("(unquote X)", Err(FormFault::BadForm(at(0)))),
    ] {
        let found = count(rt.alloc(), text.as_bytes())?;
        assert_eq!(rt; found, outcome, "of {text}");
    }
    Ok(())
}
