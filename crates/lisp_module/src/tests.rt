//! The module of a small text, whose bound is worked out by hand.

ghost use Rattle.std.specs.Prelude.{◌≡◌, IfOk, codes};
ghost use Rattle.lisp_read.specs.Forms.{Symbol};
ghost use Rattle.lisp_read.specs.Views.{form_of};

use crate::{Form, Module, OutOfMemory, Place, Word};
use std::alloc::Global;
use std::test::Fail;

// The symbol `X` at this place of a text.
fn x(alloc: Global, at: u32) -> Result<Form, OutOfMemory>
    ensures { IfOk result (λ form. form_of form ≡ Symbol (record { text = 0; at = at }) (codes "X")) }
{
    let name = Word::from_vec(Vec::from_slice(alloc, b"X")?);
    Ok(Form::Symbol(Place { text: 0, at }, name))
}

// The module of `(mod X X)`.
fn small_module(alloc: Global) -> Result<Module, OutOfMemory> {
    let params = x(alloc, 5)?;
    let body = x(alloc, 7)?;
    let constants = Vec::new(alloc);
    let functions = Vec::new(alloc);
    let inlines = Vec::new(alloc);
    Ok(Module::new(params, constants, functions, inlines, body, 128))
}

#[test]
fn lends_its_parts(rt: HostRuntime) -> Result<(), Fail> {
    let module = small_module(rt.alloc())?;
    assert!(rt; module.params().place().at == 5);
    assert!(rt; module.body().place().at == 7);
    assert!(rt; module.constants().is_empty());
    assert!(rt; module.functions().is_empty());
    assert!(rt; module.inlines().is_empty());
    assert!(rt; module.bound() == 128);
    Ok(())
}
