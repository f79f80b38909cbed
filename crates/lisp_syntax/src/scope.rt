//! What may be named in an expression.

ghost use Rattle.std.specs.Prelude.{◌≡◌, ◌==◌, ◌||◌, not};
ghost use Rattle.lisp_spec.specs.ModuleFaults.{is_among};
ghost use Rattle.lisp_syntax.specs.Scopes.{scope_of};

use clvm_spec::op_codes::APPLY;
use indexmap::IndexSet;
use lisp_read::Word;

/// What may be named in an expression.
#[derive(Clone, Copy)]
pub struct Scope<'a> {
    pub parameters: &'a IndexSet<Word>,
    pub constants: &'a IndexSet<Word>,
    pub functions: &'a IndexSet<Word>,
    pub inlines: &'a IndexSet<Word>,
    /// Whether `a` may be a head.
    pub may_run: bool,
}

impl<'a> Scope<'a> {
    /// Whether it is the name of a parameter or a constant.
    pub(crate) fn has_symbol(&self, name: &Word) -> bool
        ensures { result ≡ is_among name.now (scope_of self.now).symbols }
    {
        self.parameters.contains(name) || self.constants.contains(name)
    }

    pub(crate) fn has_inline(&self, name: &Word) -> bool
        ensures { result ≡ is_among name.now (scope_of self.now).inlines }
    {
        self.inlines.contains(name)
    }

    /// Whether it is the name of an inline or a function.
    pub(crate) fn has_call(&self, name: &Word) -> bool
        ensures { result ≡ (is_among name.now (scope_of self.now).inlines || is_among name.now (scope_of self.now).functions) }
    {
        self.inlines.contains(name) || self.functions.contains(name)
    }

    /// Whether the operator of this code may be a head.
    pub(crate) fn may_apply(&self, code: u8) -> bool
        ensures { result ≡ ((scope_of self.now).may_run || not (code == 2)) }
    {
        self.may_run || code != APPLY
    }
}
