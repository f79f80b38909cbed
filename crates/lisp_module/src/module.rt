ghost use Rattle.std.specs.Prelude.{◌≡◌, map};
ghost use Rattle.std.specs.List.{AllByRecursion};
ghost use Rattle.lisp_read.specs.Views.{form_of};
ghost use Rattle.lisp_spec.specs.ExpressionWeights.{module_bound};
ghost use Rattle.lisp_module.specs.Views.{constant_of, definition_of, module_of_parts, IsSpelled, IsOfText};

use lisp_read::{Form, Word};
use std::marker::Model;

/// A constant's name, and the spelling of its tree.
#[derive(Drop)]
pub struct Constant {
    pub name: Word,
    pub value: Word,
}

/// A function or an inline function: its name, its tree of parameters and its expanded body.
#[derive(Drop)]
pub struct Definition {
    pub name: Word,
    pub params: Form,
    pub body: Form,
}

/// The module that a text stands for. The functions, the inlines and the constants are in the order of the text, and
/// the calls of macros are expanded.
#[derive(Drop)]
pub struct Module {
    params: Form,
    constants: Vec<Constant>,
    functions: Vec<Definition>,
    inlines: Vec<Definition>,
    body: Form,
    bound: u128,
}

impl Model for Module {
    ghost use Rattle.lisp_spec.specs.Modules.{Module};
    ghost use Rattle.lisp_module.specs.ModuleCode.{module_code};

    ghost Value = { Module };

    ghost coded = { module_code };

    ghost use Rattle.lisp_module.specs.Views.{module_of_parts, IsWhole};

    ghost view = { λ m. module_of_parts m.params m.constants.items m.functions.items m.inlines.items m.body };

    ghost invariant = { λ m. IsWhole m.constants.items (module_of_parts m.params m.constants.items m.functions.items m.inlines.items m.body) m.bound };
}

impl Module {
    /// The module of these parts, which are those of some text. The bound is the module's own.
    pub fn new(
        params: Form,
        constants: Vec<Constant>,
        functions: Vec<Definition>,
        inlines: Vec<Definition>,
        body: Form,
        bound: u128,
    ) -> Module
        requires text { IsOfText (module_of_parts params constants.items functions.items inlines.items body) }
        requires spelled { AllByRecursion IsSpelled constants.items }
        requires bound { bound ≡ module_bound (module_of_parts params constants.items functions.items inlines.items body) }
        ensures { result ≡ module_of_parts params constants.items functions.items inlines.items body }
    {
        Module {
            params,
            constants,
            functions,
            inlines,
            body,
            bound,
        }
    }

    /// The tree of the module's own parameters.
    pub fn params(&self) -> &Form
        ensures { form_of result.now ≡ self.now.params }
    {
        &self.params
    }

    /// The constants, each with the spelling of its tree.
    pub fn constants(&self) -> &[Constant]
        ensures same { map constant_of result.now ≡ self.now.constants }
        ensures spelled { AllByRecursion IsSpelled result.now }
    {
        self.constants.as_slice()
    }

    /// The functions.
    pub fn functions(&self) -> &[Definition]
        ensures { map definition_of result.now ≡ self.now.functions }
    {
        self.functions.as_slice()
    }

    /// The inline functions.
    pub fn inlines(&self) -> &[Definition]
        ensures { map definition_of result.now ≡ self.now.inlines }
    {
        self.inlines.as_slice()
    }

    /// The body. What the module stands for is that of a text, so the laws of such modules hold of it.
    pub fn body(&self) -> &Form
        ensures same { form_of result.now ≡ self.now.body }
        ensures text { IsOfText self.now }
    {
        &self.body
    }

    /// The bound of the module's code, in bytes.
    pub fn bound(&self) -> u128
        ensures { result ≡ module_bound self.now }
    {
        self.bound
    }
}
