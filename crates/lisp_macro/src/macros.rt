//! The macros of a module, by name.

ghost use Rattle.std.specs.Prelude.{◌≡◌, None, [], ◌∷◌, ◌++◌, OnOk, OnErr, MatchOption, Some, is_some};
ghost use Rattle.lisp_read.specs.Views.{form_of};
ghost use Rattle.lisp_spec.specs.Macros.{macro_named};

use indexmap::IndexMap;
use lisp_read::{Form, OutOfMemory, Word};
use std::alloc::Global;
use std::marker::Model;

/// The parameters of a macro, a tree of names, and the form that its calls evaluate.
#[derive(Drop)]
pub(crate) struct Definition {
    pub(crate) params: Form,
    pub(crate) body: Form,
}

/// Macros with names that are all different. Contracts see them in the order in which they were added.
#[derive(Drop)]
pub struct Macros {
    definitions: IndexMap<Word, Definition>,
}

impl Model for Macros {
    ghost use Rattle.std.specs.Prelude.{List};
    ghost use Rattle.lisp_spec.specs.Macros.{Macro};
    ghost use Rattle.lisp_macro.specs.MacroCode.{macro_list_code};

    ghost Value = { List Macro };

    ghost coded = { macro_list_code };

    ghost use Rattle.lisp_macro.specs.Defined.{macros_of};

    ghost view = { λ m. macros_of m.definitions.entries };
}

impl Macros {
    ghost use Rattle.lisp_macro.specs.Defined.{macro_with};

    /// No macro.
    pub fn new(alloc: Global) -> Macros
        ensures { result ≡ [] }
    {
        Macros {
            definitions: IndexMap::new(alloc),
        }
    }

    /// Adds a macro with a name that none has yet. Without memory nothing changes.
    pub fn add(
        &mut self,
        alloc: Global,
        name: &[u8],
        params: Form,
        body: Form,
    ) -> Result<(), OutOfMemory>
        requires { macro_named name.now self.old ≡ None }
        ensures ok { OnOk result (self.new ≡ self.old ++ record { name = name.now; params = form_of params; body = form_of body } ∷ []) }
        ensures out_of_memory { OnErr result (self.new ≡ self.old) }
    {
        let name = Word::from_vec(Vec::from_slice(alloc, name)?);
        self.definitions.insert(name, Definition { params, body })?;
        Ok(())
    }

    /// Whether there is a macro of this name.
    pub fn has(&self, name: &Word) -> bool
        ensures { result ≡ is_some (macro_named name.now self.now) }
    {
        self.find(name).is_some()
    }

    /// The macro of this name.
    pub(crate) fn find(&self, name: &Word) -> Option<&Definition>
        ensures { MatchOption result (macro_named name.now self.now ≡ None) (λ definition. macro_named name.now self.now ≡ Some (macro_with name.now definition.now)) }
    {
        self.definitions.get(name)
    }
}
