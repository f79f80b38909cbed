//! A list of forms.

ghost use Rattle.std.specs.Prelude.{◌≡◌, ◌==◌, [], ◌∷◌, ◌++◌, length, map, MatchOption, OnOk, OnErr};
ghost use Rattle.lisp_read.specs.Views.{form_of};

use crate::{Form, OutOfMemory};
use std::alloc::Global;
use std::marker::Model;

/// The forms of a text, from first to last.
#[derive(Drop)]
pub struct Forms {
    items: Vec<Form>,
}

impl Model for Forms {
    ghost use Rattle.std.specs.Prelude.{List, map};
    ghost use Rattle.std.specs.Coded.{coded_list};
    ghost use Rattle.lisp_read.specs.Forms.{Form};
    ghost use Rattle.lisp_read.specs.FormCode.{form_code};

    ghost Value = { List Form };

    ghost coded = { coded_list form_code };

    ghost use Rattle.lisp_read.specs.Views.{form_of};

    ghost view = { λ f. map form_of f.items.items };
}

impl Forms {
    /// No form.
    pub fn new(alloc: Global) -> Forms
        ensures { result ≡ [] }
    {
        Forms {
            items: Vec::new(alloc),
        }
    }

    /// Adds a form at the end. Without memory nothing changes.
    pub fn push(&mut self, _alloc: Global, form: Form) -> Result<(), OutOfMemory>
        ensures ok { OnOk result (self.new ≡ self.old ++ form_of form ∷ []) }
        ensures out_of_memory { OnErr result (self.new ≡ self.old) }
    {
        self.items.push(form)?;
        Ok(())
    }

    /// Takes the last form out.
    pub fn pop(&mut self) -> Option<Form>
        ensures { MatchOption result ((self.old ≡ []) × (self.new ≡ [])) (λ form. self.old ≡ self.new ++ form_of form ∷ []) }
    {
        self.items.pop()
    }

    pub fn is_empty(&self) -> bool
        ensures { result ≡ (length self.now == 0) }
    {
        self.items.is_empty()
    }

    /// The forms of a vector.
    pub fn from_vec(forms: Vec<Form>) -> Forms
        ensures { result ≡ map form_of forms.items }
    {
        Forms { items: forms }
    }

    /// The forms, lent.
    pub fn as_slice(&self) -> &[Form]
        ensures { map form_of result.now ≡ self.now }
    {
        self.items.as_slice()
    }

    /// The forms, handed over.
    pub fn into_vec(self) -> Vec<Form>
        ensures { map form_of result.items ≡ self }
    {
        self.items
    }
}
