//! Forms as lists.

ghost use Rattle.std.specs.Prelude.{◌≡◌, ◌∷◌, ◌^◌, ◌<◌, [], false, length, option_map, IfOk, MatchOption};
ghost use Rattle.lisp_read.specs.Forms.{Pair, place_of_form, is_pair};
ghost use Rattle.lisp_read.specs.Views.{form_of};
ghost use Rattle.lisp_read.specs.FormLists.{form_elements, single};

use crate::OutOfMemory;
use lisp_read::{Form, Forms, Parts};
use std::alloc::Global;
use std::marker::Model;

/// The first and the rest of a pair.
pub(crate) fn split(form: Form) -> Option<(Form, Form)>
    ensures { MatchOption result (is_pair (form_of form) ≡ false) (λ parts. form_of form ≡ Pair (place_of_form (form_of form)) (form_of parts.0) (form_of parts.1)) }
{
    match form.into_parts() {
        Parts::Pair(_, first, rest) => Some((first.into_inner(), rest.into_inner())),
        _ => None,
    }
}

/// The one element of a proper list that has one.
pub(crate) fn the_only(list: Form) -> Option<Form>
    ensures { option_map form_of result ≡ single (form_of list) }
{
    let (first, rest) = split(list)?;
    if rest.is_nil() { Some(first) } else { None }
}

/// The elements of a proper list.
pub(crate) fn elements(alloc: Global, list: Form) -> Result<Option<Forms>, OutOfMemory>
    ensures { IfOk result (λ elements. elements ≡ form_elements (form_of list)) }
{
    let mut elements = Forms::new(alloc);
    let mut rest = list;
    'elements: loop {
        match rest.into_parts() {
            Parts::Pair(_, first, behind) => {
                elements.push(alloc, first.into_inner())?;
                rest = behind.into_inner();
            }
            Parts::Atom(_, bytes) => {
                let is_end = bytes.as_slice().is_empty();
                return Ok(if is_end { Some(elements) } else { None });
            }
            Parts::Symbol(_, _) => return Ok(None),
        }
    }
}

/// What is left of the forms of a text, the next first.
#[derive(Drop)]
pub(crate) struct Rest {
    last_first: Forms,
}

impl Model for Rest {
    ghost use Rattle.std.specs.Prelude.{List, reverse};
    ghost use Rattle.std.specs.Coded.{coded_list};
    ghost use Rattle.lisp_read.specs.Forms.{Form};
    ghost use Rattle.lisp_read.specs.FormCode.{form_code};

    ghost Value = { List Form };

    ghost coded = { coded_list form_code };

    ghost view = { λ rest. reverse rest.last_first };
}

impl Rest {
    pub(crate) fn of(forms: Forms) -> Rest
        ensures forms { result ≡ forms }
        ensures few { length result < 2 ^ 64 }
    {
        let mut items = forms.into_vec();
        let _count = items.len();
        items.reverse();
        Rest {
            last_first: Forms::from_vec(items),
        }
    }

    /// Takes the next form out.
    pub(crate) fn next(&mut self) -> Option<Form>
        ensures { MatchOption result ((self.old ≡ []) × (self.new ≡ [])) (λ form. self.old ≡ form_of form ∷ self.new) }
    {
        self.last_first.pop()
    }
}
