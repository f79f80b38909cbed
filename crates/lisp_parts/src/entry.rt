//! What stands in the place of a definition.

ghost use Rattle.std.specs.Prelude.{◌≡◌, IfOk};
ghost use Rattle.std.specs.List.{list_all};
ghost use Rattle.lisp_read.specs.Views.{form_of};
ghost use Rattle.lisp_spec.specs.Definitions.{is_ascii, entry_of, with_params as params_entry, constant as constant_entry, include as include_entry};
ghost use Rattle.lisp_read.specs.FormLists.{form_elements};
ghost use Rattle.lisp_parts.specs.Entries.{entry_seen, with_elements};
ghost use Rattle.lisp_parts.specs.Views.{role_of};

use crate::lists::{split, the_only};
use crate::parameters::is_parameter_tree;
use crate::{OutOfMemory, Place, Role, Written};
use lisp_read::{Form, Parts, Word};
use std::alloc::Global;

/// What stands in the place of a definition.
#[derive(Drop)]
pub(crate) enum Entry {
    Defines(Written),
    /// The name of a text.
    Includes(Word),
    /// No definition's shape.
    Shapeless,
}

// (NAME PARAMS body)
fn with_params(alloc: Global, role: Role, place: Place, parts: Form) -> Result<Entry, OutOfMemory>
    ensures { IfOk result (λ entry. entry_seen entry ≡ with_elements (params_entry (role_of role) place) (form_elements (form_of parts))) }
{
    let Some((name, parts)) = split(parts) else {
        return Ok(Entry::Shapeless);
    };
    let Parts::Symbol(name_place, name) = name.into_parts() else {
        return Ok(Entry::Shapeless);
    };
    let Some((params, parts)) = split(parts) else {
        return Ok(Entry::Shapeless);
    };
    let Some(body) = the_only(parts) else {
        return Ok(Entry::Shapeless);
    };
    if !is_parameter_tree(alloc, &params)? {
        return Ok(Entry::Shapeless);
    }
    Ok(Entry::Defines(Written {
        role,
        place,
        name,
        name_place,
        params,
        body,
    }))
}

// (NAME expression)
fn constant(alloc: Global, place: Place, parts: Form) -> Entry
    ensures { entry_seen result ≡ with_elements (constant_entry place) (form_elements (form_of parts)) }
{
    let Some((name, parts)) = split(parts) else {
        return Entry::Shapeless;
    };
    let Parts::Symbol(name_place, name) = name.into_parts() else {
        return Entry::Shapeless;
    };
    let Some(body) = the_only(parts) else {
        return Entry::Shapeless;
    };
    Entry::Defines(Written {
        role: Role::Constant,
        place,
        name,
        name_place,
        params: Form::Atom(name_place, Word::from_vec(Vec::new(alloc))),
        body,
    })
}

fn are_ascii(bytes: &[u8]) -> bool
    ensures { result ≡ list_all is_ascii bytes.now }
{
    bytes.iter().all(|byte| *byte < 128)
}

// (NAME)
fn include(parts: Form) -> Entry
    ensures { entry_seen result ≡ with_elements include_entry (form_elements (form_of parts)) }
{
    let Some(name) = the_only(parts) else {
        return Entry::Shapeless;
    };
    match name.into_parts() {
        Parts::Symbol(_, name) => Entry::Includes(name),
        Parts::Atom(_, bytes) => {
            if are_ascii(bytes.as_slice()) {
                Entry::Includes(bytes)
            } else {
                Entry::Shapeless
            }
        }
        Parts::Pair(_, _, _) => Entry::Shapeless,
    }
}

/// What a form is in the place of a definition.
pub(crate) fn read_entry(alloc: Global, form: Form) -> Result<Entry, OutOfMemory>
    ensures { IfOk result (λ entry. entry_seen entry ≡ entry_of (form_of form)) }
{
    let place = form.place();
    let Some((head, parts)) = split(form) else {
        return Ok(Entry::Shapeless);
    };
    if head.is_symbol(b"defun") {
        with_params(alloc, Role::Function, place, parts)
    } else if head.is_symbol(b"defun-inline") {
        with_params(alloc, Role::Inline, place, parts)
    } else if head.is_symbol(b"defmacro") {
        with_params(alloc, Role::Macro, place, parts)
    } else if head.is_symbol(b"defconstant") {
        Ok(constant(alloc, place, parts))
    } else if head.is_symbol(b"include") {
        Ok(include(parts))
    } else {
        Ok(Entry::Shapeless)
    }
}
