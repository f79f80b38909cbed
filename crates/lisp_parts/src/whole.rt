//! A module's text as a whole.

ghost use Rattle.std.specs.Prelude.{◌≡◌, ◌≤◌, length, option_map, IfOk, IfSome, IsErrOf};
ghost use Rattle.lisp_read.specs.Views.{form_of};
ghost use Rattle.lisp_read.specs.FormLists.{form_elements};
ghost use Rattle.lisp_spec.specs.Inclusion.{longest_text, parts_of, parts_of_text};
ghost use Rattle.ports_io.specs.Outside.{Rose, Stays};
ghost use Rattle.lisp_parts.specs.Symbols.{HasAsciiSymbols, HaveAsciiSymbols};
ghost use Rattle.lisp_parts.specs.Steps.{Finds, ForSomeTexts};
ghost use Rattle.lisp_parts.specs.Asking.{TextAsks};
ghost use Rattle.lisp_parts.specs.TakenApart.{outline_of, Answers};

use crate::lists::{Rest, elements};
use crate::parameters::{is_parameter_tree, repeated};
use crate::texts::{read_form, start_of};
use crate::walk::definitions;
use crate::{OutOfMemory, PartsFault, Written};
use lisp_read::Form;
use ports_io::Library;
use std::alloc::Global;

/// A module's text taken apart.
#[derive(Drop)]
pub struct ModuleParts {
    pub params: Form,
    /// All definitions in the order of the text, with included ones in the place of their `include`.
    pub definitions: Vec<Written>,
    pub body: Form,
}

/// `(mod PARAMS definition.. body)`, of which the definitions aren't looked at yet.
#[derive(Drop)]
pub(crate) struct Outline {
    params: Form,
    definitions: Rest,
    body: Form,
}

// What has the shape of a module. The last form is the body.
fn outline_in(alloc: Global, form: Form) -> Result<Option<Outline>, OutOfMemory>
    ensures outline { IfOk result (λ outline. option_map outline_of outline ≡ parts_of (form_elements (form_of form))) }
    ensures symbols { HasAsciiSymbols (form_of form) → IfOk result (λ outline. IfSome outline (λ o. HaveAsciiSymbols o.definitions)) }
{
    let Some(mut forms) = elements(alloc, form)? else {
        return Ok(None);
    };
    let Some(body) = forms.pop() else {
        return Ok(None);
    };
    let mut definitions = Rest::of(forms);
    let Some(head) = definitions.next() else {
        return Ok(None);
    };
    let Some(params) = definitions.next() else {
        return Ok(None);
    };
    if !head.is_symbol(b"mod") {
        return Ok(None);
    }
    if !is_parameter_tree(alloc, &params)? {
        return Ok(None);
    }
    Ok(Some(Outline {
        params,
        definitions,
        body,
    }))
}

// The module's own text, which is read first.
fn read_outline(alloc: Global, text: &[u8]) -> Result<Outline, PartsFault>
    requires { length text.now ≤ longest_text }
    ensures found { Finds outline_of (parts_of_text text.now) result }
    ensures symbols { IfOk result (λ outline. HaveAsciiSymbols outline.definitions) }
    ensures quiet { IsErrOf result PartsFault.LibraryFault → ⊥ }
{
    let form = read_form(alloc, text, 0)?;
    match outline_in(alloc, form)? {
        Some(outline) => Ok(outline),
        None => Err(PartsFault::NotAModule(start_of(0))),
    }
}

/// A module's text of at most 67,108,864 bytes, taken apart: its texts are read, and the shapes and names of its
/// definitions are looked at; or the first fault of that, with the number of its text and its place. A built-in name never
/// asks the library, and each other name asks it once.
///
/// The texts that are included are those that the library tells, if it tells its texts. `LibraryFault` comes only where the
/// library's count of faults rose, and for a text without which the first fault is that it is missing: what is built in, what
/// is there already and what stands behind another fault ask the library for nothing.
pub fn parts<B: Library>(
    alloc: Global,
    text: &[u8],
    library: &mut B,
) -> Result<ModuleParts, PartsFault>
    requires { length text.now ≤ longest_text }
    ensures answer { ForSomeTexts (B.texts library.old) (λ texts. Answers text.now texts result) }
    ensures texts { Stays (B.texts library.old) (B.texts library.new) }
    ensures later { B.faults library.old ≤ B.faults library.new }
    ensures cause { IsErrOf result PartsFault.LibraryFault → Rose (B.faults library.old) (B.faults library.new) }
    ensures asked { IsErrOf result PartsFault.LibraryFault → ForSomeTexts (B.texts library.old) (TextAsks text.now) }
{
    let Outline {
        params,
        definitions: forms,
        body,
    } = read_outline(alloc, text)?;
    if let Some(place) = repeated(alloc, &params)? {
        return Err(PartsFault::NameTwice(place));
    }
    match definitions(alloc, library, forms) {
        Ok(definitions) => Ok(ModuleParts {
            params,
            definitions,
            body,
        }),
        Err(fault) => Err(fault),
    }
}
