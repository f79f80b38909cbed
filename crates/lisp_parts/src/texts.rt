//! The forms of a module's texts.

ghost use Rattle.std.specs.Prelude.{◌≡◌, ◌≤◌, ◌<◌, ◌^◌, ℕ, List, Option, None, option_map, length, IfOk, IfErr, IsErrOf};
ghost use Rattle.lisp_read.specs.Views.{form_of};
ghost use Rattle.lisp_read.specs.FormLists.{the_only};
ghost use Rattle.lisp_spec.specs.BuiltIns.{built_in as built_in_text};
ghost use Rattle.lisp_spec.specs.Inclusion.{longest_text, form_of_text, forms_of_library, if_short};
ghost use Rattle.ports_io.specs.Outside.{IsTextOf, Rose, Stays};
ghost use Rattle.lisp_parts.specs.Faults.{IsFaultOf, SaysNothing};
ghost use Rattle.lisp_parts.specs.Symbols.{HasAsciiSymbols, HaveAsciiSymbols};
ghost use Rattle.lisp_parts.specs.Steps.{Finds, forms_named};

use crate::lists::{Rest, elements};
use crate::{PartsFault, Place};
use clvm_spec::limits::MOST_SPELLED;
use lisp_library::built_in;
use lisp_read::{Form, Forms, ReadAt, forms};
use ports_io::{Library, LibraryError};
use std::alloc::Global;

// The one form.
fn the_one(mut forms: Forms) -> Option<Form>
    ensures { option_map form_of result ≡ the_only forms }
{
    let form = forms.pop()?;
    if forms.is_empty() { Some(form) } else { None }
}

/// Where a text begins.
pub(crate) fn start_of(number: u32) -> Place
    ensures { result ≡ record { text = number; at = 0 } }
{
    Place {
        text: number,
        at: 0,
    }
}

/// The one form of a text, or the text's first fault.
pub(crate) fn read_form(alloc: Global, text: &[u8], number: u32) -> Result<Form, PartsFault>
    requires { length text.now ≤ longest_text }
    ensures found { IfOk result (λ form. form_of_text number text.now ≡ Ok (form_of form)) }
    ensures symbols { IfOk result (λ form. HasAsciiSymbols (form_of form)) }
    ensures fault { IfErr result (IsFaultOf (form_of_text number text.now)) }
    ensures quiet { IsErrOf result PartsFault.LibraryFault → ⊥ }
{
    match forms(alloc, text, number) {
        Ok(forms) => match the_one(forms) {
            Some(form) => Ok(form),
            None => Err(PartsFault::NotAModule(start_of(number))),
        },
        Err(ReadAt::At(kind, at)) => Err(PartsFault::Read(kind, Place { text: number, at })),
        Err(ReadAt::OutOfMemory) => Err(PartsFault::OutOfMemory),
    }
}

// The definitions of a library's text.
fn library_forms(alloc: Global, text: &[u8], number: u32) -> Result<Rest, PartsFault>
    requires { length text.now ≤ longest_text }
    ensures found { Finds (λ forms. forms) (forms_of_library number text.now) result }
    ensures symbols { IfOk result HaveAsciiSymbols }
    ensures few { IfOk result (λ forms. length forms < 2 ^ 64) }
    ensures quiet { IsErrOf result PartsFault.LibraryFault → ⊥ }
{
    let form = read_form(alloc, text, number)?;
    match elements(alloc, form)? {
        Some(forms) => Ok(Rest::of(forms)),
        None => Err(PartsFault::NotAModule(start_of(number))),
    }
}

// The library's text of this name, if it isn't too long.
fn fetch_short<B: Library>(
    alloc: Global,
    library: &mut B,
    name: &str,
) -> Result<Option<Vec<u8>>, PartsFault>
    ensures answer { IfOk result (λ text. (answer : Option (List ℕ)) × IsTextOf name.now (B.texts library.old) answer × (option_map (λ t. t.items) text ≡ if_short answer)) }
    ensures only { IfErr result SaysNothing }
    ensures texts { Stays (B.texts library.old) (B.texts library.new) }
    ensures later { B.faults library.old ≤ B.faults library.new }
    ensures cause { IsErrOf result PartsFault.LibraryFault → Rose (B.faults library.old) (B.faults library.new) }
{
    match library.fetch(alloc, name) {
        Ok(Some(text)) => Ok(if text.len() <= MOST_SPELLED {
            Some(text)
        } else {
            None
        }),
        Ok(None) => Ok(None),
        Err(LibraryError::Fault) => Err(PartsFault::LibraryFault),
        Err(LibraryError::OutOfMemory) => Err(PartsFault::OutOfMemory),
    }
}

/// The definitions of the text of this name, which an include at this place asks for. A name that is built in never
/// asks the library.
pub(crate) fn named_forms<B: Library>(
    alloc: Global,
    library: &mut B,
    name: &str,
    number: u32,
    place: Place,
) -> Result<Rest, PartsFault>
    ensures found { (answer : Option (List ℕ)) × IsTextOf name.now (B.texts library.old) answer × Finds (λ forms. forms) (forms_named number place name.now answer) result }
    ensures symbols { IfOk result HaveAsciiSymbols }
    ensures few { IfOk result (λ forms. length forms < 2 ^ 64) }
    ensures texts { Stays (B.texts library.old) (B.texts library.new) }
    ensures later { B.faults library.old ≤ B.faults library.new }
    ensures cause { IsErrOf result PartsFault.LibraryFault → Rose (B.faults library.old) (B.faults library.new) }
    ensures asked { IsErrOf result PartsFault.LibraryFault → built_in_text name.now ≡ None }
{
    if let Some(text) = built_in(name) {
        return library_forms(alloc, text.as_bytes(), number);
    }
    match fetch_short(alloc, library, name) {
        Ok(Some(text)) => library_forms(alloc, text.as_slice(), number),
        Ok(None) => Err(PartsFault::IncludeMissing(place)),
        Err(fault) => Err(fault),
    }
}
