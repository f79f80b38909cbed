//! The walk along a module's definitions, with included ones in place.

ghost use Rattle.std.specs.Prelude.{◌≡◌, ◌≤◌, ◌<◌, ◌+◌, ◌^◌, length, IfOk, IfErr, OnOk, IsErrOf, Ok};
ghost use Rattle.lisp_read.specs.Views.{form_of};
ghost use Rattle.lisp_spec.specs.Inclusion.{Texts, start, defined};
ghost use Rattle.lisp_spec.specs.InclusionLaws.{AreNumbered};
ghost use Rattle.ports_io.specs.Outside.{Rose, Stays};
ghost use Rattle.lisp_parts.specs.Faults.{IsFaultOf};
ghost use Rattle.lisp_parts.specs.Symbols.{IsAsciiName, HasAsciiSymbols, HaveAsciiSymbols};
ghost use Rattle.lisp_parts.specs.Steps.{Finds, ForSomeTexts, Learns, opened, stepped, StepsTo, InnerAscii, texts_left, inner_left, definitions_in};
ghost use Rattle.lisp_parts.specs.Asking.{AsksFor, IsAskedFor, FormAsks};
ghost use Rattle.lisp_parts.specs.Views.{written_of, all_written};
ghost use Rattle.lisp_parts.specs.Walks.{walk_of, IsNamed};

use crate::entry::{Entry, read_entry};
use crate::lists::Rest;
use crate::names::{Names, as_text, is_reserved};
use crate::parameters::repeated;
use crate::texts::named_forms;
use crate::{PartsFault, Place, Written};
use lisp_read::{Form, Word};
use lisp_spec::limits::MOST_TEXTS;
use ports_io::Library;
use std::alloc::Global;

/// How far the definitions of a module are walked.
#[derive(Drop)]
pub(crate) struct Walk {
    included: Names,
    names: Names,
    definitions: Vec<Written>,
}

impl Walk {
    fn new(alloc: Global) -> Walk
        ensures walk { walk_of result ≡ start }
        ensures named { IsNamed result }
    {
        Walk {
            included: Names::new(alloc),
            names: Names::new(alloc),
            definitions: Vec::new(alloc),
        }
    }

    // A definition stands behind the others.
    fn define(&mut self, alloc: Global, written: Written) -> Result<(), PartsFault>
        requires { IsNamed self.old }
        ensures found { OnOk result (defined (written_of written) (walk_of self.old) ≡ Ok (walk_of self.new)) }
        ensures named { OnOk result (IsNamed self.new) }
        ensures fault { IfErr result (IsFaultOf (defined (written_of written) (walk_of self.old))) }
        ensures included { self.new.included ≡ self.old.included }
        ensures quiet { IsErrOf result PartsFault.LibraryFault → ⊥ }
    {
        if is_reserved(&written.name) {
            return Err(PartsFault::NotAModule(written.name_place));
        }
        let new = self.names.add(written.name.copy(alloc)?)?;
        if !new {
            return Err(PartsFault::NameTwice(written.name_place));
        }
        if let Some(place) = repeated(alloc, &written.params)? {
            return Err(PartsFault::NameTwice(place));
        }
        self.definitions.push(written)?;
        Ok(())
    }

    // A name that is there already adds nothing; another one opens a text.
    fn include<B: Library>(
        &mut self,
        alloc: Global,
        library: &mut B,
        place: Place,
        name: Word,
    ) -> Result<Option<Rest>, PartsFault>
        requires numbered { AreNumbered (walk_of self.old) }
        requires text { IsAsciiName name }
        ensures found { (known : Texts) → Learns (B.texts library.old) self.old.included self.new.included (λ texts. StepsTo (opened texts place name (walk_of self.old)) (walk_of self.new) result) known }
        ensures numbered { OnOk result (AreNumbered (walk_of self.new)) }
        ensures named { IsNamed self.old → IsNamed self.new }
        ensures symbols { IfOk result InnerAscii }
        ensures less { IfOk result (λ inner. texts_left (walk_of self.new) + inner_left inner ≤ texts_left (walk_of self.old)) }
        ensures texts { Stays (B.texts library.old) (B.texts library.new) }
        ensures later { B.faults library.old ≤ B.faults library.new }
        ensures cause { IsErrOf result PartsFault.LibraryFault → Rose (B.faults library.old) (B.faults library.new) }
        ensures asked { IsErrOf result PartsFault.LibraryFault → IsAskedFor name (walk_of self.old) }
    {
        let new = self.included.add(name.copy(alloc)?)?;
        if !new {
            return Ok(None);
        }
        let number = self.included.len();
        if number > MOST_TEXTS {
            return Err(PartsFault::IncludeMissing(place));
        }
        match named_forms(alloc, library, as_text(&name), number as u32, place) {
            Ok(forms) => Ok(Some(forms)),
            Err(fault) => Err(fault),
        }
    }

    // Takes a form in the place of a definition. Where it opens a text, that text's forms are next.
    fn step<B: Library>(
        &mut self,
        alloc: Global,
        library: &mut B,
        form: Form,
    ) -> Result<Option<Rest>, PartsFault>
        requires numbered { AreNumbered (walk_of self.old) }
        requires named { IsNamed self.old }
        requires symbols { HasAsciiSymbols (form_of form) }
        ensures found { (known : Texts) → Learns (B.texts library.old) self.old.included self.new.included (λ texts. StepsTo (stepped texts (form_of form) (walk_of self.old)) (walk_of self.new) result) known }
        ensures numbered { OnOk result (AreNumbered (walk_of self.new)) }
        ensures named { OnOk result (IsNamed self.new) }
        ensures symbols { IfOk result InnerAscii }
        ensures less { IfOk result (λ inner. texts_left (walk_of self.new) + inner_left inner ≤ texts_left (walk_of self.old)) }
        ensures texts { Stays (B.texts library.old) (B.texts library.new) }
        ensures later { B.faults library.old ≤ B.faults library.new }
        ensures cause { IsErrOf result PartsFault.LibraryFault → Rose (B.faults library.old) (B.faults library.new) }
        ensures asked { IsErrOf result PartsFault.LibraryFault → FormAsks (form_of form) (walk_of self.old) }
    {
        let place = form.place();
        match read_entry(alloc, form)? {
            Entry::Defines(written) => match self.define(alloc, written) {
                Ok(()) => Ok(None),
                Err(fault) => Err(fault),
            },
            Entry::Includes(name) => self.include(alloc, library, place, name),
            Entry::Shapeless => Err(PartsFault::NotAModule(place)),
        }
    }
}

/// All definitions of these forms in their order, with included ones in place. The texts that are open wait on a stack,
/// each with what is left of it.
pub(crate) fn definitions<B: Library>(
    alloc: Global,
    library: &mut B,
    forms: Rest,
) -> Result<Vec<Written>, PartsFault>
    requires { HaveAsciiSymbols forms }
    ensures found { ForSomeTexts (B.texts library.old) (λ texts. Finds (λ list. all_written list.items) (definitions_in texts forms) result) }
    ensures texts { Stays (B.texts library.old) (B.texts library.new) }
    ensures later { B.faults library.old ≤ B.faults library.new }
    ensures cause { IsErrOf result PartsFault.LibraryFault → Rose (B.faults library.old) (B.faults library.new) }
    ensures asked { IsErrOf result PartsFault.LibraryFault → ForSomeTexts (B.texts library.old) (AsksFor (λ texts. definitions_in texts forms)) }
{
    let mut walk = Walk::new(alloc);
    let mut levels = Vec::new(alloc);
    levels.push(forms)?;
    'levels: while let Some(mut level) = levels.pop() {
        if let Some(form) = level.next() {
            levels.push(level)?;
            if let Some(inner) = walk.step(alloc, library, form)? {
                levels.push(inner)?;
            }
        }
    }
    let Walk {
        included: _,
        names: _,
        definitions,
    } = walk;
    Ok(definitions)
}
