//! Modules' texts at known places. The outcomes are worked out by hand.

use crate::{ModuleParts, PartsFault, Place, ReadKind, Role, parts};
use ports_io::MemoryLibrary;
use std::alloc::Global;
use std::test::Fail;

// A library with one text, `own.clib`.
fn library(alloc: Global, text: &str) -> Result<MemoryLibrary, Fail> {
    let mut library = MemoryLibrary::new(alloc, Vec::new(alloc));
    library.put(alloc, "own.clib", text.as_bytes())?;
    Ok(library)
}

fn taken(
    alloc: Global,
    text: &str,
    included: &str,
) -> Result<Result<ModuleParts, PartsFault>, Fail> {
    if text.len() > 1_000 {
        return Err(Fail::new("the text is too long"));
    }
    let mut library = library(alloc, included)?;
    Ok(parts(alloc, text.as_bytes(), &mut library))
}

#[test]
fn finds_definitions_in_their_order(rt: HostRuntime) -> Result<(), Fail> {
    let text =
        "(mod (X) (defun once (A) A) (defconstant C 7) (defun-inline twice (A) A) (defmacro m (A) A) X)";
    let found = taken(rt.alloc(), text, "()")?.map_err(|_| Fail::new("a fault"))?;
    let roles = [Role::Function, Role::Constant, Role::Inline, Role::Macro];
    assert!(rt; found.definitions.len() == 4);
    for (definition, role) in found.definitions.iter().zip(roles) {
        assert!(rt; definition.role == role);
    }
    Ok(())
}

#[test]
fn puts_included_definitions_in_their_place(rt: HostRuntime) -> Result<(), Fail> {
    let text = "(mod (X) (defun once (A) A) (include own.clib) (defun thrice (A) A) X)";
    let found = taken(
        rt.alloc(),
        text,
        "((defconstant SEVEN 7) (defun twice (A) A))",
    )?
    .map_err(|_| Fail::new("a fault"))?;
    let places = [
        Place { text: 0, at: 9 },
        Place { text: 1, at: 1 },
        Place { text: 1, at: 23 },
        Place { text: 0, at: 47 },
    ];
    assert!(rt; found.definitions.len() == 4);
    for (definition, place) in found.definitions.iter().zip(places) {
        assert_eq!(rt; definition.place, place);
    }
    Ok(())
}

#[test]
fn tells_the_first_fault_with_its_text_and_place(rt: HostRuntime) -> Result<(), Fail> {
    let own = |at| Place { text: 0, at };
    let included = |at| Place { text: 1, at };
    for (text, library, fault) in [
        ("", "()", PartsFault::NotAModule(own(0))),
        ("(mod (X) X", "()", PartsFault::Read(ReadKind::End, own(10))),
        ("(mod (X))", "()", PartsFault::NotAModule(own(0))),
        ("(mod (X) X) 5", "()", PartsFault::NotAModule(own(0))),
        (
            "(mod (X) (defun once X) X)",
            "()",
            PartsFault::NotAModule(own(9)),
        ),
        (
            "(mod (X) (defun if (A) A) X)",
            "()",
            PartsFault::NotAModule(own(16)),
        ),
        ("(mod (X X) X)", "()", PartsFault::NameTwice(own(8))),
        (
            "(mod (X) (defun once (A A) A) X)",
            "()",
            PartsFault::NameTwice(own(24)),
        ),
        (
            "(mod (X) (defun once (A) A) (defun once (A) A) X)",
            "()",
            PartsFault::NameTwice(own(35)),
        ),
        (
            "(mod (X) (include none.clib) X)",
            "()",
            PartsFault::IncludeMissing(own(9)),
        ),
        (
            "(mod (X) (include own.clib) X)",
            "(5",
            PartsFault::Read(ReadKind::End, included(2)),
        ),
        (
            "(mod (X) (include own.clib) X)",
            "5",
            PartsFault::NotAModule(included(0)),
        ),
        (
            "(mod (X) (include own.clib) X)",
            "(5)",
            PartsFault::NotAModule(included(1)),
        ),
        (
            "(mod (X) (defun once (A) A) (include own.clib) X)",
            "((defun once (A) A))",
            PartsFault::NameTwice(included(8)),
        ),
    ] {
        match taken(rt.alloc(), text, library)? {
            Ok(_) => assert!(rt; false, "{text} has a fault"),
            Err(told) => assert_eq!(rt; told, fault, "of {text}"),
        }
    }
    Ok(())
}

// The library fails when it is first asked; a built-in name doesn't ask it.
#[test]
fn tells_a_library_that_fails(rt: HostRuntime) -> Result<(), Fail> {
    let alloc = rt.alloc();
    let mut library = MemoryLibrary::new(alloc, vec![in alloc; 0]?);
    let built_in = parts(alloc, b"(mod (X) (include tree_hash.clib) X)", &mut library).map_err(
        |_| Fail::new("a fault"),
    )?;
    assert!(rt; built_in.definitions.len() == 4);
    match parts(alloc, b"(mod (X) (include own.clib) X)", &mut library) {
        Ok(_) => assert!(rt; false, "the library fails"),
        Err(told) => assert_eq!(rt; told, PartsFault::LibraryFault),
    }
    Ok(())
}
