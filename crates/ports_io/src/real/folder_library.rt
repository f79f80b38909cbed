// The files of a folder as a library.
ghost use Rattle.std.specs.Prelude.{◌≡◌, ◌≤◌, ℕ, IfOk, IsErrOf, List, None, Ok, OnOk, Option, Some, false, option_map};
ghost use Rattle.std.specs.List.{list_all};
ghost use Rattle.ports_io.specs.Outside.{IsTextOf, Rose, counted};
ghost use Rattle.ports_io.specs.Names.{is_file_name, is_name_byte};

use super::InputSource;
use crate::count::one_more;
use crate::{InputFault, Library, LibraryError, read_to_limit};
use std::alloc::Global;
use std::fs::File;
use std::io::ErrorKind;
use std::rt::Files;

/// The most bytes of a text.
const LONGEST_TEXT: usize = 67_108_864;

const LONGEST_NAME: usize = 128;

/// The folder in which the program was started as a library, through the runtime that `main` has. It tells
/// no texts.
#[derive(Drop)]
pub struct FolderLibrary<'a, R> {
    rt: &'a R,
    faults: u64,
}

impl<'a, R: Files> FolderLibrary<'a, R> {
    pub fn new(rt: &'a R) -> FolderLibrary<'a, R>
        ensures { result.faults ≡ 0 }
    {
        FolderLibrary { rt, faults: 0 }
    }
}

impl<'a, R: Files> Library for FolderLibrary<'a, R> {
    ghost texts = { λ _. None };

    ghost faults = { λ library. library.faults };

    /// The file of this name. There is no text where the name isn't 1 to 128 letters, digits, `.`, `_` and
    /// `-` or begins with `.`, where the file has more than 67,108,864 bytes, and where the system says that
    /// it isn't there.
    fn fetch(&mut self, alloc: Global, name: &str) -> Result<Option<Vec<u8>>, LibraryError>
        ensures answer { IfOk result (λ found. IsTextOf name.now None (option_map (λ text. text.items) found)) }
        ensures later { self.old.faults ≤ self.new.faults }
        ensures cause { IsErrOf result LibraryError.Fault → Rose self.old.faults self.new.faults }
        ensures bad_name { is_file_name name.now ≡ false → result ≡ Ok None }
        ensures fault { IsErrOf result LibraryError.Fault → self.new.faults ≡ counted self.old.faults }
        ensures quiet { OnOk result (self.new.faults ≡ self.old.faults) }
        ensures memory { IsErrOf result LibraryError.OutOfMemory → self.new.faults ≡ self.old.faults }
    {
        if !is_file_name(name) {
            return Ok(None);
        }
        match read_file(self.rt, alloc, name) {
            Err(LibraryError::Fault) => {
                self.faults = one_more(self.faults);
                Err(LibraryError::Fault)
            }
            answer => answer,
        }
    }
}

fn read_file<R: Files>(rt: &R, alloc: Global, name: &str) -> Result<Option<Vec<u8>>, LibraryError> {
    let file = match File::open(rt, name) {
        Ok(file) => file,
        Err(error) if error.kind() == ErrorKind::NotFound => return Ok(None),
        Err(_) => return Err(LibraryError::Fault),
    };
    match read_to_limit(alloc, &mut InputSource::new(file), LONGEST_TEXT) {
        Ok(text) => Ok(Some(text)),
        Err(InputFault::TooLong) => Ok(None),
        Err(InputFault::Fault) => Err(LibraryError::Fault),
        Err(InputFault::OutOfMemory) => Err(LibraryError::OutOfMemory),
    }
}

fn is_file_name(name: &str) -> bool
    ensures { result ≡ is_file_name name.now }
{
    let bytes = name.as_bytes();
    if bytes.is_empty() || bytes.len() > LONGEST_NAME || bytes[0] == b'.' {
        return false;
    }
    are_name_bytes(bytes)
}

fn are_name_bytes(bytes: &[u8]) -> bool
    ensures { result ≡ list_all is_name_byte bytes.now }
{
    bytes.iter().all(|byte| is_name_byte(*byte))
}

fn is_name_byte(byte: u8) -> bool
    ensures { result ≡ is_name_byte byte }
{
    matches!(byte, b'a'..=b'z' | b'A'..=b'Z' | b'0'..=b'9' | b'.' | b'_' | b'-')
}

#[cfg(test)]
mod tests {
    use super::*;
    use std::fs::OpenFile;
    use std::{fs, io};

    const FILES: [&str; 3] = ["text_1.clib", ".hidden", "long-2.CLIB"];

    const FOLDER: &str = "folder.d";

    fn make_files(rt: &impl Files) -> io::Result<()> {
        for file in FILES {
            fs::write(rt, file, "(x)")?;
        }
        fs::create(rt, FILES[2])?.set_len(67_108_865)?;
        fs::create_dir(rt, FOLDER)
    }

    fn remove_files(rt: &impl Files) -> io::Result<()> {
        for file in FILES {
            fs::remove_file(rt, file)?;
        }
        fs::remove_dir(rt, FOLDER)
    }

    fn length_of<R: Files>(
        library: &mut FolderLibrary<'_, R>,
        alloc: Global,
        name: &str,
    ) -> Result<Option<usize>, LibraryError> {
        Ok(library.fetch(alloc, name)?.map(|text| text.len()))
    }

    #[test]
    fn finds_the_files_of_the_folder(rt: HostRuntime) -> io::Result<()> {
        make_files(&rt)?;
        let mut library = FolderLibrary::new(&rt);
        let rows = [
            ("text_1.clib", Ok(Some(3))),
            ("absent", Ok(None)),
            ("long-2.CLIB", Ok(None)),
            (".hidden", Ok(None)),
            ("./text_1.clib", Ok(None)),
            ("folder.d", Err(LibraryError::Fault)),
        ];
        for (name, want) in rows {
            assert!(rt; length_of(&mut library, rt.alloc(), name) == want, "{name}");
        }
        assert_eq!(rt; library.faults, 1);
        remove_files(&rt)
    }

    #[test]
    fn knows_the_names_of_files(rt: HostRuntime) {
        let rows = [
            ("a", true),
            ("Z9._-", true),
            ("condition_codes.clib", true),
            ("", false),
            (".a", false),
            ("a/b", false),
            ("a b", false),
            ("a\0", false),
            ("\u{e9}", false),
            ("@", false),
            ("[", false),
            ("`", false),
            ("{", false),
            (":", false),
            (
                "abcdefgh01234567abcdefgh01234567abcdefgh01234567abcdefgh01234567abcdefgh01234567abcdefgh01234567abcdefgh01234567abcdefgh01234567",
                true,
            ),
            (
                "abcdefgh01234567abcdefgh01234567abcdefgh01234567abcdefgh01234567abcdefgh01234567abcdefgh01234567abcdefgh01234567abcdefgh01234567x",
                false,
            ),
        ];
        for (name, want) in rows {
            assert_eq!(rt; is_file_name(name), want, "{name}");
        }
    }
}
