//! Forms that are built, whatever they are made of.

ghost use Rattle.std.specs.Prelude.{◌≡◌, IfOk};
ghost use Rattle.lisp_read.specs.Forms.{Form, Atom, Symbol, Pair};

use crate::{OutOfMemory, Place};

/// What is built as a form, in a memory of this kind. It may keep bytes that are lent for so long.
pub trait Built<'a>: Drop {
    type Memory: Copy;

    ghost built: { Self → Form };

    fn atom(memory: Self::Memory, place: Place, bytes: &'a [u8]) -> Result<Self, OutOfMemory>
        ensures { IfOk result (λ atom. built atom ≡ Atom place bytes.now) };

    fn symbol(memory: Self::Memory, place: Place, name: &'a [u8]) -> Result<Self, OutOfMemory>
        ensures { IfOk result (λ symbol. built symbol ≡ Symbol place name.now) };

    fn pair(
        memory: Self::Memory,
        place: Place,
        first: Self,
        rest: Self,
    ) -> Result<Self, OutOfMemory>
        ensures { IfOk result (λ pair. built pair ≡ Pair place (built first) (built rest)) };
}
