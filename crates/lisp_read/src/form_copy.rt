//! A form as it is seen and built, and so copied.

ghost use Rattle.std.specs.Prelude.{◌≡◌, IfOk};
ghost use Rattle.lisp_read.specs.Views.{form_of};

use crate::{Built, Form, OutOfMemory, Place, Seen, Sight, Word, copy};
use std::alloc::Global;

impl Seen for Form {
    ghost seen = { form_of };

    fn look(&self) -> Sight<'_, Form> {
        match self {
            Form::Atom(place, bytes) => Sight::Atom(*place, bytes.as_slice()),
            Form::Symbol(place, name) => Sight::Symbol(*place, name.as_slice()),
            Form::Pair(place, first, rest) => Sight::Pair(*place, first.get(), rest.get()),
        }
    }
}

impl<'a> Built<'a> for Form {
    type Memory = Global;

    ghost built = { form_of };

    fn atom(alloc: Global, place: Place, bytes: &'a [u8]) -> Result<Form, OutOfMemory> {
        Ok(Form::Atom(place, Word::from_slice(alloc, bytes)?))
    }

    fn symbol(alloc: Global, place: Place, name: &'a [u8]) -> Result<Form, OutOfMemory> {
        Ok(Form::Symbol(place, Word::from_slice(alloc, name)?))
    }

    fn pair(alloc: Global, place: Place, first: Form, rest: Form) -> Result<Form, OutOfMemory> {
        Form::pair(alloc, place, first, rest)
    }
}

impl Form {
    /// The same form again, however deep it is.
    pub fn copy(&self, alloc: Global) -> Result<Form, OutOfMemory>
        ensures { IfOk result (λ copy. form_of copy ≡ form_of self.now) }
    {
        copy::<Form, Form>(alloc, alloc, self)
    }
}
