//! Forms that are seen, whatever they are made of.

ghost use Rattle.std.specs.Prelude.{◌≡◌};
ghost use Rattle.lisp_read.specs.Forms.{Form};
ghost use Rattle.lisp_read.specs.Sights.{sight_form};

use crate::Place;

/// What is seen of a form: the bytes of an atom, the name of a symbol, or the first and the rest of a pair.
#[derive(Drop)]
pub enum Sight<'a, S> {
    Atom(Place, &'a [u8]),
    Symbol(Place, &'a [u8]),
    Pair(Place, &'a S, &'a S),
}

/// What is seen as a form, one pair at a time.
pub trait Seen: Sized {
    ghost seen: { Self → Form };

    /// What the form is made of.
    fn look(&self) -> Sight<'_, Self>
        ensures { sight_form seen result ≡ seen self.now };
}
