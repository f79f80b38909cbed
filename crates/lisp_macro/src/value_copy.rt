//! A value as it is seen and built, so that forms are copied into values and back.

use crate::value::{Node, Value};
use bumpalo::Bump;
use lisp_read::{Built, OutOfMemory, Place, Seen, Sight};

impl<'a> Seen for Value<'a> {
    ghost seen = { λ value. value };

    fn look(&self) -> Sight<'_, Value<'a>> {
        match self.node() {
            Node::Atom(place, bytes) => Sight::Atom(place, bytes),
            Node::Symbol(place, name) => Sight::Symbol(place, name),
            Node::Pair(place, first, rest) => Sight::Pair(place, first, rest),
        }
    }
}

impl<'a> Built<'a> for &'a Value<'a> {
    type Memory = &'a Bump;

    ghost built = { λ value. value.now };

    fn atom(bump: &'a Bump, place: Place, bytes: &'a [u8]) -> Result<&'a Value<'a>, OutOfMemory> {
        Value::atom(bump, place, bytes)
    }

    fn symbol(bump: &'a Bump, place: Place, name: &'a [u8]) -> Result<&'a Value<'a>, OutOfMemory> {
        Value::symbol(bump, place, name)
    }

    fn pair(
        bump: &'a Bump,
        place: Place,
        first: &'a Value<'a>,
        rest: &'a Value<'a>,
    ) -> Result<&'a Value<'a>, OutOfMemory> {
        Value::pair(bump, place, first, rest)
    }
}
