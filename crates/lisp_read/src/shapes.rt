//! What a form is asked: whether it is a list, of how many elements, and which they are.

ghost use Rattle.std.specs.Prelude.{◌≡◌, MatchOption, is_some};
ghost use Rattle.lisp_read.specs.Views.{form_of};
ghost use Rattle.lisp_read.specs.FormLists.{form_elements, is_empty, is_symbol, is_long, IsOnly, IsNotOne, AreThree, IsNotThree};

use crate::Form;

impl Form {
    /// Whether the form is the empty atom.
    pub fn is_nil(&self) -> bool
        ensures { result ≡ is_empty (form_of self.now) }
    {
        match self {
            Self::Atom(_, bytes) => bytes.as_slice().is_empty(),
            _ => false,
        }
    }

    /// Whether the form is this symbol.
    pub fn is_symbol(&self, name: &[u8]) -> bool
        ensures { result ≡ is_symbol name.now (form_of self.now) }
    {
        match self {
            Self::Symbol(_, other) => other.as_slice() == name,
            _ => false,
        }
    }

    /// Whether the form is a proper list, which the empty atom ends.
    pub fn is_list(&self) -> bool
        ensures { result ≡ is_some (form_elements (form_of self.now)) }
    {
        let mut here = self;
        'elements: while let Form::Pair(_, _, rest) = here {
            here = rest.get();
        }
        here.is_nil()
    }

    /// Whether the form is a proper list of so many elements.
    pub fn is_list_of(&self, count: u32) -> bool
        ensures { result ≡ is_long count (form_elements (form_of self.now)) }
    {
        let mut here = self;
        let mut more = count;
        'elements: while let Form::Pair(_, _, rest) = here {
            if more == 0 {
                return false;
            }
            more -= 1;
            here = rest.get();
        }
        more == 0 && here.is_nil()
    }

    /// The one element of a proper list that has one.
    pub fn only(&self) -> Option<&Form>
        ensures { MatchOption result (IsNotOne (form_of self.now)) (λ only. IsOnly (form_of self.now) (form_of only.now)) }
    {
        match self {
            Self::Pair(_, first, rest) if rest.get().is_nil() => Some(first.get()),
            _ => None,
        }
    }

    /// The elements of a proper list that has three.
    pub fn three(&self) -> Option<(&Form, &Form, &Form)>
        ensures { MatchOption result (IsNotThree (form_of self.now)) (λ three. AreThree (form_of self.now) (form_of three.0.now) (form_of three.1.now) (form_of three.2.now)) }
    {
        let (first, behind) = self.as_pair()?;
        let (second, last) = behind.as_pair()?;
        let third = last.only()?;
        Some((first, second, third))
    }
}
