ghost use Rattle.std.specs.Prelude.{◌≡◌, false, IfOk, MatchOption};
ghost use Rattle.lisp_read.specs.Forms.{Atom, Symbol, Pair, place_of_form, is_pair};
ghost use Rattle.lisp_read.specs.Views.{form_of, whole_of};
ghost use Rattle.lisp_read.specs.Turns.{turned};

use crate::{OutOfMemory, Place, Word};
use std::alloc::Global;
use std::marker::Model;
use std::mem;

/// A form of a text, with its place. Its drop and its walks go down neither along rests nor along firsts.
#[cycle(form)]
pub enum Form {
    /// The bytes of a number, of hexadecimal digits or of a quoted text, or none: the end of a list, or an empty one.
    Atom(Place, Word),
    /// Every other word.
    Symbol(Place, Word),
    /// An element of a list and what stands behind it. Each pair of a list has the place of its `(`.
    Pair(Place, FormBox, FormBox),
}

/// What a form is made of. It may be taken apart anywhere.
#[derive(Drop)]
pub enum Parts {
    Atom(Place, Word),
    Symbol(Place, Word),
    Pair(Place, FormBox, FormBox),
}

/// A box with a form, which contracts see as the form.
#[cycle(form)]
#[derive(Drop)]
pub struct FormBox {
    inner: Box<Form>,
}

impl Model for FormBox {
    ghost use Rattle.lisp_read.specs.Forms.{Form};
    ghost use Rattle.lisp_read.specs.Turns.{turns_to_drop};
    ghost use Rattle.lisp_read.specs.FormCode.{form_code};

    ghost Value = { Form };

    ghost coded = { form_code };

    ghost use Rattle.lisp_read.specs.Views.{form_of};

    ghost view = { λ b. form_of b.inner.value };

    ghost size = { turns_to_drop };
}

impl FormBox {
    /// A box with this form.
    pub fn new(alloc: Global, form: Form) -> Result<FormBox, OutOfMemory>
        ensures { IfOk result (λ b. b ≡ form_of form) }
    {
        Ok(FormBox {
            inner: Box::new(alloc, form)?,
        })
    }

    /// The form in the box, lent.
    pub fn get(&self) -> &Form
        ensures { form_of result.now ≡ self.now }
    {
        &self.inner
    }

    /// The form in the box, whose memory is given back.
    pub fn into_inner(self) -> Form
        ensures { form_of result ≡ self }
    {
        let FormBox { inner } = self;
        Box::into_inner(inner)
    }

    /// Puts another form into the box, and hands out the one that stood there.
    pub fn replace(&mut self, form: Form) -> Form
        ensures old { form_of result ≡ self.old }
        ensures new { self.new ≡ form_of form }
    {
        Box::replace(&mut self.inner, form)
    }

    // Of a pair the rest moves to the first's place, the other form to the rest's, and the first into the other's box.
    fn turn(&mut self, other: &mut FormBox)
        ensures { (self.new, other.new) ≡ turned self.old other.old }
    {
        if let Form::Pair(_, first, rest) = self.inner.as_mut() {
            mem::swap(first, rest);
            mem::swap(rest, other);
        }
    }
}

impl Form {
    /// The pair of two forms.
    pub fn pair(alloc: Global, place: Place, first: Form, rest: Form) -> Result<Form, OutOfMemory>
        ensures { IfOk result (λ pair. form_of pair ≡ Pair place (form_of first) (form_of rest)) }
    {
        let first = FormBox::new(alloc, first)?;
        let rest = FormBox::new(alloc, rest)?;
        Ok(Form::Pair(place, first, rest))
    }

    /// The form, taken apart.
    pub fn into_parts(self) -> Parts
        ensures { whole_of result ≡ form_of self }
    {
        match self {
            Self::Atom(place, bytes) => Parts::Atom(place, bytes),
            Self::Symbol(place, name) => Parts::Symbol(place, name),
            Self::Pair(place, first, rest) => Parts::Pair(place, first, rest),
        }
    }

    /// Where the form begins.
    pub fn place(&self) -> Place
        ensures { result ≡ place_of_form (form_of self.now) }
    {
        match self {
            Self::Atom(place, _) => *place,
            Self::Symbol(place, _) => *place,
            Self::Pair(place, _, _) => *place,
        }
    }

    /// The first and the rest of a pair, lent.
    pub fn as_pair(&self) -> Option<(&Form, &Form)>
        ensures { MatchOption result (is_pair (form_of self.now) ≡ false) (λ parts. form_of self.now ≡ Pair (place_of_form (form_of self.now)) (form_of parts.0.now) (form_of parts.1.now)) }
    {
        match self {
            Self::Pair(_, first, rest) => Some((first.get(), rest.get())),
            _ => None,
        }
    }

    /// Whether the form is a pair.
    pub fn is_pair(&self) -> bool
        ensures { result ≡ is_pair (form_of self.now) }
    {
        match self {
            Self::Pair(_, _, _) => true,
            _ => false,
        }
    }
}

impl Drop for Form {
    // A first that is a pair is turned round within its box, so each form is dropped step by step, however deep it is.
    #[cycle(drop)]
    fn drop(mut self) {
        loop {
            match self {
                Self::Pair(place, mut first, mut rest) => {
                    if first.get().is_pair() {
                        first.turn(&mut rest);
                        self = Self::Pair(place, rest, first);
                    } else {
                        drop(first);
                        self = rest.into_inner();
                    }
                }
                Self::Atom(_, bytes) => {
                    drop(bytes);
                    return;
                }
                Self::Symbol(_, name) => {
                    drop(name);
                    return;
                }
            }
        }
    }
}
