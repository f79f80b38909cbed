//! A list that is open.

ghost use Rattle.std.specs.Prelude.{◌≡◌, [], ◌∷◌, true, IfOk, MatchOption};
ghost use Rattle.open_lists.specs.declared.list.Reach.TheVariants as reach;
ghost use Rattle.open_lists.specs.Reaches.{takes_form, takes_dot, takes_end, dot_of, forms_with, reach_with};
ghost use Rattle.open_lists.specs.Faults.{first_unknown, Tells, Keeps};

use crate::{Fault, OutOfMemory, TextForm};
use clvm_spec::ScanKind;
use std::alloc::Global;

/// How far a list is read: up to its `(` or an element, up to the dot at this place, or up to the form behind that dot.
#[derive(Drop)]
pub enum Reach<F, P> {
    Elements,
    Dot(P),
    Last(P, F),
}

/// A list that is open, with its elements so far.
#[derive(Drop)]
pub struct OpenList<F, P> {
    pub place: P,
    pub forms: Vec<F>,
    pub reach: Reach<F, P>,
}

// The first symbol of some forms that their language doesn't know.
fn first_unknown<P, F: TextForm<P>>(forms: &[F]) -> Option<P>
    ensures { result ≡ first_unknown F.unknown forms.now }
{
    let mut rest = forms;
    'forms: while let [form, after @ ..] = rest {
        if let Some(place) = form.unknown() {
            return Some(place);
        }
        rest = after;
    }
    None
}

impl<P: Copy + Drop, F: TextForm<P>> OpenList<F, P> {
    pub(crate) fn new(alloc: Global, place: P) -> OpenList<F, P>
        ensures place { result.place ≡ place }
        ensures forms { result.forms.items ≡ [] }
        ensures reach { result.reach ≡ reach.Elements }
    {
        OpenList {
            place,
            forms: Vec::new(alloc),
            reach: Reach::Elements,
        }
    }

    pub(crate) fn takes_form(&self) -> bool
        ensures { result ≡ takes_form self.now.reach }
    {
        match self.reach {
            Reach::Elements => true,
            Reach::Dot(_) => true,
            Reach::Last(_, _) => false,
        }
    }

    pub(crate) fn takes_dot(&self) -> bool
        ensures { result ≡ takes_dot self.now.forms.items self.now.reach }
    {
        match self.reach {
            Reach::Elements => !self.forms.is_empty(),
            Reach::Dot(_) => false,
            Reach::Last(_, _) => false,
        }
    }

    pub(crate) fn takes_end(&self) -> bool
        ensures { result ≡ takes_end self.now.reach }
    {
        match self.reach {
            Reach::Elements => true,
            Reach::Dot(_) => false,
            Reach::Last(_, _) => true,
        }
    }

    pub(crate) fn dot(&self) -> Option<P>
        ensures { result ≡ dot_of self.now.reach }
    {
        match self.reach {
            Reach::Elements => None,
            Reach::Dot(dot) => Some(dot),
            Reach::Last(dot, _) => Some(dot),
        }
    }

    // The fault that the list tells in place of one within it: an unknown symbol stands before that, and what is wrong
    // behind a dot is the dot's fault, but nesting too deep.
    pub(crate) fn told<M, Q>(&self, kind: ScanKind) -> Option<Fault<P>>
        ensures { MatchOption result (Keeps M Q F.unknown [] (self.now ∷ []) kind) (Tells M Q F.unknown self.now kind) }
    {
        if let Some(name) = first_unknown(self.forms.as_slice()) {
            return Some(Fault::Unknown(name));
        }
        match self.dot() {
            Some(dot) => {
                if kind.is_dots_fault() {
                    Some(Fault::At(ScanKind::Dot, dot))
                } else {
                    None
                }
            }
            None => None,
        }
    }

    pub(crate) fn with_dot(self, dot: P) -> OpenList<F, P>
        ensures { result ≡ record self { reach = reach.Dot dot } }
    {
        let OpenList {
            place,
            forms,
            reach: _,
        } = self;
        let reach = Reach::Dot(dot);
        OpenList {
            place,
            forms,
            reach,
        }
    }

    pub(crate) fn with_form(self, form: F) -> Result<OpenList<F, P>, OutOfMemory>
        requires { takes_form self.reach ≡ true }
        ensures place { IfOk result (λ next. next.place ≡ self.place) }
        ensures forms { IfOk result (λ next. next.forms.items ≡ forms_with self.forms.items self.reach form) }
        ensures reach { IfOk result (λ next. next.reach ≡ reach_with self.reach form) }
    {
        let OpenList {
            place,
            mut forms,
            reach,
        } = self;
        match reach {
            Reach::Elements => {
                forms.push(form)?;
                let reach = Reach::Elements;
                Ok(OpenList {
                    place,
                    forms,
                    reach,
                })
            }
            Reach::Dot(dot) => {
                let reach = Reach::Last(dot, form);
                Ok(OpenList {
                    place,
                    forms,
                    reach,
                })
            }
            Reach::Last(_, _) => unreachable!(),
        }
    }
}
