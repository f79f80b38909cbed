//! Reading: the forms of a text, or its first fault.

ghost use Rattle.std.specs.Prelude.{◌≡◌, ◌≤◌, length, None, IfOk, IfErr};
ghost use Rattle.clvm_spec.specs.declared.limits.TheConstants.{MOST_SPELLED};
ghost use Rattle.clvm_spec.specs.Tokens.{Closing};
ghost use Rattle.text_tokens.specs.Meanings.{meant};
ghost use Rattle.open_lists.specs.Lists.{whole};
ghost use Rattle.lisp_read.specs.Views.{form_of};
ghost use Rattle.lisp_read.specs.Grammar.{Places, Reads, forms_of};
ghost use Rattle.lisp_read.specs.Faults.{IsReadFault};
ghost use Rattle.lisp_read.specs.Parsing.{reading, StepLeads, StepStops, IsKnown, answered};

use crate::{Form, FormBox, Forms, OutOfMemory, Place, ReadAt, ReadKind, Word};
use open_lists::{Fault, OpenList, OpenLists, Reach, TextForm};
use std::alloc::Global;
use text_tokens::{Front, Token, first_token};

impl TextForm<Place> for Form {
    ghost unknown = { λ _. None };

    fn unknown(&self) -> Option<Place> {
        None
    }
}

// The answer to a fault. No symbol is unknown to Chialisp.
fn answered(fault: Fault<Place>) -> ReadAt
    requires { IsKnown fault }
    ensures { result ≡ answered fault }
{
    match fault {
        Fault::At(kind, place) => ReadAt::At(kind, place.at),
        Fault::Unknown(_) => unreachable!(),
        Fault::OutOfMemory => ReadAt::OutOfMemory,
    }
}

// The form of a list that ends.
fn whole(alloc: Global, list: OpenList<Form, Place>) -> Result<Form, OutOfMemory>
    ensures { IfOk result (λ form. (there : Places) → form_of form ≡ whole (reading there) list) }
{
    let OpenList {
        place,
        mut forms,
        reach,
    } = list;
    let mut rest = match reach {
        Reach::Last(_, form) => form,
        Reach::Elements => Form::Atom(place, Word::from_vec(Vec::new(alloc))),
        Reach::Dot(_) => Form::Atom(place, Word::from_vec(Vec::new(alloc))),
    };
    'elements: while let Some(first) = forms.pop() {
        rest = Form::pair(alloc, place, first, rest)?;
    }
    Ok(rest)
}

// A `)` ends the innermost list, which is the next form of the one around it.
fn close(
    alloc: Global,
    lists: &mut OpenLists<Form, Place>,
    place: Place,
) -> Result<Option<Form>, Fault<Place>>
    ensures leads { IfOk result (StepLeads Closing place lists.old.lists.items lists.new.lists.items) }
    ensures stops { IfErr result (StepStops Closing place lists.old.lists.items) }
{
    let list = lists.close::<FormBox, Place>(place)?;
    let form = whole(alloc, list)?;
    lists.put::<FormBox, Place>(form, place)
}

// What a token leads to: to a form that stands in no list, or on.
fn step(
    alloc: Global,
    lists: &mut OpenLists<Form, Place>,
    token: Token<'_>,
    place: Place,
) -> Result<Option<Form>, Fault<Place>>
    ensures leads { IfOk result (StepLeads (meant token.entry) place lists.old.lists.items lists.new.lists.items) }
    ensures stops { IfErr result (StepStops (meant token.entry) place lists.old.lists.items) }
{
    match token {
        Token::Opening => {
            lists.open::<FormBox, Place>(alloc, place)?;
            Ok(None)
        }
        Token::Closing => close(alloc, lists, place),
        Token::Point => {
            lists.point::<FormBox, Place>(place)?;
            Ok(None)
        }
        Token::Literal(literal) => {
            let bytes = Word::from_vec(literal.bytes(alloc)?);
            lists.put::<FormBox, Place>(Form::Atom(place, bytes), place)
        }
        Token::Symbol(name) => {
            let name = Word::from_slice(alloc, name)?;
            lists.put::<FormBox, Place>(Form::Symbol(place, name), place)
        }
    }
}

/// The forms of a text of at most 67,108,864 bytes, from first to last, or its first fault. The text's number is that
/// of each place.
pub fn forms(alloc: Global, text: &[u8], number: u32) -> Result<Forms, ReadAt>
    requires { length text.now ≤ MOST_SPELLED }
    ensures found { IfOk result (λ forms. forms_of number text.now ≡ Reads forms) }
    ensures fault { IfErr result (IsReadFault (forms_of number text.now)) }
{
    let mut forms = Forms::new(alloc);
    let mut lists = OpenLists::new(alloc);
    let mut rest = text;
    'tokens: loop {
        match first_token(rest) {
            Front::AtEnd => {
                if lists.is_empty() {
                    return Ok(forms);
                }
                let at = text.len() as u32;
                let place = Place { text: number, at };
                let fault = lists.fault::<FormBox, Place>(ReadKind::End, place);
                return Err(answered(fault));
            }
            Front::Unread { kind, from } => {
                let at = (text.len() - from.len()) as u32;
                let place = Place { text: number, at };
                let fault = lists.fault::<FormBox, Place>(kind, place);
                return Err(answered(fault));
            }
            Front::Took {
                token,
                from,
                rest: behind,
            } => {
                let at = (text.len() - from.len()) as u32;
                let place = Place { text: number, at };
                match step(alloc, &mut lists, token, place) {
                    Ok(Some(form)) => forms.push(alloc, form)?,
                    Ok(None) => {}
                    Err(fault) => return Err(answered(fault)),
                }
                rest = behind;
            }
        }
    }
}
