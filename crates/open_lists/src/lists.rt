//! The lists that are open, one in another.

ghost use Rattle.std.specs.Prelude.{◌≡◌, ◌==◌, ◌≤◌, ℕ, [], ◌∷◌, ◌++◌, length, IfOk, IfErr, None};
ghost use Rattle.clvm_spec.specs.Tokens.{Opening, Closing, Point};
ghost use Rattle.clvm_spec.specs.Grammar.{Breaks, most_open};
ghost use Rattle.open_lists.specs.Readings.{Reading};
ghost use Rattle.open_lists.specs.Lists.{resumed};
ghost use Rattle.open_lists.specs.Held.{forms_held, held, handed};
ghost use Rattle.open_lists.specs.Faults.{IsFirstFault};
ghost use Rattle.open_lists.specs.Steps.{Takes, Stops, Closes, Puts, PutStops, IsUnread};

use crate::{Fault, OpenList, Reach, TextForm};
use clvm_spec::ScanKind;
use clvm_spec::limits::MOST_OPEN;
use std::alloc::Global;

/// The lists that are open, the outermost first.
#[derive(Drop)]
pub struct OpenLists<F, P> {
    lists: Vec<OpenList<F, P>>,
    ghost few: { length lists.items ≤ most_open },
}

// The first fault, where what stands next in a list within others is wrong.
fn fault_in<P: Copy + Drop, F: TextForm<P>, M, Q>(
    outer: &[OpenList<F, P>],
    list: &OpenList<F, P>,
    kind: ScanKind,
    place: P,
) -> Fault<P>
    ensures { (r : Reading F P M Q F.unknown) → IsFirstFault r result (resumed r 0 (outer.now ++ list.now ∷ []) (Breaks kind None (r.placed place))) }
{
    let mut rest = outer;
    'lists: while let [first, inner @ ..] = rest {
        if let Some(fault) = first.told::<M, Q>(kind) {
            return fault;
        }
        rest = inner;
    }
    match list.told::<M, Q>(kind) {
        Some(fault) => fault,
        None => Fault::At(kind, place),
    }
}

impl<P: Copy + Drop, F: TextForm<P>> OpenLists<F, P> {
    /// No list is open.
    pub fn new(alloc: Global) -> OpenLists<F, P>
        ensures { result.lists.items ≡ [] }
    {
        OpenLists {
            lists: Vec::new(alloc),
        }
    }

    /// Whether no list is open.
    pub fn is_empty(&self) -> bool
        ensures { result ≡ (length self.now.lists.items == 0) }
    {
        self.lists.is_empty()
    }

    /// The first fault, where no token can be read at this place.
    pub fn fault<M, Q>(mut self, kind: ScanKind, place: P) -> Fault<P>
        ensures { IsUnread M Q F.unknown kind place self.lists.items result }
    {
        match self.lists.pop() {
            None => Fault::At(kind, place),
            Some(list) => match list.reach {
                // Behind the last form whatever isn't `)` is the dot's fault.
                Reach::Last(dot, _) => {
                    fault_in::<P, F, M, Q>(self.lists.as_slice(), &list, ScanKind::Dot, dot)
                }
                _ => fault_in::<P, F, M, Q>(self.lists.as_slice(), &list, kind, place),
            },
        }
    }

    /// A form is the next of the innermost list. Where no list is open it is handed out.
    pub fn put<M, Q>(&mut self, form: F, place: P) -> Result<Option<F>, Fault<P>>
        ensures leads { IfOk result (Puts M Q F.unknown form self.old.lists.items self.new.lists.items) }
        ensures stops { IfErr result (PutStops M Q F.unknown form self.old.lists.items) }
        ensures holds { IfOk result (λ done. held self.new.lists.items ++ handed done ≡ held self.old.lists.items ++ form ∷ []) }
    {
        match self.lists.pop() {
            None => Ok(Some(form)),
            Some(list) => {
                if !list.takes_form() {
                    let lists = self.lists.as_slice();
                    return Err(fault_in::<P, F, M, Q>(lists, &list, ScanKind::Dot, place));
                }
                match list.with_form(form) {
                    Ok(next) => self.lists.push(next)?,
                    Err(_) => return Err(Fault::OutOfMemory),
                }
                Ok(None)
            }
        }
    }

    /// A `(` opens a list within the others.
    pub fn open<M, Q>(&mut self, alloc: Global, place: P) -> Result<(), Fault<P>>
        ensures takes { IfOk result (λ _. Takes M Q F.unknown Opening place self.old.lists.items self.new.lists.items) }
        ensures stops { IfErr result (Stops M Q F.unknown Opening place self.old.lists.items) }
        ensures holds { IfOk result (λ _. held self.new.lists.items ≡ held self.old.lists.items) }
    {
        let begun = OpenList::new(alloc, place);
        match self.lists.pop() {
            None => {
                self.lists.push(begun)?;
                Ok(())
            }
            Some(list) => {
                let lists = self.lists.as_slice();
                if !list.takes_form() {
                    return Err(fault_in::<P, F, M, Q>(lists, &list, ScanKind::Dot, place));
                }
                if lists.len() >= MOST_OPEN - 1 {
                    return Err(fault_in::<P, F, M, Q>(lists, &list, ScanKind::Deep, place));
                }
                self.lists.push(list)?;
                self.lists.push(begun)?;
                Ok(())
            }
        }
    }

    /// Behind a dot stands the last form of its list.
    pub fn point<M, Q>(&mut self, place: P) -> Result<(), Fault<P>>
        ensures takes { IfOk result (λ _. Takes M Q F.unknown Point place self.old.lists.items self.new.lists.items) }
        ensures stops { IfErr result (Stops M Q F.unknown Point place self.old.lists.items) }
        ensures holds { IfOk result (λ _. held self.new.lists.items ≡ held self.old.lists.items) }
    {
        match self.lists.pop() {
            None => Err(Fault::At(ScanKind::Dot, place)),
            Some(list) => {
                if !list.takes_dot() {
                    let lists = self.lists.as_slice();
                    return Err(fault_in::<P, F, M, Q>(lists, &list, ScanKind::Dot, place));
                }
                self.lists.push(list.with_dot(place))?;
                Ok(())
            }
        }
    }

    /// A `)` ends the innermost list, which is handed out.
    pub fn close<M, Q>(&mut self, place: P) -> Result<OpenList<F, P>, Fault<P>>
        ensures closes { IfOk result (Closes M Q F.unknown place self.old.lists.items self.new.lists.items) }
        ensures stops { IfErr result (Stops M Q F.unknown Closing place self.old.lists.items) }
        ensures holds { IfOk result (λ list. held self.old.lists.items ≡ held self.new.lists.items ++ forms_held list) }
    {
        match self.lists.pop() {
            None => Err(Fault::At(ScanKind::Close, place)),
            Some(list) => {
                if !list.takes_end() {
                    let lists = self.lists.as_slice();
                    return Err(fault_in::<P, F, M, Q>(lists, &list, ScanKind::Close, place));
                }
                Ok(list)
            }
        }
    }
}
