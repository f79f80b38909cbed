//! Macros and expansion at known forms. The outcomes are worked out by hand or by an independent program.

ghost use Rattle.std.specs.Prelude.{◌≡◌, IfOk};

use crate::{Form, MacroFault, Macros, OutOfMemory, Place, expand};
use lisp_read::{Word, forms};
use std::alloc::Global;
use std::test::Fail;

// The number of the text with the forms that are expanded, and of that with the macros.
const FORMS: u32 = 0;

const MACROS: u32 = 1;

fn at(at: u32) -> Place {
    Place { text: FORMS, at }
}

fn word(alloc: Global, name: &str) -> Result<Word, OutOfMemory>
    ensures { IfOk result (λ word. word ≡ name.now) }
{
    Ok(Word::from_vec(Vec::from_slice(alloc, name.as_bytes())?))
}

// The form of a text of up to 1,000 bytes.
fn read(alloc: Global, text: &str, number: u32) -> Result<Form, Fail> {
    if text.len() > 1_000 {
        return Err(Fail::new("the text is too long"));
    }
    let mut read = forms(alloc, text.as_bytes(), number)?;
    Ok(read.pop().ok_or("the text has no form")?)
}

// The macros with these names, parameters and bodies. Of a name that comes twice the first counts.
fn defined(alloc: Global, rows: &[(&str, &str, &str)]) -> Result<Macros, Fail> {
    let mut macros = Macros::new(alloc);
    for row in rows {
        let (name, params, body) = *row;
        let params = read(alloc, params, MACROS)?;
        let body = read(alloc, body, MACROS)?;
        if !macros.has(&word(alloc, name)?) {
            macros.add(alloc, name.as_bytes(), params, body)?;
        }
    }
    Ok(macros)
}

// Whether two forms of up to a million parts are the same but for their places.
fn are_alike(alloc: Global, one: &Form, other: &Form) -> Result<bool, OutOfMemory> {
    let mut parts = Vec::new(alloc);
    parts.push((one, other))?;
    for _ in 0..1_000_000 {
        match parts.pop() {
            Some((Form::Atom(_, bytes), Form::Atom(_, others))) if bytes == others => {}
            Some((Form::Symbol(_, name), Form::Symbol(_, other))) if name == other => {}
            Some((Form::Pair(_, first, rest), Form::Pair(_, other, others))) => {
                parts.push((rest.get(), others.get()))?;
                parts.push((first.get(), other.get()))?;
            }
            Some(_) => return Ok(false),
            None => return Ok(true),
        }
    }
    Ok(false)
}

// Whether the text expands to the other but for places, and leaves so many turns.
fn expands(
    alloc: Global,
    macros: &Macros,
    turns: u32,
    text: &str,
    wanted: &str,
    left: u32,
) -> Result<bool, Fail> {
    let mut turns = turns;
    let form = read(alloc, text, FORMS)?;
    let wanted = read(alloc, wanted, FORMS)?;
    let expanded = expand(alloc, &form, macros, &mut turns)?;
    Ok(turns == left && are_alike(alloc, &expanded, &wanted)?)
}

// The fault of a form's expansion, and the turns that are left.
fn fault_of(alloc: Global, macros: &Macros, turns: u32, form: &Form) -> Option<(MacroFault, u32)> {
    let mut turns = turns;
    match expand(alloc, form, macros, &mut turns) {
        Ok(_) => None,
        Err(fault) => Some((fault, turns)),
    }
}

// Whether the text's expansion breaks so, and leaves so many turns.
fn breaks(
    alloc: Global,
    macros: &Macros,
    turns: u32,
    text: &str,
    fault: MacroFault,
    left: u32,
) -> Result<bool, Fail> {
    let form = read(alloc, text, FORMS)?;
    Ok(fault_of(alloc, macros, turns, &form) == Some((fault, left)))
}

#[test]
fn knows_macros_by_name(rt: HostRuntime) -> Result<(), Fail> {
    let alloc = rt.alloc();
    assert!(rt; !Macros::new(alloc).has(&word(alloc, "two")?));
    let macros = defined(alloc, &[("two", "()", "2"), ("same", "(A)", "A")])?;
    for (name, known) in [
        ("two", true),
        ("same", true),
        ("", false),
        ("tw", false),
        ("twos", false),
        ("A", false),
    ] {
        assert!(rt; macros.has(&word(alloc, name)?) == known, "{name}");
    }
    Ok(())
}

#[test]
fn replaces_calls_from_the_outside_in(rt: HostRuntime) -> Result<(), Fail> {
    let alloc = rt.alloc();
    let macros = defined(
        alloc,
        &[
            ("two", "()", "2"),
            ("quoted", "(A)", "(list quote A)"),
            ("same", "(A)", "A"),
            ("both", "(A . B)", "(list list A B)"),
            ("named", "(N . X)", "(c N X)"),
        ],
    )?;
    for (turns, text, wanted, left) in [
        (9, "(two)", "2", 7),
        (9, "two", "two", 9),
        (9, "(quoted (two))", "(quote (two))", 5),
        (9, "(same (two))", "2", 5),
        (20, "(same (same (two)))", "2", 14),
        (20, "(same (quoted (two)))", "(quote (two))", 14),
        (30, "(both (two) (two) (two))", "(list 2 ((two) 2))", 21),
        (9, "(named two)", "2", 3),
        (20, "(named same (two))", "2", 12),
        (20, "(named quote (two))", "(quote (two))", 16),
        (9, "(list (same 1) (same (two)))", "(list 1 2)", 3),
        (20, "(same (again (two)))", "(again 2)", 16),
    ] {
        assert!(rt;
            expands(alloc, &macros, turns, text, wanted, left)?,
            "{text}"
        );
    }
    Ok(())
}

// The asserting macro takes one operand or more: the last is the value, each before it a condition.
#[test]
fn expands_assertions(rt: HostRuntime) -> Result<(), Fail> {
    let alloc = rt.alloc();
    let body = "(if (r items) (list if (f items) (c assert (r items)) (q . (x))) (f items))";
    let macros = defined(alloc, &[("assert", "items", body)])?;
    for (turns, text, wanted, left) in [
        (100, "(assert B)", "B", 94),
        (100, "(assert (= A 1) B)", "(if (= A 1) B (x))", 81),
        (
            1_000,
            "(assert (= A 1) (> B 2) B)",
            "(if (= A 1) (if (> B 2) B (x)) (x))",
            968,
        ),
        (
            100,
            "(list (assert B) (f (assert A B)))",
            "(list B (f (if A B (x))))",
            75,
        ),
        (0, "(assert B . A)", "(assert B . A)", 0),
        (0, "assert", "assert", 0),
    ] {
        assert!(rt;
            expands(alloc, &macros, turns, text, wanted, left)?,
            "{text}"
        );
    }
    for (text, place, left) in [("(assert)", 0, 96), ("(list (assert B) (assert))", 17, 90)] {
        let fault = MacroFault::BadMacro(at(place));
        assert!(rt; breaks(alloc, &macros, 100, text, fault, left)?, "{text}");
    }
    Ok(())
}

#[test]
fn looks_for_calls_where_expressions_stand(rt: HostRuntime) -> Result<(), Fail> {
    let alloc = rt.alloc();
    let macros = defined(alloc, &[("two", "()", "2")])?;
    for (text, wanted, left) in [
        ("(q . (two))", "(q two)", 9),
        ("(q (two))", "(q (two))", 9),
        ("(quote (two))", "(quote (two))", 9),
        (
            "(qq ((two) (unquote (two)) . (unquote (two))))",
            "(qq ((two) (unquote 2) unquote 2))",
            5,
        ),
        ("(qq (two) (two))", "(qq (two) (two))", 9),
        ("(qq (qq (unquote (two))))", "(qq (qq (unquote 2)))", 7),
        ("(qq (unquote (two) . 5))", "(qq (unquote 2 . 5))", 7),
        ("(unquote (two))", "(unquote 2)", 7),
        ("((two) (two))", "((two) 2)", 7),
        ("(5 (two))", "(5 2)", 7),
        ("(f (two) . (two))", "(f 2 two)", 7),
        ("(two . two)", "(two . two)", 9),
        ("(if (two) (two) (f (two)))", "(if 2 2 (f 2))", 3),
        ("(two (two) (two))", "2", 7),
    ] {
        assert!(rt; expands(alloc, &macros, 9, text, wanted, left)?, "{text}");
    }
    Ok(())
}

#[test]
fn gives_what_bodies_give(rt: HostRuntime) -> Result<(), Fail> {
    let alloc = rt.alloc();
    for (params, body, call, wanted, left) in [
        ("(A)", "(f A)", "(m (x y))", "x", 18),
        ("(A)", "(r A)", "(m (x y))", "(y)", 18),
        ("(A B)", "(c A B)", "(m x y)", "(x . y)", 17),
        ("(A)", "(l A)", "(m (x))", "1", 18),
        ("(A)", "(l A)", "(m ())", "()", 18),
        ("(A)", "(i A 5 6)", "(m 0x00)", "5", 16),
        ("(A)", "(i A 5 6)", "(m ())", "6", 16),
        ("(A B)", "(= A B)", "(m 1 0x01)", "1", 17),
        ("(A B)", "(= A B)", "(m x 0x78)", "()", 17),
        ("(A B)", "(= A B)", "(m (x) (x))", "()", 17),
        ("(A . B)", "(list A B 7)", "(m x y z)", "(x (y z) 7)", 16),
        ("(A)", "(if A 5 (f A))", "(m x)", "5", 17),
        ("(A)", "(if A (f A) 6)", "(m ())", "6", 17),
        ("(A)", "(q A B)", "(m x)", "(A B)", 19),
        (
            "(A B)",
            "(qq (x (unquote A) B . (unquote B)))",
            "(m (5) (y z))",
            "(x (5) B y z)",
            17,
        ),
        (
            "((A B) . C)",
            "(list C B A)",
            "(m (x y) z)",
            "((z) y x)",
            16,
        ),
    ] {
        let macros = defined(alloc, &[("m", params, body)])?;
        assert!(rt;
            expands(alloc, &macros, 21, call, wanted, left)?,
            "{body} of {call}"
        );
    }
    Ok(())
}

// Another head, a wrong count, and a step into what is no pair.
#[test]
fn tells_bad_macros(rt: HostRuntime) -> Result<(), Fail> {
    let alloc = rt.alloc();
    for (params, body, call, left) in [
        ("(A)", "(+ A 1)", "(m x)", 19),
        ("(A)", "(quote A)", "(m x)", 19),
        ("(A)", "(unquote A)", "(m x)", 19),
        ("(A)", "(5 A)", "(m x)", 19),
        ("(A)", "((f) A)", "(m x)", 19),
        ("(A)", "(f A A)", "(m (x))", 19),
        ("(A)", "(c A)", "(m x)", 19),
        ("(A)", "(list A . A)", "(m x)", 19),
        ("(A)", "(if A A)", "(m x)", 19),
        ("(A)", "(qq A A)", "(m x)", 19),
        ("(A)", "(qq (1 unquote A A))", "(m x)", 19),
        ("(A)", "(f A)", "(m x)", 18),
        ("(A)", "(r A)", "(m 5)", 18),
        ("(A B)", "B", "(m x)", 19),
        ("((A))", "A", "(m x)", 19),
    ] {
        let macros = defined(alloc, &[("m", params, body)])?;
        let fault = MacroFault::BadMacro(at(0));
        assert!(rt;
            breaks(alloc, &macros, 21, call, fault, left)?,
            "{body} of {call}"
        );
    }
    Ok(())
}

// A call takes a turn, and each expression of its body, when its evaluation begins. Operands are evaluated from the last
// to the first, once they are counted.
#[test]
fn counts_turns(rt: HostRuntime) -> Result<(), Fail> {
    let alloc = rt.alloc();
    let macros = defined(
        alloc,
        &[
            ("again", "A", "(list again)"),
            ("two", "()", "2"),
            ("bad", "(A)", "(f A A)"),
            ("last", "(A)", "(list A (+ A))"),
            ("first", "(A)", "(list (+ A) A)"),
        ],
    )?;
    for (turns, text, place) in [
        (0, "(again)", 0),
        (1, "(again)", 0),
        (2, "(again)", 0),
        (3, "(again)", 0),
        (100, "(list 1 (again))", 8),
        (1, "(two)", 0),
        (3, "(list (two) (two))", 12),
        (1, "(bad x)", 0),
        (2, "(last x)", 0),
        (3, "(first x)", 0),
    ] {
        let fault = MacroFault::TurnsSpent(at(place));
        assert!(rt;
            breaks(alloc, &macros, turns, text, fault, 0)?,
            "{turns} turns for {text}"
        );
    }
    for (turns, text) in [(2, "(bad x)"), (3, "(last x)"), (4, "(first x)")] {
        let fault = MacroFault::BadMacro(at(0));
        assert!(rt;
            breaks(alloc, &macros, turns, text, fault, 0)?,
            "{turns} turns for {text}"
        );
    }
    for (turns, text, wanted) in [(2, "(two)", "2"), (4, "(list (two) (two))", "(list 2 2)")] {
        assert!(rt; expands(alloc, &macros, turns, text, wanted, 0)?, "{text}");
    }
    Ok(())
}

// The places of a form of up to 100 parts, a pair's before those of its first and its rest.
fn places(alloc: Global, form: &Form) -> Result<Vec<Place>, OutOfMemory> {
    let mut places = Vec::new(alloc);
    let mut parts = Vec::new(alloc);
    parts.push(form)?;
    for _ in 0..100 {
        if let Some(part) = parts.pop() {
            places.push(part.place())?;
            if let Some((first, rest)) = part.as_pair() {
                parts.push(rest)?;
                parts.push(first)?;
            }
        }
    }
    Ok(places)
}

fn body_at(at: u32) -> Place {
    Place { text: MACROS, at }
}

// Faults stand at the call that is written, of calls in each other's results the outermost. What the operators make has
// its place, and what stands in the operands or in the body keeps its own.
#[test]
fn tells_the_place_of_the_written_call(rt: HostRuntime) -> Result<(), Fail> {
    let alloc = rt.alloc();
    let macros = defined(
        alloc,
        &[
            ("makes", "(A)", "(c (l A) (qq (k (unquote A))))"),
            ("outer", "A", "(qq (inner . (unquote A)))"),
            ("inner", "(A)", "(list (= A 5) A (q y))"),
        ],
    )?;
    for (text, place, left) in [
        ("(list (inner 1) (outer))", 16, 6),
        ("(list 7 (makes (inner)))", 8, 10),
    ] {
        let fault = MacroFault::BadMacro(at(place));
        assert!(rt; breaks(alloc, &macros, 20, text, fault, left)?, "{text}");
    }
    let mut turns = 20;
    let form = read(alloc, "(list (makes (x)))", FORMS)?;
    let expanded = expand(alloc, &form, &macros, &mut turns)?;
    // (list (1 k (x)))
    let wanted = [
        at(0),
        at(1),
        at(0),
        at(6),
        at(6),
        body_at(13),
        body_at(14),
        body_at(13),
        at(13),
        at(14),
        at(13),
        body_at(13),
        at(0),
    ];
    assert!(rt; turns == 14 && places(alloc, &expanded)?.as_slice() == wanted.as_slice());
    Ok(())
}

// A form nested so deep along firsts.
fn nested(alloc: Global, depth: usize) -> Result<Form, OutOfMemory> {
    let mut form = heavy(alloc, 0)?;
    for _ in 0..depth {
        form = Form::pair(alloc, at(3), form, heavy(alloc, 0)?)?;
    }
    Ok(form)
}

// An atom of so many bytes.
fn heavy(alloc: Global, bytes: usize) -> Result<Form, OutOfMemory> {
    let mut atom = Vec::new(alloc);
    for _ in 0..bytes {
        atom.push(0)?;
    }
    Ok(Form::Atom(at(3), Word::from_vec(atom)))
}

fn call_of_same(alloc: Global, operand: Form) -> Result<Form, OutOfMemory> {
    let operands = Form::pair(alloc, at(5), operand, heavy(alloc, 0)?)?;
    let head = Form::Symbol(at(6), word(alloc, "same")?);
    Form::pair(alloc, at(5), head, operands)
}

// Whether a call of `same` gives its operand, for two turns.
fn is_given(alloc: Global, macros: &Macros, operand: Form) -> Result<bool, Fail> {
    let mut turns = 9;
    let call = call_of_same(alloc, operand.copy(alloc)?)?;
    let expanded = expand(alloc, &call, macros, &mut turns)?;
    Ok(turns == 7 && are_alike(alloc, &expanded, &operand)?)
}

// Whether a call of `same` breaks so, after two turns.
fn is_refused(
    alloc: Global,
    macros: &Macros,
    operand: Form,
    fault: MacroFault,
) -> Result<bool, Fail> {
    let call = call_of_same(alloc, operand)?;
    Ok(fault_of(alloc, macros, 9, &call) == Some((fault, 7)))
}

// Of a form that is both too deep and too heavy the depth is told.
#[test]
fn limits_what_calls_give(rt: HostRuntime) -> Result<(), Fail> {
    let alloc = rt.alloc();
    let macros = defined(
        alloc,
        &[
            ("same", "(A)", "A"),
            ("grow", "(A)", "(list grow (list list A A))"),
            ("sink", "(A)", "(list sink (list A))"),
        ],
    )?;
    let too_deep = MacroFault::BadMacro(at(5));
    let too_large = MacroFault::TooLarge(at(5));
    assert!(rt; is_given(alloc, &macros, nested(alloc, 1_024)?)?);
    assert!(rt; is_refused(alloc, &macros, nested(alloc, 1_025)?, too_deep)?);
    assert!(rt; is_given(alloc, &macros, heavy(alloc, 262_143)?)?);
    assert!(rt; is_refused(alloc, &macros, heavy(alloc, 262_144)?, too_large)?);
    let both = Form::pair(alloc, at(4), nested(alloc, 1_025)?, heavy(alloc, 262_144)?)?;
    assert!(rt; is_refused(alloc, &macros, both, too_deep)?);
    // the 15th call gives a form of 360,447, and the 1,024th one that nests 1,025 deep
    assert!(rt;
        breaks(
            alloc,
            &macros,
            10_000,
            "(grow x)",
            MacroFault::TooLarge(at(0)),
            9_895
        )?
    );
    assert!(rt;
        breaks(
            alloc,
            &macros,
            10_000,
            "(sink x)",
            MacroFault::BadMacro(at(0)),
            4_880
        )?
    );
    Ok(())
}

#[test]
fn expands_deep_forms(rt: HostRuntime) -> Result<(), Fail> {
    let alloc = rt.alloc();
    let macros = defined(alloc, &[("two", "()", "2")])?;
    let mut turns = 2;
    let form = nested(alloc, 300_000)?;
    let expanded = expand(alloc, &form, &macros, &mut turns)?;
    assert!(rt; turns == 2 && are_alike(alloc, &expanded, &form)?);
    Ok(())
}
