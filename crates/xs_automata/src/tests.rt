//! Automata over the array `x` of three cells, the variables 0, 1 and 2.

ghost use Rattle.std.specs.Prelude.{◌≡◌, ◌∷◌, ◌++◌, ◌≤◌, [], length, pos, codes, true, Some, IfOk};
ghost use Rattle.xs_forms.specs.Room.{past_states};
ghost use Rattle.xs_model.specs.Fitting.{ends_of};
ghost use Rattle.xs_model.specs.Outline.{outline_of};
ghost use Rattle.xs_model.specs.declared.decl.Decl.{Decl};

use crate::{holds_mdd, holds_regular, read_mdd, read_regular};
use std::alloc::Global;
use std::process::Abort;
use std::test::Fail;
use xf_num::{Domain, NoMemory, Row, Span, Text};
use xf_text::{FieldStop, Kind};
use xs_forms::Scratch;
use xs_model::{Cells, Concrete, Constraint, Decl, Edge, Instance, NameStop, Names, Part, Parts};

fn text(alloc: Global, bytes: &[u8]) -> Result<Text, NoMemory>
    ensures { IfOk result (λ text. text ≡ bytes.now) }
{
    let mut text = Row::new(alloc);
    text.extend(bytes)?;
    Ok(text)
}

fn bits(alloc: Global) -> Result<Domain, NoMemory>
    ensures { IfOk result (λ domain. domain ≡ record { lo = pos 0; hi = pos 1 } ∷ []) }
{
    match Span::new(0, 1) {
        Some(span) => Domain::of(alloc, span),
        None => Err(NoMemory),
    }
}

fn cells(alloc: Global) -> Result<Cells, NoMemory>
    ensures { IfOk result (λ cells. cells ≡ Some (record { lo = pos 0; hi = pos 1 } ∷ []) ∷ Some (record { lo = pos 0; hi = pos 1 } ∷ []) ∷ Some (record { lo = pos 0; hi = pos 1 } ∷ []) ∷ []) }
{
    let mut cells = Row::new(alloc);
    cells.push(Some(bits(alloc)?))?;
    cells.push(Some(bits(alloc)?))?;
    cells.push(Some(bits(alloc)?))?;
    Ok(cells)
}

fn array(alloc: Global) -> Result<Decl, NoMemory>
    ensures { IfOk result (λ d. d ≡ Decl.Array (codes "x") (pos 3 ∷ []) (Some (record { lo = pos 0; hi = pos 1 } ∷ []) ∷ Some (record { lo = pos 0; hi = pos 1 } ∷ []) ∷ Some (record { lo = pos 0; hi = pos 1 } ∷ []) ∷ [])) }
{
    let name = text(alloc, b"x")?;
    let cells = cells(alloc)?;
    let mut sizes = Row::new(alloc);
    sizes.extend(&[3])?;
    Ok(Decl::Array { name, sizes, cells })
}

fn names(alloc: Global) -> Result<Names, NameStop>
    ensures { IfOk result (λ names. names ≡ record { name = codes "x"; sizes = pos 3 ∷ []; cells = true ∷ true ∷ true ∷ [] } ∷ []) }
{
    let Ok(x) = array(alloc) else {
        return Err(NameStop::Memory);
    };
    let mut names = Names::new(alloc);
    names.declare(&x)?;
    Ok(names)
}

fn part(alloc: Global, name: &[u8], bytes: &[u8]) -> Result<Part, NoMemory> {
    Ok(Part {
        name: text(alloc, name)?,
        attrs: Row::new(alloc),
        text: text(alloc, bytes)?,
    })
}

fn concrete(alloc: Global, name: &[u8], parts: Parts) -> Result<Concrete, NoMemory> {
    Ok(Concrete {
        name: text(alloc, name)?,
        attrs: Row::new(alloc),
        parts,
        place: 0,
    })
}

fn regular(alloc: Global, texts: [&[u8]; 4]) -> Result<Concrete, NoMemory> {
    let [list, transitions, start, finals] = texts;
    let mut parts = Row::new(alloc);
    parts.push(part(alloc, b"final", finals)?)?;
    parts.push(part(alloc, b"transitions", transitions)?)?;
    parts.push(part(alloc, b"list", list)?)?;
    parts.push(part(alloc, b"start", start)?)?;
    concrete(alloc, b"regular", parts)
}

fn mdd(alloc: Global, list: &[u8], transitions: &[u8]) -> Result<Concrete, NoMemory> {
    let mut parts = Row::new(alloc);
    parts.push(part(alloc, b"list", list)?)?;
    parts.push(part(alloc, b"transitions", transitions)?)?;
    concrete(alloc, b"mdd", parts)
}

// What the texts of a `regular` are read as, where so many items may still come.
fn automaton(alloc: Global, texts: [&[u8]; 4], left: u64) -> Result<Constraint, FieldStop> {
    let Ok(names) = names(alloc) else {
        return Err(FieldStop::Memory);
    };
    let c = regular(alloc, texts)?;
    read_regular(alloc, &c, &names, left)
}

// The same of an `mdd`.
fn diagram(
    alloc: Global,
    list: &[u8],
    transitions: &[u8],
    left: u64,
) -> Result<Constraint, FieldStop> {
    let Ok(names) = names(alloc) else {
        return Err(FieldStop::Memory);
    };
    let c = mdd(alloc, list, transitions)?;
    read_mdd(alloc, &c, &names, left)
}

fn edge(from: u32, value: i128, to: u32) -> Edge {
    Edge { from, value, to }
}

// States are numbered as they are mentioned: by the transitions, then as the start, then as final states.
fn reads_automata(rt: &impl Abort, alloc: Global) {
    let rows: [([&[u8]; 4], &[Edge], u32, &[u32]); 4] = [
        (
            [b"x[]", b" (s,0,p)(s,0,q) (p,1,f)(q,1,f)", b" s ", b" f "],
            &[edge(0, 0, 1), edge(0, 0, 2), edge(1, 1, 3), edge(2, 1, 3)],
            0,
            &[3],
        ),
        (
            [b"x[1]", b"(a,-1,a)", b"b", b"c a b c"],
            &[edge(0, -1, 0)],
            1,
            &[2, 0, 1, 2],
        ),
        ([b"x[1]", b"", b"_1", b""], &[], 0, &[]),
        (
            [b"x[]", b"(b,+7,a)\n(c,07,b)", b"c", b"a"],
            &[edge(0, 7, 1), edge(2, 7, 0)],
            2,
            &[1],
        ),
    ];
    for (texts, want, first, last) in rows {
        match automaton(alloc, texts, 17) {
            Ok(
                Constraint::Regular {
                    edges,
                    start,
                    finals,
                    ..
                },
            ) => {
                assert!(rt; edges.as_slice() == want);
                assert_eq!(rt; start, first);
                assert!(rt; finals.as_slice() == last);
            }
            _ => panic!(rt; "not read"),
        }
    }
}

fn reads_diagrams(rt: &impl Abort, alloc: Global) {
    let rows: [(&[u8], &[u8], u32, u32); 3] = [
        (b"x[]", b"(r,0,a)(r,1,b)(a,1,t)(b,0,t)", 0, 3),
        (b"", b"(a,0,t)(r,1,a)", 2, 1),
        (b"x[0]", b"(r,0,t)(r,1,t)", 0, 1),
    ];
    for (list, transitions, first, last) in rows {
        match diagram(alloc, list, transitions, 15) {
            Ok(Constraint::Mdd { root, leaf, .. }) => {
                assert_eq!(rt; root, first);
                assert_eq!(rt; leaf, last);
            }
            _ => panic!(rt; "not read"),
        }
    }
}

fn refuses_automata(rt: &impl Abort, alloc: Global) {
    let rows: [([&[u8]; 4], Kind); 17] = [
        ([b"x[]", b"( s,0,t)", b"s", b"t"], Kind::Shape),
        ([b"x[]", b"(s,0,t", b"s", b"t"], Kind::Shape),
        ([b"x[]", b"()", b"s", b"t"], Kind::Shape),
        ([b"x[]", b"(s,0)", b"s", b"t"], Kind::Shape),
        ([b"x[]", b"(s,0,t,u)", b"s", b"t"], Kind::Shape),
        ([b"x[]", b"(s,*,t)", b"s", b"t"], Kind::Shape),
        ([b"x[]", b"(1,0,t)", b"s", b"t"], Kind::Shape),
        ([b"x[]", b"(s,0,t)", b"", b"t"], Kind::Shape),
        ([b"x[]", b"(s,0,t)", b"s t", b"t"], Kind::Shape),
        ([b"x[]", b"(s,0,t)", b"s", b"t 2"], Kind::Shape),
        (
            [
                b"x[]",
                b"(s,85070591730234615865843651857942052864,t)",
                b"s",
                b"2",
            ],
            Kind::Shape,
        ),
        (
            [
                b"y",
                b"(s,85070591730234615865843651857942052864,t)",
                b"s",
                b"t",
            ],
            Kind::Range,
        ),
        ([b"y", b"(s,0,t)(t,0,s)", b"s", b"t"], Kind::Name),
        ([b"x[]", b"(s,0,t)", b"s", b"t s"], Kind::Many),
        ([b"", b"(s,0,t)(t,0,s)", b"s", b"t t"], Kind::Many),
        ([b"", b"(s,0,t)", b"s", b"t"], Kind::Shape),
        ([b"x[]", b"", b"s", b"s s s s s"], Kind::Many),
    ];
    for (texts, want) in rows {
        match automaton(alloc, texts, 8) {
            Ok(_) => panic!(rt; "not refused"),
            Err(stop) => assert_eq!(rt; stop, FieldStop::Refused(want)),
        }
    }
}

fn refuses_diagrams(rt: &impl Abort, alloc: Global) {
    let rows: [(&[u8], &[u8], Kind); 9] = [
        (b"x[]", b"", Kind::Shape),
        (b"x[]", b"(r,0,t)(t,0,r)", Kind::Shape),
        (b"x[]", b"(r,0,t)(s,0,t)", Kind::Shape),
        (b"x[]", b"(r,0,t)(r,0,s)", Kind::Shape),
        (b"y", b"(r,0,t)(s,0,t)", Kind::Name),
        (b"x[]", b"(r,0,t)(s,0,t)(u,0,t)", Kind::Many),
        (b"x[0]", b"(r,0,t)(r,1,t)(r,2,t)", Kind::Many),
        (
            b"y",
            b"(r,85070591730234615865843651857942052864,t)",
            Kind::Range,
        ),
        (b"y", b"(r,0 ,t)", Kind::Shape),
    ];
    for (list, transitions, want) in rows {
        match diagram(alloc, list, transitions, 9) {
            Ok(_) => panic!(rt; "not refused"),
            Err(stop) => assert_eq!(rt; stop, FieldStop::Refused(want)),
        }
    }
}

// Room for an automaton over the first two variables.
fn room(alloc: Global, edges: &[Edge], start: u32, finals: &[u32]) -> Result<Scratch, NoMemory>
    ensures first { IfOk result (λ s. past_states (ends_of edges.now ++ start ∷ finals.now) ≤ length s.first) }
    ensures second { IfOk result (λ s. past_states (ends_of edges.now ++ start ∷ finals.now) ≤ length s.second) }
{
    let automaton = Constraint::Regular {
        list: Row::from_slice(alloc, &[0, 1])?,
        edges: Row::from_slice(alloc, edges)?,
        start,
        finals: Row::from_slice(alloc, finals)?,
    };
    let mut constraints = Row::new(alloc);
    constraints.push(automaton)?;
    let instance = Instance {
        decls: Row::new(alloc),
        constraints,
        objective: None,
    };
    Scratch::new(alloc, &instance)
}

// The states s, p, q and f are 0, 1, 2 and 3.
fn accepts_words(rt: &impl Abort, alloc: Global) -> Result<(), Fail> {
    let edges = [edge(0, 0, 1), edge(0, 0, 2), edge(1, 1, 3), edge(2, 1, 3)];
    let rows: [([i128; 2], u32, bool); 5] = [
        ([0, 1], 3, true),
        ([0, 0], 3, false),
        ([1, 1], 3, false),
        ([0, 1], 1, false),
        ([0, 2], 3, false),
    ];
    for (values, last, want) in rows {
        let finals = [last];
        let mut scratch = room(alloc, &edges, 0, &finals)?;
        let holds = holds_regular(&[0, 1], &edges, 0, &finals, &values, &mut scratch);
        assert_eq!(rt; holds, want);
    }
    Ok(())
}

// The root is 0, and the leaf 3.
fn leads_to_the_leaf(rt: &impl Abort, alloc: Global) -> Result<(), Fail> {
    let edges = [edge(0, 0, 1), edge(0, 0, 2), edge(1, 1, 3), edge(2, 1, 3)];
    let rows: [([i128; 2], bool); 3] = [([0, 1], true), ([0, 0], false), ([1, 1], false)];
    for (values, want) in rows {
        let mut scratch = room(alloc, &edges, 0, &[3])?;
        let leads = holds_mdd(&[0, 1], &edges, 0, 3, &values, &mut scratch);
        assert_eq!(rt; leads, want);
    }
    Ok(())
}

#[test]
fn reads(rt: HostRuntime) {
    reads_automata(&rt, rt.alloc());
    reads_diagrams(&rt, rt.alloc());
}

#[test]
fn refuses(rt: HostRuntime) {
    refuses_automata(&rt, rt.alloc());
    refuses_diagrams(&rt, rt.alloc());
}

#[test]
fn tests(rt: HostRuntime) -> Result<(), Fail> {
    accepts_words(&rt, rt.alloc())?;
    leads_to_the_leaf(&rt, rt.alloc())?;
    Ok(())
}
