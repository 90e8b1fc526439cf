//! Names of forms, and constraints over the array `x` of three cells as they are written.

ghost use Rattle.std.specs.Prelude.{◌≡◌, ◌∷◌, [], pos, codes, true, Some, IfOk};
ghost use Rattle.xs_language.specs.Language.{is_language};
ghost use Rattle.xs_model.specs.Accepted.{IsFormed};
ghost use Rattle.xs_model.specs.declared.decl.Decl.{Decl};

use crate::{is_form, write_form, written_again};
use std::alloc::Global;
use std::test::Fail;
use xf_num::{Domain, NoMemory, Row, Span, Text};
use xs_model::{Cells, Constraint, Decl, Decls, Edge, Tuple};

#[test]
fn names_of_forms(rt: HostRuntime) {
    let rows: [(&[u8], bool); 6] = [
        (b"extension", true),
        (b"regular", true),
        (b"mdd", true),
        (b"Mdd", false),
        (b"regula", false),
        (b"", false),
    ];
    for (name, want) in rows {
        assert_eq!(rt; is_form(name), want);
    }
    written_again();
}

fn text(alloc: Global, bytes: &[u8]) -> Result<Text, NoMemory>
    ensures { IfOk result (λ text. text ≡ bytes.now) }
{
    let mut text = Row::new(alloc);
    text.extend(bytes)?;
    Ok(text)
}

fn bits(alloc: Global) -> Result<Domain, NoMemory>
    ensures { IfOk result (λ domain. domain ≡ record { lo = pos 0; hi = pos 1 } ∷ []) }
{
    match Span::new(0, 1) {
        Some(span) => Domain::of(alloc, span),
        None => Err(NoMemory),
    }
}

fn cells(alloc: Global) -> Result<Cells, NoMemory>
    ensures { IfOk result (λ cells. cells ≡ Some (record { lo = pos 0; hi = pos 1 } ∷ []) ∷ Some (record { lo = pos 0; hi = pos 1 } ∷ []) ∷ Some (record { lo = pos 0; hi = pos 1 } ∷ []) ∷ []) }
{
    let mut cells = Row::new(alloc);
    cells.push(Some(bits(alloc)?))?;
    cells.push(Some(bits(alloc)?))?;
    cells.push(Some(bits(alloc)?))?;
    Ok(cells)
}

fn decls(alloc: Global) -> Result<Decls, NoMemory>
    ensures { IfOk result (λ ds. ds ≡ Decl.Array (codes "x") (pos 3 ∷ []) (Some (record { lo = pos 0; hi = pos 1 } ∷ []) ∷ Some (record { lo = pos 0; hi = pos 1 } ∷ []) ∷ Some (record { lo = pos 0; hi = pos 1 } ∷ []) ∷ []) ∷ []) }
{
    let name = text(alloc, b"x")?;
    let cells = cells(alloc)?;
    let mut sizes = Row::new(alloc);
    sizes.extend(&[3])?;
    let mut decls = Row::new(alloc);
    decls.push(Decl::Array { name, sizes, cells })?;
    Ok(decls)
}

// The line of a constraint over the array.
fn line(alloc: Global, c: &Constraint) -> Result<Vec<u8>, NoMemory>
    requires form { is_language c.now ≡ true }
    requires formed { IsFormed 3 c.now }
{
    let decls = decls(alloc)?;
    write_form(alloc, c, &decls)
}

fn pair(alloc: Global, first: Option<i128>, second: Option<i128>) -> Result<Tuple, NoMemory>
    ensures { IfOk result (λ tuple. tuple ≡ first ∷ second ∷ []) }
{
    Row::from_slice(alloc, &[first, second])
}

fn table(alloc: Global, positive: bool) -> Result<Constraint, NoMemory>
    ensures form { IfOk result (λ c. is_language c ≡ true) }
    ensures formed { IfOk result (λ c. IsFormed 3 c) }
{
    let mut tuples = Row::new(alloc);
    tuples.push(pair(alloc, Some(0), None)?)?;
    tuples.push(pair(alloc, None, Some(-12))?)?;
    Ok(Constraint::Extension {
        list: Row::from_slice(alloc, &[2, 0])?,
        tuples,
        positive,
    })
}

fn no_tuples(alloc: Global) -> Result<Constraint, NoMemory>
    ensures form { IfOk result (λ c. is_language c ≡ true) }
    ensures formed { IfOk result (λ c. IsFormed 3 c) }
{
    Ok(Constraint::Extension {
        list: Row::from_slice(alloc, &[1, 2])?,
        tuples: Row::new(alloc),
        positive: false,
    })
}

fn ranges(alloc: Global) -> Result<Constraint, NoMemory>
    ensures form { IfOk result (λ c. is_language c ≡ true) }
    ensures formed { IfOk result (λ c. IsFormed 3 c) }
{
    let (Some(below), Some(four)) = (Span::new(-3, -1), Span::new(4, 4)) else {
        return Err(NoMemory);
    };
    Ok(Constraint::Unary {
        var: 1,
        spans: Row::from_slice(alloc, &[below, four])?,
        positive: true,
    })
}

// Neither a transition nor a final state.
fn bare(alloc: Global) -> Result<Constraint, NoMemory>
    ensures form { IfOk result (λ c. is_language c ≡ true) }
    ensures formed { IfOk result (λ c. IsFormed 3 c) }
{
    Ok(Constraint::Regular {
        list: Row::from_slice(alloc, &[0])?,
        edges: Row::new(alloc),
        start: 0,
        finals: Row::new(alloc),
    })
}

fn automaton(alloc: Global) -> Result<Constraint, NoMemory>
    ensures form { IfOk result (λ c. is_language c ≡ true) }
    ensures formed { IfOk result (λ c. IsFormed 3 c) }
{
    let edges = [
        Edge {
            from: 0,
            value: 5,
            to: 1,
        },
        Edge {
            from: 1,
            value: -6,
            to: 0,
        },
    ];
    Ok(Constraint::Regular {
        list: Row::from_slice(alloc, &[0, 1])?,
        edges: Row::from_slice(alloc, &edges)?,
        start: 2,
        finals: Row::from_slice(alloc, &[1, 2])?,
    })
}

fn diagram(alloc: Global) -> Result<Constraint, NoMemory>
    ensures form { IfOk result (λ c. is_language c ≡ true) }
    ensures formed { IfOk result (λ c. IsFormed 3 c) }
{
    let edge = Edge {
        from: 0,
        value: 7,
        to: 1,
    };
    Ok(Constraint::Mdd {
        list: Row::from_slice(alloc, &[2])?,
        edges: Row::from_slice(alloc, &[edge])?,
        root: 0,
        leaf: 1,
    })
}

#[test]
fn lines_of_constraints(rt: HostRuntime) -> Result<(), Fail> {
    let alloc = rt.alloc();
    let rows: [(Vec<u8>, &[u8]); 7] = [
        (
            line(alloc, &table(alloc, true)?)?,
            b"<extension> <list> x[2] x[0] </list> <supports> (0,*) (*,-12) </supports> </extension>",
        ),
        (
            line(alloc, &table(alloc, false)?)?,
            b"<extension> <list> x[2] x[0] </list> <conflicts> (0,*) (*,-12) </conflicts> </extension>",
        ),
        (
            line(alloc, &no_tuples(alloc)?)?,
            b"<extension> <list> x[1] x[2] </list> <conflicts> </conflicts> </extension>",
        ),
        (
            line(alloc, &ranges(alloc)?)?,
            b"<extension> <list> x[1] </list> <supports> -3..-1 4 </supports> </extension>",
        ),
        (
            line(alloc, &bare(alloc)?)?,
            b"<regular> <list> x[0] </list> <transitions> </transitions> <start> s0 </start> <final> </final> </regular>",
        ),
        (
            line(alloc, &automaton(alloc)?)?,
            b"<regular> <list> x[0] x[1] </list> <transitions> (s0,5,s1) (s1,-6,s0) </transitions> <start> s2 </start> <final> s1 s2 </final> </regular>",
        ),
        (
            line(alloc, &diagram(alloc)?)?,
            b"<mdd> <list> x[2] </list> <transitions> (s0,7,s1) </transitions> </mdd>",
        ),
    ];
    for (text, want) in rows {
        assert!(rt; text.as_slice() == want);
    }
    Ok(())
}
