//! Words of a list over the variables `v`, `x[0][0]`, `x[0][1]` and `x[1][1]`.

ghost use Rattle.std.specs.Prelude.{◌≡◌, ◌∷◌, [], pos, codes, true, false, None, Some, IfOk};
ghost use Rattle.xs_model.specs.Outline.{outline_of};
ghost use Rattle.xs_model.specs.declared.decl.Decl.{Decl};

use crate::{read_terms, read_vars};
use std::alloc::Global;
use std::process::Abort;
use std::test::Fail;
use xf_num::{Domain, NoMemory, Row, Span, Text};
use xf_text::{FieldStop, Kind};
use xs_model::{Cells, Decl, NameStop, Names, Term};

fn text(alloc: Global, bytes: &[u8]) -> Result<Text, NoMemory>
    ensures { IfOk result (λ text. text ≡ bytes.now) }
{
    let mut text = Row::new(alloc);
    text.extend(bytes)?;
    Ok(text)
}

fn bits(alloc: Global) -> Result<Domain, NoMemory>
    ensures { IfOk result (λ domain. domain ≡ record { lo = pos 0; hi = pos 1 } ∷ []) }
{
    match Span::new(0, 1) {
        Some(span) => Domain::of(alloc, span),
        None => Err(NoMemory),
    }
}

// The variable `v`.
fn variable(alloc: Global) -> Result<Decl, NoMemory>
    ensures { IfOk result (λ d. d ≡ Decl.One (codes "v") (record { lo = pos 0; hi = pos 1 } ∷ [])) }
{
    let name = text(alloc, b"v")?;
    let domain = bits(alloc)?;
    Ok(Decl::One { name, domain })
}

fn cells(alloc: Global) -> Result<Cells, NoMemory>
    ensures { IfOk result (λ cells. cells ≡ Some (record { lo = pos 0; hi = pos 1 } ∷ []) ∷ Some (record { lo = pos 0; hi = pos 1 } ∷ []) ∷ None ∷ Some (record { lo = pos 0; hi = pos 1 } ∷ []) ∷ []) }
{
    let mut cells = Row::new(alloc);
    cells.push(Some(bits(alloc)?))?;
    cells.push(Some(bits(alloc)?))?;
    cells.push(None)?;
    cells.push(Some(bits(alloc)?))?;
    Ok(cells)
}

// The array `x` of two times two cells, of which `x[1][0]` is undefined.
fn array(alloc: Global) -> Result<Decl, NoMemory>
    ensures { IfOk result (λ d. d ≡ Decl.Array (codes "x") (pos 2 ∷ pos 2 ∷ []) (Some (record { lo = pos 0; hi = pos 1 } ∷ []) ∷ Some (record { lo = pos 0; hi = pos 1 } ∷ []) ∷ None ∷ Some (record { lo = pos 0; hi = pos 1 } ∷ []) ∷ [])) }
{
    let name = text(alloc, b"x")?;
    let cells = cells(alloc)?;
    let mut sizes = Row::new(alloc);
    sizes.extend(&[2, 2])?;
    Ok(Decl::Array { name, sizes, cells })
}

// The names of `v` and then `x`.
fn names(alloc: Global) -> Result<Names, NameStop>
    ensures { IfOk result (λ names. names ≡ outline_of (Decl.One (codes "v") (record { lo = pos 0; hi = pos 1 } ∷ [])) ∷ record { name = codes "x"; sizes = pos 2 ∷ pos 2 ∷ []; cells = true ∷ true ∷ false ∷ true ∷ [] } ∷ []) }
{
    let (Ok(v), Ok(x)) = (variable(alloc), array(alloc)) else {
        return Err(NameStop::Memory);
    };
    let mut names = Names::new(alloc);
    names.declare(&v)?;
    names.declare(&x)?;
    Ok(names)
}

fn lists_of_variables(rt: &impl Abort, alloc: Global) -> Result<(), Fail> {
    let Ok(names) = names(alloc) else {
        panic!(rt; "want of memory");
    };
    let rows: [(&[u8], &[u32]); 8] = [
        (b" v x[0][1] v ", &[0, 2, 0]),
        (b"x[][]", &[1, 2, 3]),
        (b"x[1][]", &[3]),
        (b"x[][0]", &[1]),
        (b"x[0..1][1]", &[2, 3]),
        (b"x[1][0..0]", &[]),
        (b"x[+0][01]", &[2]),
        (b"", &[]),
    ];
    for (text, want) in rows {
        match read_vars(alloc, text, &names, 3) {
            Ok(vars) => assert_eq!(rt; vars.as_slice(), want),
            Err(_) => assert!(rt; false),
        }
    }
    Ok(())
}

fn lists_of_terms(rt: &impl Abort, alloc: Global) -> Result<(), Fail> {
    let Ok(names) = names(alloc) else {
        panic!(rt; "want of memory");
    };
    let rows: [(&[u8], &[Term]); 5] = [
        (
            b"7 v -1x2",
            &[Term::Int(7), Term::Var(0), Term::Int(-1), Term::Int(-1)],
        ),
        (b"x[][]", &[Term::Var(1), Term::Var(2), Term::Var(3)]),
        (b"x[1][1] +3", &[Term::Var(3), Term::Int(3)]),
        (b"x[1][0..0]", &[]),
        (b" ", &[]),
    ];
    for (text, want) in rows {
        match read_terms(alloc, text, &names, 4) {
            Ok(terms) => assert_eq!(rt; terms.as_slice(), want),
            Err(_) => assert!(rt; false),
        }
    }
    Ok(())
}

fn refused_lists_of_terms(rt: &impl Abort, alloc: Global) {
    let Ok(names) = names(alloc) else {
        panic!(rt; "want of memory");
    };
    let rows: [(&[u8], Kind); 10] = [
        (b"w 1", Kind::Name),
        (b"x[1][0]", Kind::Name),
        (b"x[2][0]", Kind::Name),
        (b"x[0]", Kind::Name),
        (b"v[0]", Kind::Name),
        (b"1x0 w", Kind::Shape),
        (b"1x2x3", Kind::Shape),
        (b"85070591730234615865843651857942052864 w", Kind::Range),
        (b"v 1x4", Kind::Many),
        (b"x[][] v v", Kind::Many),
    ];
    for (text, want) in rows {
        match read_terms(alloc, text, &names, 4) {
            Ok(_) => assert!(rt; false),
            Err(stop) => assert_eq!(rt; stop, FieldStop::Refused(want)),
        }
    }
}

#[test]
fn lists(rt: HostRuntime) -> Result<(), Fail> {
    lists_of_variables(&rt, rt.alloc())?;
    lists_of_terms(&rt, rt.alloc())?;
    refused_lists_of_terms(&rt, rt.alloc());
    Ok(())
}
