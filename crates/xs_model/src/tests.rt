ghost use Rattle.std.specs.Prelude.{◌≡◌, ◌∷◌, [], pos, codes, true, false, None, Some, IfOk};
ghost use Rattle.xs_model.specs.Outline.{outline_of};
ghost use Rattle.xs_model.specs.declared.decl.Decl.{Decl};

use super::*;
use std::alloc::Global;
use std::process::Abort;
use std::test::Fail;
use xf_num::{Domain, NoMemory, Row, Span, Text};

fn text(alloc: Global, bytes: &[u8]) -> Result<Text, NoMemory>
    ensures { IfOk result (λ text. text ≡ bytes.now) }
{
    let mut text = Row::new(alloc);
    text.extend(bytes)?;
    Ok(text)
}

fn bits(alloc: Global) -> Result<Domain, NoMemory>
    ensures { IfOk result (λ domain. domain ≡ record { lo = pos 0; hi = pos 1 } ∷ []) }
{
    match Span::new(0, 1) {
        Some(span) => Domain::of(alloc, span),
        None => Err(NoMemory),
    }
}

// The variable `v`.
fn variable(alloc: Global) -> Result<Decl, NoMemory>
    ensures { IfOk result (λ d. d ≡ Decl.One (codes "v") (record { lo = pos 0; hi = pos 1 } ∷ [])) }
{
    let name = text(alloc, b"v")?;
    let domain = bits(alloc)?;
    Ok(Decl::One { name, domain })
}

fn cells(alloc: Global) -> Result<Cells, NoMemory>
    ensures { IfOk result (λ cells. cells ≡ Some (record { lo = pos 0; hi = pos 1 } ∷ []) ∷ Some (record { lo = pos 0; hi = pos 1 } ∷ []) ∷ None ∷ Some (record { lo = pos 0; hi = pos 1 } ∷ []) ∷ []) }
{
    let mut cells = Row::new(alloc);
    cells.push(Some(bits(alloc)?))?;
    cells.push(Some(bits(alloc)?))?;
    cells.push(None)?;
    cells.push(Some(bits(alloc)?))?;
    Ok(cells)
}

// The array `x` of two times two cells, of which `x[1][0]` is undefined.
fn array(alloc: Global) -> Result<Decl, NoMemory>
    ensures { IfOk result (λ d. d ≡ Decl.Array (codes "x") (pos 2 ∷ pos 2 ∷ []) (Some (record { lo = pos 0; hi = pos 1 } ∷ []) ∷ Some (record { lo = pos 0; hi = pos 1 } ∷ []) ∷ None ∷ Some (record { lo = pos 0; hi = pos 1 } ∷ []) ∷ [])) }
{
    let name = text(alloc, b"x")?;
    let cells = cells(alloc)?;
    let mut sizes = Row::new(alloc);
    sizes.extend(&[2, 2])?;
    Ok(Decl::Array { name, sizes, cells })
}

// The names of `v` and then `x`.
fn names(alloc: Global) -> Result<Names, NameStop>
    ensures { IfOk result (λ names. names ≡ outline_of (Decl.One (codes "v") (record { lo = pos 0; hi = pos 1 } ∷ [])) ∷ record { name = codes "x"; sizes = pos 2 ∷ pos 2 ∷ []; cells = true ∷ true ∷ false ∷ true ∷ [] } ∷ []) }
{
    let (Ok(v), Ok(x)) = (variable(alloc), array(alloc)) else {
        return Err(NameStop::Memory);
    };
    let mut names = Names::new(alloc);
    names.declare(&v)?;
    names.declare(&x)?;
    Ok(names)
}

fn finds_variables(rt: &impl Abort, alloc: Global) {
    let Ok(names) = names(alloc) else {
        panic!(rt; "want of memory");
    };
    let rows: [(&[u8], Option<u32>); 20] = [
        (b"v", Some(0)),
        (b"x[0][0]", Some(1)),
        (b"x[0][1]", Some(2)),
        (b"x[1][0]", None),
        (b"x[1][1]", Some(3)),
        (b"x[+1][01]", Some(3)),
        (b"x[-0][0]", Some(1)),
        (b"x[-1][0]", None),
        (b"x[2][0]", None),
        (b"x[0][2]", None),
        (b"x[0]", None),
        (b"x[0][0][0]", None),
        (b"x[][0]", None),
        (b"x[0..1][0]", None),
        (b"x[ 0][0]", None),
        (b"x[0][0", None),
        (b"x[+-0][0]", None),
        (b"x[340282366920938463463374607431768211456][0]", None),
        (b"x", None),
        (b"v[0]", None),
    ];
    for (word, want) in rows {
        assert_eq!(rt; names.find(word), want);
    }
    assert_eq!(rt; names.find(b""), None);
    assert_eq!(rt; names.find(b"y"), None);
}

fn finds_arrays_and_cells(rt: &impl Abort, alloc: Global) {
    let Ok(mut names) = names(alloc) else {
        panic!(rt; "want of memory");
    };
    assert_eq!(rt; names.array(b"x"), Some(1));
    assert_eq!(rt; names.array(b"v"), None);
    assert_eq!(rt; names.array(b"x[0][0]"), None);
    assert_eq!(rt; names.variables(), 4);
    assert!(rt; names.sizes(0).is_empty());
    assert!(rt; names.sizes(1) == [2, 2].as_slice());
    for (place, want) in [
        (0, Some(1)),
        (1, Some(2)),
        (2, None),
        (3, Some(3)),
        (4, None),
    ] {
        assert_eq!(rt; names.cell(1, place), want);
    }
    let Ok(v) = variable(alloc) else {
        panic!(rt; "want of memory");
    };
    assert_eq!(rt; names.declare(&v), Err(NameStop::Taken));
    assert_eq!(rt; names.variables(), 4);
}

fn writes_words(rt: &impl Abort, alloc: Global) {
    let (Ok(v), Ok(x)) = (variable(alloc), array(alloc)) else {
        panic!(rt; "want of memory");
    };
    assert!(rt; v.name() == b"v".as_slice());
    let mut decls = Row::new(alloc);
    assert!(rt; decls.push(v).is_ok());
    assert!(rt; decls.push(x).is_ok());
    let first = word(alloc, &decls, 0);
    let second = word(alloc, &decls, 1);
    let last = word(alloc, &decls, 3);
    assert!(rt; first.is_ok_and(|word| word.as_slice() == b"v".as_slice()));
    assert!(rt; second.is_ok_and(|word| word.as_slice() == b"x[0][0]".as_slice()));
    assert!(rt; last.is_ok_and(|word| word.as_slice() == b"x[1][1]".as_slice()));
}

#[test]
fn spans_run_from_the_least_to_the_greatest_value(rt: HostRuntime) -> Result<(), Fail> {
    let mut pieces = Row::new(rt.alloc());
    for (lo, hi) in [(7, 7), (-3, -1), (2, 3)] {
        if let Some(span) = Span::new(lo, hi) {
            pieces.push(span)?;
        }
    }
    let Ok(domain) = Domain::from_pieces(rt.alloc(), pieces.as_slice()) else {
        panic!(rt; "no domain");
    };
    let mut decls = Row::new(rt.alloc());
    decls.push(array(rt.alloc())?)?;
    decls.push(Decl::One {
        name: text(rt.alloc(), b"w")?,
        domain,
    })?;
    let spans = spans(rt.alloc(), decls.as_slice())?;
    let wanted: [(i128, i128); 4] = [(0, 1), (0, 1), (0, 1), (-3, 7)];
    assert_eq!(rt; spans.len(), 4);
    for (span, (lo, hi)) in spans.as_slice().iter().zip(wanted.iter()) {
        assert_eq!(rt; (span.lo(), span.hi()), (*lo, *hi));
    }
    Ok(())
}

#[test]
fn words_of_variables(rt: HostRuntime) {
    finds_variables(&rt, rt.alloc());
    finds_arrays_and_cells(&rt, rt.alloc());
    writes_words(&rt, rt.alloc());
}
