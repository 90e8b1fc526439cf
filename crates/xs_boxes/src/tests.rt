//! Boxes over the array `x` of four cells, the variables 0 to 3.

ghost use Rattle.std.specs.Prelude.{◌≡◌, ◌∷◌, [], pos, codes, true, Some, IfOk};
ghost use Rattle.xs_model.specs.Outline.{outline_of};
ghost use Rattle.xs_model.specs.declared.decl.Decl.{Decl};

use crate::{holds_no_overlap, read_no_overlap, write_no_overlap, written_again};
use std::alloc::Global;
use std::test::Fail;
use xf_num::{Domain, NoMemory, Row, Span, Text, Vars};
use xf_text::{FieldStop, Kind};
use xs_model::{Cells, Concrete, Constraint, Decl, Decls, NameStop, Names, Part, Parts, Term};

fn text(alloc: Global, bytes: &[u8]) -> Result<Text, NoMemory>
    ensures { IfOk result (λ text. text ≡ bytes.now) }
{
    let mut text = Row::new(alloc);
    text.extend(bytes)?;
    Ok(text)
}

fn bits(alloc: Global) -> Result<Domain, NoMemory>
    ensures { IfOk result (λ domain. domain ≡ record { lo = pos 0; hi = pos 1 } ∷ []) }
{
    match Span::new(0, 1) {
        Some(span) => Domain::of(alloc, span),
        None => Err(NoMemory),
    }
}

fn cells(alloc: Global) -> Result<Cells, NoMemory>
    ensures { IfOk result (λ cells. cells ≡ Some (record { lo = pos 0; hi = pos 1 } ∷ []) ∷ Some (record { lo = pos 0; hi = pos 1 } ∷ []) ∷ Some (record { lo = pos 0; hi = pos 1 } ∷ []) ∷ Some (record { lo = pos 0; hi = pos 1 } ∷ []) ∷ []) }
{
    let mut cells = Row::new(alloc);
    cells.push(Some(bits(alloc)?))?;
    cells.push(Some(bits(alloc)?))?;
    cells.push(Some(bits(alloc)?))?;
    cells.push(Some(bits(alloc)?))?;
    Ok(cells)
}

fn array(alloc: Global) -> Result<Decl, NoMemory>
    ensures { IfOk result (λ d. d ≡ Decl.Array (codes "x") (pos 4 ∷ []) (Some (record { lo = pos 0; hi = pos 1 } ∷ []) ∷ Some (record { lo = pos 0; hi = pos 1 } ∷ []) ∷ Some (record { lo = pos 0; hi = pos 1 } ∷ []) ∷ Some (record { lo = pos 0; hi = pos 1 } ∷ []) ∷ [])) }
{
    let name = text(alloc, b"x")?;
    let cells = cells(alloc)?;
    let mut sizes = Row::new(alloc);
    sizes.extend(&[4])?;
    Ok(Decl::Array { name, sizes, cells })
}

fn names(alloc: Global) -> Result<Names, NameStop>
    ensures { IfOk result (λ names. names ≡ record { name = codes "x"; sizes = pos 4 ∷ []; cells = true ∷ true ∷ true ∷ true ∷ [] } ∷ []) }
{
    let Ok(x) = array(alloc) else {
        return Err(NameStop::Memory);
    };
    let mut names = Names::new(alloc);
    names.declare(&x)?;
    Ok(names)
}

fn part(alloc: Global, name: &[u8], bytes: &[u8]) -> Result<Part, NoMemory> {
    Ok(Part {
        name: text(alloc, name)?,
        attrs: Row::new(alloc),
        text: text(alloc, bytes)?,
    })
}

fn parts(alloc: Global, origins: &[u8], lengths: &[u8]) -> Result<Parts, NoMemory> {
    let mut parts = Row::new(alloc);
    parts.push(part(alloc, b"lengths", lengths)?)?;
    parts.push(part(alloc, b"origins", origins)?)?;
    Ok(parts)
}

// What two texts are read as, where at most eight items may still come.
fn read(alloc: Global, origins: &[u8], lengths: &[u8]) -> Result<Constraint, FieldStop> {
    let Ok(names) = names(alloc) else {
        return Err(FieldStop::Memory);
    };
    let c = Concrete {
        name: text(alloc, b"noOverlap")?,
        attrs: Row::new(alloc),
        parts: parts(alloc, origins, lengths)?,
        place: 0,
    };
    read_no_overlap(alloc, &c, &names, 8)
}

#[test]
fn reads_boxes(rt: HostRuntime) -> Result<(), Fail> {
    let rows: [(&[u8], &[u8], usize, usize); 5] = [
        (b"", b" ", 0, 0),
        (b" x[0] x[2..3] ", b"2x2 x[1]", 3, 1),
        (b"(x[0],x[1]) (x[2],x[3])", b"\n(2,x[0])(+1,0) ", 2, 2),
        (b"(x[3])", b"(-4)", 1, 1),
        (b"x[]", b"1x4", 4, 1),
    ];
    for (first, second, count, wide) in rows {
        match read(rt.alloc(), first, second) {
            Ok(
                Constraint::NoOverlap {
                    origins,
                    lengths,
                    zero_ignored,
                },
            ) => {
                assert!(rt; zero_ignored);
                assert_eq!(rt; origins.len(), count);
                assert_eq!(rt; lengths.len(), count);
                for row in lengths.as_slice() {
                    assert_eq!(rt; row.len(), wide);
                }
            }
            _ => panic!(rt; "not read"),
        }
    }
    Ok(())
}

#[test]
fn refuses_boxes(rt: HostRuntime) {
    let rows: [(&[u8], &[u8], Kind); 16] = [
        (b"(x[0])", b"1", Kind::Shape),
        (b"x[0]", b"(1)", Kind::Shape),
        (b"(x[0],x[1])", b"(1)", Kind::Shape),
        (b"(x[0],x[1])(x[2])", b"(1,1)(1,1)", Kind::Shape),
        (b"(y)(x[0],x[1])", b"(1)(1,1)", Kind::Shape),
        (b"()", b"()", Kind::Shape),
        (b"( x[0])", b"(1)", Kind::Shape),
        (b"(x[])", b"(1)", Kind::Shape),
        (b"(x[0])", b"(1x1)", Kind::Shape),
        (b"(0)", b"(1)", Kind::Shape),
        (b"(x[0])", b"(1) 2", Kind::Shape),
        (
            b"(y)",
            b"(85070591730234615865843651857942052864)",
            Kind::Range,
        ),
        (b"(x[4])", b"(1)", Kind::Name),
        (b"x[] x[0]", b"1x4", Kind::Many),
        (
            b"(x[0])(x[1])(x[2])(x[3])(x[0])",
            b"(1)(1)(1)(1)",
            Kind::Many,
        ),
        (b"x[0] x[1]", b"1", Kind::Shape),
    ];
    for (origins, lengths, want) in rows {
        match read(rt.alloc(), origins, lengths) {
            Ok(_) => panic!(rt; "not refused"),
            Err(stop) => assert_eq!(rt; stop, FieldStop::Refused(want)),
        }
    }
    written_again();
}

// Two boxes of two dimensions: at (a, b), one wide and two high; at (c, d), two wide and as high as a says.
#[test]
fn holds_of_boxes(rt: HostRuntime) -> Result<(), Fail> {
    let mut origins = Row::new(rt.alloc());
    origins.push(Row::from_slice(rt.alloc(), &[0, 1])?)?;
    origins.push(Row::from_slice(rt.alloc(), &[2, 3])?)?;
    let mut lengths = Row::new(rt.alloc());
    lengths.push(Row::from_slice(rt.alloc(), &[Term::Int(1), Term::Int(2)])?)?;
    lengths.push(Row::from_slice(rt.alloc(), &[Term::Int(2), Term::Var(0)])?)?;
    let rows: [([i128; 4], bool, bool); 6] = [
        ([0, 0, 1, 1], true, true),
        ([1, 0, 0, 0], false, false),
        ([1, 0, 0, 2], true, true),
        ([0, 0, 0, 1], false, true),
        ([i128::MAX, 0, i128::MAX - 1, 0], false, false),
        ([i128::MIN, 0, i128::MIN, -1], true, true),
    ];
    for (values, counted, ignored) in rows {
        let all = holds_no_overlap(origins.as_slice(), lengths.as_slice(), false, &values);
        assert_eq!(rt; all, counted);
        let some = holds_no_overlap(origins.as_slice(), lengths.as_slice(), true, &values);
        assert_eq!(rt; some, ignored);
    }
    Ok(())
}

#[test]
fn writes_boxes(rt: HostRuntime) -> Result<(), Fail> {
    let decls: Decls = Row::new(rt.alloc());
    let origins: Row<Vars> = Row::new(rt.alloc());
    let mut lengths = Row::new(rt.alloc());
    let mut out = Vec::new(rt.alloc());
    write_no_overlap(
        rt.alloc(),
        origins.as_slice(),
        lengths.as_slice(),
        true,
        &decls,
        &mut out,
    )?;
    lengths.push(Row::from_slice(rt.alloc(), &[Term::Int(1), Term::Int(-2)])?)?;
    write_no_overlap(
        rt.alloc(),
        origins.as_slice(),
        lengths.as_slice(),
        false,
        &decls,
        &mut out,
    )?;
    assert!(rt;
        out.as_slice()
            == b"<noOverlap> <origins> </origins> <lengths> </lengths> </noOverlap><noOverlap zeroIgnored=\"false\"> <origins> </origins> <lengths> (1,-2) </lengths> </noOverlap>".as_slice()
    );
    Ok(())
}
