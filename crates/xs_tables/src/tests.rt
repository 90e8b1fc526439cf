//! Tables over the array `x` of three cells, the variables 0, 1 and 2.

ghost use Rattle.std.specs.Prelude.{◌≡◌, ◌∷◌, [], pos, codes, true, Some, IfOk};
ghost use Rattle.xs_model.specs.Outline.{outline_of};
ghost use Rattle.xs_model.specs.declared.decl.Decl.{Decl};

use crate::{holds_table, read_extension};
use std::alloc::Global;
use std::test::Fail;
use xf_num::{Domain, NoMemory, Row, Span, Text};
use xf_text::{FieldStop, Kind};
use xs_model::{Cells, Concrete, Constraint, Decl, NameStop, Names, Part, Parts, Tuple};

fn text(alloc: Global, bytes: &[u8]) -> Result<Text, NoMemory>
    ensures { IfOk result (λ text. text ≡ bytes.now) }
{
    let mut text = Row::new(alloc);
    text.extend(bytes)?;
    Ok(text)
}

fn bits(alloc: Global) -> Result<Domain, NoMemory>
    ensures { IfOk result (λ domain. domain ≡ record { lo = pos 0; hi = pos 1 } ∷ []) }
{
    match Span::new(0, 1) {
        Some(span) => Domain::of(alloc, span),
        None => Err(NoMemory),
    }
}

fn cells(alloc: Global) -> Result<Cells, NoMemory>
    ensures { IfOk result (λ cells. cells ≡ Some (record { lo = pos 0; hi = pos 1 } ∷ []) ∷ Some (record { lo = pos 0; hi = pos 1 } ∷ []) ∷ Some (record { lo = pos 0; hi = pos 1 } ∷ []) ∷ []) }
{
    let mut cells = Row::new(alloc);
    cells.push(Some(bits(alloc)?))?;
    cells.push(Some(bits(alloc)?))?;
    cells.push(Some(bits(alloc)?))?;
    Ok(cells)
}

fn array(alloc: Global) -> Result<Decl, NoMemory>
    ensures { IfOk result (λ d. d ≡ Decl.Array (codes "x") (pos 3 ∷ []) (Some (record { lo = pos 0; hi = pos 1 } ∷ []) ∷ Some (record { lo = pos 0; hi = pos 1 } ∷ []) ∷ Some (record { lo = pos 0; hi = pos 1 } ∷ []) ∷ [])) }
{
    let name = text(alloc, b"x")?;
    let cells = cells(alloc)?;
    let mut sizes = Row::new(alloc);
    sizes.extend(&[3])?;
    Ok(Decl::Array { name, sizes, cells })
}

fn names(alloc: Global) -> Result<Names, NameStop>
    ensures { IfOk result (λ names. names ≡ record { name = codes "x"; sizes = pos 3 ∷ []; cells = true ∷ true ∷ true ∷ [] } ∷ []) }
{
    let Ok(x) = array(alloc) else {
        return Err(NameStop::Memory);
    };
    let mut names = Names::new(alloc);
    names.declare(&x)?;
    Ok(names)
}

fn part(alloc: Global, name: &[u8], bytes: &[u8]) -> Result<Part, NoMemory> {
    Ok(Part {
        name: text(alloc, name)?,
        attrs: Row::new(alloc),
        text: text(alloc, bytes)?,
    })
}

fn parts(alloc: Global, list: &[u8], child: &[u8], table: &[u8]) -> Result<Parts, NoMemory> {
    let mut parts = Row::new(alloc);
    parts.push(part(alloc, child, table)?)?;
    parts.push(part(alloc, b"list", list)?)?;
    Ok(parts)
}

// What a list and a child with a table are read as, where so many items may still come.
fn read(
    alloc: Global,
    list: &[u8],
    child: &[u8],
    table: &[u8],
    left: u64,
) -> Result<Constraint, FieldStop> {
    let Ok(names) = names(alloc) else {
        return Err(FieldStop::Memory);
    };
    let c = Concrete {
        name: text(alloc, b"extension")?,
        attrs: Row::new(alloc),
        parts: parts(alloc, list, child, table)?,
        place: 0,
    };
    read_extension(alloc, &c, &names, left)
}

// The entries of all tuples.
fn entries(alloc: Global, tuples: &[Tuple]) -> Result<Tuple, NoMemory> {
    let mut all = Row::new(alloc);
    for tuple in tuples {
        all.extend(tuple.as_slice())?;
    }
    Ok(all)
}

#[test]
fn reads_tuples(rt: HostRuntime) -> Result<(), Fail> {
    let rows: [(&[u8], &[u8], &[u8], &[Option<i128>], usize); 5] = [
        (
            b"x[]",
            b"supports",
            b" (0,*,1) ",
            &[Some(0), None, Some(1)],
            1,
        ),
        (
            b" x[0] x[2] ",
            b"conflicts",
            b"(0,1)\n(-2,+03)",
            &[Some(0), Some(1), Some(-2), Some(3)],
            2,
        ),
        (b"x[1]", b"supports", b"(7)(*)", &[Some(7), None], 2),
        (b"x[]", b"supports", b" ", &[], 0),
        (b"x[]", b"conflicts", b"", &[], 0),
    ];
    for (list, child, table, want, count) in rows {
        match read(rt.alloc(), list, child, table, 7) {
            Ok(
                Constraint::Extension {
                    tuples,
                    positive,
                    ..
                },
            ) => {
                let all = entries(rt.alloc(), tuples.as_slice())?;
                assert!(rt; all.as_slice() == want);
                assert_eq!(rt; tuples.len(), count);
                assert!(rt; positive == (child == b"supports".as_slice()));
            }
            _ => panic!(rt; "not read"),
        }
    }
    Ok(())
}

#[test]
fn refuses_tables(rt: HostRuntime) {
    let rows: [(&[u8], &[u8], &[u8], Kind); 21] = [
        (b"x[]", b"supports", b"( 0,1,1)", Kind::Shape),
        (b"x[]", b"supports", b"(0,1,1", Kind::Shape),
        (b"x[]", b"supports", b"(0,1,1) 2", Kind::Shape),
        (b"x[]", b"supports", b"()", Kind::Shape),
        (b"x[]", b"supports", b"(0,,1)", Kind::Shape),
        (b"x[]", b"supports", b"(0,1)", Kind::Shape),
        (b"x[]", b"supports", b"0 1", Kind::Shape),
        (b"x[1]", b"supports", b"3..2", Kind::Shape),
        (b"x[1]", b"values", b"(0)", Kind::Shape),
        (b"", b"supports", b"(0)", Kind::Shape),
        (
            b"x[",
            b"supports",
            b"(85070591730234615865843651857942052864)",
            Kind::Shape,
        ),
        (
            b"y",
            b"supports",
            b"(85070591730234615865843651857942052864)",
            Kind::Range,
        ),
        (
            b"y",
            b"supports",
            b"(85070591730234615865843651857942052864,)",
            Kind::Shape,
        ),
        (b"x[3]", b"supports", b"(0,1,1)(1,1,1)", Kind::Name),
        (b"y", b"supports", b"(0,1)", Kind::Name),
        (b"x[]", b"supports", b"(0,1,1)(1)", Kind::Shape),
        (b"x[]", b"supports", b"(0,1,1)(1,1)", Kind::Many),
        (b"x[]", b"supports", b"(0,1,1)(1,1,1)(1,1,1)(1)", Kind::Many),
        (
            b"x[]",
            b"supports",
            b"(0,1,1)(1,1,1)(1,1,1)(1,1 ",
            Kind::Shape,
        ),
        (
            b"x[0] x[1] x[2] x[0]",
            b"supports",
            b"(0,1,1,0)",
            Kind::Many,
        ),
        (b"x[1]", b"supports", b"1 2..3 4 5", Kind::Many),
    ];
    for (list, child, table, want) in rows {
        match read(rt.alloc(), list, child, table, 7) {
            Ok(_) => panic!(rt; "not refused"),
            Err(stop) => assert_eq!(rt; stop, FieldStop::Refused(want)),
        }
    }
}

// The table of one tuple, and the table of none.
#[test]
fn holds_of_tables(rt: HostRuntime) -> Result<(), Fail> {
    let mut tuples = Row::new(rt.alloc());
    let none = holds_table(&[0, 1, 2], tuples.as_slice(), true, &[0, 1, 1]);
    assert!(rt; !none);
    tuples.push(Row::from_slice(rt.alloc(), &[Some(0), None, Some(1)])?)?;
    let rows: [([i128; 3], bool); 4] = [
        ([0, 1, 1], true),
        ([0, 7, 1], true),
        ([1, 1, 1], false),
        ([0, 1, 0], false),
    ];
    for (values, want) in rows {
        let supported = holds_table(&[0, 1, 2], tuples.as_slice(), true, &values);
        assert_eq!(rt; supported, want);
        let allowed = holds_table(&[0, 1, 2], tuples.as_slice(), false, &values);
        assert_eq!(rt; allowed, !want);
    }
    Ok(())
}
