//! Circuits over the array `x` of four cells, the variables 0 to 3.

ghost use Rattle.std.specs.Prelude.{◌≡◌, ◌∷◌, [], pos, codes, true, Some, IfOk};
ghost use Rattle.xs_model.specs.declared.decl.Decl.{Decl};

use crate::{holds_circuit, read_circuit, write_circuit, written_again};
use std::alloc::Global;
use std::test::Fail;
use xf_markup::read_tree;
use xf_num::{Domain, NoMemory, Row, Span, Text};
use xf_text::{FieldStop, Kind};
use xs_model::{Cells, Constraint, Decl, Decls, NameStop, Names, Term};
use xs_template::concrete_of;

fn text(alloc: Global, bytes: &[u8]) -> Result<Text, NoMemory>
    ensures { IfOk result (λ text. text ≡ bytes.now) }
{
    let mut text = Row::new(alloc);
    text.extend(bytes)?;
    Ok(text)
}

fn values(alloc: Global) -> Result<Domain, NoMemory>
    ensures { IfOk result (λ domain. domain ≡ record { lo = pos 0; hi = pos 3 } ∷ []) }
{
    match Span::new(0, 3) {
        Some(span) => Domain::of(alloc, span),
        None => Err(NoMemory),
    }
}

fn cells(alloc: Global) -> Result<Cells, NoMemory>
    ensures { IfOk result (λ cells. cells ≡ Some (record { lo = pos 0; hi = pos 3 } ∷ []) ∷ Some (record { lo = pos 0; hi = pos 3 } ∷ []) ∷ Some (record { lo = pos 0; hi = pos 3 } ∷ []) ∷ Some (record { lo = pos 0; hi = pos 3 } ∷ []) ∷ []) }
{
    let mut cells = Row::new(alloc);
    cells.push(Some(values(alloc)?))?;
    cells.push(Some(values(alloc)?))?;
    cells.push(Some(values(alloc)?))?;
    cells.push(Some(values(alloc)?))?;
    Ok(cells)
}

fn array(alloc: Global) -> Result<Decl, NoMemory>
    ensures { IfOk result (λ d. d ≡ Decl.Array (codes "x") (pos 4 ∷ []) (Some (record { lo = pos 0; hi = pos 3 } ∷ []) ∷ Some (record { lo = pos 0; hi = pos 3 } ∷ []) ∷ Some (record { lo = pos 0; hi = pos 3 } ∷ []) ∷ Some (record { lo = pos 0; hi = pos 3 } ∷ []) ∷ [])) }
{
    let name = text(alloc, b"x")?;
    let cells = cells(alloc)?;
    let mut sizes = Row::new(alloc);
    sizes.extend(&[4])?;
    Ok(Decl::Array { name, sizes, cells })
}

fn names(alloc: Global) -> Result<Names, NameStop>
    ensures { IfOk result (λ names. names ≡ record { name = codes "x"; sizes = pos 4 ∷ []; cells = true ∷ true ∷ true ∷ true ∷ [] } ∷ []) }
{
    let Ok(x) = array(alloc) else {
        return Err(NameStop::Memory);
    };
    let mut names = Names::new(alloc);
    names.declare(&x)?;
    Ok(names)
}

// What a text is read as, where so many items may still come.
fn read(alloc: Global, text: &[u8], left: u64) -> Result<Constraint, FieldStop> {
    let Ok(names) = names(alloc) else {
        return Err(FieldStop::Memory);
    };
    match read_tree(alloc, text) {
        Ok(node) => {
            let c = concrete_of(alloc, &node)?;
            read_circuit(alloc, &c, &names, left)
        }
        Err(_) => Err(FieldStop::Refused(Kind::Syntax)),
    }
}

// What a circuit is read as: its list, its start and its size.
type Read = Result<(&'static [u32], i128, Option<Term>), Kind>;

#[test]
fn reads_or_refuses(rt: HostRuntime) {
    let rows: [(&[u8], u64, Read); 22] = [
        (b"<circuit> x[] </circuit>", 5, Ok((&[0, 1, 2, 3], 0, None))),
        (b"<circuit> </circuit>", 1, Ok((&[], 0, None))),
        (
            b"<circuit><list> x[2] </list></circuit>",
            2,
            Ok((&[2], 0, None)),
        ),
        (
            b"<circuit> <list startIndex=\"+1\"> x[1] x[0] </list> <size> 2 </size> </circuit>",
            4,
            Ok((&[1, 0], 1, Some(Term::Int(2)))),
        ),
        (
            b"<circuit><size>x[3]</size><list> x[0] </list></circuit>",
            3,
            Ok((&[0], 0, Some(Term::Var(3)))),
        ),
        (
            b"<circuit><list startIndex=\"-85070591730234615865843651857942052863\"/></circuit>",
            1,
            Ok((&[], -85070591730234615865843651857942052863, None)),
        ),
        (b"<circuit><size> 1 </size></circuit>", 9, Err(Kind::Shape)),
        (b"<circuit> x[] <list/></circuit>", 9, Err(Kind::Shape)),
        (
            b"<circuit> x[] <size> 1 </size></circuit>",
            9,
            Err(Kind::Shape),
        ),
        (b"<circuit><list/><list/></circuit>", 9, Err(Kind::Shape)),
        (
            b"<circuit><list/><size> 1 </size><size> 1 </size></circuit>",
            9,
            Err(Kind::Shape),
        ),
        (
            b"<circuit><list startIndex=\" 1\"/></circuit>",
            9,
            Err(Kind::Shape),
        ),
        (
            b"<circuit><list startIndex=\"\"/></circuit>",
            9,
            Err(Kind::Shape),
        ),
        (b"<circuit><list/><size/></circuit>", 9, Err(Kind::Shape)),
        (
            b"<circuit><list/><size> 1 2 </size></circuit>",
            9,
            Err(Kind::Shape),
        ),
        (
            b"<circuit><list/><size> x[] </size></circuit>",
            9,
            Err(Kind::Shape),
        ),
        (
            b"<circuit><list startIndex=\"85070591730234615865843651857942052864\"> y </list></circuit>",
            9,
            Err(Kind::Range),
        ),
        (b"<circuit> y </circuit>", 0, Err(Kind::Name)),
        (
            b"<circuit><list> x[] </list><size> x[4] </size></circuit>",
            0,
            Err(Kind::Name),
        ),
        (b"<circuit> x[] </circuit>", 4, Err(Kind::Many)),
        (
            b"<circuit><list> x[] </list><size> 1 </size></circuit>",
            5,
            Err(Kind::Many),
        ),
        (b"<circuit/>", 0, Err(Kind::Many)),
    ];
    for (text, left, want) in rows {
        match (read(rt.alloc(), text, left), want) {
            (Ok(Constraint::Circuit { list, start, size }), Ok((members, first, nodes))) => {
                assert!(rt; list.as_slice() == members);
                assert_eq!(rt; start, first);
                assert!(rt; size == nodes);
            }
            (Err(stop), Err(kind)) => assert_eq!(rt; stop, FieldStop::Refused(kind)),
            _ => panic!(rt; "another answer"),
        }
    }
    written_again();
}

// Values of four places, and the index of the first.
#[test]
fn goes_once_round(rt: HostRuntime) {
    let rows: [([i128; 4], i128, bool); 11] = [
        ([0, 1, 2, 3], 0, false),
        ([1, 0, 3, 2], 0, false),
        ([1, 0, 2, 3], 0, true),
        ([1, 2, 3, 0], 0, true),
        ([1, 2, 0, 0], 0, false),
        ([1, 0, 2, 4], 0, false),
        ([1, 0, 2, -1], 0, false),
        ([2, 1, 3, 4], 1, true),
        ([1, 0, 2, 3], 1, false),
        (
            [i128::MIN + 2, i128::MIN, i128::MIN + 1, i128::MIN + 3],
            i128::MIN,
            true,
        ),
        (
            [i128::MAX - 1, i128::MAX - 2, i128::MAX, i128::MIN],
            i128::MAX - 2,
            false,
        ),
    ];
    for (values, start, want) in rows {
        let holds = holds_circuit(&[0, 1, 2, 3], &start, &None, &values);
        assert_eq!(rt; holds, want);
    }
    assert!(rt; !holds_circuit(&[], &0, &None, &[]));
    assert!(rt; !holds_circuit(&[0], &0, &None, &[0]));
    assert!(rt; !holds_circuit(&[0], &0, &None, &[1]));
    assert!(rt; holds_circuit(&[1, 0], &0, &None, &[0, 1]));
    let values = [1, 0, 2, 3, 2];
    let list = [0, 1, 2, 3];
    assert!(rt; holds_circuit(&list, &0, &Some(Term::Int(2)), &values));
    assert!(rt; !holds_circuit(&list, &0, &Some(Term::Int(4)), &values));
    assert!(rt; holds_circuit(&list, &0, &Some(Term::Var(4)), &values));
    assert!(rt; !holds_circuit(&list, &0, &Some(Term::Var(3)), &values));
}

#[test]
fn writes_circuits(rt: HostRuntime) -> Result<(), Fail> {
    let mut decls: Decls = Row::new(rt.alloc());
    let line = write_circuit(rt.alloc(), &[], &0, &None, &decls)?;
    assert!(rt; line.as_slice() == b"<circuit> </circuit>".as_slice());
    let line = write_circuit(rt.alloc(), &[], &1, &Some(Term::Int(-2)), &decls)?;
    assert!(rt;
        line.as_slice()
            == b"<circuit> <list startIndex=\"1\"> </list> <size> -2 </size> </circuit>".as_slice()
    );
    decls.push(array(rt.alloc())?)?;
    let line = write_circuit(rt.alloc(), &[1, 0], &0, &None, &decls)?;
    assert!(rt; line.as_slice() == b"<circuit> x[1] x[0] </circuit>".as_slice());
    let line = write_circuit(rt.alloc(), &[1, 0], &0, &Some(Term::Var(3)), &decls)?;
    assert!(rt;
        line.as_slice()
            == b"<circuit> <list> x[1] x[0] </list> <size> x[3] </size> </circuit>".as_slice()
    );
    let line = write_circuit(rt.alloc(), &[2], &-1, &None, &decls)?;
    assert!(rt;
        line.as_slice() == b"<circuit> <list startIndex=\"-1\"> x[2] </list> </circuit>".as_slice()
    );
    Ok(())
}
