ghost use Rattle.std.specs.Prelude.{◌≡◌, ◌∷◌, [], pos, codes, true, false, None, Some, IfOk};
ghost use Rattle.xs_model.specs.Outline.{outline_of};
ghost use Rattle.xs_model.specs.declared.decl.Decl.{Decl};

use crate::{is_form, read_form};
use std::alloc::Global;
use std::test::Fail;
use xf_markup::read_tree;
use xf_num::{Domain, NoMemory, Row, Span, Text};
use xf_text::{FieldStop, Kind};
use xs_model::{Cells, Constraint, Decl, Expr, NameStop, Names, Op};
use xs_template::concrete_of;

fn text(alloc: Global, bytes: &[u8]) -> Result<Text, NoMemory>
    ensures { IfOk result (λ text. text ≡ bytes.now) }
{
    let mut text = Row::new(alloc);
    text.extend(bytes)?;
    Ok(text)
}

fn bits(alloc: Global) -> Result<Domain, NoMemory>
    ensures { IfOk result (λ domain. domain ≡ record { lo = pos 0; hi = pos 1 } ∷ []) }
{
    match Span::new(0, 1) {
        Some(span) => Domain::of(alloc, span),
        None => Err(NoMemory),
    }
}

// The variable `v`.
fn variable(alloc: Global) -> Result<Decl, NoMemory>
    ensures { IfOk result (λ d. d ≡ Decl.One (codes "v") (record { lo = pos 0; hi = pos 1 } ∷ [])) }
{
    let name = text(alloc, b"v")?;
    let domain = bits(alloc)?;
    Ok(Decl::One { name, domain })
}

fn cells(alloc: Global) -> Result<Cells, NoMemory>
    ensures { IfOk result (λ cells. cells ≡ Some (record { lo = pos 0; hi = pos 1 } ∷ []) ∷ Some (record { lo = pos 0; hi = pos 1 } ∷ []) ∷ None ∷ Some (record { lo = pos 0; hi = pos 1 } ∷ []) ∷ []) }
{
    let mut cells = Row::new(alloc);
    cells.push(Some(bits(alloc)?))?;
    cells.push(Some(bits(alloc)?))?;
    cells.push(None)?;
    cells.push(Some(bits(alloc)?))?;
    Ok(cells)
}

// The array `x` of two times two cells, of which `x[1][0]` is undefined.
fn array(alloc: Global) -> Result<Decl, NoMemory>
    ensures { IfOk result (λ d. d ≡ Decl.Array (codes "x") (pos 2 ∷ pos 2 ∷ []) (Some (record { lo = pos 0; hi = pos 1 } ∷ []) ∷ Some (record { lo = pos 0; hi = pos 1 } ∷ []) ∷ None ∷ Some (record { lo = pos 0; hi = pos 1 } ∷ []) ∷ [])) }
{
    let name = text(alloc, b"x")?;
    let cells = cells(alloc)?;
    let mut sizes = Row::new(alloc);
    sizes.extend(&[2, 2])?;
    Ok(Decl::Array { name, sizes, cells })
}

// The names of `v` and then `x`: the variable 0, and the variables 1, 2 and 3.
fn names(alloc: Global) -> Result<Names, NameStop>
    ensures { IfOk result (λ names. names ≡ outline_of (Decl.One (codes "v") (record { lo = pos 0; hi = pos 1 } ∷ [])) ∷ record { name = codes "x"; sizes = pos 2 ∷ pos 2 ∷ []; cells = true ∷ true ∷ false ∷ true ∷ [] } ∷ []) }
{
    let (Ok(v), Ok(x)) = (variable(alloc), array(alloc)) else {
        return Err(NameStop::Memory);
    };
    let mut names = Names::new(alloc);
    names.declare(&v)?;
    names.declare(&x)?;
    Ok(names)
}

// What the constraint of a text is read as, where so many items may still come.
fn read(alloc: Global, text: &[u8], names: &Names, left: u64) -> Result<Constraint, FieldStop> {
    match read_tree(alloc, text) {
        Ok(node) => {
            let c = concrete_of(alloc, &node)?;
            if is_form(c.name.as_slice()) {
                read_form(alloc, &c, names, left)
            } else {
                Err(FieldStop::Refused(Kind::Unknown))
            }
        }
        Err(_) => Err(FieldStop::Refused(Kind::Syntax)),
    }
}

#[test]
fn reads_lists(rt: HostRuntime) -> Result<(), Fail> {
    let Ok(names) = names(rt.alloc()) else {
        panic!(rt; "want of memory");
    };
    let rows: [(&[u8], &[u32]); 8] = [
        (b"<allDifferent/>", &[]),
        (b"<allDifferent> </allDifferent>", &[]),
        (b"<allDifferent> v x[0][1] v </allDifferent>", &[0, 2, 0]),
        (b"<allDifferent>x[][]</allDifferent>", &[1, 2, 3]),
        (b"<allDifferent> x[0..1][0] v </allDifferent>", &[1, 0]),
        (
            b"<allDifferent> v <!-- c --> x[1][1] </allDifferent>",
            &[0, 3],
        ),
        (
            b"<allDifferent id=\"a\" class=\"b\" note=\"c\"> <list class=\"d\" note=\"e\"> x[][1] </list> </allDifferent>",
            &[2, 3],
        ),
        (b"<allDifferent><list/></allDifferent>", &[]),
    ];
    for (text, want) in rows {
        match read(rt.alloc(), text, &names, 3) {
            Ok(Constraint::AllDifferent { list, .. }) => assert!(rt; list.as_slice() == want),
            _ => panic!(rt; "not read"),
        }
    }
    Ok(())
}

#[test]
fn reads_expressions(rt: HostRuntime) -> Result<(), Fail> {
    let Ok(names) = names(rt.alloc()) else {
        panic!(rt; "want of memory");
    };
    let rows: [&[u8]; 4] = [
        b"<intension> ne(v,x[0][1]) </intension>",
        b"<intension id=\"a\" class=\"b\" note=\"c\"><function class=\"d\"> ne( v , x[0][1] ) </function></intension>",
        b"<intension>ne(v,<!-- c -->x[0][+1])</intension>",
        b"<intension> <function>ne(v,x[0][1])</function> </intension>",
    ];
    for text in rows {
        let Ok(
            Constraint::Intension {
                expr: Expr::Node(op, operands),
            },
        ) = read(rt.alloc(), text, &names, 3)
        else {
            panic!(rt; "not read");
        };
        assert_eq!(rt; op, Op::Ne);
        assert!(rt; matches!(operands.as_slice(), [Expr::Var(0), Expr::Var(2)]));
    }
    Ok(())
}

// An element of this name with an open and a close tag, and so many `(` in it before and behind the other bytes.
fn nested(alloc: Global, open: &[u8], count: usize, close: &[u8]) -> Result<Text, NoMemory> {
    let mut text = Row::new(alloc);
    text.extend(open)?;
    for _ in 0..count {
        text.extend(b"(")?;
    }
    text.extend(close)?;
    Ok(text)
}

#[test]
fn refuses_by_the_first_condition(rt: HostRuntime) -> Result<(), Fail> {
    let Ok(names) = names(rt.alloc()) else {
        panic!(rt; "want of memory");
    };
    let rows: [(&[u8], Kind); 24] = [
        (b"<stretch/>", Kind::Unknown),
        (b"<intension> </intension>", Kind::Shape),
        (
            b"<intension><function> v </function><function> v </function></intension>",
            Kind::Shape,
        ),
        (
            b"<intension> v <function> v </function></intension>",
            Kind::Shape,
        ),
        (b"<intension> ne(v) </intension>", Kind::Shape),
        (b"<intension> ne(w,x[) </intension>", Kind::Shape),
        (b"<intension> set(v,v) </intension>", Kind::Shape),
        (
            b"<intension> ne(w,85070591730234615865843651857942052864) </intension>",
            Kind::Range,
        ),
        (b"<intension> ne(w,add(v,v,v)) </intension>", Kind::Name),
        (b"<intension> ne(v,add(v,v)) </intension>", Kind::Many),
        (
            b"<intension> <function> ne(v,neg(v)) </function> </intension>",
            Kind::Many,
        ),
        (
            b"<allDifferent><list> v </list><list> v </list></allDifferent>",
            Kind::Shape,
        ),
        (
            b"<allDifferent><list> w </list><list/></allDifferent>",
            Kind::Shape,
        ),
        (
            b"<allDifferent> v <list> v </list></allDifferent>",
            Kind::Shape,
        ),
        (b"<allDifferent> w x[ </allDifferent>", Kind::Shape),
        (b"<allDifferent> 1 </allDifferent>", Kind::Shape),
        (
            b"<allDifferent> w x[85070591730234615865843651857942052864][0] </allDifferent>",
            Kind::Range,
        ),
        (b"<allDifferent> w </allDifferent>", Kind::Name),
        (b"<allDifferent> x[1][0] </allDifferent>", Kind::Name),
        (b"<allDifferent> x[0] </allDifferent>", Kind::Name),
        (b"<allDifferent> x[2][] </allDifferent>", Kind::Name),
        (b"<allDifferent> v v v v w </allDifferent>", Kind::Name),
        (b"<allDifferent> v v v v </allDifferent>", Kind::Many),
        (
            b"<allDifferent> <list> x[][] v </list> </allDifferent>",
            Kind::Many,
        ),
    ];
    for (text, want) in rows {
        match read(rt.alloc(), text, &names, 3) {
            Err(FieldStop::Refused(kind)) => assert_eq!(rt; kind, want),
            _ => panic!(rt; "not refused"),
        }
    }
    let rows: [(&[u8], usize, &[u8], Kind); 8] = [
        (b"<intension>", 200, b"</intension>", Kind::Shape),
        (b"<intension>", 201, b"</intension>", Kind::Depth),
        (
            b"<intension><function>",
            201,
            b"</function></intension>",
            Kind::Depth,
        ),
        (
            b"<intension> v <function>",
            201,
            b"</function></intension>",
            Kind::Depth,
        ),
        (b"<allDifferent> v ", 200, b" </allDifferent>", Kind::Shape),
        (b"<allDifferent> v ", 201, b" </allDifferent>", Kind::Depth),
        (
            b"<allDifferent><list/><list>",
            201,
            b"</list></allDifferent>",
            Kind::Shape,
        ),
        (
            b"<allDifferent> v <list>",
            201,
            b"</list></allDifferent>",
            Kind::Depth,
        ),
    ];
    for (open, count, close, want) in rows {
        let text = nested(rt.alloc(), open, count, close)?;
        match read(rt.alloc(), text.as_slice(), &names, 9) {
            Err(FieldStop::Refused(kind)) => assert_eq!(rt; kind, want),
            _ => panic!(rt; "not refused"),
        }
    }
    Ok(())
}
