ghost use Rattle.std.specs.Prelude.{◌≡◌, ◌∷◌, [], pos, codes, true, false, None, Some, IfOk};
ghost use Rattle.xs_model.specs.Outline.{outline_of};
ghost use Rattle.xs_model.specs.declared.decl.Decl.{Decl};

use crate::{count_nodes, read_expr, scan_expr};
use std::alloc::Global;
use std::process::Abort;
use std::test::Fail;
use xf_num::{Domain, NoMemory, Row, Span, Text};
use xf_text::{FieldStop, Kind};
use xs_fields::Condition;
use xs_model::{Cells, Decl, Expr, NameStop, Names, Op};

fn text(alloc: Global, bytes: &[u8]) -> Result<Text, NoMemory>
    ensures { IfOk result (λ text. text ≡ bytes.now) }
{
    let mut text = Row::new(alloc);
    text.extend(bytes)?;
    Ok(text)
}

fn bits(alloc: Global) -> Result<Domain, NoMemory>
    ensures { IfOk result (λ domain. domain ≡ record { lo = pos 0; hi = pos 1 } ∷ []) }
{
    match Span::new(0, 1) {
        Some(span) => Domain::of(alloc, span),
        None => Err(NoMemory),
    }
}

// The variable `add`, named like an operator.
fn variable(alloc: Global) -> Result<Decl, NoMemory>
    ensures { IfOk result (λ d. d ≡ Decl.One (codes "add") (record { lo = pos 0; hi = pos 1 } ∷ [])) }
{
    let name = text(alloc, b"add")?;
    let domain = bits(alloc)?;
    Ok(Decl::One { name, domain })
}

fn cells(alloc: Global) -> Result<Cells, NoMemory>
    ensures { IfOk result (λ cells. cells ≡ Some (record { lo = pos 0; hi = pos 1 } ∷ []) ∷ Some (record { lo = pos 0; hi = pos 1 } ∷ []) ∷ None ∷ Some (record { lo = pos 0; hi = pos 1 } ∷ []) ∷ []) }
{
    let mut cells = Row::new(alloc);
    cells.push(Some(bits(alloc)?))?;
    cells.push(Some(bits(alloc)?))?;
    cells.push(None)?;
    cells.push(Some(bits(alloc)?))?;
    Ok(cells)
}

// The array `x` of 2 by 2 cells, of which the third is undefined.
fn array(alloc: Global) -> Result<Decl, NoMemory>
    ensures { IfOk result (λ d. d ≡ Decl.Array (codes "x") (pos 2 ∷ pos 2 ∷ []) (Some (record { lo = pos 0; hi = pos 1 } ∷ []) ∷ Some (record { lo = pos 0; hi = pos 1 } ∷ []) ∷ None ∷ Some (record { lo = pos 0; hi = pos 1 } ∷ []) ∷ [])) }
{
    let name = text(alloc, b"x")?;
    let cells = cells(alloc)?;
    let mut sizes = Row::new(alloc);
    sizes.extend(&[2, 2])?;
    Ok(Decl::Array { name, sizes, cells })
}

// The names of `add` and then `x`.
fn names(alloc: Global) -> Result<Names, NameStop>
    ensures { IfOk result (λ names. names ≡ outline_of (Decl.One (codes "add") (record { lo = pos 0; hi = pos 1 } ∷ [])) ∷ record { name = codes "x"; sizes = pos 2 ∷ pos 2 ∷ []; cells = true ∷ true ∷ false ∷ true ∷ [] } ∷ []) }
{
    let (Ok(v), Ok(x)) = (variable(alloc), array(alloc)) else {
        return Err(NameStop::Memory);
    };
    let mut names = Names::new(alloc);
    names.declare(&v)?;
    names.declare(&x)?;
    Ok(names)
}

fn name(op: Op) -> &'static [u8] {
    match op {
        Op::Neg => b"neg",
        Op::Add => b"add",
        Op::Pow => b"pow",
        Op::Le => b"le",
        Op::Set => b"set",
        Op::In => b"in",
        Op::If => b"if",
        _ => b"other",
    }
}

// Writes an expression whose integers have one digit, a variable as `v` and its number.
#[cycle(show)]
fn show(e: &Expr, out: &mut Row<u8>) -> Result<(), NoMemory> {
    match e {
        Expr::Int(value) => {
            if *value < 0 {
                out.push(b'-')?;
            }
            out.push(b'0' + (value.unsigned_abs() % 10) as u8)?;
        }
        Expr::Var(number) => {
            out.push(b'v')?;
            out.push(b'0' + (*number % 10) as u8)?;
        }
        Expr::Node(op, operands) => {
            out.extend(name(*op))?;
            out.push(b'(')?;
            show_all(operands.as_slice(), out)?;
            out.push(b')')?;
        }
    }
    Ok(())
}

// The operands, a `;` behind each.
#[cycle(show)]
fn show_all(operands: &[Expr], out: &mut Row<u8>) -> Result<(), NoMemory> {
    for operand in operands {
        show(operand, out)?;
        out.push(b';')?;
    }
    Ok(())
}

// What a text denotes as it is shown; nothing where it is refused.
fn shown(alloc: Global, text: &[u8]) -> Result<Text, Fail> {
    let mut out = Row::new(alloc);
    let Ok(names) = names(alloc) else {
        return Ok(out);
    };
    if let Ok(e) = read_expr(alloc, text, &names) {
        show(&e, &mut out)?;
    }
    Ok(out)
}

// What a text misses first, where `read_expr` says the same.
fn missed(alloc: Global, text: &[u8]) -> Result<Option<Condition>, Fail> {
    let Ok(names) = names(alloc) else {
        return Ok(None);
    };
    let reading = scan_expr(alloc, text, &names, 1_000)?;
    match (reading.missed, read_expr(alloc, text, &names)) {
        (Some(missed), Err(FieldStop::Refused(kind))) if kind == missed.kind() => Ok(Some(missed)),
        _ => Ok(None),
    }
}

fn words(rt: &impl Abort, alloc: Global) -> Result<(), Fail> {
    let cases: [(&[u8], &[u8]); 8] = [
        (b"7", b"7"),
        (b" -3\n", b"-3"),
        (b"+04", b"4"),
        (b"add", b"v0"),
        (b"x[0][0]", b"v1"),
        (b"x[0][+1]", b"v2"),
        (b"x[1][01]", b"v3"),
        (b"neg(add)", b"neg(v0;)"),
    ];
    for (text, want) in cases {
        assert!(rt; shown(alloc, text)?.as_slice() == want);
    }
    Ok(())
}

fn calls(rt: &impl Abort, alloc: Global) -> Result<(), Fail> {
    let cases: [(&[u8], &[u8]); 9] = [
        (b" add ( add , 1,x[0][0] ) ", b"add(v0;1;v1;)"),
        (b"le(add(add,add),-2)", b"le(add(v0;v0;);-2;)"),
        (b"pow(add,+2)", b"pow(v0;2;)"),
        (b"pow(add,02)", b"pow(v0;2;)"),
        (b"in(add,set())", b"in(v0;set();)"),
        (b"in(add,set(neg(1),x[0][1]))", b"in(v0;set(neg(1;);v2;);)"),
        (b"if(add,1,neg(2))", b"if(v0;1;neg(2;);)"),
        (b"add\t(\r\nadd,add)", b"add(v0;v0;)"),
        (b"neg(neg(neg(5)))", b"neg(neg(neg(5;););)"),
    ];
    for (text, want) in cases {
        assert!(rt; shown(alloc, text)?.as_slice() == want);
    }
    Ok(())
}

fn misspelt_calls(rt: &impl Abort, alloc: Global) -> Result<(), Fail> {
    let cases: [&[u8]; 16] = [
        b"",
        b" ",
        b"add add",
        b"1 2",
        b"1,2",
        b"(add)",
        b"()",
        b"neg()",
        b"neg(",
        b"neg(add",
        b"neg(add))",
        b"neg(add) 1",
        b"neg(add)(1)",
        b"add(add,)",
        b"add(,add)",
        b"add(add add)",
    ];
    for text in cases {
        assert_eq!(rt; missed(alloc, text)?, Some(Condition::Spelling));
    }
    Ok(())
}

fn misplaced_operands(rt: &impl Abort, alloc: Global) -> Result<(), Fail> {
    let cases: [&[u8]; 15] = [
        b"add(add)",
        b"sub(1,2,3)",
        b"foo(1,2)",
        b"Add(1,2)",
        b"x[0][0](1)",
        b"neg(1)neg(1)",
        b")",
        b",",
        b"set(1)",
        b"set()",
        b"neg(set(1))",
        b"in(set(1),add)",
        b"in(add,1)",
        b"in(set(1),set(1))",
        b"in(add,set(set(1)))",
    ];
    for text in cases {
        assert_eq!(rt; missed(alloc, text)?, Some(Condition::Spelling));
    }
    Ok(())
}

fn misspelt_words(rt: &impl Abort, alloc: Global) -> Result<(), Fail> {
    let cases: [&[u8]; 17] = [
        b"pow(add,0)",
        b"pow(add,65)",
        b"pow(add,add)",
        b"pow(2,neg(1))",
        b"pow(add,85070591730234615865843651857942052864)",
        b"pow(set(1),2)",
        b"x[]",
        b"x[0][]",
        b"x[0..1][0]",
        b"x[0][0",
        b"x[a][0]",
        b"x[][85070591730234615865843651857942052864]",
        b"x[0..85070591730234615865843651857942052864][0]",
        b"x[0] [0]",
        b"1x2",
        b"%0",
        b"1..2",
    ];
    for text in cases {
        assert_eq!(rt; missed(alloc, text)?, Some(Condition::Spelling));
    }
    Ok(())
}

fn great_integers(rt: &impl Abort, alloc: Global) -> Result<(), Fail> {
    let cases: [&[u8]; 3] = [
        b"85070591730234615865843651857942052864",
        b"add(y,-85070591730234615865843651857942052864)",
        b"x[0][85070591730234615865843651857942052864]",
    ];
    for text in cases {
        assert_eq!(rt; missed(alloc, text)?, Some(Condition::Magnitude));
    }
    Ok(())
}

fn names_that_denote_none(rt: &impl Abort, alloc: Global) -> Result<(), Fail> {
    let cases: [&[u8]; 11] = [
        b"y",
        b"neg",
        b"le(y,add)",
        b"x",
        b"x[0]",
        b"x[0][0][0]",
        b"add[0]",
        b"x[2][0]",
        b"x[-1][0]",
        b"x[1][0]",
        b"in(1,set(2,y))",
    ];
    for text in cases {
        assert_eq!(rt; missed(alloc, text)?, Some(Condition::Naming));
    }
    Ok(())
}

// Each condition is asked of the whole text before the next one.
fn spelling_is_asked_first(rt: &impl Abort, alloc: Global) -> Result<(), Fail> {
    let text = b"add(z,85070591730234615865843651857942052864,1..2)";
    assert_eq!(rt; missed(alloc, text)?, Some(Condition::Spelling));
    Ok(())
}

fn depths(rt: &impl Abort, alloc: Global) -> Result<(), Fail> {
    let names = Names::new(alloc);
    let mut deep = Row::new(alloc);
    for _ in 0..200 {
        deep.extend(b"neg(")?;
    }
    deep.push(b'1')?;
    for _ in 0..200 {
        deep.push(b')')?;
    }
    assert!(rt; read_expr(alloc, deep.as_slice(), &names).is_ok());
    // What follows opens one parenthesis where none is open, and is misspelt.
    deep.extend(b"y)(")?;
    assert_eq!(rt;
        scan_expr(alloc, deep.as_slice(), &names, 1_000)?.missed,
        Some(Condition::Spelling)
    );
    // Too many are open at once, and the text is misspelt as well.
    let open = [b'('; 201];
    assert_eq!(rt;
        scan_expr(alloc, &open, &names, 1_000)?.missed,
        Some(Condition::Nesting)
    );
    match read_expr(alloc, &open, &names) {
        Ok(_) => assert!(rt; false),
        Err(stop) => assert_eq!(rt; stop, FieldStop::Refused(Kind::Depth)),
    }
    Ok(())
}

fn nodes(rt: &impl Abort) {
    let cases: [(&[u8], u64); 6] = [
        (b" 7 ", 1),
        (b"neg(x)", 2),
        (b"add(x,1,mul(x,y))", 6),
        (b"in(x,set(1,2))", 5),
        (b"in ( x , set ( ) )", 3),
        (b"if(le(x,-2),pow(x,2),x[0][0])", 8),
    ];
    for (text, want) in cases {
        assert_eq!(rt; count_nodes(text, want), Some(want));
        assert_eq!(rt; count_nodes(text, want - 1), None);
    }
}

#[test]
fn expressions(rt: HostRuntime) -> Result<(), Fail> {
    words(&rt, rt.alloc())?;
    calls(&rt, rt.alloc())?;
    nodes(&rt);
    depths(&rt, rt.alloc())?;
    Ok(())
}

#[test]
fn refusals(rt: HostRuntime) -> Result<(), Fail> {
    misspelt_calls(&rt, rt.alloc())?;
    misplaced_operands(&rt, rt.alloc())?;
    misspelt_words(&rt, rt.alloc())?;
    great_integers(&rt, rt.alloc())?;
    names_that_denote_none(&rt, rt.alloc())?;
    spelling_is_asked_first(&rt, rt.alloc())?;
    Ok(())
}
