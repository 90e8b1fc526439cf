ghost use Rattle.std.specs.Prelude.{◌≡◌, ◌∷◌, [], codes, pos, All, IfOk, None, Some, length, true};
ghost use Rattle.std.specs.List.{AllByRecursion};
ghost use Rattle.xs_model.specs.Bounds.{HasVariables, truths};
ghost use Rattle.xs_model.specs.Formed.{HasSmallIntegers, IsFormedExpr};
ghost use Rattle.xs_model.specs.Names.{words};
ghost use Rattle.xs_model.specs.Sound.{IsSmall, IsSoundDecl};
ghost use Rattle.xs_model.specs.declared.decl.Decl.{Decl};

use crate::limits::only;
use crate::shape::is_set;
use crate::{
    bounds, is_exponent_word, is_shaped, is_too_deep, next_token, operator, value, write_expr,
};
use std::alloc::Global;
use std::process::Abort;
use std::str;
use std::test::Fail;
use xf_num::{Domain, NoMemory, Row, Span, Stack, Text};
use xf_text::Kind;
use xs_model::{Cells, Decl, Decls, Expr, Op};

/// 2^126 - 1, the greatest magnitude.
const MOST: i128 = (1 << 126) - 1;

fn depths(rt: &impl Abort) {
    let mut text = [b'('; 201];
    assert!(rt; is_too_deep(&text));
    assert!(rt; !is_too_deep(&text[..200]));
    // A `)` with nothing open closes nothing, and one behind 200 `(` closes one.
    text[0] = b')';
    assert!(rt; !is_too_deep(&text));
    text[0] = b'(';
    text[200] = b')';
    assert!(rt; !is_too_deep(&text));
    assert!(rt; !is_too_deep(b""));
}

fn operators(rt: &impl Abort) {
    let rows: [(&[u8], Option<Op>); 6] = [
        (b"add", Some(Op::Add)),
        (b"notin", Some(Op::NotIn)),
        (b"if", Some(Op::If)),
        (b"Add", None),
        (b"in(", None),
        (b"", None),
    ];
    for (name, op) in rows {
        assert_eq!(rt; operator(name), op);
    }
}

fn tokens(rt: &impl Abort) {
    let expected: [&[u8]; 6] = [b"le", b"(", b"x[1]", b",", b"-2", b")"];
    let mut rest: &[u8] = b" le ( x[1],-2)\n";
    for token in expected {
        match next_token(rest) {
            Some((found, behind)) => {
                assert!(rt; found == token);
                rest = behind;
            }
            None => assert!(rt; false),
        }
    }
    assert!(rt; next_token(rest).is_none());
}

fn exponents(rt: &impl Abort) {
    let rows: [(&[u8], bool); 8] = [
        (b"1", true),
        (b"64", true),
        (b"+2", true),
        (b"02", true),
        (b"0", false),
        (b"65", false),
        (b"x", false),
        (b"9999999999999999999999999999999999999999", false),
    ];
    for (word, expected) in rows {
        assert_eq!(rt; is_exponent_word(word), expected);
    }
}

fn pair(alloc: Global, op: Op, first: Expr, second: Expr) -> Result<Expr, Fail> {
    let mut operands = Row::new(alloc);
    operands.push(first)?;
    operands.push(second)?;
    Ok(Expr::Node(op, operands))
}

fn shapes(rt: &impl Abort, alloc: Global) -> Result<(), Fail> {
    let variable = Expr::Var(0);
    assert!(rt; is_shaped(&variable));
    let power = pair(alloc, Op::Pow, Expr::Var(0), Expr::Int(64))?;
    assert!(rt; is_shaped(&power));
    let great = pair(alloc, Op::Pow, Expr::Var(0), Expr::Int(65))?;
    assert!(rt; !is_shaped(&great));
    let negative = pair(alloc, Op::Neg, Expr::Var(0), Expr::Int(1))?;
    assert!(rt; !is_shaped(&negative));
    let set = pair(alloc, Op::Set, Expr::Int(1), Expr::Int(2))?;
    let member = pair(alloc, Op::In, Expr::Var(0), set)?;
    assert!(rt; is_shaped(&member));
    let no_set = pair(alloc, Op::In, Expr::Var(0), Expr::Int(2))?;
    assert!(rt; !is_shaped(&no_set));
    let set = pair(alloc, Op::Set, Expr::Int(1), Expr::Int(2))?;
    let sum = pair(alloc, Op::Add, Expr::Var(0), set)?;
    assert!(rt; !is_shaped(&sum));
    let inner = pair(alloc, Op::And, Expr::Var(0), Expr::Var(1))?;
    let outer = pair(alloc, Op::Not, inner, Expr::Var(2))?;
    assert!(rt; !is_shaped(&outer));
    Ok(())
}

/// A call whose parenthesis is open, and its operands so far.
#[derive(Debug, Drop)]
struct Call {
    op: Op,
    operands: Row<Expr>,
}

fn literal(word: &[u8]) -> Option<Expr> {
    match str::from_utf8(word) {
        Ok(digits) => match i128::from_str_radix(digits, 10) {
            Ok(value) => Some(Expr::Int(value)),
            Err(_) => None,
        },
        Err(_) => None,
    }
}

// What ends with a token: a call with its parenthesis, or a word.
fn ended(token: &[u8], calls: &mut Stack<Call>) -> Option<Expr> {
    match token {
        [b')'] => match calls.pop() {
            Some(Call { op, operands }) => Some(Expr::Node(op, operands)),
            None => None,
        },
        [b'x'] => Some(Expr::Var(0)),
        [b'y'] => Some(Expr::Var(1)),
        [b'z'] => Some(Expr::Var(2)),
        word => literal(word),
    }
}

// Makes it an operand of the innermost open call, or answers it where no call is open.
fn placed(calls: &mut Stack<Call>, e: Expr) -> Result<Option<Expr>, NoMemory> {
    match calls.pop() {
        Some(Call { op, mut operands }) => {
            operands.push(e)?;
            calls.push(Call { op, operands })?;
            Ok(None)
        }
        None => Ok(Some(e)),
    }
}

// The expression that a text spells, where `x`, `y` and `z` are the variables 0, 1 and 2.
fn read(alloc: Global, text: &[u8]) -> Result<Option<Expr>, NoMemory> {
    let mut calls = Stack::new(alloc);
    let mut rest = text;
    for _ in 0..text.len() {
        let Some((token, behind)) = next_token(rest) else {
            return Ok(None);
        };
        rest = behind;
        if let Some(op) = operator(token) {
            let operands = Row::new(alloc);
            calls.push(Call { op, operands })?;
        } else if let Some(operand) = ended(token, &mut calls) {
            if let Some(whole) = placed(&mut calls, operand)? {
                return Ok(Some(whole));
            }
        }
    }
    Ok(None)
}

fn is_small(value: i128) -> bool
    ensures { result ≡ true → IsSmall value }
{
    value.unsigned_abs() <= MOST as u128
}

// Whether its variables are among the first so many, and its integers at most the greatest magnitude.
#[cycle(leaves)]
fn has_leaves(e: &Expr, variables: usize) -> bool
    ensures variables { result ≡ true → HasVariables variables e.now }
    ensures small { result ≡ true → HasSmallIntegers e.now }
{
    match e {
        Expr::Int(value) => is_small(*value),
        Expr::Var(variable) => (*variable as usize) < variables,
        Expr::Node(_, operands) => have_leaves(operands.as_slice(), variables),
    }
}

#[cycle(leaves)]
fn have_leaves(items: &[Expr], variables: usize) -> bool
    ensures variables { result ≡ true → All (HasVariables variables) items.now }
    ensures small { result ≡ true → All HasSmallIntegers items.now }
{
    for item in items {
        if !has_leaves(item, variables) {
            return false;
        }
    }
    true
}

// Whether it is well formed over so many variables.
fn is_formed(e: &Expr, variables: usize) -> bool
    ensures { result ≡ true → IsFormedExpr variables e.now }
{
    is_shaped(e) && !is_set(e) && has_leaves(e, variables)
}

// The variables of every expression: x is within -2..3, y within 0..5 and z within 1..4.
fn spans() -> [Span; 3] {
    [
        Span::new(-2, 3).unwrap(),
        Span::new(0, 5).unwrap(),
        Span::new(1, 4).unwrap(),
    ]
}

// The bounds of the expression that a text spells. What is no well formed expression is `Syntax`.
fn bounded(alloc: Global, text: &[u8]) -> Result<Result<(i128, i128), Kind>, NoMemory> {
    let spans = spans();
    match read(alloc, text)? {
        Some(e) if is_formed(&e, 3) => match bounds(&e, &spans) {
            Ok(span) => Ok(Ok((span.lo(), span.hi()))),
            Err(kind) => Ok(Err(kind)),
        },
        _ => Ok(Err(Kind::Syntax)),
    }
}

// The value of an expression where x is -2, y is 5 and z is 3. None where it is no well formed expression, or where a
// node is at fault.
fn valued(alloc: Global, text: &[u8]) -> Result<Option<i128>, NoMemory> {
    let values = [-2, 5, 3];
    let spans = [only(-2), only(5), only(3)];
    match read(alloc, text)? {
        Some(e) if is_formed(&e, 3) && bounds(&e, &spans).is_ok() => Ok(Some(value(&e, &values))),
        _ => Ok(None),
    }
}

// Bounds of numbers, then of truth values, also where the operands' bounds leave only one of the two; faults of
// operands, and of magnitude, where 2^100 and 2^126 - 1 stand in some texts. Some have a second fault, in a later
// operand or in the node. Last, bounds up to the greatest magnitude.
fn bounds_and_faults(rt: &impl Abort, alloc: Global) -> Result<(), Fail> {
    let cases: [(&[u8], Result<(i128, i128), Kind>); 75] = [
        (b"-7", Ok((-7, -7))),
        (b"x", Ok((-2, 3))),
        (b"neg(x)", Ok((-3, 2))),
        (b"abs(x)", Ok((0, 3))),
        (b"abs(sub(x,7))", Ok((4, 9))),
        (b"sqr(x)", Ok((0, 9))),
        (b"add(x,y)", Ok((-2, 8))),
        (b"add(x,y,-4)", Ok((-6, 4))),
        (b"mul(x,y)", Ok((-10, 15))),
        (b"mul(neg(y),neg(z))", Ok((0, 20))),
        (b"mul(x,x,-1)", Ok((-9, 6))),
        (b"sub(x,y)", Ok((-7, 3))),
        (b"dist(x,y)", Ok((0, 7))),
        (b"dist(z,9)", Ok((5, 8))),
        (b"div(y,z)", Ok((0, 5))),
        (b"div(add(y,9),z)", Ok((2, 14))),
        (b"mod(y,z)", Ok((0, 3))),
        (b"mod(2,z)", Ok((0, 2))),
        (b"pow(x,1)", Ok((-2, 3))),
        (b"pow(x,2)", Ok((0, 9))),
        (b"pow(x,3)", Ok((-8, 27))),
        (b"pow(sub(x,4),2)", Ok((1, 36))),
        (b"min(x,z)", Ok((-2, 3))),
        (b"min(x,z,2)", Ok((-2, 2))),
        (b"max(x,y)", Ok((0, 5))),
        (b"max(x,y,4)", Ok((4, 5))),
        (b"if(lt(x,y),x,z)", Ok((-2, 4))),
        (b"lt(x,9)", Ok((0, 1))),
        (b"le(x,y)", Ok((0, 1))),
        (b"gt(x,y)", Ok((0, 1))),
        (b"ge(x,y)", Ok((0, 1))),
        (b"ne(x,y)", Ok((0, 1))),
        (b"eq(x,x)", Ok((0, 1))),
        (b"eq(x,y,z)", Ok((0, 1))),
        (b"in(x,set(1,y))", Ok((0, 1))),
        (b"in(x,set())", Ok((0, 1))),
        (b"notin(x,set(9))", Ok((0, 1))),
        (b"not(lt(x,y))", Ok((0, 1))),
        (b"not(0)", Ok((0, 1))),
        (b"and(lt(x,y),1)", Ok((0, 1))),
        (b"or(lt(x,y),0,gt(x,y))", Ok((0, 1))),
        (b"xor(le(x,1),1,0)", Ok((0, 1))),
        (b"iff(eq(x,1),eq(y,1))", Ok((0, 1))),
        (b"imp(1,mod(y,2))", Ok((0, 1))),
        (b"imp(eq(x,1),in(z,set(1)))", Ok((0, 1))),
        (b"and(y,1)", Err(Kind::Logic)),
        (b"or(0,x)", Err(Kind::Logic)),
        (b"xor(1,1,z)", Err(Kind::Logic)),
        (b"not(x)", Err(Kind::Logic)),
        (b"iff(1,2)", Err(Kind::Logic)),
        (b"imp(-1,1)", Err(Kind::Logic)),
        (b"if(z,1,2)", Err(Kind::Logic)),
        (b"div(x,z)", Err(Kind::Division)),
        (b"div(z,y)", Err(Kind::Division)),
        (b"mod(x,z)", Err(Kind::Division)),
        (b"mod(z,y)", Err(Kind::Division)),
        (b"div(not(y),x)", Err(Kind::Logic)),
        (b"and(y,div(x,z))", Err(Kind::Division)),
        (b"in(x,set(1,not(y),div(x,z)))", Err(Kind::Logic)),
        (
            b"add(85070591730234615865843651857942052863,1)",
            Err(Kind::Range),
        ),
        (
            b"add(85070591730234615865843651857942052863,1,-1)",
            Err(Kind::Range),
        ),
        (
            b"sub(x,85070591730234615865843651857942052863)",
            Err(Kind::Range),
        ),
        (
            b"dist(-85070591730234615865843651857942052863,z)",
            Err(Kind::Range),
        ),
        (
            b"mul(1267650600228229401496703205376,1267650600228229401496703205376,0)",
            Err(Kind::Range),
        ),
        (b"sqr(1267650600228229401496703205376)", Err(Kind::Range)),
        (b"pow(8,42)", Err(Kind::Range)),
        (b"pow(8,43)", Err(Kind::Range)),
        (
            b"add(sqr(1267650600228229401496703205376),not(y))",
            Err(Kind::Range),
        ),
        (
            b"not(sqr(1267650600228229401496703205376))",
            Err(Kind::Range),
        ),
        (
            b"if(div(x,z),sqr(1267650600228229401496703205376),1)",
            Err(Kind::Division),
        ),
        (b"85070591730234615865843651857942052863", Ok((MOST, MOST))),
        (
            b"neg(85070591730234615865843651857942052863)",
            Ok((-MOST, -MOST)),
        ),
        (
            b"add(85070591730234615865843651857942052862,1,-1)",
            Ok((MOST - 1, MOST - 1)),
        ),
        (
            b"sub(x,85070591730234615865843651857942052861)",
            Ok((-MOST, 5 - MOST)),
        ),
        (
            b"add(pow(8,41),74436767763955288882613195375699296255)",
            Ok((MOST, MOST)),
        ),
    ];
    for (text, wanted) in cases {
        assert_eq!(rt; bounded(alloc, text)?, wanted);
    }
    Ok(())
}

fn values(rt: &impl Abort, alloc: Global) -> Result<(), Fail> {
    let cases: [(&[u8], i128); 64] = [
        (b"-7", -7),
        (b"x", -2),
        (b"neg(x)", 2),
        (b"abs(x)", 2),
        (b"sqr(x)", 4),
        (b"add(x,y,z)", 6),
        (b"mul(x,y,z)", -30),
        (b"sub(x,y)", -7),
        (b"dist(x,y)", 7),
        (b"div(y,z)", 1),
        (b"div(add(y,4),z)", 3),
        (b"div(0,z)", 0),
        (b"mod(y,z)", 2),
        (b"mod(14,z)", 2),
        (b"mod(9,z)", 0),
        (b"pow(x,3)", -8),
        (b"pow(y,1)", 5),
        (b"min(y,x,z)", -2),
        (b"min(y,z)", 3),
        (b"max(x,y,z)", 5),
        (b"if(lt(x,y),y,z)", 5),
        (b"if(gt(x,y),y,z)", 3),
        (b"lt(x,y)", 1),
        (b"lt(y,y)", 0),
        (b"le(y,y)", 1),
        (b"le(y,x)", 0),
        (b"gt(y,x)", 1),
        (b"gt(y,y)", 0),
        (b"ge(y,y)", 1),
        (b"ge(x,y)", 0),
        (b"ne(x,y)", 1),
        (b"ne(y,5)", 0),
        (b"eq(y,5)", 1),
        (b"eq(y,5,add(x,7))", 1),
        (b"eq(y,5,z)", 0),
        (b"eq(z,y,y)", 0),
        (b"in(x,set(1,neg(2)))", 1),
        (b"in(y,set(1,x))", 0),
        (b"in(x,set())", 0),
        (b"notin(y,set(1,x))", 1),
        (b"notin(y,set(y,4))", 0),
        (b"notin(x,set())", 1),
        (b"not(lt(x,y))", 0),
        (b"not(0)", 1),
        (b"and(1,1)", 1),
        (b"and(1,lt(x,y),0)", 0),
        (b"and(0,1)", 0),
        (b"or(0,0)", 0),
        (b"or(0,gt(y,z))", 1),
        (b"or(1,0,0)", 1),
        (b"xor(0,0,0)", 0),
        (b"xor(0,1,0)", 1),
        (b"xor(1,1,0)", 0),
        (b"xor(1,1,1)", 1),
        (b"iff(0,0)", 1),
        (b"iff(0,1)", 0),
        (b"iff(1,0)", 0),
        (b"iff(1,1)", 1),
        (b"imp(0,0)", 1),
        (b"imp(0,1)", 1),
        (b"imp(1,0)", 0),
        (b"imp(1,1)", 1),
        (b"if(0,x,y)", 5),
        (b"if(1,x,y)", -2),
    ];
    for (text, wanted) in cases {
        assert_eq!(rt; valued(alloc, text)?, Some(wanted));
    }
    Ok(())
}

fn text(alloc: Global, bytes: &[u8]) -> Result<Text, NoMemory>
    ensures { IfOk result (λ text. text ≡ bytes.now) }
{
    let mut text = Row::new(alloc);
    text.extend(bytes)?;
    Ok(text)
}

fn bit(alloc: Global) -> Result<Domain, NoMemory>
    ensures { IfOk result (λ domain. domain ≡ truths ∷ []) }
{
    Domain::of(alloc, Span::new(0, 1).unwrap())
}

fn one(alloc: Global) -> Result<Decl, NoMemory>
    ensures { IfOk result (λ d. d ≡ Decl.One (codes "v") (truths ∷ [])) }
{
    let name = text(alloc, b"v")?;
    let domain = bit(alloc)?;
    Ok(Decl::One { name, domain })
}

fn cells(alloc: Global) -> Result<Cells, NoMemory>
    ensures { IfOk result (λ cells. cells ≡ Some (truths ∷ []) ∷ None ∷ Some (truths ∷ []) ∷ []) }
{
    let mut cells = Row::new(alloc);
    cells.push(Some(bit(alloc)?))?;
    cells.push(None)?;
    cells.push(Some(bit(alloc)?))?;
    Ok(cells)
}

fn array(alloc: Global) -> Result<Decl, NoMemory>
    ensures { IfOk result (λ d. d ≡ Decl.Array (codes "c") (pos 3 ∷ []) (Some (truths ∷ []) ∷ None ∷ Some (truths ∷ []) ∷ [])) }
{
    let name = text(alloc, b"c")?;
    let mut sizes = Row::new(alloc);
    sizes.push(3)?;
    let cells = cells(alloc)?;
    Ok(Decl::Array { name, sizes, cells })
}

// The variable v, and an array c of three cells, the second of which is undefined.
fn decls(alloc: Global) -> Result<Decls, NoMemory>
    ensures sound { IfOk result (AllByRecursion IsSoundDecl) }
    ensures words { IfOk result (λ decls. length (words decls) ≡ 3) }
{
    let mut decls = Row::new(alloc);
    decls.push(one(alloc)?)?;
    decls.push(array(alloc)?)?;
    Ok(decls)
}

// The expression that a text spells, written over these declarations. None where it is no well formed expression.
fn written(alloc: Global, text: &[u8], decls: &Decls) -> Result<Option<Vec<u8>>, NoMemory>
    requires sound { AllByRecursion IsSoundDecl decls.now }
    requires words { length (words decls.now) ≡ 3 }
{
    match read(alloc, text)? {
        Some(e) if is_formed(&e, 3) => Ok(Some(write_expr(alloc, &e, decls)?)),
        _ => Ok(None),
    }
}

fn texts(rt: &impl Abort, alloc: Global) -> Result<(), Fail> {
    let cases: [(&[u8], &[u8]); 5] = [
        (b" -12 ", b"-12"),
        (b" z ", b"c[2]"),
        (b"notin( x, set( ) )", b"notin(v,set())"),
        (
            b"if( in( z, set( -3, 0 ) ), add( x, y, 7 ), neg( sqr(y) ) )",
            b"if(in(c[2],set(-3,0)),add(v,c[0],7),neg(sqr(c[0])))",
        ),
        (
            b"imp(xor(le(x, y), not(ne(x, 1)), 0), eq(pow(x, 2), dist(z, -1), z))",
            b"imp(xor(le(v,c[0]),not(ne(v,1)),0),eq(pow(v,2),dist(c[2],-1),c[2]))",
        ),
    ];
    let decls = decls(alloc)?;
    for (text, wanted) in cases {
        match written(alloc, text, &decls)? {
            Some(text) => assert!(rt; text.as_slice() == wanted),
            None => assert!(rt; false),
        }
    }
    Ok(())
}

#[test]
fn notation(rt: HostRuntime) -> Result<(), Fail> {
    depths(&rt);
    operators(&rt);
    tokens(&rt);
    exponents(&rt);
    shapes(&rt, rt.alloc())?;
    texts(&rt, rt.alloc())?;
    Ok(())
}

#[test]
fn meaning(rt: HostRuntime) -> Result<(), Fail> {
    bounds_and_faults(&rt, rt.alloc())?;
    values(&rt, rt.alloc())?;
    Ok(())
}
