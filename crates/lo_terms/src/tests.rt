ghost use Rattle.std.specs.Prelude.{◌≡◌, [], ◌∷◌, All, IfOk, IfSome, length};
ghost use Rattle.xs_model.specs.Accepted.{IsAccepted};
ghost use Rattle.xs_model.specs.Formed.{nodes, nodes_of};
ghost use Rattle.xs_model.specs.Names.{words};
ghost use Rattle.xs_model.specs.Bounds.{HasVariables};

use crate::node::{literal, node, variable};
use crate::term::{Mode, Operand};
use crate::{lower, lower_intension};
use fz_model::{Arg, FzVar, Goal, Model};
use itoa::Buffer;
use lo_base::{Emit, Held, auxiliary};
use lo_emit::Term;
use std::alloc::Global;
use std::test::Fail;
use xf_num::{Domain, NoMemory, Row, Span, Text};
use xs_expr::{bounds, is_shaped};
use xs_model::{Constraint, Decl, Expr, Instance, Op};

fn write_integer(value: i128, text: &mut Text) -> Result<(), NoMemory> {
    let mut buffer = Buffer::new();
    text.extend(buffer.format(value).as_bytes())?;
    Ok(())
}

fn write_integers(values: &[i128], text: &mut Text) -> Result<(), NoMemory> {
    for value in values {
        write_integer(*value, text)?;
        text.push(b' ')?;
    }
    Ok(())
}

fn write_term(term: Term, text: &mut Text) -> Result<(), NoMemory> {
    match term {
        Term::Int(value) => write_integer(value, text),
        Term::Truth(true) => text.extend(b"true"),
        Term::Truth(false) => text.extend(b"false"),
        Term::Var(number) => {
            text.push(b'v')?;
            write_integer(i128::from(number), text)
        }
    }
}

// A constant, a variable or a set.
fn write_member(arg: &Arg, text: &mut Text) -> Result<(), NoMemory> {
    match arg {
        Arg::Int(value) => write_term(Term::Int(*value), text),
        Arg::Bool(truth) => write_term(Term::Truth(*truth), text),
        Arg::Var(number) => write_term(Term::Var(*number), text),
        Arg::Set(values) => {
            text.extend(b"{ ")?;
            write_integers(values.as_slice(), text)?;
            text.push(b'}')
        }
        _ => text.push(b'?'),
    }
}

fn write_members(args: &[Arg], text: &mut Text) -> Result<(), NoMemory> {
    for arg in args {
        write_member(arg, text)?;
        text.push(b' ')?;
    }
    Ok(())
}

fn write_arg(arg: &Arg, text: &mut Text) -> Result<(), NoMemory> {
    text.push(b' ')?;
    match arg {
        Arg::List(members) => {
            text.extend(b"[ ")?;
            write_members(members.as_slice(), text)?;
            text.push(b']')
        }
        _ => write_member(arg, text),
    }
}

fn write_args(args: &[Arg], text: &mut Text) -> Result<(), NoMemory> {
    for arg in args {
        write_arg(arg, text)?;
    }
    Ok(())
}

fn write_variable(var: &FzVar, text: &mut Text) -> Result<(), NoMemory> {
    if var.boolean {
        return text.extend(b"bool; ");
    }
    write_integer(var.domain.least(), text)?;
    text.extend(b"..")?;
    write_integer(var.domain.greatest(), text)?;
    text.extend(b"; ")
}

// The variables in order, and then the calls.
fn written(alloc: Global, model: &Model) -> Result<Text, NoMemory> {
    let mut text = Row::new(alloc);
    for var in model.vars.as_slice() {
        write_variable(var, &mut text)?;
    }
    for call in model.calls.as_slice() {
        text.extend(call.builtin.name())?;
        write_args(call.args.as_slice(), &mut text)?;
        text.extend(b"; ")?;
    }
    Ok(text)
}

// Keeps what is appended behind no variables.
fn nothing_yet(alloc: Global) -> Held
    ensures { result.vars ≡ [] }
{
    Held::new(alloc, Row::new(alloc))
}

fn var(number: u64, lo: i128, hi: i128) -> Operand {
    match Span::new(lo, hi) {
        Some(span) => Operand {
            term: Term::Var(number),
            span,
        },
        None => int(0),
    }
}

fn int(value: i128) -> Operand {
    Operand {
        term: Term::Int(value),
        span: Span::new(value, value).unwrap(),
    }
}

// An operand of each byte: a digit is itself, and each letter a variable.
fn operand(byte: u8) -> Operand {
    match byte {
        b'x' => var(20, -2, 3),
        b'y' => var(21, 0, 5),
        b'z' => var(22, 1, 4),
        digit => int(i128::from(digit) - 48),
    }
}

fn operands_of(alloc: Global, bytes: &[u8]) -> Result<Row<Operand>, NoMemory> {
    let mut operands = Row::new(alloc);
    for byte in bytes {
        if *byte != b' ' {
            operands.push(operand(*byte))?;
        }
    }
    Ok(operands)
}

fn lowered(alloc: Global, op: Op, mode: Mode, literals: bool, bytes: &[u8]) -> Result<Text, Fail> {
    let mut held = nothing_yet(alloc);
    let whole = Span::new(-9, 99).unwrap();
    let operands = operands_of(alloc, bytes)?;
    let term = node(
        alloc,
        op,
        mode,
        whole,
        literals,
        operands.as_slice(),
        &mut held,
    )?;
    let model = held.finish(Goal::Satisfy);
    let mut text = written(alloc, &model)?;
    write_term(term, &mut text)?;
    Ok(text)
}

// The operator that a byte stands for, and how many operands it has.
fn operator_of(byte: u8) -> (Op, u8) {
    match byte {
        b'n' => (Op::Neg, 1),
        b'a' => (Op::Abs, 1),
        b's' => (Op::Sqr, 1),
        b'!' => (Op::Not, 1),
        b'+' => (Op::Add, 2),
        b'-' => (Op::Sub, 2),
        b'*' => (Op::Mul, 2),
        b'm' => (Op::Mul, 3),
        b'd' => (Op::Dist, 2),
        b'/' => (Op::Div, 2),
        b'%' => (Op::Mod, 2),
        b'^' => (Op::Pow, 2),
        b'w' => (Op::Min, 2),
        b'M' => (Op::Max, 2),
        b'<' => (Op::Lt, 2),
        b'L' => (Op::Le, 2),
        b'>' => (Op::Gt, 2),
        b'G' => (Op::Ge, 2),
        b'#' => (Op::Ne, 2),
        b'=' => (Op::Eq, 2),
        b'E' => (Op::Eq, 3),
        b'i' => (Op::In, 2),
        b'o' => (Op::NotIn, 2),
        b'&' => (Op::And, 2),
        b'A' => (Op::And, 3),
        b'|' => (Op::Or, 2),
        b'X' => (Op::Xor, 3),
        b'q' => (Op::Iff, 2),
        b'I' => (Op::Imp, 2),
        b'?' => (Op::If, 3),
        b'S' => (Op::Set, 2),
        b'T' => (Op::Set, 3),
        _ => (Op::Set, 0),
    }
}

// The mode that a byte stands for.
fn mode_of(byte: u8) -> Mode {
    match byte {
        b'N' => Mode::Number,
        b'L' => Mode::Logic,
        _ => Mode::Stated,
    }
}

fn lowered_literal(alloc: Global, mode: Mode, value: i128) -> Result<Text, Fail> {
    let mut held = nothing_yet(alloc);
    let term = literal(alloc, mode, value, &mut held)?;
    let mut text = written(alloc, &held.finish(Goal::Satisfy))?;
    write_term(term, &mut text)?;
    Ok(text)
}

fn lowered_variable(alloc: Global, mode: Mode, number: u64) -> Result<Text, Fail> {
    let mut held = nothing_yet(alloc);
    let term = variable(alloc, mode, number, &mut held)?;
    let mut text = written(alloc, &held.finish(Goal::Satisfy))?;
    write_term(term, &mut text)?;
    Ok(text)
}

// In turn: the mode, `=` where all members are integers as written, the operator, up to four operands; and then the
// variables and calls that are wanted, and what stands for the node.
#[test]
fn operators(rt: HostRuntime) -> Result<(), Fail> {
    let cases: [&[u8]; 56] = [
        b"N.nx    -9..99; int_lin_eq [ 1 1 ] [ v20 v0 ] 0; v0",
        b"N.ax    -9..99; int_abs v20 v0; v0",
        b"N.sx    -9..99; int_times v20 v20 v0; v0",
        b"N.+xy7  -9..99; int_lin_eq [ 1 1 1 -1 ] [ v20 v21 7 v0 ] 0; v0",
        b"N.-xy   -9..99; int_lin_eq [ 1 -1 -1 ] [ v20 v21 v0 ] 0; v0",
        b"N.dxy   -7..3; -9..99; int_lin_eq [ 1 -1 -1 ] [ v20 v21 v0 ] 0; int_abs v0 v1; v1",
        b"N.*xyz  -10..15; -40..60; int_times v20 v21 v0; int_times v0 v22 v1; v1",
        b"N.*x3   -6..9; int_times v20 3 v0; v0",
        b"N.^x1   v20",
        b"N.^x3   0..9; -8..27; int_times v20 v20 v0; int_times v0 v20 v1; v1",
        b"N.^22   4..4; int_times 2 2 v0; v0",
        b"N./yz   -9..99; int_div v21 v22 v0; v0",
        b"N.%yz   -9..99; int_mod v21 v22 v0; v0",
        b"N.wxyz  -9..99; array_int_minimum v0 [ v20 v21 v22 ]; v0",
        b"N.Mx5   -9..99; array_int_maximum v0 [ v20 5 ]; v0",
        b"N.?zxy  0..1; 1..2; -9..99; bool2int v22 v0; int_lin_eq [ 1 1 ] [ v0 v1 ] 2; array_var_int_element v1 [ v20 v21 ] v2; v2",
        b"L.<xy   bool; int_lt_reif v20 v21 v0; v0",
        b"L.Lxy   bool; int_le_reif v20 v21 v0; v0",
        b"L.>xy   bool; int_lt_reif v21 v20 v0; v0",
        b"L.Gxy   bool; int_le_reif v21 v20 v0; v0",
        b"L.#x4   bool; int_ne_reif v20 4 v0; v0",
        b"L.=xy   bool; int_eq_reif v20 v21 v0; v0",
        b"L.=xyz  bool; bool; bool; int_eq_reif v20 v21 v0; int_eq_reif v21 v22 v1; array_bool_and [ v0 v1 ] v2; v2",
        b"L=ix    false",
        b"L=ix313 bool; set_in_reif v20 { 3 1 3 } v0; v0",
        b"L.ixy1  bool; bool; bool; int_eq_reif v20 v21 v0; int_eq_reif v20 1 v1; array_bool_or [ v0 v1 ] v2; v2",
        b"L=ox    bool; bool_not false v0; v0",
        b"L=ox3   bool; bool; set_in_reif v20 { 3 } v0; bool_not v0 v1; v1",
        b"L.oxy   bool; bool; bool; int_eq_reif v20 v21 v0; array_bool_or [ v0 ] v1; bool_not v1 v2; v2",
        b"L.!x    bool; bool_not v20 v0; v0",
        b"L.&xyz  bool; array_bool_and [ v20 v21 v22 ] v0; v0",
        b"L.|xy   bool; array_bool_or [ v20 v21 ] v0; v0",
        b"L.Xxy   bool; bool_xor v20 v21 v0; v0",
        b"L.Xxyz  bool; bool; bool_xor v20 v21 v0; bool_xor v0 v22 v1; v1",
        b"L.qxy   bool; bool_eq_reif v20 v21 v0; v0",
        b"L.Ixy   bool; bool_le_reif v20 v21 v0; v0",
        b"L.ax    -9..99; bool; int_abs v20 v0; bool2int v1 v0; v1",
        b"N.<xy   bool; 0..1; int_lt_reif v20 v21 v0; bool2int v0 v1; v1",
        b"S.<xy   int_lt v20 v21; true",
        b"S.Lxy   int_le v20 v21; true",
        b"S.>xy   int_lt v21 v20; true",
        b"S.Gxy   int_le v21 v20; true",
        b"S.#xy   int_ne v20 v21; true",
        b"S.=xy   int_eq v20 v21; true",
        b"S.=xyz  int_eq v20 v21; int_eq v21 v22; true",
        b"S.&xy   true",
        b"S.|xyz  bool_clause [ v20 v21 v22 ] [ ]; true",
        b"S.Ixy   bool_clause [ v21 ] [ v20 ]; true",
        b"S.!x    bool_clause [ ] [ v20 ]; true",
        b"S=ix31  set_in v20 { 3 1 }; true",
        b"S=ix    bool_clause [ false ] [ ]; true",
        b"S.ixy   bool; bool; int_eq_reif v20 v21 v0; array_bool_or [ v0 ] v1; bool_clause [ v1 ] [ ]; true",
        b"S=ox3   bool; bool; set_in_reif v20 { 3 } v0; bool_not v0 v1; bool_clause [ v1 ] [ ]; true",
        b"S.Xxy   bool; bool_xor v20 v21 v0; bool_clause [ v0 ] [ ]; true",
        b"S.qxy   bool; bool_eq_reif v20 v21 v0; bool_clause [ v0 ] [ ]; true",
        b"S.-xy   -9..99; bool; int_lin_eq [ 1 -1 -1 ] [ v20 v21 v0 ] 0; bool2int v1 v0; bool_clause [ v1 ] [ ]; true",
    ];
    for case in cases {
        match case {
            [mode, literals, op, a, b, c, d, b' ', wanted @ ..] => {
                let operands = [*a, *b, *c, *d];
                let (op, _) = operator_of(*op);
                let text = lowered(rt.alloc(), op, mode_of(*mode), *literals == b'=', &operands)?;
                assert_eq!(rt; text.as_slice(), wanted);
            }
            _ => assert!(rt; false),
        }
    }
    let literals: [(Mode, i128, &[u8]); 7] = [
        (Mode::Number, 1, b"1"),
        (Mode::Number, -8, b"-8"),
        (Mode::Logic, 0, b"false"),
        (Mode::Logic, 1, b"true"),
        (Mode::Logic, 2, b"bool; bool2int v0 2; v0"),
        (Mode::Stated, 0, b"bool_clause [ false ] [ ]; true"),
        (Mode::Stated, 1, b"bool_clause [ true ] [ ]; true"),
    ];
    for (mode, value, wanted) in literals {
        assert_eq!(rt;
            lowered_literal(rt.alloc(), mode, value)?.as_slice(),
            wanted
        );
    }
    let variables: [(Mode, &[u8]); 3] = [
        (Mode::Number, b"v20"),
        (Mode::Logic, b"bool; bool2int v0 v20; v0"),
        (
            Mode::Stated,
            b"bool; bool2int v0 v20; bool_clause [ v0 ] [ ]; true",
        ),
    ];
    for (mode, wanted) in variables {
        assert_eq!(rt; lowered_variable(rt.alloc(), mode, 20)?.as_slice(), wanted);
    }
    Ok(())
}

// How many nodes an expression has, where its variables are among the first so many.
#[cycle(counting)]
fn nodes_within(e: &Expr, variables: usize) -> Option<u64>
    ensures { IfSome result (λ k. (k ≡ nodes e.now) × HasVariables variables e.now) }
{
    match e {
        Expr::Int(_) => Some(1),
        Expr::Var(number) => {
            if (*number as usize) < variables {
                Some(1)
            } else {
                None
            }
        }
        Expr::Node(_, items) => match all_within(items.as_slice(), variables) {
            Some(below) => below.checked_add(1),
            None => None,
        },
    }
}

#[cycle(counting)]
fn all_within(items: &[Expr], variables: usize) -> Option<u64>
    ensures { IfSome result (λ k. (k ≡ nodes_of items.now) × All (HasVariables variables) items.now) }
{
    let mut total: u64 = 0;
    for item in items {
        match nodes_within(item, variables) {
            Some(more) => match total.checked_add(more) {
                Some(sum) => total = sum,
                None => return None,
            },
            None => return None,
        }
    }
    Some(total)
}

// What states an expression over three Boolean variables that stand for integers of these bounds.
fn stated(alloc: Global, e: &Expr) -> Result<Text, Fail> {
    let spans = [
        Span::new(-2, 3).unwrap(),
        Span::new(0, 5).unwrap(),
        Span::new(0, 1).unwrap(),
    ];
    let mut held = nothing_yet(alloc);
    held.new_bool()?;
    held.new_bool()?;
    held.new_bool()?;
    if let Some(count) = nodes_within(e, 3) {
        if count < 100 && is_shaped(e) && bounds(e, &spans).is_ok() {
            lower_intension(alloc, e, &spans, &mut held)?;
        }
    }
    let text = written(alloc, &held.finish(Goal::Satisfy))?;
    Ok(text)
}

fn x() -> Expr
    ensures { result ≡ Expr.Var 0 }
{
    Expr::Var(0)
}

// The operator over what stands on top, the first operand uppermost.
fn node_over(alloc: Global, byte: u8, stack: &mut Vec<Expr>) -> Result<Expr, Fail> {
    let (op, count) = operator_of(byte);
    let mut operands = Row::new(alloc);
    for _ in 0..count {
        if let Some(operand) = stack.pop() {
            operands.push(operand)?;
        }
    }
    Ok(Expr::Node(op, operands))
}

// An expression, each operator before its operands.
fn built(alloc: Global, text: &[u8]) -> Result<Expr, Fail> {
    let mut stack = Vec::new(alloc);
    for byte in text.iter().rev() {
        let e = match *byte {
            b'x' => Expr::Var(0),
            b'y' => Expr::Var(1),
            b't' => Expr::Var(2),
            b'0'..=b'9' => Expr::Int(i128::from(*byte) - 48),
            operator => node_over(alloc, operator, &mut stack)?,
        };
        stack.push(e)?;
    }
    Ok(stack.pop().unwrap_or(Expr::Int(0)))
}

// The variable x of 0..1, which holds.
fn one_bit(alloc: Global) -> Result<Instance, NoMemory>
    ensures accepted { IfOk result IsAccepted }
    ensures variables { IfOk result (λ i. length (words i.decls) ≡ 1) }
    ensures constraints { IfOk result (λ i. i.constraints ≡ Constraint.Intension (Expr.Var 0) ∷ []) }
{
    let mut name = Row::new(alloc);
    name.extend(b"x")?;
    let domain = Domain::of(alloc, Span::new(0, 1).unwrap())?;
    let mut decls = Row::new(alloc);
    decls.push(Decl::One { name, domain })?;
    let mut constraints = Row::new(alloc);
    constraints.push(Constraint::Intension { expr: x() })?;
    Ok(Instance {
        decls,
        constraints,
        objective: None,
    })
}

#[test]
fn expressions(rt: HostRuntime) -> Result<(), Fail> {
    let cases: [(&[u8], &[u8]); 11] = [
        (
            b"L+xy3",
            b"bool; bool; bool; -2..8; int_lin_eq [ 1 1 -1 ] [ v0 v1 v3 ] 0; int_le v3 3; ",
        ),
        (
            b"&<xy|=x1>y2",
            b"bool; bool; bool; bool; bool; int_lt v0 v1; int_eq_reif v0 1 v3; int_lt_reif 2 v1 v4; bool_clause [ v3 v4 ] [ ]; ",
        ),
        (
            b"=?<xyx+y1dxy",
            b"bool; bool; bool; bool; 1..6; 0..1; 1..2; -2..6; -7..3; 0..7; int_lt_reif v0 v1 v3; int_lin_eq [ 1 1 -1 ] [ v1 1 v4 ] 0; bool2int v3 v5; int_lin_eq [ 1 1 ] [ v5 v6 ] 2; array_var_int_element v6 [ v0 v4 ] v7; int_lin_eq [ 1 -1 -1 ] [ v0 v1 v8 ] 0; int_abs v8 v9; int_eq v7 v9; ",
        ),
        (
            b"i*xyT1^31x",
            b"bool; bool; bool; -10..15; bool; bool; bool; bool; int_times v0 v1 v3; int_eq_reif v3 1 v4; int_eq_reif v3 3 v5; int_eq_reif v3 v0 v6; array_bool_or [ v4 v5 v6 ] v7; bool_clause [ v7 ] [ ]; ",
        ),
        (
            b"!ixS21",
            b"bool; bool; bool; bool; set_in_reif v0 { 2 1 } v3; bool_clause [ ] [ v3 ]; ",
        ),
        (
            b"qtony{",
            b"bool; bool; bool; bool; -5..0; bool; bool; bool2int v3 v2; int_lin_eq [ 1 1 ] [ v1 v4 ] 0; bool_not false v5; bool_eq_reif v3 v5 v6; bool_clause [ v6 ] [ ]; ",
        ),
        (
            b"IGx1X<xyt#xy",
            b"bool; bool; bool; bool; bool; bool; bool; bool; bool; int_le_reif 1 v0 v3; int_lt_reif v0 v1 v4; bool2int v5 v2; int_ne_reif v0 v1 v6; bool_xor v4 v5 v7; bool_xor v7 v6 v8; bool_clause [ v8 ] [ v3 ]; ",
        ),
        (
            b"=+<xy2%/y23",
            b"bool; bool; bool; bool; 0..1; 2..3; 0..2; 0..2; int_lt_reif v0 v1 v3; bool2int v3 v4; int_lin_eq [ 1 1 -1 ] [ v4 2 v5 ] 0; int_div v1 2 v6; int_mod v6 3 v7; int_eq v5 v7; ",
        ),
        (
            b"AAt10#xyqtt",
            b"bool; bool; bool; bool; bool; bool; bool; bool2int v3 v2; bool_clause [ v3 ] [ ]; bool_clause [ true ] [ ]; bool_clause [ false ] [ ]; int_ne v0 v1; bool2int v4 v2; bool2int v5 v2; bool_eq_reif v4 v5 v6; bool_clause [ v6 ] [ ]; ",
        ),
        (
            b"Ex^y3Mx-xy",
            b"bool; bool; bool; 0..25; 0..125; -7..3; -2..3; int_times v1 v1 v3; int_times v3 v1 v4; int_lin_eq [ 1 -1 -1 ] [ v0 v1 v5 ] 0; array_int_maximum v6 [ v0 v5 ]; int_eq v0 v4; int_eq v4 v6; ",
        ),
        (
            b"|=*xym2xxoxS4y",
            b"bool; bool; bool; -10..15; -4..6; -12..18; bool; bool; bool; bool; bool; int_times v0 v1 v3; int_times 2 v0 v4; int_times v4 v0 v5; int_eq_reif v3 v5 v6; int_eq_reif v0 4 v7; int_eq_reif v0 v1 v8; array_bool_or [ v7 v8 ] v9; bool_not v9 v10; bool_clause [ v6 v10 ] [ ]; ",
        ),
    ];
    for (text, wanted) in cases {
        let e = built(rt.alloc(), text)?;
        assert_eq!(rt; stated(rt.alloc(), &e)?.as_slice(), wanted);
    }
    let inst = one_bit(rt.alloc())?;
    let mut named = Row::new(rt.alloc());
    named.push(auxiliary(rt.alloc(), 0, false, Span::new(0, 1).unwrap())?)?;
    let mut held = Held::new(rt.alloc(), named);
    lower(rt.alloc(), &x(), &inst, &mut held)?;
    let model = held.finish(Goal::Satisfy);
    assert_eq!(rt;
        written(rt.alloc(), &model)?.as_slice(),
        b"0..1; bool; bool2int v1 v0; bool_clause [ v1 ] [ ]; ".as_slice()
    );
    Ok(())
}
