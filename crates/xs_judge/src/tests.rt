ghost use Rattle.std.specs.Prelude.{◌≡◌, ◌∷◌, [], All, IfOk, true};
ghost use Rattle.xs_model.specs.Accepted.{IsFormed};
ghost use Rattle.xs_model.specs.Fields.{body_fields};
ghost use Rattle.xs_model.specs.Bounds.{HasVariables};
ghost use Rattle.xs_model.specs.Formed.{AreFormed, HasSmallIntegers, IsFormedExpr};
ghost use Rattle.xs_model.specs.Shape.{is_set, is_set_operator};
ghost use Rattle.xs_model.specs.Sound.{IsSmall};

use super::*;
use std::alloc::Global;
use std::test::Fail;
use xf_num::{NoMemory, Row, Span, Vars};
use xf_text::Kind;
use xs_expr::{bounds, is_shaped};
use xs_model::{Body, Cond, Constraint, Direction, Expr, Objective, Op, Term, Terms};

/// 2^126 - 1, the greatest magnitude.
const MOST: i128 = (1 << 126) - 1;

fn vars(alloc: Global, variables: &[u32]) -> Result<Vars, NoMemory>
    ensures { IfOk result (λ row. row ≡ variables.now) }
{
    let mut row = Row::new(alloc);
    row.extend(variables)?;
    Ok(row)
}

fn terms(alloc: Global, list: &[Term]) -> Result<Terms, NoMemory>
    ensures { IfOk result (λ row. row ≡ list.now) }
{
    let mut row = Row::new(alloc);
    row.extend(list)?;
    Ok(row)
}

// Two variables within these ends.
fn spans(first: (i128, i128), second: (i128, i128)) -> Option<[Span; 2]> {
    match (Span::new(first.0, first.1), Span::new(second.0, second.1)) {
        (Some(a), Some(b)) => Some([a, b]),
        _ => None,
    }
}

// The magnitude and the judgement of a list of two variables.
fn of_list(alloc: Global, spans: &[Span; 2]) -> Result<(Option<i128>, Result<(), Kind>), Fail> {
    let constraint = Constraint::AllDifferent {
        list: vars(alloc, &[0, 1])?,
        except: Row::new(alloc),
    };
    Ok((mag(&constraint, spans), judge(&constraint, spans)))
}

// A sum of the variables with the coefficients -2 and the variable 0, of at most 7.
fn sum(alloc: Global) -> Result<Constraint, NoMemory>
    ensures { IfOk result (λ c. IsFormed 2 c) }
{
    Ok(Constraint::Sum {
        list: vars(alloc, &[0, 1])?,
        coeffs: terms(alloc, &[Term::Int(-2), Term::Var(0)])?,
        cond: Cond::Le(Term::Int(7)),
    })
}

// A task that begins at the first variable and is as long as the second.
fn task(alloc: Global) -> Result<Constraint, NoMemory>
    ensures { IfOk result (λ c. IsFormed 2 c) }
{
    Ok(Constraint::Cumulative {
        origins: vars(alloc, &[0])?,
        lengths: terms(alloc, &[Term::Var(1)])?,
        heights: terms(alloc, &[Term::Int(1)])?,
        ends: None,
        cond: Cond::Le(Term::Int(1)),
    })
}

fn pair(alloc: Global, op: Op, first: Expr, second: Expr) -> Result<Expr, NoMemory> {
    let mut operands = Row::new(alloc);
    operands.push(first)?;
    operands.push(second)?;
    Ok(Expr::Node(op, operands))
}

fn is_small(value: i128) -> bool
    ensures { result ≡ true → IsSmall value }
{
    value.unsigned_abs() <= MOST as u128
}

// Whether its variables are among the first two, and its integers at most the greatest magnitude.
#[cycle(leaves)]
fn has_leaves(e: &Expr) -> bool
    ensures variables { result ≡ true → HasVariables 2 e.now }
    ensures small { result ≡ true → HasSmallIntegers e.now }
{
    match e {
        Expr::Int(value) => is_small(*value),
        Expr::Var(variable) => *variable < 2,
        Expr::Node(_, operands) => have_leaves(operands.as_slice()),
    }
}

#[cycle(leaves)]
fn have_leaves(items: &[Expr]) -> bool
    ensures variables { result ≡ true → All (HasVariables 2) items.now }
    ensures small { result ≡ true → All HasSmallIntegers items.now }
{
    for item in items {
        if !has_leaves(item) {
            return false;
        }
    }
    true
}

fn is_set(e: &Expr) -> bool
    ensures { result ≡ is_set e.now }
{
    match e {
        Expr::Int(_) => false,
        Expr::Var(_) => false,
        Expr::Node(op, _) => is_set_operator(*op),
    }
}

fn is_set_operator(op: Op) -> bool
    ensures { result ≡ is_set_operator op }
{
    match op {
        Op::Set => true,
        _ => false,
    }
}

// Whether it is well formed over two variables.
fn is_formed(e: &Expr) -> bool
    ensures { result ≡ true → IsFormedExpr 2 e.now }
{
    is_shaped(e) && !is_set(e) && has_leaves(e)
}

// Of an expression that is to hold: the judgement, and the magnitude where no node is at fault. What is no well formed
// expression is `Syntax`.
fn of_expression(e: Expr, spans: &[Span; 2]) -> (Option<i128>, Result<(), Kind>) {
    if !is_formed(&e) {
        return (None, Err(Kind::Syntax));
    }
    let sound = bounds(&e, spans).is_ok();
    let constraint = Constraint::Intension { expr: e };
    let judgement = judge(&constraint, spans);
    if sound {
        (mag(&constraint, spans), judgement)
    } else {
        (None, judgement)
    }
}

// The variables are within -2..3 and 0..5.
fn two() -> [Span; 2] {
    [Span::new(-2, 3).unwrap(), Span::new(0, 5).unwrap()]
}

fn of_pair(
    alloc: Global,
    op: Op,
    first: Expr,
    second: Expr,
) -> Result<(Option<i128>, Result<(), Kind>), NoMemory> {
    Ok(of_expression(pair(alloc, op, first, second)?, &two()))
}

// The magnitude of an expression is the sum of those of its nodes and the square of their number.
#[test]
fn expressions(rt: HostRuntime) -> Result<(), Fail> {
    let alloc = rt.alloc();
    let x = || Expr::Var(0);
    let rows = [
        (
            of_pair(alloc, Op::Lt, x(), Expr::Var(1))?,
            (Some(3 + 5 + 1 + 9), Ok(())),
        ),
        (
            of_pair(alloc, Op::Le, x(), Expr::Int(13 - MOST))?,
            (Some(MOST), Ok(())),
        ),
        (
            of_pair(alloc, Op::Le, x(), Expr::Int(12 - MOST))?,
            (None, Err(Kind::Range)),
        ),
        (
            of_pair(alloc, Op::Add, x(), Expr::Var(1))?,
            (Some(3 + 5 + 8 + 9), Err(Kind::Logic)),
        ),
        (
            of_pair(alloc, Op::Div, x(), Expr::Int(2))?,
            (None, Err(Kind::Division)),
        ),
        (
            of_pair(alloc, Op::Or, x(), Expr::Int(1))?,
            (None, Err(Kind::Logic)),
        ),
    ];
    for (found, wanted) in rows {
        assert_eq!(rt; found, wanted);
    }
    Ok(())
}

fn of_sum(alloc: Global, spans: &[Span; 2]) -> Result<Result<(), Kind>, NoMemory> {
    let sum = sum(alloc)?;
    Ok(judge(&sum, spans))
}

fn of_task(alloc: Global, spans: &[Span; 2]) -> Result<Result<(), Kind>, NoMemory> {
    let task = task(alloc)?;
    Ok(judge(&task, spans))
}

fn of_goal(body: Body) -> Result<(), Kind>
    requires { AreFormed 2 (body_fields body) }
{
    let goal = Objective {
        direction: Direction::Minimize,
        body,
    };
    judge_goal(&goal, &two())
}

fn products(alloc: Global, coefficient: i128) -> Result<Result<(), Kind>, NoMemory>
    requires { IsSmall coefficient }
{
    let list = vars(alloc, &[0])?;
    let coeffs = terms(alloc, &[Term::Int(coefficient)])?;
    Ok(of_goal(Body::Sum(list, coeffs)))
}

// The magnitude and the judgement of two variables within these ends.
#[test]
fn forms(rt: HostRuntime) -> Result<(), Fail> {
    let rows = [
        ((0, 3), (-5, 2), Some(3 + 5 + 4), Ok(())),
        ((0, 0), (0, 0), Some(4), Ok(())),
        ((0, MOST - 4), (0, 0), Some(MOST), Ok(())),
        ((0, MOST - 4), (0, 1), None, Err(Kind::Range)),
        ((-MOST, 0), (-MOST, 0), None, Err(Kind::Range)),
    ];
    for (first, second, magnitude, judgement) in rows {
        let Some(spans) = spans(first, second) else {
            panic!(rt; "no spans");
        };
        assert_eq!(rt; of_list(rt.alloc(), &spans)?, (magnitude, judgement));
    }
    assert_eq!(rt; of_sum(rt.alloc(), &two())?, Ok(()));
    // A length that may be negative is at fault.
    if let Some(spans) = spans((0, 1), (-1, -1)) {
        assert_eq!(rt; of_task(rt.alloc(), &spans)?, Err(Kind::Logic));
    }
    Ok(())
}

fn least(alloc: Global) -> Result<Result<(), Kind>, NoMemory> {
    let list = vars(alloc, &[0, 1])?;
    Ok(of_goal(Body::Least(list)))
}

#[test]
fn goals(rt: HostRuntime) -> Result<(), Fail> {
    assert_eq!(rt; least(rt.alloc())?, Ok(()));
    // Three times so great a number and the square of two.
    assert_eq!(rt; products(rt.alloc(), (MOST - 4) / 3)?, Ok(()));
    assert_eq!(rt; products(rt.alloc(), (MOST - 4) / 3 + 1)?, Err(Kind::Range));
    Ok(())
}
