ghost use Rattle.std.specs.Prelude.{◌≡◌, pos, ◌≤ℤ◌, ◌+ℤ◌, ◌*ℤ◌, ◌-ℤ◌, neg_ℤ, All, map, length, IsOk, FitsSigned, if◌then◌else◌};
ghost use Rattle.std.specs.Int.{w128};
ghost use Rattle.std.specs.List.{list_any};
ghost use Rattle.std.specs.Ordering.{int_eq};
ghost use Rattle.xs_model.specs.Bounds.{bounds, points, HasSpans};
ghost use Rattle.xs_expr.specs.Laws.{ValuesAreBounded};
ghost use Rattle.xs_model.specs.Shape.{IsShaped, IsExponent};
ghost use Rattle.xs_expr.specs.Worths.{flipped, stepped, start, no_values, with_value, all_values, StepFits, StepsFit, node_value, NodeFits, Fits};
ghost use Rattle.xs_model.specs.Value.{at, val, worth, second_members, power, exponent_of, absolute};

use crate::limits::exponent;
use xs_model::{Expr, Op};

/// What a node asks of its operands' values.
#[derive(Clone, Copy)]
struct Values {
    first: i128,
    second: i128,
    third: i128,
    /// What all operands give together, where the operator takes any number of them.
    total: i128,
}

fn flipped(truth: i128) -> i128
    ensures { result ≡ flipped truth }
{
    if truth == 0 { 1 } else { 0 }
}

fn raised(base: i128, times: i128) -> i128
    requires exponent { IsExponent times }
    requires fits { FitsSigned w128 (power base (exponent_of times)) }
    ensures { result ≡ power base (exponent_of times) }
{
    base.pow(exponent(times))
}

fn distance(a: i128, b: i128) -> i128
    requires difference { FitsSigned w128 (a -ℤ b) }
    requires negated { FitsSigned w128 (neg_ℤ (a -ℤ b)) }
    ensures { result ≡ absolute (a -ℤ b) }
{
    (a - b).abs()
}

/// The next value in its own place, and the old one in each other.
fn placed(here: bool, next: i128, old: i128) -> i128
    ensures { result ≡ (if here then next else old) }
{
    if here { next } else { old }
}

impl Values {
    fn none(op: Op) -> Values
        ensures { result ≡ no_values op }
    {
        let total = match op {
            Op::Mul | Op::And | Op::Eq => 1,
            _ => 0,
        };
        Values {
            first: 0,
            second: 0,
            third: 0,
            total,
        }
    }

    /// What all operands give together, with the one at a place, which is the next.
    fn stepped(self, op: Op, at: usize, next: i128) -> i128
        requires { StepFits op self next }
        ensures { result ≡ stepped op at self next }
    {
        match op {
            Op::Add => self.total + next,
            Op::Mul => self.total * next,
            Op::Min if at > 0 => self.total.min(next),
            Op::Max if at > 0 => self.total.max(next),
            Op::Min | Op::Max => next,
            Op::Eq if at == 0 => 1,
            Op::Eq if next != self.first => 0,
            Op::And if next != 1 => 0,
            Op::Or if next == 1 => 1,
            Op::Xor if next == 1 => flipped(self.total),
            _ => self.total,
        }
    }

    fn push(self, op: Op, at: usize, next: i128) -> Values
        requires { StepFits op self next }
        ensures { result ≡ with_value op at self next }
    {
        Values {
            first: placed(at == 0, next, self.first),
            second: placed(at == 1, next, self.second),
            third: placed(at == 2, next, self.third),
            total: self.stepped(op, at, next),
        }
    }

    /// The value of a node over these operands.
    fn node(self, op: Op) -> i128
        requires { NodeFits op self }
        ensures { result ≡ node_value op self }
    {
        match op {
            Op::Neg => -self.first,
            Op::Abs => self.first.abs(),
            Op::Sqr => self.first * self.first,
            Op::Sub => self.first - self.second,
            Op::Dist => distance(self.first, self.second),
            Op::Div => self.first / self.second,
            Op::Mod => self.first % self.second,
            Op::Pow => raised(self.first, self.second),
            Op::Lt => i128::from(self.first < self.second),
            Op::Le | Op::Imp => i128::from(self.first <= self.second),
            Op::Gt => i128::from(self.first > self.second),
            Op::Ge => i128::from(self.first >= self.second),
            Op::Ne => i128::from(self.first != self.second),
            Op::Iff => i128::from(self.first == self.second),
            Op::Not => 1 - self.first,
            Op::If => self.chosen(),
            Op::Add | Op::Mul | Op::Min | Op::Max | Op::Eq | Op::And | Op::Or | Op::Xor =>
                self.total,
            Op::Set | Op::In | Op::NotIn => self.total,
        }
    }

    fn chosen(self) -> i128
        ensures { result ≡ node_value Op.If self }
    {
        if self.first == 1 {
            self.second
        } else {
            self.third
        }
    }
}

/// The value of `e` where variable `i` is `a[i]`.
///
/// Asks that `e` is well formed, that each variable has a value, and that no node of `e` is at fault where the
/// bounds of each variable are its value alone. It takes no memory.
pub fn value(e: &Expr, a: &[i128]) -> i128
    requires shaped { IsShaped e.now }
    requires variables { HasSpans (points a.now) e.now }
    requires bounded { IsOk (bounds (points a.now) e.now) }
    ensures { result ≡ val a.now e.now }
{
    value_of(e, a)
}

/// Where no node of an expression is at fault within bounds of its variables, none is at fault at values within
/// these, and its value lies within its bounds.
pub fn values_are_bounded()
    ensures { ValuesAreBounded }
{}

#[cycle(value)]
fn value_of(e: &Expr, a: &[i128]) -> i128
    requires { Fits a.now e.now }
    ensures { result ≡ val a.now e.now }
{
    match e {
        Expr::Int(value) => *value,
        Expr::Var(variable) => a[*variable as usize],
        Expr::Node(op, items) => match op {
            Op::Set => 0,
            Op::In => i128::from(is_member(items.as_slice(), a)),
            Op::NotIn => i128::from(!is_member(items.as_slice(), a)),
            _ => {
                let values = values_of(*op, items.as_slice(), a);
                values.node(*op)
            }
        },
    }
}

#[cycle(value)]
fn values_of(op: Op, items: &[Expr], a: &[i128]) -> Values
    requires all { All (Fits a.now) items.now }
    requires fits { StepsFit op 0 (no_values op) (map (val a.now) items.now) }
    ensures { result ≡ all_values op (map (val a.now) items.now) }
{
    let mut values = Values::none(op);
    for (at, item) in items.iter().enumerate() {
        let next = value_of(item, a);
        values = values.push(op, at, next);
    }
    values
}

/// Whether the first operand equals a member of the set that is the second.
#[cycle(value)]
fn is_member(items: &[Expr], a: &[i128]) -> bool
    requires all { All (Fits a.now) items.now }
    requires two { length items.now ≡ 2 }
    ensures { result ≡ list_any (int_eq (at (map (val a.now) items.now) 0)) (second_members (map (worth a.now) items.now)) }
{
    let value = value_of(&items[0], a);
    match &items[1] {
        Expr::Int(_) => false,
        Expr::Var(_) => false,
        Expr::Node(op, members) => match op {
            Op::Set => contains(members.as_slice(), value, a),
            _ => false,
        },
    }
}

#[cycle(value)]
fn contains(members: &[Expr], value: i128, a: &[i128]) -> bool
    requires { All (Fits a.now) members.now }
    ensures { result ≡ list_any (int_eq value) (map (val a.now) members.now) }
{
    for member in members {
        if value == value_of(member, a) {
            return true;
        }
    }
    false
}
