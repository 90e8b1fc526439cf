ghost use Rattle.std.specs.Prelude.{◌≡◌, ◌≤◌, All, IfSome, SomeIff, map};
ghost use Rattle.xf_num.specs.Span.{Bounds, EndsFit, abs_ends, sub_ends};
ghost use Rattle.xs_model.specs.Bounds.{bounds, limited, exactly, truths, is_truth, is_divisible, HasSpans, and_then, all_ok};
ghost use Rattle.xs_model.specs.Shape.{IsShaped, IsExponent};
ghost use Rattle.xs_expr.specs.Operands.{joined, pushed, none, gathered_of, extended, node_of, logic_of};
ghost use Rattle.xs_model.specs.Value.{exponent_of};

use xf_num::{MAX_MAGNITUDE, Span};
use xf_text::Kind;
use xs_model::{Expr, Op};

/// The greatest magnitude of an integer.
const MAGNITUDE: i128 = MAX_MAGNITUDE as i128;

/// What a node asks of its operands' bounds, gathered operand by operand.
#[derive(Clone, Copy)]
pub struct Operands {
    first: Span,
    second: Span,
    third: Span,
    /// All operands taken together from the left, where the operator takes any number of them.
    together: Result<Span, Kind>,
    /// Whether each operand is a truth value.
    are_truths: bool,
}

/// The bounds of a value.
pub fn only(value: i128) -> Span
    ensures { result ≡ exactly value }
{
    Span::new(value, value).unwrap()
}

/// The bounds of a truth value.
fn truths() -> Span
    ensures { result ≡ truths }
{
    Span::new(0, 1).unwrap()
}

/// Whether bounds are those of a truth value: within 0 and 1.
pub fn is_truth(span: Span) -> bool
    ensures { result ≡ is_truth span }
{
    span.lo() >= 0 && span.hi() <= 1
}

fn is_divisible(dividend: Span, divisor: Span) -> bool
    ensures { result ≡ is_divisible dividend divisor }
{
    dividend.lo() >= 0 && divisor.lo() >= 1
}

/// The bounds, where they are within the greatest magnitude; else F10.
pub fn limited(span: Span) -> Result<Span, Kind>
    ensures { result ≡ limited span }
{
    if span.lo() >= -MAGNITUDE && span.hi() <= MAGNITUDE {
        Ok(span)
    } else {
        Err(Kind::Range)
    }
}

/// The same of bounds that are none where an end is past i128.
fn checked(span: Option<Span>) -> Result<Span, Kind>
    ensures some { IfSome span (λ s. result ≡ limited s) }
    ensures fits { (e : Bounds) → SomeIff span (EndsFit e) e → result ≡ limited e }
{
    match span {
        Some(span) => limited(span),
        None => Err(Kind::Range),
    }
}

fn distance(a: Span, b: Span) -> Result<Span, Kind>
    ensures { result ≡ limited (abs_ends (sub_ends a b)) }
{
    match a.sub(b) {
        Some(difference) => checked(difference.abs()),
        None => Err(Kind::Range),
    }
}

/// An exponent as a number of factors.
pub(crate) fn exponent(value: i128) -> u32
    requires { IsExponent value }
    ensures value { result ≡ exponent_of value }
    ensures least { 1 ≤ result }
    ensures greatest { result ≤ 64 }
{
    value as u32
}

/// The bounds of two operands taken together.
fn joined(op: Op, a: Span, b: Span) -> Result<Span, Kind>
    ensures { result ≡ joined op a b }
{
    match op {
        Op::Add => checked(a.add(b)),
        Op::Mul => checked(a.mul(b)),
        Op::Min => checked(a.min(b)),
        Op::Max => checked(a.max(b)),
        _ => Ok(a),
    }
}

impl Operands {
    pub fn none() -> Operands
        ensures { result ≡ none }
    {
        Operands {
            first: only(0),
            second: only(0),
            third: only(0),
            together: Ok(only(0)),
            are_truths: true,
        }
    }

    /// With the operand at a place, which is the next.
    pub fn push(self, op: Op, at: usize, next: Span) -> Operands
        ensures { result ≡ pushed op at self next }
    {
        let first = if at == 0 { next } else { self.first };
        let second = if at == 1 { next } else { self.second };
        let third = if at == 2 { next } else { self.third };
        Operands {
            first,
            second,
            third,
            together: self.extended(op, at, next),
            are_truths: self.are_truths && is_truth(next),
        }
    }

    /// All operands taken together, with the next one.
    fn extended(self, op: Op, at: usize, next: Span) -> Result<Span, Kind>
        ensures { result ≡ extended op at self next }
    {
        if at == 0 {
            return Ok(next);
        }
        match self.together {
            Ok(so_far) => joined(op, so_far, next),
            Err(kind) => Err(kind),
        }
    }

    fn logic(self) -> Result<Span, Kind>
        ensures { result ≡ logic_of self }
    {
        if self.are_truths {
            Ok(truths())
        } else {
            Err(Kind::Logic)
        }
    }

    fn choice(self) -> Result<Span, Kind>
        ensures { result ≡ node_of Op.If self }
    {
        if is_truth(self.first) {
            limited(self.second.hull_with(self.third))
        } else {
            Err(Kind::Logic)
        }
    }

    fn quotient(self) -> Result<Span, Kind>
        ensures { result ≡ node_of Op.Div self }
    {
        if is_divisible(self.first, self.second) {
            checked(self.first.div(self.second))
        } else {
            Err(Kind::Division)
        }
    }

    fn remainder(self) -> Result<Span, Kind>
        ensures { result ≡ node_of Op.Mod self }
    {
        if is_divisible(self.first, self.second) {
            checked(self.first.rem(self.second))
        } else {
            Err(Kind::Division)
        }
    }

    /// The bounds of a node over these operands.
    pub fn node(self, op: Op) -> Result<Span, Kind>
        requires { op ≡ Op.Pow → IsExponent self.second.lo }
        ensures { result ≡ node_of op self }
    {
        match op {
            Op::Neg => checked(self.first.neg()),
            Op::Abs => checked(self.first.abs()),
            Op::Sqr => checked(self.first.pow(2)),
            Op::Add | Op::Mul | Op::Min | Op::Max => self.together,
            Op::Sub => checked(self.first.sub(self.second)),
            Op::Dist => distance(self.first, self.second),
            Op::Div => self.quotient(),
            Op::Mod => self.remainder(),
            Op::Pow => checked(self.first.pow(exponent(self.second.lo()))),
            Op::Lt | Op::Le | Op::Gt | Op::Ge | Op::Ne | Op::Eq | Op::In | Op::NotIn => Ok(
                truths(),
            ),
            Op::Set => Ok(only(0)),
            Op::Not | Op::And | Op::Or | Op::Xor | Op::Iff | Op::Imp => self.logic(),
            Op::If => self.choice(),
        }
    }
}

/// The bounds of `e` where those of variable `i` are `spans[i]`: the least span that the table of operators gives.
/// The error is the fault of the first node that is at fault, operands before their node: F8 where a truth value
/// is asked of an operand that may be other than 0 and 1, F9 where a dividend may be negative or a divisor less
/// than 1, F10 where the node's bounds, or a step of a sum or product, pass the magnitude 2^126 - 1.
#[cycle(bounds)]
pub fn bounds(e: &Expr, spans: &[Span]) -> Result<Span, Kind>
    requires shaped { IsShaped e.now }
    requires variables { HasSpans spans.now e.now }
    ensures { result ≡ bounds spans.now e.now }
{
    match e {
        Expr::Int(value) => limited(only(*value)),
        Expr::Var(variable) => limited(spans[*variable as usize]),
        Expr::Node(op, items) => {
            let operands = operand_bounds(*op, items.as_slice(), spans)?;
            operands.node(*op)
        }
    }
}

/// What the operands' bounds are, or the first fault.
#[cycle(bounds)]
fn operand_bounds(op: Op, items: &[Expr], spans: &[Span]) -> Result<Operands, Kind>
    requires shaped { All IsShaped items.now }
    requires variables { All (HasSpans spans.now) items.now }
    ensures { result ≡ gathered_of op 0 none (all_ok (map (bounds spans.now) items.now)) }
{
    let mut gathered = Operands::none();
    for (at, item) in items.iter().enumerate() {
        let next = bounds(item, spans)?;
        gathered = gathered.push(op, at, next);
    }
    Ok(gathered)
}
