//! Constraints over three variables, under values of one byte.

ghost use Rattle.std.specs.Prelude.{◌≡◌, ◌∷◌, [], pos, true, IfOk};
ghost use Rattle.xs_counted.specs.Counted.{is_counted};
ghost use Rattle.xs_model.specs.Accepted.{IsFormed, IsMeasured};
ghost use Rattle.xs_model.specs.declared.term.Occurrence.TheVariants as occurrence;
ghost use Rattle.xs_model.specs.declared.term.Term.TheVariants.{Int};

use crate::{holds, is_form};
use std::alloc::Global;
use std::test::Fail;
use xf_num::{NoMemory, Row, Span};
use xs_forms::{Form, Scratch};
use xs_model::{Cond, Constraint, Instance, Occurrence, Term};

// Whether a constraint holds under three values.
fn holds_under(
    alloc: Global,
    c: Constraint,
    first: u8,
    second: u8,
    third: u8,
) -> Result<bool, NoMemory>
    requires form { is_counted c ≡ true }
    requires formed { IsFormed 3 c }
    requires measured { IsMeasured (record { lo = pos 0; hi = pos 255 } ∷ record { lo = pos 0; hi = pos 255 } ∷ record { lo = pos 0; hi = pos 255 } ∷ []) c }
{
    let mut constraints = Row::new(alloc);
    constraints.push(c)?;
    let instance = Instance {
        decls: Row::new(alloc),
        constraints,
        objective: None,
    };
    let mut scratch = Scratch::new(alloc, &instance)?;
    let a = [i128::from(first), i128::from(second), i128::from(third)];
    match instance.constraints.as_slice().first() {
        Some(constraint) => Ok(holds(constraint, &a, &mut scratch)),
        None => Ok(false),
    }
}

// Twice the first, less the second, and the square of the third are at most 5.
fn sum(alloc: Global) -> Result<Constraint, NoMemory>
    ensures form { IfOk result (λ c. is_counted c ≡ true) }
    ensures formed { IfOk result (λ c. IsFormed 3 c) }
    ensures measured { IfOk result (λ c. IsMeasured (record { lo = pos 0; hi = pos 255 } ∷ record { lo = pos 0; hi = pos 255 } ∷ record { lo = pos 0; hi = pos 255 } ∷ []) c) }
{
    Ok(Constraint::Sum {
        list: Row::from_slice(alloc, &[0, 1, 2])?,
        coeffs: Row::from_slice(alloc, &[Term::Int(2), Term::Int(-1), Term::Var(2)])?,
        cond: Cond::Le(Term::Int(5)),
    })
}

// Exactly two have the value 1 or that of the third.
fn count(alloc: Global) -> Result<Constraint, NoMemory>
    ensures form { IfOk result (λ c. is_counted c ≡ true) }
    ensures formed { IfOk result (λ c. IsFormed 3 c) }
    ensures measured { IfOk result (λ c. IsMeasured (record { lo = pos 0; hi = pos 255 } ∷ record { lo = pos 0; hi = pos 255 } ∷ record { lo = pos 0; hi = pos 255 } ∷ []) c) }
{
    Ok(Constraint::Count {
        list: Row::from_slice(alloc, &[0, 1, 2])?,
        values: Row::from_slice(alloc, &[Term::Int(1), Term::Var(2)])?,
        cond: Cond::Eq(Term::Int(2)),
    })
}

// One value but 0.
fn distinct(alloc: Global) -> Result<Constraint, NoMemory>
    ensures form { IfOk result (λ c. is_counted c ≡ true) }
    ensures formed { IfOk result (λ c. IsFormed 3 c) }
    ensures measured { IfOk result (λ c. IsMeasured (record { lo = pos 0; hi = pos 255 } ∷ record { lo = pos 0; hi = pos 255 } ∷ record { lo = pos 0; hi = pos 255 } ∷ []) c) }
{
    Ok(Constraint::NValues {
        list: Row::from_slice(alloc, &[0, 1, 2])?,
        except: Row::from_slice(alloc, &[0])?,
        cond: Cond::Eq(Term::Int(1)),
    })
}

fn said(alloc: Global) -> Result<Row<Occurrence>, NoMemory>
    ensures { IfOk result (λ row. row ≡ occurrence.Span (record { lo = pos 1; hi = pos 2 }) ∷ occurrence.Term (Int (pos 1)) ∷ []) }
{
    let Some(span) = Span::new(1, 2) else {
        return Err(NoMemory);
    };
    let mut said = Row::new(alloc);
    said.push(Occurrence::Span(span))?;
    said.push(Occurrence::Term(Term::Int(1)))?;
    Ok(said)
}

// The value 1 once or twice, and the value 2 once; where closed, no other.
fn cardinality(alloc: Global, closed: bool) -> Result<Constraint, NoMemory>
    ensures form { IfOk result (λ c. is_counted c ≡ true) }
    ensures formed { IfOk result (λ c. IsFormed 3 c) }
    ensures measured { IfOk result (λ c. IsMeasured (record { lo = pos 0; hi = pos 255 } ∷ record { lo = pos 0; hi = pos 255 } ∷ record { lo = pos 0; hi = pos 255 } ∷ []) c) }
{
    Ok(Constraint::Cardinality {
        list: Row::from_slice(alloc, &[0, 1, 2])?,
        values: Row::from_slice(alloc, &[1, 2])?,
        occurs: said(alloc)?,
        closed,
    })
}

// The least value, from 2 to 4.
fn least(alloc: Global) -> Result<Constraint, NoMemory>
    ensures form { IfOk result (λ c. is_counted c ≡ true) }
    ensures formed { IfOk result (λ c. IsFormed 3 c) }
    ensures measured { IfOk result (λ c. IsMeasured (record { lo = pos 0; hi = pos 255 } ∷ record { lo = pos 0; hi = pos 255 } ∷ record { lo = pos 0; hi = pos 255 } ∷ []) c) }
{
    let Some(span) = Span::new(2, 4) else {
        return Err(NoMemory);
    };
    Ok(Constraint::Minimum {
        list: Row::from_slice(alloc, &[0, 1, 2])?,
        cond: Cond::InSpan(span),
    })
}

// The greatest value is the first.
fn greatest(alloc: Global) -> Result<Constraint, NoMemory>
    ensures form { IfOk result (λ c. is_counted c ≡ true) }
    ensures formed { IfOk result (λ c. IsFormed 3 c) }
    ensures measured { IfOk result (λ c. IsMeasured (record { lo = pos 0; hi = pos 255 } ∷ record { lo = pos 0; hi = pos 255 } ∷ record { lo = pos 0; hi = pos 255 } ∷ []) c) }
{
    Ok(Constraint::Maximum {
        list: Row::from_slice(alloc, &[0, 1, 2])?,
        cond: Cond::Eq(Term::Var(0)),
    })
}

fn made(alloc: Global, form: Form, closed: bool) -> Result<Constraint, NoMemory>
    ensures form { IfOk result (λ c. is_counted c ≡ true) }
    ensures formed { IfOk result (λ c. IsFormed 3 c) }
    ensures measured { IfOk result (λ c. IsMeasured (record { lo = pos 0; hi = pos 255 } ∷ record { lo = pos 0; hi = pos 255 } ∷ record { lo = pos 0; hi = pos 255 } ∷ []) c) }
{
    match form {
        Form::Sum => sum(alloc),
        Form::Count => count(alloc),
        Form::NValues => distinct(alloc),
        Form::Minimum => least(alloc),
        Form::Maximum => greatest(alloc),
        _ => cardinality(alloc, closed),
    }
}

// By the meaning of each form. Only a `cardinality` is closed.
#[test]
fn meanings(rt: HostRuntime) -> Result<(), Fail> {
    let rows: [(Form, bool, [u8; 3], bool); 24] = [
        (Form::Sum, false, [1, 2, 3], false),
        (Form::Sum, false, [1, 2, 2], true),
        (Form::Sum, false, [3, 1, 0], true),
        (Form::Sum, false, [3, 0, 0], false),
        (Form::Count, false, [1, 1, 5], false),
        (Form::Count, false, [1, 0, 5], true),
        (Form::Count, false, [0, 0, 1], false),
        (Form::Count, false, [0, 1, 1], true),
        (Form::NValues, false, [0, 5, 5], true),
        (Form::NValues, false, [5, 5, 5], true),
        (Form::NValues, false, [0, 0, 0], false),
        (Form::NValues, false, [1, 2, 0], false),
        (Form::Cardinality, true, [2, 1, 1], true),
        (Form::Cardinality, true, [1, 2, 2], false),
        (Form::Cardinality, true, [1, 2, 3], false),
        (Form::Cardinality, false, [1, 2, 3], true),
        (Form::Cardinality, false, [2, 3, 3], false),
        (Form::Minimum, false, [5, 2, 7], true),
        (Form::Minimum, false, [4, 4, 9], true),
        (Form::Minimum, false, [9, 1, 4], false),
        (Form::Minimum, false, [5, 6, 7], false),
        (Form::Maximum, false, [7, 3, 5], true),
        (Form::Maximum, false, [7, 7, 0], true),
        (Form::Maximum, false, [5, 6, 2], false),
    ];
    for (form, closed, [first, second, third], want) in rows {
        let alloc = rt.alloc();
        let c = made(alloc, form, closed)?;
        let result = holds_under(alloc, c, first, second, third)?;
        assert_eq!(rt; result, want);
    }
    Ok(())
}

#[test]
fn forms(rt: HostRuntime) {
    let rows = [
        (Form::Sum, true),
        (Form::Count, true),
        (Form::NValues, true),
        (Form::Cardinality, true),
        (Form::Minimum, true),
        (Form::Maximum, true),
        (Form::AllDifferent, false),
        (Form::Element, false),
    ];
    for (form, want) in rows {
        assert_eq!(rt; is_form(form), want);
    }
}
