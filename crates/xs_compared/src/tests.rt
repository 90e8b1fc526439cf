//! Constraints over four variables, the cells of a matrix of two rows.

ghost use Rattle.std.specs.Prelude.{◌≡◌, ◌∷◌, [], true, List, IfOk};
ghost use Rattle.xf_num.specs.Span.{Bounds};
ghost use Rattle.xs_compared.specs.Compared.{is_compared};
ghost use Rattle.xs_model.specs.Accepted.{IsFaultless, IsFormed};

use crate::{holds, is_form};
use std::alloc::Global;
use std::test::Fail;
use xf_num::{NoMemory, Row, Vars};
use xs_forms::{Form, Scratch};
use xs_model::{Constraint, Instance, Rel, Term};

// Whether a constraint without an expression holds under four values.
fn holds_under(alloc: Global, c: Constraint, values: [i128; 4]) -> Result<bool, NoMemory>
    requires form { is_compared c ≡ true }
    requires formed { IsFormed 4 c }
    requires faultless { (spans : List Bounds) → IsFaultless spans c }
{
    let mut constraints = Row::new(alloc);
    constraints.push(c)?;
    let instance = Instance {
        decls: Row::new(alloc),
        constraints,
        objective: None,
    };
    let mut scratch = Scratch::new(alloc, &instance)?;
    match instance.constraints.as_slice().first() {
        Some(constraint) => Ok(holds(constraint, &values, &mut scratch)),
        None => Ok(false),
    }
}

// The variables of the matrix, row by row.
fn rows(alloc: Global) -> Result<Row<Vars>, NoMemory>
    ensures { IfOk result (λ rows. rows ≡ (0 ∷ 1 ∷ []) ∷ (2 ∷ 3 ∷ []) ∷ []) }
{
    let mut rows = Row::new(alloc);
    rows.push(Row::from_slice(alloc, &[0, 1])?)?;
    rows.push(Row::from_slice(alloc, &[2, 3])?)?;
    Ok(rows)
}

// Different values, but 0.
fn different(alloc: Global) -> Result<Constraint, NoMemory>
    ensures form { IfOk result (λ c. is_compared c ≡ true) }
    ensures formed { IfOk result (λ c. IsFormed 4 c) }
    ensures faultless { IfOk result (λ c. (spans : List Bounds) → IsFaultless spans c) }
{
    Ok(Constraint::AllDifferent {
        list: Row::from_slice(alloc, &[0, 1, 2])?,
        except: Row::from_slice(alloc, &[0])?,
    })
}

// The first value and 2 stand so to the second, and that and the fourth to the third.
fn ordered(alloc: Global, rel: Rel) -> Result<Constraint, NoMemory>
    ensures form { IfOk result (λ c. is_compared c ≡ true) }
    ensures formed { IfOk result (λ c. IsFormed 4 c) }
    ensures faultless { IfOk result (λ c. (spans : List Bounds) → IsFaultless spans c) }
{
    Ok(Constraint::Ordered {
        list: Row::from_slice(alloc, &[0, 1, 2])?,
        lengths: Row::from_slice(alloc, &[Term::Int(2), Term::Var(3)])?,
        rel,
    })
}

fn given(alloc: Global) -> Result<Constraint, NoMemory>
    ensures form { IfOk result (λ c. is_compared c ≡ true) }
    ensures formed { IfOk result (λ c. IsFormed 4 c) }
    ensures faultless { IfOk result (λ c. (spans : List Bounds) → IsFaultless spans c) }
{
    Ok(Constraint::Instantiation {
        list: Row::from_slice(alloc, &[0, 2])?,
        values: Row::from_slice(alloc, &[4, -1])?,
    })
}

#[derive(Clone, Copy)]
enum Case {
    Different,
    DifferentRows,
    DifferentLines,
    Equal,
    Ordered(Rel),
    Lex(Rel),
    LexMatrix(Rel),
    Given,
}

fn made(alloc: Global, case: Case) -> Result<Constraint, NoMemory>
    ensures form { IfOk result (λ c. is_compared c ≡ true) }
    ensures formed { IfOk result (λ c. IsFormed 4 c) }
    ensures faultless { IfOk result (λ c. (spans : List Bounds) → IsFaultless spans c) }
{
    let list = Row::from_slice(alloc, &[0, 1, 2, 3])?;
    let rows = rows(alloc)?;
    match case {
        Case::Different => different(alloc),
        Case::DifferentRows => Ok(Constraint::DifferentLists { lists: rows }),
        Case::DifferentLines => Ok(Constraint::DifferentMatrix { rows }),
        Case::Equal => Ok(Constraint::AllEqual { list }),
        Case::Ordered(rel) => ordered(alloc, rel),
        Case::Lex(rel) => Ok(Constraint::Lex { lists: rows, rel }),
        Case::LexMatrix(rel) => Ok(Constraint::LexMatrix { rows, rel }),
        Case::Given => given(alloc),
    }
}

// By the meaning of each form.
#[test]
fn meanings(rt: HostRuntime) -> Result<(), Fail> {
    let rows: [(Case, [i128; 4], bool); 29] = [
        (Case::Different, [1, 2, 3, 3], true),
        (Case::Different, [0, 0, 5, 5], true),
        (Case::Different, [5, 5, 0, 1], false),
        (Case::DifferentRows, [1, 2, 2, 1], true),
        (Case::DifferentRows, [1, 1, 1, 2], true),
        (Case::DifferentRows, [1, 2, 1, 2], false),
        (Case::DifferentLines, [1, 2, 2, 1], true),
        (Case::DifferentLines, [1, 2, 1, 3], false),
        (Case::DifferentLines, [1, 1, 2, 3], false),
        (Case::Equal, [-1, -1, -1, -1], true),
        (Case::Equal, [1, 1, 2, 1], false),
        (Case::Ordered(Rel::Le), [0, 2, 3, 1], true),
        (Case::Ordered(Rel::Lt), [0, 2, 4, 1], false),
        (Case::Ordered(Rel::Lt), [0, 3, 5, 1], true),
        (Case::Ordered(Rel::Ge), [0, 2, 1, -1], true),
        (Case::Ordered(Rel::Gt), [0, 2, 0, 0], false),
        (Case::Ordered(Rel::Gt), [0, 1, 0, 0], true),
        (Case::Lex(Rel::Lt), [1, 5, 2, 0], true),
        (Case::Lex(Rel::Lt), [1, 2, 1, 2], false),
        (Case::Lex(Rel::Le), [1, 2, 1, 2], true),
        (Case::Lex(Rel::Le), [1, 3, 1, 2], false),
        (Case::Lex(Rel::Ge), [1, 2, 1, 2], true),
        (Case::Lex(Rel::Gt), [1, 2, 1, 2], false),
        (Case::Lex(Rel::Gt), [1, 3, 1, 2], true),
        (Case::LexMatrix(Rel::Le), [0, 1, 1, 0], true),
        (Case::LexMatrix(Rel::Le), [0, 1, 0, 0], false),
        (Case::LexMatrix(Rel::Le), [1, 0, 1, 1], false),
        (Case::Given, [4, 9, -1, 0], true),
        (Case::Given, [4, -1, 9, 0], false),
    ];
    for (case, values, want) in rows {
        let alloc = rt.alloc();
        let result = holds_under(alloc, made(alloc, case)?, values)?;
        assert_eq!(rt; result, want);
    }
    Ok(())
}

#[test]
fn forms(rt: HostRuntime) {
    let rows = [
        (Form::Intension, true),
        (Form::AllDifferent, true),
        (Form::AllEqual, true),
        (Form::Ordered, true),
        (Form::Lex, true),
        (Form::Instantiation, true),
        (Form::Sum, false),
        (Form::Regular, false),
    ];
    for (form, want) in rows {
        assert_eq!(rt; is_form(form), want);
    }
}
