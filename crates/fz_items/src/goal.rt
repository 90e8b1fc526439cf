//! The objective.

ghost use Rattle.std.specs.Prelude.{◌≡◌, ℕ, List, Some, None};
ghost use Rattle.fz_values.specs.declared.meaning.Meaning.{Meaning};
ghost use Rattle.fz_items.specs.Items.{access_known, access_small, access_in, is_int_var, var_at, access_meets, objective, solve_meets, goal_of};

use crate::condition::Meets;
use crate::notes::notes_small;
use crate::progress::Progress;
use fz_grammar::{Access, Goal as WrittenGoal, Note, Solve};
use fz_model::Goal;
use fz_values::{
    Found, Names, Single, Sort, indexed, int_of, is_declared, is_small, is_within, named,
};

fn access_known(names: &Names, access: &Access) -> bool
    ensures { result ≡ access_known names.now access.now }
{
    match access {
        Access::Name(name) => is_declared(names, name.as_slice()),
        Access::Index(name, _) => is_declared(names, name.as_slice()),
    }
}

fn access_small(access: &Access) -> bool
    ensures { result ≡ access_small access.now }
{
    match access {
        Access::Name(_) => true,
        Access::Index(_, digits) => is_small(digits.as_slice()),
    }
}

fn access_in(names: &Names, access: &Access) -> Found
    ensures { result ≡ access_in names.now access.now }
{
    match access {
        Access::Name(name) => named(names.find(name.as_slice())),
        Access::Index(name, digits) => {
            indexed(int_of(digits.as_slice()), names.find(name.as_slice()))
        }
    }
}

fn is_int_var(found: Found) -> bool
    ensures { result ≡ is_int_var found }
{
    match found {
        Found::Here(Single::IntVar(_)) => true,
        Found::Past(Sort::IntVar) => true,
        _ => false,
    }
}

fn var_at(found: Found) -> u64
    ensures { result ≡ var_at found }
{
    match found {
        Found::Here(Single::IntVar(variable)) => variable,
        _ => 0,
    }
}

fn no_access_meets(notes: &[Note]) -> Meets
    ensures { (names : List (List ℕ × Meaning)) → result ≡ access_meets names notes.now None }
{
    Meets {
        known: true,
        naming: true,
        kinds: true,
        magnitude: notes_small(notes),
        shape: true,
        counting: true,
        bounded: true,
    }
}

fn access_meets(names: &Names, notes: &[Note], access: &Access) -> Meets
    ensures { result ≡ access_meets names.now notes.now (Some access.now) }
{
    let found = access_in(names, access);
    Meets {
        known: true,
        naming: access_known(names, access),
        kinds: is_int_var(found),
        magnitude: notes_small(notes) && access_small(access),
        shape: is_within(found),
        counting: true,
        bounded: true,
    }
}

/// What the last item meets.
pub fn solve_meets(progress: &Progress, solve: &Solve) -> Meets
    ensures { result ≡ solve_meets progress.now solve.now }
{
    let names = &progress.names;
    let notes = solve.notes.as_slice();
    match &solve.goal {
        WrittenGoal::Satisfy => no_access_meets(notes),
        WrittenGoal::Minimize(access) => access_meets(names, notes, access),
        WrittenGoal::Maximize(access) => access_meets(names, notes, access),
    }
}

/// The goal.
pub fn goal_of(progress: &Progress, goal: &WrittenGoal) -> Goal
    ensures { result ≡ goal_of progress.now goal.now }
{
    let names = &progress.names;
    match goal {
        WrittenGoal::Satisfy => Goal::Satisfy,
        WrittenGoal::Minimize(access) => Goal::Minimize(var_at(access_in(names, access))),
        WrittenGoal::Maximize(access) => Goal::Maximize(var_at(access_in(names, access))),
    }
}
