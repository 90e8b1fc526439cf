//! The summary of an instance.

ghost use Rattle.std.specs.Prelude.{◌≡◌, ◌++◌, length, IfOk, OnOk};
ghost use Rattle.std.specs.List.{AllByRecursion, flat_map};
ghost use Rattle.xf_show.specs.Summary.{form_count, form_line, goal_name, instance_head, instance_summary};
ghost use Rattle.xs_model.specs.Names.{words};
ghost use Rattle.xs_model.specs.Sound.{IsSoundDecl};

use crate::lines::{begin, push_occurring};
use std::alloc::Global;
use xf_num::{NoMemory, Text};
use xs_forms::{Form, form_rows};
use xs_model::{Constraint, Decl, Direction, Instance, Objective, spans};

macro_rules! listed {
    ($value:expr; $($form:ident $name:literal $family:ident [$($variant:ident)+],)*) => {
        [$(Form::$form,)*]
    };
}

/// All forms, in the order of the standard.
const FORMS: [Form; 20] = form_rows!(listed());

// How many of the constraints are of the form.
fn form_count(form: Form, constraints: &[Constraint]) -> usize
    ensures { result ≡ form_count form constraints.now }
{
    constraints
        .iter()
        .filter(|constraint| Form::of(constraint).name() == form.name())
        .count()
}

// Appends the line of each of these forms that occurs.
fn push_forms(forms: &[Form], constraints: &[Constraint], text: &mut Text) -> Result<(), NoMemory>
    ensures { OnOk result (text.new ≡ text.old ++ flat_map (form_line constraints.now) forms.now) }
{
    for form in forms {
        let count = form_count(*form, constraints);
        push_occurring(form.name(), count as u64, text)?;
    }
    Ok(())
}

fn goal_name(objective: &Option<Objective>) -> &'static [u8]
    ensures { result.now ≡ goal_name objective.now }
{
    match objective {
        None => b"satisfy",
        Some(objective) => match objective.direction {
            Direction::Minimize => b"minimize",
            Direction::Maximize => b"maximize",
        },
    }
}

// How many variables are declared.
fn count_variables(alloc: Global, decls: &[Decl]) -> Result<usize, NoMemory>
    requires { AllByRecursion IsSoundDecl decls.now }
    ensures { IfOk result (λ count. count ≡ length (words decls.now)) }
{
    let spans = spans(alloc, decls)?;
    Ok(spans.len())
}

// The lines of an instance's variables, constraints and goal.
fn begin_instance(alloc: Global, instance: &Instance) -> Result<Text, NoMemory>
    requires { AllByRecursion IsSoundDecl instance.now.decls }
    ensures { IfOk result (λ text. text ≡ instance_head instance.now) }
{
    let variables = count_variables(alloc, instance.decls.as_slice())?;
    begin(
        alloc,
        b"xcsp3",
        variables as u64,
        instance.constraints.len() as u64,
        goal_name(&instance.objective),
    )
}

/// The summary of an instance: its variables, its constraints and its goal, and how many constraints it has of each
/// form that occurs, in the order of the standard. It asks that the declarations are sound; `Err` is want of memory.
pub fn instance_summary(alloc: Global, instance: &Instance) -> Result<Text, NoMemory>
    requires { AllByRecursion IsSoundDecl instance.now.decls }
    ensures { IfOk result (λ text. text ≡ instance_summary instance.now) }
{
    let mut text = begin_instance(alloc, instance)?;
    push_forms(&FORMS, instance.constraints.as_slice(), &mut text)?;
    Ok(text)
}
