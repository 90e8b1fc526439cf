//! The items of a text, one after the other.

ghost use Rattle.std.specs.Prelude.{◌≡◌, ◌-◌, IfOk, OnOk, None};
ghost use Rattle.xf_text.specs.declared.fault.Stop.TheVariants.{Refused as StopRefused};
ghost use Rattle.fz_items.specs.Conditions.{first_missed, in_order, kind_of};
ghost use Rattle.fz_items.specs.Items.{param_meets, param_behind, var_meets, var_behind, array_meets, array_behind, call_meets, call_behind, item_meets, item_behind, solve_meets, IsBound};
ghost use Rattle.fz_items.specs.Outcome.{items_outcome, solve_outcome, model_of, outcome, IsRead};

use crate::array::{add_array, array_meets};
use crate::call::{append_call, call_meets};
use crate::condition::{Condition, first_missed};
use crate::goal::{goal_of, solve_meets};
use crate::param::{add_param, param_meets};
use crate::predicate::predicate_meets;
use crate::progress::{Progress, begun};
use crate::variable::{declare_var, var_meets};
use fz_grammar::{Expr, Item, Note, ParamType, Reading, Solve, VarType};
use fz_model::Model;
use std::alloc::Global;
use xf_num::{NoMemory, Row};
use xf_text::{Fault, Stop};

fn read_param(
    alloc: Global,
    progress: &mut Progress,
    kind: &ParamType,
    name: &[u8],
    notes: &[Note],
    expr: &Expr,
) -> Result<Option<Condition>, NoMemory>
    ensures missed { IfOk result (λ m. m ≡ first_missed in_order (param_meets progress.old kind.now name.now notes.now expr.now)) }
    ensures behind { IfOk result (λ m. m ≡ None → progress.new ≡ param_behind progress.old kind.now name.now expr.now) }
{
    match first_missed(param_meets(progress, kind, name, notes, expr)) {
        Some(missed) => Ok(Some(missed)),
        None => {
            add_param(alloc, progress, kind, name, expr)?;
            Ok(None)
        }
    }
}

fn read_var(
    alloc: Global,
    bound: Option<i128>,
    progress: &mut Progress,
    kind: &VarType,
    name: &[u8],
    notes: &[Note],
    value: &Option<Expr>,
) -> Result<Option<Condition>, NoMemory>
    requires { IsBound bound }
    ensures missed { IfOk result (λ m. m ≡ first_missed in_order (var_meets bound progress.old kind.now name.now notes.now value.now)) }
    ensures behind { IfOk result (λ m. m ≡ None → progress.new ≡ var_behind bound progress.old kind.now name.now notes.now value.now) }
{
    match first_missed(var_meets(bound, progress, kind, name, notes, value)) {
        Some(missed) => Ok(Some(missed)),
        None => {
            declare_var(alloc, bound, progress, kind, name, notes, value)?;
            Ok(None)
        }
    }
}

fn read_array(
    alloc: Global,
    progress: &mut Progress,
    digits: &[u8],
    kind: &VarType,
    name: &[u8],
    notes: &[Note],
    expr: &Expr,
) -> Result<Option<Condition>, NoMemory>
    ensures missed { IfOk result (λ m. m ≡ first_missed in_order (array_meets progress.old digits.now kind.now name.now notes.now expr.now)) }
    ensures behind { IfOk result (λ m. m ≡ None → progress.new ≡ array_behind progress.old kind.now name.now notes.now expr.now) }
{
    let meets = array_meets(alloc, progress, digits, kind, name, notes, expr)?;
    match first_missed(meets) {
        Some(missed) => Ok(Some(missed)),
        None => {
            add_array(alloc, progress, kind, name, notes, expr)?;
            Ok(None)
        }
    }
}

fn read_call(
    alloc: Global,
    progress: &mut Progress,
    name: &[u8],
    exprs: &[Expr],
    notes: &[Note],
    place: u64,
) -> Result<Option<Condition>, NoMemory>
    ensures missed { IfOk result (λ m. m ≡ first_missed in_order (call_meets progress.old name.now exprs.now notes.now)) }
    ensures behind { IfOk result (λ m. m ≡ None → progress.new ≡ call_behind progress.old name.now exprs.now place) }
{
    match first_missed(call_meets(progress, name, exprs, notes)) {
        Some(missed) => Ok(Some(missed)),
        None => {
            append_call(alloc, progress, name, exprs, place)?;
            Ok(None)
        }
    }
}

// Reads an item at this place, or answers what it misses first.
fn read_item(
    alloc: Global,
    bound: Option<i128>,
    progress: &mut Progress,
    item: &Item,
    place: u64,
) -> Result<Option<Condition>, NoMemory>
    requires { IsBound bound }
    ensures missed { IfOk result (λ m. m ≡ first_missed in_order (item_meets bound progress.old item.now)) }
    ensures behind { IfOk result (λ m. m ≡ None → progress.new ≡ item_behind bound progress.old item.now place) }
{
    match item {
        Item::Predicate(_, numbers) => Ok(first_missed(predicate_meets(numbers.as_slice()))),
        Item::Param(kind, name, notes, expr) => {
            read_param(
                alloc,
                progress,
                kind,
                name.as_slice(),
                notes.as_slice(),
                expr,
            )
        }
        Item::Var(kind, name, notes, value) => {
            read_var(
                alloc,
                bound,
                progress,
                kind,
                name.as_slice(),
                notes.as_slice(),
                value,
            )
        }
        Item::Array(digits, kind, name, notes, expr) => {
            let digits = digits.as_slice();
            read_array(
                alloc,
                progress,
                digits,
                kind,
                name.as_slice(),
                notes.as_slice(),
                expr,
            )
        }
        Item::Constraint(name, exprs, notes) => {
            let exprs = exprs.as_slice();
            read_call(
                alloc,
                progress,
                name.as_slice(),
                exprs,
                notes.as_slice(),
                place,
            )
        }
    }
}

// An item at this place misses the condition first.
fn refused(missed: Condition, place: u64) -> Stop
    ensures { result ≡ StopRefused (record { kind = kind_of missed; place = place }) }
{
    Stop::Refused(Fault {
        kind: missed.kind(),
        place,
    })
}

// Reads the items that begin where the text of this size has so many bytes left.
fn read_items(
    alloc: Global,
    bound: Option<i128>,
    size: usize,
    progress: &mut Progress,
    items: &[Item],
    lefts: &[usize],
) -> Result<(), Stop>
    requires { IsBound bound }
    ensures { IsRead (λ _. progress.new) result (items_outcome in_order bound size progress.old items.now lefts.now) }
{
    for at in 0..items.len().min(lefts.len()) {
        let place = size.saturating_sub(lefts[at]) as u64;
        match read_item(alloc, bound, progress, &items[at], place)? {
            Some(missed) => return Err(refused(missed, place)),
            None => {}
        }
    }
    Ok(())
}

// The model of what is read, behind its last item.
fn end(progress: Progress, solve: &Solve, place: u64) -> Result<Model, Stop>
    ensures { IsRead (λ m. m) result (solve_outcome in_order progress solve.now place) }
{
    match first_missed(solve_meets(&progress, solve)) {
        Some(missed) => Err(refused(missed, place)),
        None => {
            let goal = goal_of(&progress, &solve.goal);
            Ok(Model {
                vars: progress.vars,
                outputs: progress.outputs,
                calls: progress.calls,
                goal,
            })
        }
    }
}

/// The model that the items of a text of this size state, or the fault of the first item that misses a condition.
///
/// Asks that a bound is from 0 to 2^126 - 1. `Refused` comes exactly where an item misses a condition.
pub fn read_syntax_items(
    alloc: Global,
    bound: Option<i128>,
    size: usize,
    reading: &Reading,
) -> Result<Model, Stop>
    requires { IsBound bound }
    ensures { IsRead (λ m. m) result (outcome in_order bound size reading.now) }
{
    let mut progress = begun(alloc);
    let items = reading.syntax.items.as_slice();
    read_items(
        alloc,
        bound,
        size,
        &mut progress,
        items,
        reading.places.as_slice(),
    )?;
    end(
        progress,
        &reading.syntax.solve,
        size.saturating_sub(reading.last) as u64,
    )
}
