//! Arrays of variables.

ghost use Rattle.std.specs.Prelude.{◌≡◌, ◌&&◌, map, length, IfOk, OnOk, None};
ghost use Rattle.fz_values.specs.Names.{look_up};
ghost use Rattle.fz_values.specs.Kinds.{arg_of, members_in, reaches};
ghost use Rattle.fz_values.specs.Integers.{is_small};
ghost use Rattle.fz_values.specs.Values.{are_small};
ghost use Rattle.fz_items.specs.Notes.{notes_small, shown_as};
ghost use Rattle.fz_items.specs.Items.{is_bool, has_length, type_small, member_sort, array_kind, dims_fit, array_meets, shown_output, with_shown, array_behind};

use crate::condition::Meets;
use crate::notes::{has_places, notes_small, shown_as};
use crate::param::has_length;
use crate::progress::{Progress, add_name, add_output, is_new};
use crate::variable::{asked_of, is_bool, type_small};
use fz_grammar::{Expr, Note, VarType};
use fz_model::{Kind, Output};
use fz_values::{
    Meaning, Names, Single, Sort, are_small, args_of, count_in, fits, is_known, is_small,
    members_in, reaches,
};
use std::alloc::Global;
use xf_num::{NoMemory, Row, Spans};

fn member_sort(kind: &VarType) -> Sort
    ensures { result ≡ member_sort kind.now }
{
    if is_bool(kind) {
        Sort::BoolVar
    } else {
        Sort::IntVar
    }
}

fn array_kind(kind: &VarType) -> Kind
    ensures { result ≡ array_kind kind.now }
{
    Kind::Many(asked_of(kind))
}

fn dims_fit(dims: &Option<Spans>, count: usize) -> bool
    ensures { result ≡ dims_fit dims.now count }
{
    match dims {
        Some(spans) => has_places(spans.as_slice(), count as u64),
        None => true,
    }
}

fn have_shape(names: &Names, digits: &[u8], kind: &VarType, expr: &Expr) -> bool
    ensures { result ≡ (has_length digits.now (length (members_in names.now expr.now)) && reaches names.now (array_kind kind.now) expr.now) }
{
    has_length(digits, count_in(names, expr)) && reaches(names, array_kind(kind), expr)
}

fn numbers_small(digits: &[u8], kind: &VarType, notes: &[Note], expr: &Expr) -> bool
    ensures { result ≡ ((is_small digits.now && type_small kind.now) && (notes_small notes.now && are_small expr.now)) }
{
    (is_small(digits) && type_small(kind)) && (notes_small(notes) && are_small(expr))
}

/// What an array of variables meets.
pub fn array_meets(
    alloc: Global,
    progress: &Progress,
    digits: &[u8],
    kind: &VarType,
    name: &[u8],
    notes: &[Note],
    expr: &Expr,
) -> Result<Meets, NoMemory>
    ensures { IfOk result (λ m. m ≡ array_meets progress.now digits.now kind.now name.now notes.now expr.now) }
{
    let names = &progress.names;
    let dims = shown_as(alloc, notes)?;
    let count = count_in(names, expr);
    Ok(Meets {
        known: true,
        naming: is_new(progress, name) && is_known(names, expr),
        kinds: fits(names, array_kind(kind), expr),
        magnitude: numbers_small(digits, kind, notes, expr),
        shape: have_shape(names, digits, kind, expr) && dims_fit(&dims, count),
        counting: count as u64 <= progress.room,
        bounded: true,
    })
}

fn output_of(
    alloc: Global,
    kind: &VarType,
    name: &[u8],
    dims: Spans,
    members: &[Single],
) -> Result<Output, NoMemory>
    ensures { IfOk result (λ o. o ≡ record { name = name.now; boolean = is_bool kind.now; dims = dims; members = map arg_of members.now }) }
{
    let mut text = Row::new(alloc);
    text.extend(name)?;
    let members = args_of(alloc, members)?;
    Ok(Output {
        name: text,
        boolean: is_bool(kind),
        dims,
        members,
    })
}

fn shown_output(
    alloc: Global,
    kind: &VarType,
    name: &[u8],
    notes: &[Note],
    members: &[Single],
) -> Result<Option<Output>, NoMemory>
    ensures { IfOk result (λ o. o ≡ shown_output kind.now name.now (shown_as notes.now) members.now) }
{
    match shown_as(alloc, notes)? {
        Some(dims) => {
            let output = output_of(alloc, kind, name, dims, members)?;
            Ok(Some(output))
        }
        None => Ok(None),
    }
}

fn add_shown(progress: &mut Progress, output: Option<Output>) -> Result<(), NoMemory>
    ensures { OnOk result (progress.new ≡ with_shown progress.old output) }
{
    match output {
        Some(output) => add_output(progress, output),
        None => Ok(()),
    }
}

/// Declares an array of variables.
pub fn add_array(
    alloc: Global,
    progress: &mut Progress,
    kind: &VarType,
    name: &[u8],
    notes: &[Note],
    expr: &Expr,
) -> Result<(), NoMemory>
    requires { look_up progress.old.names name.now ≡ None }
    ensures { OnOk result (progress.new ≡ array_behind progress.old kind.now name.now notes.now expr.now) }
{
    let members = members_in(alloc, &progress.names, expr)?;
    let output = shown_output(alloc, kind, name, notes, members.as_slice())?;
    let count = members.len() as u64;
    let meaning = Meaning::Array(member_sort(kind), members);
    add_name(alloc, progress, name, meaning, count)?;
    add_shown(progress, output)
}
