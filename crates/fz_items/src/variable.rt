//! Variables.

ghost use Rattle.std.specs.Prelude.{◌≡◌, ◌∷◌, [], length, map, IfOk, OnOk, None, if◌then◌else◌};
ghost use Rattle.std.specs.Option.{option_map};
ghost use Rattle.fz_model.specs.Limits.{exactly};
ghost use Rattle.fz_model.specs.declared.kind.Asked.TheVariants as asked;
ghost use Rattle.fz_values.specs.Names.{look_up};
ghost use Rattle.fz_items.specs.Items.{is_bool, var_kind, type_small, has_member, type_leaves, is_bounded, bound_domain, range_domain, set_domain, domain_of, value_known, value_fits, value_small, value_reaches, var_meets, var_meaning, value_arg, var_of, var_behind, IsBound};

use crate::condition::Meets;
use crate::notes::{is_shown, notes_small};
use crate::progress::{Progress, add_name, add_var, is_new};
use fz_grammar::{Expr, Note, VarType};
use fz_model::{Arg, Asked, FzVar, Kind};
use fz_values::{
    Meaning, Names, Single, are_small, are_small_digits, arg_in, fits, int_of, ints_of, is_known,
    is_small, reaches,
};
use std::alloc::Global;
use xf_merged::domain_of as merged_domain;
use xf_num::{Domain, MAX_VARIABLES, NoMemory, Row, Span};

/// The greatest number of variables.
const MOST_VARIABLES: usize = MAX_VARIABLES as usize;

pub fn is_bool(kind: &VarType) -> bool
    ensures { result ≡ is_bool kind.now }
{
    match kind {
        VarType::Bool => true,
        VarType::Int => false,
        VarType::Range(_, _) => false,
        VarType::Set(_) => false,
    }
}

/// What is asked of a value of this type.
pub fn asked_of(kind: &VarType) -> Asked
    ensures { result ≡ (if is_bool kind.now then asked.Bool else asked.Int) }
{
    if is_bool(kind) {
        Asked::Bool
    } else {
        Asked::Int
    }
}

fn var_kind(kind: &VarType) -> Kind
    ensures { result ≡ var_kind kind.now }
{
    Kind::One(asked_of(kind))
}

/// Whether the magnitude of each integer of the type is at most 2^126 - 1.
pub fn type_small(kind: &VarType) -> bool
    ensures { result ≡ type_small kind.now }
{
    match kind {
        VarType::Range(low, high) => is_small(low.as_slice()) && is_small(high.as_slice()),
        VarType::Set(members) => are_small_digits(members.as_slice()),
        VarType::Bool => true,
        VarType::Int => true,
    }
}

fn has_member(kind: &VarType) -> bool
    ensures { result ≡ has_member kind.now }
{
    match kind {
        VarType::Range(low, high) => int_of(low.as_slice()) <= int_of(high.as_slice()),
        VarType::Set(members) => 0 < members.len(),
        VarType::Bool => true,
        VarType::Int => true,
    }
}

fn type_leaves(kind: &VarType) -> u64
    ensures { result ≡ type_leaves kind.now }
{
    match kind {
        VarType::Set(members) => members.len() as u64,
        VarType::Bool => 0,
        VarType::Int => 0,
        VarType::Range(_, _) => 0,
    }
}

fn is_bounded(bound: Option<i128>, kind: &VarType) -> bool
    ensures { result ≡ is_bounded bound kind.now }
{
    match kind {
        VarType::Int => bound.is_some(),
        VarType::Bool => true,
        VarType::Range(_, _) => true,
        VarType::Set(_) => true,
    }
}

fn exactly(value: i128) -> Span
    ensures { result ≡ exactly value }
{
    Span::new(value, value).unwrap()
}

fn bound_domain(alloc: Global, bound: Option<i128>) -> Result<Domain, NoMemory>
    requires { IsBound bound }
    ensures { IfOk result (λ d. d ≡ bound_domain bound) }
{
    match bound {
        Some(most) => Domain::of(alloc, Span::new(-most, most).unwrap()),
        None => Domain::of(alloc, exactly(0)),
    }
}

fn range_domain(alloc: Global, low: i128, high: i128) -> Result<Domain, NoMemory>
    ensures { IfOk result (λ d. d ≡ range_domain low high) }
{
    match Span::new(low, high) {
        Some(span) => Domain::of(alloc, span),
        None => Domain::of(alloc, exactly(low)),
    }
}

fn spans_of(alloc: Global, values: &[i128]) -> Result<Row<Span>, NoMemory>
    ensures { IfOk result (λ r. r ≡ map exactly values.now) }
{
    let mut row = Row::new(alloc);
    for value in values {
        row.push(exactly(*value))?;
    }
    Ok(row)
}

fn set_domain(alloc: Global, values: &[i128]) -> Result<Domain, NoMemory>
    ensures { IfOk result (λ d. d ≡ set_domain values.now) }
{
    let spans = spans_of(alloc, values)?;
    match merged_domain(alloc, spans.as_slice())? {
        Some(domain) => Ok(domain),
        None => Domain::of(alloc, exactly(0)),
    }
}

fn domain_of(alloc: Global, bound: Option<i128>, kind: &VarType) -> Result<Domain, NoMemory>
    requires { IsBound bound }
    ensures { IfOk result (λ d. d ≡ domain_of bound kind.now) }
{
    match kind {
        VarType::Bool => range_domain(alloc, 0, 1),
        VarType::Int => bound_domain(alloc, bound),
        VarType::Range(low, high) => {
            range_domain(alloc, int_of(low.as_slice()), int_of(high.as_slice()))
        }
        VarType::Set(digits) => {
            let values = ints_of(alloc, digits.as_slice())?;
            set_domain(alloc, values.as_slice())
        }
    }
}

fn value_known(names: &Names, value: &Option<Expr>) -> bool
    ensures { result ≡ value_known names.now value.now }
{
    match value {
        Some(expr) => is_known(names, expr),
        None => true,
    }
}

fn value_fits(names: &Names, kind: Kind, value: &Option<Expr>) -> bool
    ensures { result ≡ value_fits names.now kind value.now }
{
    match value {
        Some(expr) => fits(names, kind, expr),
        None => true,
    }
}

fn value_small(value: &Option<Expr>) -> bool
    ensures { result ≡ value_small value.now }
{
    match value {
        Some(expr) => are_small(expr),
        None => true,
    }
}

fn value_reaches(names: &Names, kind: Kind, value: &Option<Expr>) -> bool
    ensures { result ≡ value_reaches names.now kind value.now }
{
    match value {
        Some(expr) => reaches(names, kind, expr),
        None => true,
    }
}

/// What a variable meets.
pub fn var_meets(
    bound: Option<i128>,
    progress: &Progress,
    kind: &VarType,
    name: &[u8],
    notes: &[Note],
    value: &Option<Expr>,
) -> Meets
    ensures { result ≡ var_meets bound progress.now kind.now name.now notes.now value.now }
{
    let names = &progress.names;
    let asked = var_kind(kind);
    Meets {
        known: true,
        naming: is_new(progress, name) && value_known(names, value),
        kinds: value_fits(names, asked, value),
        magnitude: type_small(kind) && (notes_small(notes) && value_small(value)),
        shape: has_member(kind) && value_reaches(names, asked, value),
        counting: progress.vars.len() < MOST_VARIABLES && type_leaves(kind) <= progress.room,
        bounded: is_bounded(bound, kind),
    }
}

fn var_meaning(kind: &VarType, number: u64) -> Meaning
    ensures { result ≡ var_meaning kind.now number }
{
    if is_bool(kind) {
        Meaning::One(Single::BoolVar(number))
    } else {
        Meaning::One(Single::IntVar(number))
    }
}

fn value_arg(
    alloc: Global,
    names: &Names,
    kind: Kind,
    value: &Option<Expr>,
) -> Result<Option<Arg>, NoMemory>
    ensures { IfOk result (λ r. r ≡ value_arg names.now kind value.now) }
{
    match value {
        Some(expr) => {
            let arg = arg_in(alloc, names, kind, expr)?;
            Ok(Some(arg))
        }
        None => Ok(None),
    }
}

fn var_of(
    alloc: Global,
    bound: Option<i128>,
    progress: &Progress,
    kind: &VarType,
    name: &[u8],
    notes: &[Note],
    value: &Option<Expr>,
) -> Result<FzVar, NoMemory>
    requires { IsBound bound }
    ensures { IfOk result (λ v. v ≡ var_of bound progress.now kind.now name.now notes.now value.now) }
{
    let mut text = Row::new(alloc);
    text.extend(name)?;
    let domain = domain_of(alloc, bound, kind)?;
    let equal = value_arg(alloc, &progress.names, var_kind(kind), value)?;
    Ok(FzVar {
        name: text,
        boolean: is_bool(kind),
        domain,
        equal,
        shown: is_shown(notes),
    })
}

/// Declares a variable.
pub fn declare_var(
    alloc: Global,
    bound: Option<i128>,
    progress: &mut Progress,
    kind: &VarType,
    name: &[u8],
    notes: &[Note],
    value: &Option<Expr>,
) -> Result<(), NoMemory>
    requires new { look_up progress.old.names name.now ≡ None }
    requires bound { IsBound bound }
    ensures { OnOk result (progress.new ≡ var_behind bound progress.old kind.now name.now notes.now value.now) }
{
    let var = var_of(alloc, bound, progress, kind, name, notes, value)?;
    let meaning = var_meaning(kind, progress.vars.len() as u64);
    add_name(alloc, progress, name, meaning, type_leaves(kind))?;
    add_var(progress, var)
}
