//! Arguments of calls as text.

ghost use Rattle.std.specs.Prelude.{◌≡◌, ◌++◌, map, OnOk};
ghost use Rattle.fz_file.specs.Layout.{arg_text, listed, name_at, names_of, set_text, truth_text};

use crate::number::{push_count, push_number, push_numbers, push_range};
use fz_model::{Arg, FzVar};
use xf_num::NoMemory;

/// Appends the name of variable `number`: that of the list, or past its end `a_` and how far past it.
pub fn push_name(out: &mut Vec<u8>, number: u64, named: &[FzVar]) -> Result<(), NoMemory>
    ensures { OnOk result (out.new.items ≡ out.old.items ++ name_at (names_of named.now) number) }
{
    let count = named.len() as u64;
    if number < count {
        out.extend_from_slice(named[number as usize].name.as_slice())?;
    } else {
        out.extend_from_slice(b"a_")?;
        push_count(out, number - count)?;
    }
    Ok(())
}

fn push_set(out: &mut Vec<u8>, members: &[i128]) -> Result<(), NoMemory>
    ensures { OnOk result (out.new.items ≡ out.old.items ++ set_text members.now) }
{
    out.extend_from_slice(b"{")?;
    push_numbers(out, members)?;
    out.extend_from_slice(b"}")?;
    Ok(())
}

fn push_truth(out: &mut Vec<u8>, truth: bool) -> Result<(), NoMemory>
    ensures { OnOk result (out.new.items ≡ out.old.items ++ truth_text truth) }
{
    let text: &[u8] = if truth { b"true" } else { b"false" };
    out.extend_from_slice(text)?;
    Ok(())
}

/// Appends an argument.
#[cycle(argument)]
pub fn push_arg(out: &mut Vec<u8>, arg: &Arg, named: &[FzVar]) -> Result<(), NoMemory>
    ensures { OnOk result (out.new.items ≡ out.old.items ++ arg_text (names_of named.now) arg.now) }
{
    match arg {
        Arg::Int(number) => push_number(out, *number)?,
        Arg::Bool(truth) => push_truth(out, *truth)?,
        Arg::Var(number) => push_name(out, *number, named)?,
        Arg::Range(span) => push_range(out, *span)?,
        Arg::Set(members) => push_set(out, members.as_slice())?,
        Arg::List(args) => {
            out.extend_from_slice(b"[")?;
            push_args(out, args.as_slice(), named)?;
            out.extend_from_slice(b"]")?;
        }
    }
    Ok(())
}

/// Appends arguments with commas between them.
#[cycle(argument)]
pub fn push_args(out: &mut Vec<u8>, args: &[Arg], named: &[FzVar]) -> Result<(), NoMemory>
    ensures { OnOk result (out.new.items ≡ out.old.items ++ listed (map (arg_text (names_of named.now)) args.now)) }
{
    let mut first = true;
    for arg in args {
        if !first {
            out.extend_from_slice(b",")?;
        }
        push_arg(out, arg, named)?;
        first = false;
    }
    Ok(())
}
