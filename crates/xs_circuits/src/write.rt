//! How a `circuit` is written.

ghost use Rattle.std.specs.Prelude.{◌≡◌, ◌<◌, ◌++◌, ◌∷◌, [], codes, length, pos, IfOk, OnOk};
ghost use Rattle.std.specs.Fmt.{signed_decimal};
ghost use Rattle.std.specs.List.{AllByRecursion};
ghost use Rattle.std.specs.Ordering.{int_eq};
ghost use Rattle.xs_circuits.specs.Written.{body_text, children_text, circuit_text, is_plain, size_text, start_text, term_text, term_word, vars_text};
ghost use Rattle.xs_model.specs.Accepted.{IsFormed};
ghost use Rattle.xs_model.specs.Fields.{item_of, optional, term};
ghost use Rattle.xs_model.specs.Formed.{AreFormed, IsFormedItem};
ghost use Rattle.xs_model.specs.Names.{words};
ghost use Rattle.xs_model.specs.Sound.{IsSoundDecl};
ghost use Rattle.xs_model.specs.declared.instance.Constraint.TheVariants.{Circuit};
ghost use Rattle.xs_testing.specs.Rows.{AreBelow};

use itoa::Buffer;
use std::alloc::Global;
use xf_num::NoMemory;
use xs_model::{Decls, Term, word};

fn write_int(value: &i128, out: &mut Vec<u8>) -> Result<(), NoMemory>
    ensures { OnOk result (out.new.items ≡ out.old.items ++ signed_decimal value.now) }
{
    let mut buffer = Buffer::new();
    out.extend_from_slice(buffer.format(*value).as_bytes())?;
    Ok(())
}

fn write_vars(alloc: Global, list: &[u32], decls: &Decls, out: &mut Vec<u8>) -> Result<(), NoMemory>
    requires sound { AllByRecursion IsSoundDecl decls.now }
    requires declared { AreBelow (length (words decls.now)) list.now }
    ensures { OnOk result (out.new.items ≡ out.old.items ++ vars_text (words decls.now) list.now) }
{
    out.extend_from_slice(b" ")?;
    for variable in list {
        let word = word(alloc, decls, *variable)?;
        out.extend_from_slice(word.as_slice())?;
        out.extend_from_slice(b" ")?;
    }
    Ok(())
}

fn write_term(alloc: Global, term: &Term, decls: &Decls, out: &mut Vec<u8>) -> Result<(), NoMemory>
    requires sound { AllByRecursion IsSoundDecl decls.now }
    requires declared { IsFormedItem (length (words decls.now)) (item_of term.now) }
    ensures { OnOk result (out.new.items ≡ out.old.items ++ term_word (words decls.now) term.now) }
{
    match term {
        Term::Int(value) => write_int(value, out)?,
        Term::Var(variable) => {
            let word = word(alloc, decls, *variable)?;
            out.extend_from_slice(word.as_slice())?;
        }
    }
    Ok(())
}

fn is_zero(start: &i128) -> bool
    ensures { result ≡ int_eq start.now (pos 0) }
{
    *start == 0
}

// The start as an attribute; 0 is none.
fn write_start(start: &i128, out: &mut Vec<u8>) -> Result<(), NoMemory>
    ensures { OnOk result (out.new.items ≡ out.old.items ++ start_text start.now) }
{
    if !is_zero(start) {
        out.extend_from_slice(b" startIndex=\"")?;
        write_int(start, out)?;
        out.extend_from_slice(b"\"")?;
    }
    Ok(())
}

// The size as a child, with a space behind it.
fn write_size(
    alloc: Global,
    size: &Option<Term>,
    decls: &Decls,
    out: &mut Vec<u8>,
) -> Result<(), NoMemory>
    requires sound { AllByRecursion IsSoundDecl decls.now }
    requires declared { AreFormed (length (words decls.now)) (optional term size.now) }
    ensures { OnOk result (out.new.items ≡ out.old.items ++ size_text (words decls.now) size.now) }
{
    if let Some(term) = size {
        out.extend_from_slice(b"<size> ")?;
        write_term(alloc, term, decls, out)?;
        out.extend_from_slice(b" </size> ")?;
    }
    Ok(())
}

fn write_children(
    alloc: Global,
    list: &[u32],
    start: &i128,
    size: &Option<Term>,
    decls: &Decls,
    out: &mut Vec<u8>,
) -> Result<(), NoMemory>
    requires sound { AllByRecursion IsSoundDecl decls.now }
    requires declared { AreBelow (length (words decls.now)) list.now }
    requires size { AreFormed (length (words decls.now)) (optional term size.now) }
    ensures { OnOk result (out.new.items ≡ out.old.items ++ children_text (words decls.now) list.now start.now size.now) }
{
    out.extend_from_slice(b" <list")?;
    write_start(start, out)?;
    out.extend_from_slice(b">")?;
    write_vars(alloc, list, decls, out)?;
    out.extend_from_slice(b"</list> ")?;
    write_size(alloc, size, decls, out)?;
    Ok(())
}

// Whether there is neither a size nor a start other than 0.
fn is_plain(start: &i128, size: &Option<Term>) -> bool
    ensures { result ≡ is_plain start.now size.now }
{
    match size {
        None => is_zero(start),
        Some(_) => false,
    }
}

fn write_body(
    alloc: Global,
    list: &[u32],
    start: &i128,
    size: &Option<Term>,
    decls: &Decls,
    out: &mut Vec<u8>,
) -> Result<(), NoMemory>
    requires sound { AllByRecursion IsSoundDecl decls.now }
    requires declared { AreBelow (length (words decls.now)) list.now }
    requires size { AreFormed (length (words decls.now)) (optional term size.now) }
    ensures { OnOk result (out.new.items ≡ out.old.items ++ body_text (words decls.now) list.now start.now size.now) }
{
    if is_plain(start, size) {
        write_vars(alloc, list, decls, out)
    } else {
        write_children(alloc, list, start, size, decls, out)
    }
}

/// A circuit on one line: with its list as the text where its start is 0 and no size is given, else with children, and with
/// its start where that is not 0.
///
/// Asks that the declarations are as those of a sound instance, and that the circuit is well formed over them.
pub fn write_circuit(
    alloc: Global,
    list: &[u32],
    start: &i128,
    size: &Option<Term>,
    decls: &Decls,
) -> Result<Vec<u8>, NoMemory>
    requires sound { AllByRecursion IsSoundDecl decls.now }
    requires formed { IsFormed (length (words decls.now)) (Circuit list.now start.now size.now) }
    ensures { IfOk result (λ text. text.items ≡ circuit_text (words decls.now) list.now start.now size.now) }
{
    let mut out = Vec::new(alloc);
    out.extend_from_slice(b"<circuit>")?;
    write_body(alloc, list, start, size, decls, &mut out)?;
    out.extend_from_slice(b"</circuit>")?;
    Ok(out)
}
