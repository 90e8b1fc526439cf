//! How constraints are written, and the tables of an `extension`.

ghost use Rattle.std.specs.Prelude.{◌≡◌, ◌<◌, ◌++◌, ◌∷◌, [], codes, true, length, map, slice_index_or, IfOk, OnOk};
ghost use Rattle.std.specs.Fmt.{signed_decimal};
ghost use Rattle.std.specs.List.{AllByRecursion};
ghost use Rattle.xs_expr.specs.Text.{joined_from};
ghost use Rattle.xs_language.specs.Language.{is_language};
ghost use Rattle.xs_language.specs.Written.{closing, element_of, element_text, entry_text, extension_element, list_text, opening, range_text, ranges_text, tuple_text, tuples_text};
ghost use Rattle.xs_model.specs.Accepted.{IsFormed};
ghost use Rattle.xs_model.specs.Names.{words};
ghost use Rattle.xs_model.specs.Sound.{IsSoundDecl};

use crate::automata::{write_automaton, write_diagram};
use itoa::Buffer;
use std::alloc::Global;
use xf_num::{NoMemory, Span};
use xs_model::{Constraint, Decls, Tuple, word};

pub(crate) fn write_int(value: i128, out: &mut Vec<u8>) -> Result<(), NoMemory>
    ensures { OnOk result (out.new.items ≡ out.old.items ++ signed_decimal value) }
{
    let mut buffer = Buffer::new();
    out.extend_from_slice(buffer.format(value).as_bytes())?;
    Ok(())
}

fn write_entry(entry: Option<i128>, out: &mut Vec<u8>) -> Result<(), NoMemory>
    ensures { OnOk result (out.new.items ≡ out.old.items ++ entry_text entry) }
{
    match entry {
        None => out.extend_from_slice(b"*")?,
        Some(value) => write_int(value, out)?,
    }
    Ok(())
}

fn write_entries(tuple: &[Option<i128>], out: &mut Vec<u8>) -> Result<(), NoMemory>
    ensures { OnOk result (out.new.items ≡ out.old.items ++ joined_from [] (map entry_text tuple.now)) }
{
    let mut before: &[u8] = b"";
    for entry in tuple {
        out.extend_from_slice(before)?;
        write_entry(*entry, out)?;
        before = b",";
    }
    Ok(())
}

fn write_tuple(tuple: &[Option<i128>], out: &mut Vec<u8>) -> Result<(), NoMemory>
    ensures { OnOk result (out.new.items ≡ out.old.items ++ tuple_text tuple.now) }
{
    out.extend_from_slice(b"(")?;
    write_entries(tuple, out)?;
    out.extend_from_slice(b")")?;
    Ok(())
}

fn write_tuples(tuples: &[Tuple], out: &mut Vec<u8>) -> Result<(), NoMemory>
    ensures { OnOk result (out.new.items ≡ out.old.items ++ tuples_text tuples.now) }
{
    out.extend_from_slice(b" ")?;
    for tuple in tuples {
        write_tuple(tuple.as_slice(), out)?;
        out.extend_from_slice(b" ")?;
    }
    Ok(())
}

fn write_range(span: Span, out: &mut Vec<u8>) -> Result<(), NoMemory>
    ensures { OnOk result (out.new.items ≡ out.old.items ++ range_text span) }
{
    write_int(span.lo(), out)?;
    if span.lo() != span.hi() {
        out.extend_from_slice(b"..")?;
        write_int(span.hi(), out)?;
    }
    Ok(())
}

fn write_ranges(spans: &[Span], out: &mut Vec<u8>) -> Result<(), NoMemory>
    ensures { OnOk result (out.new.items ≡ out.old.items ++ ranges_text spans.now) }
{
    out.extend_from_slice(b" ")?;
    for span in spans {
        write_range(*span, out)?;
        out.extend_from_slice(b" ")?;
    }
    Ok(())
}

pub(crate) fn write_list(
    alloc: Global,
    list: &[u32],
    decls: &Decls,
    out: &mut Vec<u8>,
) -> Result<(), NoMemory>
    requires sound { AllByRecursion IsSoundDecl decls.now }
    requires declared { AllByRecursion (λ v. v < length (words decls.now)) list.now }
    ensures { OnOk result (out.new.items ≡ out.old.items ++ list_text (words decls.now) list.now) }
{
    out.extend_from_slice(b" ")?;
    for variable in list {
        let word = word(alloc, decls, *variable)?;
        out.extend_from_slice(word.as_slice())?;
        out.extend_from_slice(b" ")?;
    }
    Ok(())
}

fn opening(positive: bool) -> &'static [u8]
    ensures { result.now ≡ opening positive }
{
    if positive {
        b"</list> <supports>"
    } else {
        b"</list> <conflicts>"
    }
}

fn closing(positive: bool) -> &'static [u8]
    ensures { result.now ≡ closing positive }
{
    if positive {
        b"</supports> </extension>"
    } else {
        b"</conflicts> </extension>"
    }
}

fn write_head(
    alloc: Global,
    list: &[u32],
    positive: bool,
    decls: &Decls,
    out: &mut Vec<u8>,
) -> Result<(), NoMemory>
    requires sound { AllByRecursion IsSoundDecl decls.now }
    requires declared { AllByRecursion (λ v. v < length (words decls.now)) list.now }
    ensures { OnOk result (out.new.items ≡ out.old.items ++ (codes "<extension> <list>" ++ (list_text (words decls.now) list.now ++ opening positive))) }
{
    out.extend_from_slice(b"<extension> <list>")?;
    write_list(alloc, list, decls, out)?;
    out.extend_from_slice(opening(positive))?;
    Ok(())
}

fn write_table(
    alloc: Global,
    list: &[u32],
    tuples: &[Tuple],
    positive: bool,
    decls: &Decls,
) -> Result<Vec<u8>, NoMemory>
    requires sound { AllByRecursion IsSoundDecl decls.now }
    requires declared { AllByRecursion (λ v. v < length (words decls.now)) list.now }
    ensures { IfOk result (λ text. text.items ≡ element_text (extension_element positive (list_text (words decls.now) list.now) (tuples_text tuples.now))) }
{
    let mut out = Vec::new(alloc);
    write_head(alloc, list, positive, decls, &mut out)?;
    write_tuples(tuples, &mut out)?;
    out.extend_from_slice(closing(positive))?;
    Ok(out)
}

fn write_unary(
    alloc: Global,
    variable: u32,
    spans: &[Span],
    positive: bool,
    decls: &Decls,
) -> Result<Vec<u8>, NoMemory>
    requires sound { AllByRecursion IsSoundDecl decls.now }
    requires declared { variable < length (words decls.now) }
    ensures { IfOk result (λ text. text.items ≡ element_text (extension_element positive (list_text (words decls.now) (variable ∷ [])) (ranges_text spans.now))) }
{
    let mut out = Vec::new(alloc);
    write_head(alloc, &[variable], positive, decls, &mut out)?;
    write_ranges(spans, &mut out)?;
    out.extend_from_slice(closing(positive))?;
    Ok(out)
}

/// A constraint on one line: its list and what is said of it, each word of a text with a space behind it. A range of one
/// integer is written as that, and a state by its number.
///
/// Asks that the constraint is of a form that is written here and of the shape of its form, and that the declarations are
/// as those of a sound instance.
pub fn write_form(alloc: Global, c: &Constraint, decls: &Decls) -> Result<Vec<u8>, NoMemory>
    requires form { is_language c.now ≡ true }
    requires sound { AllByRecursion IsSoundDecl decls.now }
    requires formed { IsFormed (length (words decls.now)) c.now }
    ensures { IfOk result (λ text. text.items ≡ element_text (element_of (words decls.now) c.now)) }
{
    match c {
        Constraint::Extension {
            list,
            tuples,
            positive,
        } => write_table(alloc, list.as_slice(), tuples.as_slice(), *positive, decls),
        Constraint::Unary {
            var,
            spans,
            positive,
        } => write_unary(alloc, *var, spans.as_slice(), *positive, decls),
        Constraint::Regular {
            list,
            edges,
            start,
            finals,
        } => write_automaton(
            alloc,
            list.as_slice(),
            edges.as_slice(),
            *start,
            finals.as_slice(),
            decls,
        ),
        Constraint::Mdd { list, edges, .. } => {
            write_diagram(alloc, list.as_slice(), edges.as_slice(), decls)
        }
        _ => Ok(Vec::new(alloc)),
    }
}
