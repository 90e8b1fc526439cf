//! How a `noOverlap` is written.

ghost use Rattle.std.specs.Prelude.{◌≡◌, ◌<◌, ◌++◌, ◌∷◌, [], codes, length, map, OnOk};
ghost use Rattle.std.specs.Fmt.{signed_decimal};
ghost use Rattle.std.specs.List.{AllByRecursion};
ghost use Rattle.xs_boxes.specs.Tests.{AreTerms};
ghost use Rattle.xs_boxes.specs.Written.{closed, is_flat, length_word, lengths_text, no_overlap_text, opened, opening, origin_word, origins_text, term_word, word_at};
ghost use Rattle.xs_expr.specs.Text.{joined_from};
ghost use Rattle.xs_model.specs.Fields.{item_of};
ghost use Rattle.xs_model.specs.Formed.{IsFormedItem};
ghost use Rattle.xs_model.specs.Names.{words};
ghost use Rattle.xs_model.specs.Sound.{IsSoundDecl};
ghost use Rattle.xs_testing.specs.Rows.{AreBelow};

use itoa::Buffer;
use std::alloc::Global;
use xf_num::{NoMemory, Vars};
use xs_model::{Decls, Term, Terms, word};

fn write_int(value: i128, out: &mut Vec<u8>) -> Result<(), NoMemory>
    ensures { OnOk result (out.new.items ≡ out.old.items ++ signed_decimal value) }
{
    let mut buffer = Buffer::new();
    out.extend_from_slice(buffer.format(value).as_bytes())?;
    Ok(())
}

fn write_variable(
    alloc: Global,
    variable: u32,
    decls: &Decls,
    out: &mut Vec<u8>,
) -> Result<(), NoMemory>
    requires sound { AllByRecursion IsSoundDecl decls.now }
    requires declared { variable < length (words decls.now) }
    ensures { OnOk result (out.new.items ≡ out.old.items ++ word_at (words decls.now) variable) }
{
    let word = word(alloc, decls, variable)?;
    out.extend_from_slice(word.as_slice())?;
    Ok(())
}

fn write_term(alloc: Global, term: Term, decls: &Decls, out: &mut Vec<u8>) -> Result<(), NoMemory>
    requires sound { AllByRecursion IsSoundDecl decls.now }
    requires declared { IsFormedItem (length (words decls.now)) (item_of term) }
    ensures { OnOk result (out.new.items ≡ out.old.items ++ term_word (words decls.now) term) }
{
    match term {
        Term::Int(value) => write_int(value, out),
        Term::Var(variable) => write_variable(alloc, variable, decls, out),
    }
}

// Variables with commas between them.
fn write_variables(
    alloc: Global,
    variables: &[u32],
    decls: &Decls,
    out: &mut Vec<u8>,
) -> Result<(), NoMemory>
    requires sound { AllByRecursion IsSoundDecl decls.now }
    requires declared { AreBelow (length (words decls.now)) variables.now }
    ensures { OnOk result (out.new.items ≡ out.old.items ++ joined_from [] (map (word_at (words decls.now)) variables.now)) }
{
    let mut before: &[u8] = b"";
    for variable in variables {
        out.extend_from_slice(before)?;
        write_variable(alloc, *variable, decls, out)?;
        before = b",";
    }
    Ok(())
}

// Terms with commas between them.
fn write_terms(
    alloc: Global,
    terms: &[Term],
    decls: &Decls,
    out: &mut Vec<u8>,
) -> Result<(), NoMemory>
    requires sound { AllByRecursion IsSoundDecl decls.now }
    requires declared { AreTerms (length (words decls.now)) terms.now }
    ensures { OnOk result (out.new.items ≡ out.old.items ++ joined_from [] (map (term_word (words decls.now)) terms.now)) }
{
    let mut before: &[u8] = b"";
    for term in terms {
        out.extend_from_slice(before)?;
        write_term(alloc, *term, decls, out)?;
        before = b",";
    }
    Ok(())
}

fn opened(flat: bool) -> &'static [u8]
    ensures { result.now ≡ opened flat }
{
    if flat { b"" } else { b"(" }
}

fn closed(flat: bool) -> &'static [u8]
    ensures { result.now ≡ closed flat }
{
    if flat { b"" } else { b")" }
}

fn write_origin(
    alloc: Global,
    origin: &[u32],
    flat: bool,
    decls: &Decls,
    out: &mut Vec<u8>,
) -> Result<(), NoMemory>
    requires sound { AllByRecursion IsSoundDecl decls.now }
    requires declared { AreBelow (length (words decls.now)) origin.now }
    ensures { OnOk result (out.new.items ≡ out.old.items ++ origin_word (words decls.now) flat origin.now) }
{
    out.extend_from_slice(opened(flat))?;
    write_variables(alloc, origin, decls, out)?;
    out.extend_from_slice(closed(flat))?;
    Ok(())
}

fn write_length(
    alloc: Global,
    terms: &[Term],
    flat: bool,
    decls: &Decls,
    out: &mut Vec<u8>,
) -> Result<(), NoMemory>
    requires sound { AllByRecursion IsSoundDecl decls.now }
    requires declared { AreTerms (length (words decls.now)) terms.now }
    ensures { OnOk result (out.new.items ≡ out.old.items ++ length_word (words decls.now) flat terms.now) }
{
    out.extend_from_slice(opened(flat))?;
    write_terms(alloc, terms, decls, out)?;
    out.extend_from_slice(closed(flat))?;
    Ok(())
}

// Whether boxes have one dimension, or there is none.
fn is_flat(origins: &[Vars]) -> bool
    ensures { result ≡ is_flat origins.now }
{
    match origins.split_first() {
        Some((origin, _)) => origin.len() <= 1,
        None => true,
    }
}

// The same of lengths.
fn is_each_flat(lengths: &[Terms]) -> bool
    ensures { result ≡ is_flat lengths.now }
{
    match lengths.split_first() {
        Some((length, _)) => length.len() <= 1,
        None => true,
    }
}

fn write_origins(
    alloc: Global,
    origins: &[Vars],
    decls: &Decls,
    out: &mut Vec<u8>,
) -> Result<(), NoMemory>
    requires sound { AllByRecursion IsSoundDecl decls.now }
    requires declared { AllByRecursion (AreBelow (length (words decls.now))) origins.now }
    ensures { OnOk result (out.new.items ≡ out.old.items ++ origins_text (words decls.now) origins.now) }
{
    let flat = is_flat(origins);
    out.extend_from_slice(b" ")?;
    for origin in origins {
        write_origin(alloc, origin.as_slice(), flat, decls, out)?;
        out.extend_from_slice(b" ")?;
    }
    Ok(())
}

fn write_lengths(
    alloc: Global,
    lengths: &[Terms],
    decls: &Decls,
    out: &mut Vec<u8>,
) -> Result<(), NoMemory>
    requires sound { AllByRecursion IsSoundDecl decls.now }
    requires declared { AllByRecursion (AreTerms (length (words decls.now))) lengths.now }
    ensures { OnOk result (out.new.items ≡ out.old.items ++ lengths_text (words decls.now) lengths.now) }
{
    let flat = is_each_flat(lengths);
    out.extend_from_slice(b" ")?;
    for length in lengths {
        write_length(alloc, length.as_slice(), flat, decls, out)?;
        out.extend_from_slice(b" ")?;
    }
    Ok(())
}

// The start of the line, up to the text of the origins.
fn opening(zero_ignored: bool) -> &'static [u8]
    ensures { result.now ≡ opening zero_ignored }
{
    if zero_ignored {
        b"<noOverlap> <origins>"
    } else {
        b"<noOverlap zeroIgnored=\"false\"> <origins>"
    }
}

/// Appends a `noOverlap` as one line: its origins and its lengths, a word for each box with a space behind it, which is a tuple
/// where boxes have more than one dimension. That zeros are ignored is not written.
///
/// Asks that the declarations are as those of a sound instance, and that variables are declared and integers small.
pub fn write_no_overlap(
    alloc: Global,
    origins: &[Vars],
    lengths: &[Terms],
    zero_ignored: bool,
    decls: &Decls,
    out: &mut Vec<u8>,
) -> Result<(), NoMemory>
    requires sound { AllByRecursion IsSoundDecl decls.now }
    requires origins { AllByRecursion (AreBelow (length (words decls.now))) origins.now }
    requires lengths { AllByRecursion (AreTerms (length (words decls.now))) lengths.now }
    ensures { OnOk result (out.new.items ≡ out.old.items ++ no_overlap_text (words decls.now) origins.now lengths.now zero_ignored) }
{
    out.extend_from_slice(opening(zero_ignored))?;
    write_origins(alloc, origins, decls, out)?;
    out.extend_from_slice(b"</origins> <lengths>")?;
    write_lengths(alloc, lengths, decls, out)?;
    out.extend_from_slice(b"</lengths> </noOverlap>")?;
    Ok(())
}
