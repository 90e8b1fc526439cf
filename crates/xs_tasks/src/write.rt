//! How a `cumulative` is written.

ghost use Rattle.std.specs.Prelude.{◌≡◌, ◌<◌, ◌++◌, ◌∷◌, [], codes, length, map, true, IfOk, IfSome, OnOk};
ghost use Rattle.std.specs.Fmt.{signed_decimal};
ghost use Rattle.std.specs.List.{AllByRecursion};
ghost use Rattle.xs_model.specs.Accepted.{IsFormed};
ghost use Rattle.xs_model.specs.Fields.{cond_items, item_of};
ghost use Rattle.xs_model.specs.Formed.{IsFormedItem};
ghost use Rattle.xs_model.specs.Names.{words};
ghost use Rattle.xs_model.specs.Sound.{IsSoundDecl};
ghost use Rattle.xs_model.specs.declared.instance.Constraint.TheVariants.{Cumulative};
ghost use Rattle.xs_tasks.specs.Tested.{is_cumulative};
ghost use Rattle.xs_tasks.specs.Written.{cumulative_text, ends_text, limit_text, limit_word, term_word, terms_text, vars_text};

use itoa::Buffer;
use std::alloc::Global;
use xf_num::{NoMemory, Vars};
use xs_model::{Cond, Constraint, Decls, Term, Terms, word};

fn write_int(value: i128, out: &mut Vec<u8>) -> Result<(), NoMemory>
    ensures { OnOk result (out.new.items ≡ out.old.items ++ signed_decimal value) }
{
    let mut buffer = Buffer::new();
    out.extend_from_slice(buffer.format(value).as_bytes())?;
    Ok(())
}

fn write_vars(alloc: Global, list: &[u32], decls: &Decls, out: &mut Vec<u8>) -> Result<(), NoMemory>
    requires sound { AllByRecursion IsSoundDecl decls.now }
    requires declared { AllByRecursion (λ v. v < length (words decls.now)) list.now }
    ensures { OnOk result (out.new.items ≡ out.old.items ++ vars_text (words decls.now) list.now) }
{
    out.extend_from_slice(b" ")?;
    for variable in list {
        let word = word(alloc, decls, *variable)?;
        out.extend_from_slice(word.as_slice())?;
        out.extend_from_slice(b" ")?;
    }
    Ok(())
}

fn write_term(alloc: Global, term: Term, decls: &Decls, out: &mut Vec<u8>) -> Result<(), NoMemory>
    requires sound { AllByRecursion IsSoundDecl decls.now }
    requires declared { IsFormedItem (length (words decls.now)) (item_of term) }
    ensures { OnOk result (out.new.items ≡ out.old.items ++ term_word (words decls.now) term) }
{
    match term {
        Term::Int(value) => write_int(value, out)?,
        Term::Var(variable) => {
            let word = word(alloc, decls, variable)?;
            out.extend_from_slice(word.as_slice())?;
        }
    }
    Ok(())
}

fn write_terms(
    alloc: Global,
    terms: &[Term],
    decls: &Decls,
    out: &mut Vec<u8>,
) -> Result<(), NoMemory>
    requires sound { AllByRecursion IsSoundDecl decls.now }
    requires declared { AllByRecursion (IsFormedItem (length (words decls.now))) (map item_of terms.now) }
    ensures { OnOk result (out.new.items ≡ out.old.items ++ terms_text (words decls.now) terms.now) }
{
    out.extend_from_slice(b" ")?;
    for term in terms {
        write_term(alloc, *term, decls, out)?;
        out.extend_from_slice(b" ")?;
    }
    Ok(())
}

// A child of variables, with these tags.
fn write_list(
    alloc: Global,
    opening: &[u8],
    list: &[u32],
    closing: &[u8],
    decls: &Decls,
    out: &mut Vec<u8>,
) -> Result<(), NoMemory>
    requires sound { AllByRecursion IsSoundDecl decls.now }
    requires declared { AllByRecursion (λ v. v < length (words decls.now)) list.now }
    ensures { OnOk result (out.new.items ≡ out.old.items ++ (opening.now ++ (vars_text (words decls.now) list.now ++ closing.now))) }
{
    out.extend_from_slice(opening)?;
    write_vars(alloc, list, decls, out)?;
    out.extend_from_slice(closing)?;
    Ok(())
}

// A child of terms, with these tags.
fn write_child(
    alloc: Global,
    opening: &[u8],
    terms: &[Term],
    closing: &[u8],
    decls: &Decls,
    out: &mut Vec<u8>,
) -> Result<(), NoMemory>
    requires sound { AllByRecursion IsSoundDecl decls.now }
    requires declared { AllByRecursion (IsFormedItem (length (words decls.now))) (map item_of terms.now) }
    ensures { OnOk result (out.new.items ≡ out.old.items ++ (opening.now ++ (terms_text (words decls.now) terms.now ++ closing.now))) }
{
    out.extend_from_slice(opening)?;
    write_terms(alloc, terms, decls, out)?;
    out.extend_from_slice(closing)?;
    Ok(())
}

fn write_ends(
    alloc: Global,
    ends: &Option<Vars>,
    decls: &Decls,
    out: &mut Vec<u8>,
) -> Result<(), NoMemory>
    requires sound { AllByRecursion IsSoundDecl decls.now }
    requires declared { IfSome ends.now (λ vs. AllByRecursion (λ v. v < length (words decls.now)) vs) }
    ensures { OnOk result (out.new.items ≡ out.old.items ++ ends_text (words decls.now) ends.now) }
{
    if let Some(ends) = ends {
        write_list(alloc, b" <ends>", ends.as_slice(), b"</ends>", decls, out)?;
    }
    Ok(())
}

// An operator with its operand.
fn write_operand(
    alloc: Global,
    opening: &[u8],
    term: Term,
    decls: &Decls,
    out: &mut Vec<u8>,
) -> Result<(), NoMemory>
    requires sound { AllByRecursion IsSoundDecl decls.now }
    requires declared { IsFormedItem (length (words decls.now)) (item_of term) }
    ensures { OnOk result (out.new.items ≡ out.old.items ++ (opening.now ++ (term_word (words decls.now) term ++ codes ")"))) }
{
    out.extend_from_slice(opening)?;
    write_term(alloc, term, decls, out)?;
    out.extend_from_slice(b")")?;
    Ok(())
}

fn write_limit(alloc: Global, cond: &Cond, decls: &Decls, out: &mut Vec<u8>) -> Result<(), NoMemory>
    requires sound { AllByRecursion IsSoundDecl decls.now }
    requires declared { AllByRecursion (IsFormedItem (length (words decls.now))) (cond_items cond.now) }
    ensures { OnOk result (out.new.items ≡ out.old.items ++ limit_word (words decls.now) cond.now) }
{
    match cond {
        Cond::Lt(term) => write_operand(alloc, b"(lt,", *term, decls, out),
        Cond::Le(term) => write_operand(alloc, b"(le,", *term, decls, out),
        _ => Ok(()),
    }
}

// The last child, and the closing tag.
fn write_condition(
    alloc: Global,
    cond: &Cond,
    decls: &Decls,
    out: &mut Vec<u8>,
) -> Result<(), NoMemory>
    requires sound { AllByRecursion IsSoundDecl decls.now }
    requires declared { AllByRecursion (IsFormedItem (length (words decls.now))) (cond_items cond.now) }
    ensures { OnOk result (out.new.items ≡ out.old.items ++ (codes " <condition>" ++ (limit_text (words decls.now) cond.now ++ codes "</condition> </cumulative>"))) }
{
    out.extend_from_slice(b" <condition> ")?;
    write_limit(alloc, cond, decls, out)?;
    out.extend_from_slice(b" </condition> </cumulative>")?;
    Ok(())
}

// A child for each field.
fn write_tasks(
    alloc: Global,
    origins: &Vars,
    lengths: &Terms,
    heights: &Terms,
    ends: &Option<Vars>,
    cond: &Cond,
    decls: &Decls,
) -> Result<Vec<u8>, NoMemory>
    requires sound { AllByRecursion IsSoundDecl decls.now }
    requires formed { IsFormed (length (words decls.now)) (Cumulative origins.now lengths.now heights.now ends.now cond.now) }
    ensures { IfOk result (λ text. text.items ≡ cumulative_text (words decls.now) (Cumulative origins.now lengths.now heights.now ends.now cond.now)) }
{
    let mut out = Vec::new(alloc);
    let lengths = lengths.as_slice();
    let heights = heights.as_slice();
    write_list(
        alloc,
        b"<cumulative> <origins>",
        origins.as_slice(),
        b"</origins>",
        decls,
        &mut out,
    )?;
    write_child(
        alloc,
        b" <lengths>",
        lengths,
        b"</lengths>",
        decls,
        &mut out,
    )?;
    write_child(
        alloc,
        b" <heights>",
        heights,
        b"</heights>",
        decls,
        &mut out,
    )?;
    write_ends(alloc, ends, decls, &mut out)?;
    write_condition(alloc, cond, decls, &mut out)?;
    Ok(out)
}

/// A `cumulative` on one line: `origins`, `lengths`, `heights`, `ends` where they are given, and `condition`, each word of a
/// text with a space behind it.
///
/// Asks that the declarations are as those of a sound instance, and that the constraint is a `cumulative` of the shape of its
/// form over their variables.
pub fn write_cumulative(alloc: Global, c: &Constraint, decls: &Decls) -> Result<Vec<u8>, NoMemory>
    requires sound { AllByRecursion IsSoundDecl decls.now }
    requires form { is_cumulative c.now ≡ true }
    requires formed { IsFormed (length (words decls.now)) c.now }
    ensures { IfOk result (λ text. text.items ≡ cumulative_text (words decls.now) c.now) }
{
    match c {
        Constraint::Cumulative {
            origins,
            lengths,
            heights,
            ends,
            cond,
        } => write_tasks(alloc, origins, lengths, heights, ends, cond, decls),
        _ => Ok(Vec::new(alloc)),
    }
}
