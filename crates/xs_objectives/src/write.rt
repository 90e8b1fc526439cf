//! How objectives are written.

ghost use Rattle.std.specs.Prelude.{◌≡◌, ◌<◌, ◌++◌, ◌∷◌, [], codes, length, map, IfOk, OnOk};
ghost use Rattle.std.specs.Fmt.{signed_decimal};
ghost use Rattle.std.specs.List.{AllByRecursion, flat_map};
ghost use Rattle.xs_expr.specs.Text.{written};
ghost use Rattle.xs_model.specs.Bounds.{HasVariables};
ghost use Rattle.xs_model.specs.Fields.{body_fields, item_of};
ghost use Rattle.xs_model.specs.Formed.{AreFormed, IsFormedItem};
ghost use Rattle.xs_model.specs.Names.{words};
ghost use Rattle.xs_model.specs.Sound.{IsSoundDecl};
ghost use Rattle.xs_objectives.specs.Written.{body_text, closing, name_of, objective_text, opening, spaced, term_word, terms_text, type_text, type_words, vars_text};

use itoa::Buffer;
use std::alloc::Global;
use xf_num::NoMemory;
use xs_expr::write_expr;
use xs_model::{Body, Decls, Direction, Expr, Objective, Term, word};

fn write_int(value: i128, out: &mut Vec<u8>) -> Result<(), NoMemory>
    ensures { OnOk result (out.new.items ≡ out.old.items ++ signed_decimal value) }
{
    let mut buffer = Buffer::new();
    out.extend_from_slice(buffer.format(value).as_bytes())?;
    Ok(())
}

fn write_vars(alloc: Global, list: &[u32], decls: &Decls, out: &mut Vec<u8>) -> Result<(), NoMemory>
    requires sound { AllByRecursion IsSoundDecl decls.now }
    requires declared { AllByRecursion (λ v. v < length (words decls.now)) list.now }
    ensures { OnOk result (out.new.items ≡ out.old.items ++ vars_text (words decls.now) list.now) }
{
    out.extend_from_slice(b" ")?;
    for variable in list {
        let word = word(alloc, decls, *variable)?;
        out.extend_from_slice(word.as_slice())?;
        out.extend_from_slice(b" ")?;
    }
    Ok(())
}

fn write_term(alloc: Global, term: Term, decls: &Decls, out: &mut Vec<u8>) -> Result<(), NoMemory>
    requires sound { AllByRecursion IsSoundDecl decls.now }
    requires declared { IsFormedItem (length (words decls.now)) (item_of term) }
    ensures { OnOk result (out.new.items ≡ out.old.items ++ term_word (words decls.now) term) }
{
    match term {
        Term::Int(value) => write_int(value, out)?,
        Term::Var(variable) => {
            let word = word(alloc, decls, variable)?;
            out.extend_from_slice(word.as_slice())?;
        }
    }
    Ok(())
}

fn write_terms(
    alloc: Global,
    terms: &[Term],
    decls: &Decls,
    out: &mut Vec<u8>,
) -> Result<(), NoMemory>
    requires sound { AllByRecursion IsSoundDecl decls.now }
    requires declared { AllByRecursion (IsFormedItem (length (words decls.now))) (map item_of terms.now) }
    ensures { OnOk result (out.new.items ≡ out.old.items ++ terms_text (words decls.now) terms.now) }
{
    out.extend_from_slice(b" ")?;
    for term in terms {
        write_term(alloc, *term, decls, out)?;
        out.extend_from_slice(b" ")?;
    }
    Ok(())
}

fn write_value(alloc: Global, expr: &Expr, decls: &Decls, out: &mut Vec<u8>) -> Result<(), NoMemory>
    requires sound { AllByRecursion IsSoundDecl decls.now }
    requires variables { HasVariables (length (words decls.now)) expr.now }
    ensures { OnOk result (out.new.items ≡ out.old.items ++ spaced (written (words decls.now) expr.now ∷ [])) }
{
    let text = write_expr(alloc, expr, decls)?;
    out.extend_from_slice(b" ")?;
    out.extend_from_slice(text.as_slice())?;
    out.extend_from_slice(b" ")?;
    Ok(())
}

fn write_sum(
    alloc: Global,
    list: &[u32],
    coeffs: &[Term],
    decls: &Decls,
    out: &mut Vec<u8>,
) -> Result<(), NoMemory>
    requires sound { AllByRecursion IsSoundDecl decls.now }
    requires list { AllByRecursion (λ v. v < length (words decls.now)) list.now }
    requires coeffs { AllByRecursion (IsFormedItem (length (words decls.now))) (map item_of coeffs.now) }
    ensures { OnOk result (out.new.items ≡ out.old.items ++ (codes " <list>" ++ (vars_text (words decls.now) list.now ++ (codes "</list> <coeffs>" ++ (terms_text (words decls.now) coeffs.now ++ codes "</coeffs> "))))) }
{
    out.extend_from_slice(b" <list>")?;
    write_vars(alloc, list, decls, out)?;
    out.extend_from_slice(b"</list> <coeffs>")?;
    write_terms(alloc, coeffs, decls, out)?;
    out.extend_from_slice(b"</coeffs> ")?;
    Ok(())
}

fn write_body(alloc: Global, body: &Body, decls: &Decls, out: &mut Vec<u8>) -> Result<(), NoMemory>
    requires sound { AllByRecursion IsSoundDecl decls.now }
    requires formed { AreFormed (length (words decls.now)) (body_fields body.now) }
    ensures { OnOk result (out.new.items ≡ out.old.items ++ body_text (words decls.now) body.now) }
{
    match body {
        Body::Value(expr) => write_value(alloc, expr, decls, out),
        Body::Sum(list, coeffs) => write_sum(alloc, list.as_slice(), coeffs.as_slice(), decls, out),
        Body::Least(list) => write_vars(alloc, list.as_slice(), decls, out),
        Body::Greatest(list) => write_vars(alloc, list.as_slice(), decls, out),
        Body::Distinct(list) => write_vars(alloc, list.as_slice(), decls, out),
    }
}

fn name_of(direction: Direction) -> &'static [u8]
    ensures { result.now ≡ name_of direction }
{
    match direction {
        Direction::Minimize => b"minimize",
        Direction::Maximize => b"maximize",
    }
}

// The type as an attribute; an expression has none.
fn type_of(body: &Body) -> &'static [u8]
    ensures { result.now ≡ flat_map type_text (type_words body.now) }
{
    match body {
        Body::Value(_) => b"",
        Body::Sum(_, _) => b" type=\"sum\"",
        Body::Least(_) => b" type=\"minimum\"",
        Body::Greatest(_) => b" type=\"maximum\"",
        Body::Distinct(_) => b" type=\"nValues\"",
    }
}

fn write_opening(objective: &Objective, out: &mut Vec<u8>) -> Result<(), NoMemory>
    ensures { OnOk result (out.new.items ≡ out.old.items ++ opening objective.now) }
{
    out.extend_from_slice(b"<")?;
    out.extend_from_slice(name_of(objective.direction))?;
    out.extend_from_slice(type_of(&objective.body))?;
    out.extend_from_slice(b">")?;
    Ok(())
}

fn write_closing(objective: &Objective, out: &mut Vec<u8>) -> Result<(), NoMemory>
    ensures { OnOk result (out.new.items ≡ out.old.items ++ closing objective.now) }
{
    out.extend_from_slice(b"</")?;
    out.extend_from_slice(name_of(objective.direction))?;
    out.extend_from_slice(b">")?;
    Ok(())
}

/// An objective on one line: an expression or a list as its text, and a sum with its list and its coefficients as children,
/// each word of a text with a space behind it. An expression has no type.
///
/// Asks that the declarations are as those of a sound instance, and that the objective is well formed over them.
pub fn write_objective(
    alloc: Global,
    objective: &Objective,
    decls: &Decls,
) -> Result<Vec<u8>, NoMemory>
    requires sound { AllByRecursion IsSoundDecl decls.now }
    requires formed { AreFormed (length (words decls.now)) (body_fields objective.now.body) }
    ensures { IfOk result (λ text. text.items ≡ objective_text (words decls.now) objective.now) }
{
    let mut out = Vec::new(alloc);
    write_opening(objective, &mut out)?;
    write_body(alloc, &objective.body, decls, &mut out)?;
    write_closing(objective, &mut out)?;
    Ok(out)
}
