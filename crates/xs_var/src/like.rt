//! The domain of an earlier declaration.

ghost use Rattle.std.specs.Prelude.{◌≡◌, ◌∷◌};
ghost use Rattle.std.specs.List.{list_all};
ghost use Rattle.std.specs.Option.{option_map};
ghost use Rattle.xs_model.specs.Outline.{outlines_of};
ghost use Rattle.xs_var.specs.Like.{declaration, has_domain, is_same, is_same_range, like_domain, one_domain, single_domain};

use xf_num::{Domain, Span};
use xs_model::{Decl, Names};

fn is_same_range(a: Span, b: Span) -> bool
    ensures { result ≡ is_same_range a b }
{
    a.lo() == b.lo() && a.hi() == b.hi()
}

// Whether two lists of ranges are the same.
fn is_same(a: &[Span], b: &[Span]) -> bool
    ensures { result ≡ is_same a.now b.now }
{
    let mut rest = b;
    for range in a {
        match rest.split_first() {
            Some((first, more)) if is_same_range(*range, *first) => rest = more,
            _ => return false,
        }
    }
    rest.is_empty()
}

// Whether a cell is defined with this domain.
fn has_domain(domain: &Domain, cell: &Option<Domain>) -> bool
    ensures { result ≡ has_domain domain.now cell.now }
{
    match cell {
        Some(other) => is_same(domain.as_slice(), other.as_slice()),
        None => false,
    }
}

// Whether all cells are defined with this domain.
fn have_domain(domain: &Domain, cells: &[Option<Domain>]) -> bool
    ensures { result ≡ list_all (has_domain domain.now) cells.now }
{
    for cell in cells {
        if !has_domain(domain, cell) {
            return false;
        }
    }
    true
}

// The one domain of cells that are all defined with it.
fn one_domain(cells: &[Option<Domain>]) -> Option<&Domain>
    ensures { option_map (λ d. d.now) result ≡ one_domain cells.now }
{
    match cells.split_first() {
        Some((first, rest)) => shared(first, rest),
        None => None,
    }
}

// The domain of the first cell, where the others are defined with it.
fn shared<'a>(first: &'a Option<Domain>, rest: &[Option<Domain>]) -> Option<&'a Domain>
    ensures { option_map (λ d. d.now) result ≡ one_domain (first.now ∷ rest.now) }
{
    match first {
        Some(domain) => {
            if have_domain(domain, rest) {
                Some(domain)
            } else {
                None
            }
        }
        None => None,
    }
}

/// The domain of a variable, or of an array whose cells are all defined with one domain; else None.
pub fn single_domain(decl: &Decl) -> Option<&Domain>
    ensures { option_map (λ d. d.now) result ≡ single_domain decl.now }
{
    match decl {
        Decl::One { domain, .. } => Some(domain),
        Decl::Array { cells, .. } => one_domain(cells.as_slice()),
    }
}

// The declaration of a name. The names are those of the declarations.
fn declaration<'a>(decls: &'a [Decl], names: &Names, name: &[u8]) -> Option<&'a Decl>
    requires { names.now ≡ outlines_of decls.now }
    ensures { option_map (λ d. d.now) result ≡ declaration decls.now name.now }
{
    match names.position(name) {
        Some(at) => Some(&decls[at]),
        None => None,
    }
}

/// The domain that a variable takes by `as` from the declaration of this name. The names are those of the
/// declarations.
pub fn like_domain<'a>(decls: &'a [Decl], names: &Names, name: &[u8]) -> Option<&'a Domain>
    requires { names.now ≡ outlines_of decls.now }
    ensures { option_map (λ d. d.now) result ≡ like_domain decls.now name.now }
{
    match declaration(decls, names, name) {
        Some(decl) => single_domain(decl),
        None => None,
    }
}
