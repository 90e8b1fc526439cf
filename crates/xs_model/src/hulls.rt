//! The bounds of variables.

ghost use Rattle.std.specs.Prelude.{◌≡◌, ◌++◌, map, IfOk, OnOk};
ghost use Rattle.xs_model.specs.Names.{defined, domains_of};
ghost use Rattle.xs_model.specs.Spans.{span_in, spans_of};

use crate::decl::Decl;
use std::alloc::Global;
use xf_num::{Domain, NoMemory, Row, Span, Spans};

/// From the least to the greatest value of a domain.
fn span_in(domain: &Domain) -> Span
    ensures { result ≡ span_in domain.now }
{
    Span::new(domain.least(), domain.greatest()).unwrap()
}

// Appends the bounds of the defined cells.
fn push_cells(cells: &[Option<Domain>], spans: &mut Spans) -> Result<(), NoMemory>
    ensures { OnOk result (spans.new ≡ spans.old ++ map span_in (defined cells.now)) }
{
    for cell in cells {
        if let Some(domain) = cell {
            spans.push(span_in(domain))?;
        }
    }
    Ok(())
}

// Appends the bounds of a declaration's variables.
fn push_spans(decl: &Decl, spans: &mut Spans) -> Result<(), NoMemory>
    ensures { OnOk result (spans.new ≡ spans.old ++ map span_in (domains_of decl.now)) }
{
    match decl {
        Decl::One { domain, .. } => spans.push(span_in(domain))?,
        Decl::Array { cells, .. } => push_cells(cells.as_slice(), spans)?,
    }
    Ok(())
}

/// The bounds of the variables of declarations, one for each variable in order: from the least to the greatest value
/// of its domain.
pub fn spans(alloc: Global, decls: &[Decl]) -> Result<Spans, NoMemory>
    ensures { IfOk result (λ spans. spans ≡ spans_of decls.now) }
{
    let mut spans = Row::new(alloc);
    for decl in decls {
        push_spans(decl, &mut spans)?;
    }
    Ok(spans)
}
