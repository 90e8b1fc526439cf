//! The unit of a `var`.

ghost use Rattle.std.specs.Prelude.{◌≡◌, ◌≤◌, codes, IfOk};
ghost use Rattle.std.specs.Option.{option_map};
ghost use Rattle.xs_fields.specs.Conditions.{first_missed};
ghost use Rattle.xs_model.specs.Outline.{outlines_of};
ghost use Rattle.xs_model.specs.Sound.{most_cells, most_items};
ghost use Rattle.xs_var.specs.Elements.{text_in, value_in};
ghost use Rattle.xs_var.specs.VarDomain.{var_domain};
ghost use Rattle.xs_var.specs.Variable.{domain_meets, var_fields_meet};
ghost use Rattle.xs_var.specs.VarUnit.{domain_for, one_decl, var_meets};

use crate::element::{attribute, one_text, text_of};
use crate::values::{judge_counts, scan_content};
use crate::var::{is_var_known, judge_as, judge_id, judge_known, judge_names};
use std::alloc::Global;
use xf_markup::Node;
use xf_num::{Domain, NoMemory, Row};
use xs_fields::{Condition, Reading, earlier};
use xs_model::{Decl, Names};

// The domain of a `var`, by its text or by the declaration that it names, and what its text misses first.
fn scan_text(
    alloc: Global,
    node: &Node,
    decls: &[Decl],
    names: &Names,
    like: Option<&[u8]>,
) -> Result<Reading<Option<Domain>>, NoMemory>
    requires { names.now ≡ outlines_of decls.now }
    ensures missed { IfOk result (λ r. r.missed ≡ first_missed (domain_meets (option_map (λ x. x.now) like.entry) (text_in node.now.pieces))) }
    ensures value { IfOk result (λ r. r.value ≡ var_domain decls.now (option_map (λ x. x.now) like.entry) (text_in node.now.pieces)) }
{
    match one_text(node.pieces.as_slice()) {
        Some(text) => {
            let reading = scan_content(alloc, decls, names, like, text)?;
            Ok(reading)
        }
        None => {
            let text = text_of(alloc, node)?;
            let reading = scan_content(alloc, decls, names, like, text.as_slice())?;
            Ok(reading)
        }
    }
}

/// The domain of a `var`, by its text or by the declaration that it names, and what its attributes, its children and its
/// text miss first. The names are those of the declarations before it.
pub fn scan_var(
    alloc: Global,
    node: &Node,
    decls: &[Decl],
    names: &Names,
) -> Result<Reading<Option<Domain>>, NoMemory>
    requires { names.now ≡ outlines_of decls.now }
    ensures missed { IfOk result (λ r. r.missed ≡ first_missed (var_fields_meet node.now)) }
    ensures value { IfOk result (λ r. r.value ≡ domain_for decls.now node.now) }
{
    let attrs = node.attrs.as_slice();
    let like = attribute(attrs, b"as");
    let text = scan_text(alloc, node, decls, names, like)?;
    let spelt = earlier(judge_as(like), text.missed);
    let named = earlier(judge_id(attribute(attrs, b"id")), spelt);
    let missed = earlier(judge_known(is_var_known(node)), named);
    Ok(Reading {
        value: text.value,
        missed,
    })
}

/// What a `var` of this domain misses first, beside the declarations before it, their names, and the cells and
/// values that are counted. It is told what its attributes, its children and its text miss first.
pub fn judge_var(
    node: &Node,
    decls: &[Decl],
    names: &Names,
    cells: u64,
    values: u64,
    fields: Option<Condition>,
    domain: Option<&Domain>,
) -> Option<Condition>
    requires names { names.now ≡ outlines_of decls.now }
    requires cells { cells ≤ most_cells }
    requires values { values ≤ most_items }
    requires fields { fields ≡ first_missed (var_fields_meet node.now) }
    requires domain { option_map (λ d. d.now) domain ≡ domain_for decls.now node.now }
    ensures { result ≡ first_missed (var_meets (record { decls = decls.now; cells = cells; values = values }) node.now) }
{
    let counts = judge_counts(cells, values, domain);
    let others = earlier(judge_names(node, names), counts);
    earlier(fields, others)
}

/// The declaration of a `var` of this domain. None where it has no name.
pub fn read_var(alloc: Global, node: &Node, domain: Domain) -> Result<Option<Decl>, NoMemory>
    ensures { IfOk result (λ decl. decl ≡ one_decl (value_in (codes "id") node.now.attrs) domain) }
{
    match attribute(node.attrs.as_slice(), b"id") {
        Some(id) => {
            let name = Row::from_slice(alloc, id)?;
            Ok(Some(Decl::One { name, domain }))
        }
        None => Ok(None),
    }
}
