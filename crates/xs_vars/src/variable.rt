//! The unit of a `var`, whole.

ghost use Rattle.std.specs.Prelude.{◌≡◌, ◌+◌, ◌<◌, ◌≤◌, codes, IfOk, IfSome};
ghost use Rattle.std.specs.List.{AllByRecursion};
ghost use Rattle.xf_num.specs.Domain.{IsDomain};
ghost use Rattle.xs_model.specs.Outline.{outlines_of};
ghost use Rattle.xs_model.specs.Sound.{IsSoundDecl, most_cells, most_items};
ghost use Rattle.xs_var.specs.Elements.{value_in};
ghost use Rattle.xs_var.specs.Taken.{IsSoundTaken, IsTaken};
ghost use Rattle.xs_var.specs.VarDomain.{values_in};
ghost use Rattle.xs_var.specs.VarUnit.{var_unit};
ghost use Rattle.xs_vars.specs.Kept.{counted_of, with_counts};

use std::alloc::Global;
use xf_markup::Node;
use xf_num::{Domain, MAX_ITEMS, NoMemory};
use xs_fields::Condition;
use xs_model::{Decl, Names};
use xs_var::{Counted, judge_var, read_var, scan_var, values_of};

// The declaration of a `var` of this domain, and the counts with it; else the condition that wants a domain or a name.
fn counted(
    alloc: Global,
    node: &Node,
    cells: u64,
    values: u64,
    domain: Option<Domain>,
) -> Result<Result<Counted, Condition>, NoMemory>
    requires cells { cells < most_cells }
    requires values { values + values_in domain ≤ most_items }
    ensures { IfOk result (λ r. r ≡ counted_of cells values domain (value_in (codes "id") node.now.attrs)) }
{
    match domain {
        Some(domain) => {
            let more = values_of(&domain, MAX_ITEMS - values).unwrap_or(0);
            let decl = read_var(alloc, node, domain)?;
            Ok(with_counts(decl, cells + 1, values + more))
        }
        None => Ok(Err(Condition::Fitting)),
    }
}

// A declaration with these counts, where there is one.
fn with_counts(decl: Option<Decl>, cells: u64, values: u64) -> Result<Counted, Condition>
    ensures { result ≡ with_counts decl cells values }
{
    match decl {
        Some(decl) => Ok(Counted {
            decl,
            cells,
            values,
        }),
        None => Err(Condition::Spelling),
    }
}

// The domain itself: its ranges ascend, and no two touch.
fn kept(domain: Option<Domain>) -> Option<Domain>
    ensures value { result ≡ domain }
    ensures ascends { IfSome result (λ d. IsDomain d) }
{
    match domain {
        Some(domain) => Some(domain),
        None => None,
    }
}

/// The declaration of a `var`, or the first condition that it misses, beside the declarations before it, their
/// names, and the cells and values that are counted.
pub fn read_variable(
    alloc: Global,
    node: &Node,
    decls: &[Decl],
    names: &Names,
    cells: u64,
    values: u64,
) -> Result<Result<Counted, Condition>, NoMemory>
    requires names { names.now ≡ outlines_of decls.now }
    requires decls { AllByRecursion IsSoundDecl decls.now }
    requires cells { cells ≤ most_cells }
    requires values { values ≤ most_items }
    ensures value { IfOk result (λ r. IsTaken (record { decls = decls.now; cells = cells; values = values }) (var_unit node.now) r) }
    ensures sound { IfOk result (λ r. IfOk r (λ c. IsSoundTaken (record { decls = decls.now; cells = cells; values = values }) c)) }
{
    let reading = scan_var(alloc, node, decls, names)?;
    let domain = kept(reading.value);
    match judge_var(
        node,
        decls,
        names,
        cells,
        values,
        reading.missed,
        domain.as_ref(),
    ) {
        Some(condition) => Ok(Err(condition)),
        None => counted(alloc, node, cells, values, domain),
    }
}
