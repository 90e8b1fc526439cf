//! The unit of an `array`.

ghost use Rattle.std.specs.Prelude.{◌≡◌, ◌≤◌, ◌+◌, None, IfOk, codes};
ghost use Rattle.std.specs.List.{AllByRecursion};
ghost use Rattle.xs_fields.specs.Conditions.{first_missed};
ghost use Rattle.xs_model.specs.Outline.{outlines_of};
ghost use Rattle.xs_model.specs.Sound.{IsSoundDecl, most_cells, most_items, names_of};
ghost use Rattle.xs_array.specs.ArrayUnit.{array_fields_meet, array_unit};
ghost use Rattle.xs_array.specs.Reading.{with_content};
ghost use Rattle.xs_var.specs.Elements.{text_or_none, value_in};
ghost use Rattle.xs_var.specs.Variable.{names_meet};
ghost use Rattle.xs_array.specs.Cells.{stated_sizes};
ghost use Rattle.xs_var.specs.Taken.{IsSoundTaken, IsTaken};

use crate::cells::{Content, are_positive, cell_count, count_values, has_cell, read_content};
use crate::fields::{array_name, judge_array_fields, stated_sizes};
use std::alloc::Global;
use xf_markup::Node;
use xf_num::{Ints, MAX_ITEMS, MAX_VARIABLES, NoMemory};
use xs_fields::{Condition, earlier};
use xs_model::{Decl, Names};
use xs_var::{Counted, judge_names};

/// The declaration of an `array` with its `domain` children, or the first condition that it misses, beside the
/// declarations before it, their names, and the cells and values that are counted.
pub fn read_array(
    alloc: Global,
    node: &Node,
    decls: &[Decl],
    names: &Names,
    cells: u64,
    values: u64,
) -> Result<Result<Counted, Condition>, NoMemory>
    requires names { names.now ≡ outlines_of decls.now }
    requires decls { AllByRecursion IsSoundDecl decls.now }
    requires cells { cells ≤ most_cells }
    requires values { values ≤ most_items }
    ensures value { IfOk result (λ r. IsTaken (record { decls = decls.now; cells = cells; values = values }) (array_unit node.now) r) }
    ensures sound { IfOk result (λ r. IfOk r (λ c. IsSoundTaken (record { decls = decls.now; cells = cells; values = values }) c)) }
{
    let sizes = stated_sizes(alloc, node)?;
    let fields = judge_array_fields(alloc, node, sizes.as_slice())?;
    match earlier(fields, judge_names(node, names)) {
        Some(missed) => Ok(Err(missed)),
        None => read_cells(alloc, node, decls, names, cells, values, sizes),
    }
}

// The same of an array whose element and names miss nothing. Its sizes are told.
fn read_cells(
    alloc: Global,
    node: &Node,
    decls: &[Decl],
    names: &Names,
    cells: u64,
    values: u64,
    sizes: Ints,
) -> Result<Result<Counted, Condition>, NoMemory>
    requires names { names.now ≡ outlines_of decls.now }
    requires decls { AllByRecursion IsSoundDecl decls.now }
    requires cells { cells ≤ most_cells }
    requires values { values ≤ most_items }
    requires fields { first_missed (array_fields_meet node.now) ≡ None }
    requires named { first_missed (names_meet (names_of decls.now) node.now) ≡ None }
    requires sizes { sizes ≡ stated_sizes node.now }
    ensures value { IfOk result (λ r. IsTaken (record { decls = decls.now; cells = cells; values = values }) (array_unit node.now) r) }
    ensures sound { IfOk result (λ r. IfOk r (λ c. IsSoundTaken (record { decls = decls.now; cells = cells; values = values }) c)) }
{
    if !are_positive(sizes.as_slice()) {
        return Ok(Err(Condition::Fitting));
    }
    match cell_count(sizes.as_slice()) {
        Some(count) => {
            if cells + count > MAX_VARIABLES {
                return Ok(Err(Condition::Counting));
            }
            let content = read_content(alloc, node, decls, names, sizes.as_slice(), count)?;
            declared(alloc, node, content, cells + count, values, sizes)
        }
        None => Ok(Err(Condition::Counting)),
    }
}

// The declaration of an array of these cells, which are counted.
fn declared(
    alloc: Global,
    node: &Node,
    content: Content,
    cells: u64,
    values: u64,
    sizes: Ints,
) -> Result<Result<Counted, Condition>, NoMemory>
    requires { values ≤ most_items }
    ensures { IfOk result (λ r. r ≡ with_content (text_or_none (value_in (codes "id") node.now.attrs)) sizes content.cells content.full cells values) }
{
    let full = content.full;
    match content.cells {
        Some(items) => match count_values(items.as_slice(), MAX_ITEMS - values) {
            Some(more) => {
                if !full || !has_cell(items.as_slice()) {
                    return Ok(Err(Condition::Fitting));
                }
                let name = array_name(alloc, node)?;
                let decl = Decl::Array {
                    name,
                    sizes,
                    cells: items,
                };
                Ok(Ok(Counted {
                    decl,
                    cells,
                    values: values + more,
                }))
            }
            None => Ok(Err(Condition::Counting)),
        },
        None => Ok(Err(Condition::Fitting)),
    }
}
