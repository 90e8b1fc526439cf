//! One declaration more.

ghost use Rattle.std.specs.Prelude.{◌≡◌, IfOk};
ghost use Rattle.xs_var.specs.Taken.{IsSoundTaken, with_decl};
ghost use Rattle.xs_vars.specs.Declarations.{declared_of};
ghost use Rattle.xs_vars.specs.Kept.{IsKept};

use crate::declarations::Declarations;
use xf_num::NoMemory;
use xs_var::Counted;

/// What is declared with one declaration more, which is sound and new.
pub fn take(known: Declarations, counted: Counted) -> Result<Declarations, NoMemory>
    requires known { IsKept known }
    requires counted { IsSoundTaken (declared_of known) counted }
    ensures value { IfOk result (λ d. declared_of d ≡ with_decl (declared_of known) counted) }
    ensures kept { IfOk result (λ d. IsKept d) }
{
    let mut names = known.names;
    let mut decls = known.decls;
    // The name is new, so the names can only fail for want of memory.
    if names.declare(&counted.decl).is_err() {
        return Err(NoMemory);
    }
    decls.push(counted.decl)?;
    Ok(Declarations {
        decls,
        names,
        cells: counted.cells,
        values: counted.values,
    })
}
