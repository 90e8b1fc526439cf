//! An object that keeps what an instance is lowered to.

ghost use Rattle.std.specs.Prelude.{◌≡◌, [], length, IfOk};
ghost use Rattle.std.specs.List.{AllByRecursion};
ghost use Rattle.lo_names.specs.Shown.{shown_vars};
ghost use Rattle.xs_model.specs.Sound.{IsSoundDecl};

use lo_base::Held;
use lo_names::named_vars;
use std::alloc::Global;
use xf_num::NoMemory;
use xs_model::Instance;

/// An object that keeps its items, made with the variables of an instance, of which it has no item yet.
///
/// Asks that the declarations are sound.
pub fn held_for(alloc: Global, inst: &Instance) -> Result<Held, NoMemory>
    requires { AllByRecursion IsSoundDecl inst.now.decls }
    ensures vars { IfOk result (λ held. held.vars ≡ shown_vars inst.now.decls) }
    ensures named { IfOk result (λ held. held.named ≡ length (shown_vars inst.now.decls)) }
    ensures calls { IfOk result (λ held. held.calls ≡ []) }
{
    let vars = named_vars(alloc, inst.decls.as_slice())?;
    Ok(Held::new(alloc, vars))
}
