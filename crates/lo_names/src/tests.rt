//! Worked examples.

ghost use Rattle.std.specs.Prelude.{◌≡◌, pos, Some, None, [], ◌∷◌, IfOk};
ghost use Rattle.std.specs.List.{AllByRecursion};
ghost use Rattle.xs_model.specs.Sound.{IsSoundDecl};

use crate::named_vars;
use std::alloc::Global;
use std::test::Fail;
use xf_num::{Domain, NoMemory, Row, Span, Text};
use xs_model::{Cells, Decl, Decls};

fn text(alloc: Global, bytes: &[u8]) -> Result<Text, NoMemory>
    ensures { IfOk result (λ t. t ≡ bytes.now) }
{
    let mut text = Row::new(alloc);
    text.extend(bytes)?;
    Ok(text)
}

fn bit(alloc: Global) -> Result<Domain, NoMemory>
    ensures { IfOk result (λ d. d ≡ record { lo = pos 0; hi = pos 1 } ∷ []) }
{
    Domain::of(alloc, Span::new(0, 1).unwrap())
}

// Four cells, the second of which is undefined.
fn cells(alloc: Global) -> Result<Cells, NoMemory>
    ensures { IfOk result (λ cells. let d = record { lo = pos 0; hi = pos 1 } ∷ [] in cells ≡ Some d ∷ None ∷ Some d ∷ Some d ∷ []) }
{
    let mut cells = Row::new(alloc);
    cells.push(Some(bit(alloc)?))?;
    cells.push(None)?;
    cells.push(Some(bit(alloc)?))?;
    cells.push(Some(bit(alloc)?))?;
    Ok(cells)
}

fn one(alloc: Global) -> Result<Decl, NoMemory>
    ensures { IfOk result IsSoundDecl }
{
    let name = text(alloc, b"x_1")?;
    let domain = bit(alloc)?;
    Ok(Decl::One { name, domain })
}

fn array(alloc: Global) -> Result<Decl, NoMemory>
    ensures { IfOk result IsSoundDecl }
{
    let name = text(alloc, b"x")?;
    let mut sizes = Row::new(alloc);
    sizes.extend(&[2, 2])?;
    let cells = cells(alloc)?;
    Ok(Decl::Array { name, sizes, cells })
}

// A variable x_1, and an array x of two times two.
fn sample(alloc: Global) -> Result<Decls, NoMemory>
    ensures { IfOk result (AllByRecursion IsSoundDecl) }
{
    let mut decls = Row::new(alloc);
    decls.push(one(alloc)?)?;
    decls.push(array(alloc)?)?;
    Ok(decls)
}

#[test]
fn variables_and_cells_have_names_of_their_own(rt: HostRuntime) -> Result<(), Fail> {
    let wanted: [&[u8]; 4] = [b"v_x__1", b"v_x_0_0", b"v_x_1_0", b"v_x_1_1"];
    let decls = sample(rt.alloc())?;
    let vars = named_vars(rt.alloc(), decls.as_slice())?;
    assert_eq!(rt; vars.len(), 4);
    for (var, name) in vars.as_slice().iter().zip(wanted.iter()) {
        assert_eq!(rt; var.name.as_slice(), *name);
        assert_eq!(rt; (var.boolean, var.shown), (false, true));
        assert_eq!(rt; (var.domain.least(), var.domain.greatest()), (0, 1));
    }
    Ok(())
}
