ghost use Rattle.std.specs.Prelude.{◌≡◌, ◌∷◌, [], pos, codes, true, false, None, Some, IfOk};
ghost use Rattle.xs_model.specs.Outline.{outline_of};
ghost use Rattle.xs_model.specs.declared.decl.Decl.{Decl};

use crate::{are_few, are_named, are_spelt, count_args, expand_args, is_compact, is_count};
use std::alloc::Global;
use std::test::Fail;
use xf_num::{Domain, NoMemory, Row, Span, Text};
use xs_model::{Cells, Decl, NameStop, Names};

fn text(alloc: Global, bytes: &[u8]) -> Result<Text, NoMemory>
    ensures { IfOk result (λ text. text ≡ bytes.now) }
{
    let mut text = Row::new(alloc);
    text.extend(bytes)?;
    Ok(text)
}

fn bits(alloc: Global) -> Result<Domain, NoMemory>
    ensures { IfOk result (λ domain. domain ≡ record { lo = pos 0; hi = pos 1 } ∷ []) }
{
    match Span::new(0, 1) {
        Some(span) => Domain::of(alloc, span),
        None => Err(NoMemory),
    }
}

// The variable `v`.
fn variable(alloc: Global) -> Result<Decl, NoMemory>
    ensures { IfOk result (λ d. d ≡ Decl.One (codes "v") (record { lo = pos 0; hi = pos 1 } ∷ [])) }
{
    let name = text(alloc, b"v")?;
    let domain = bits(alloc)?;
    Ok(Decl::One { name, domain })
}

fn cells(alloc: Global) -> Result<Cells, NoMemory>
    ensures { IfOk result (λ cells. cells ≡ Some (record { lo = pos 0; hi = pos 1 } ∷ []) ∷ Some (record { lo = pos 0; hi = pos 1 } ∷ []) ∷ None ∷ Some (record { lo = pos 0; hi = pos 1 } ∷ []) ∷ []) }
{
    let mut cells = Row::new(alloc);
    cells.push(Some(bits(alloc)?))?;
    cells.push(Some(bits(alloc)?))?;
    cells.push(None)?;
    cells.push(Some(bits(alloc)?))?;
    Ok(cells)
}

// The array `x` of two times two cells, of which `x[1][0]` is undefined.
fn array(alloc: Global) -> Result<Decl, NoMemory>
    ensures { IfOk result (λ d. d ≡ Decl.Array (codes "x") (pos 2 ∷ pos 2 ∷ []) (Some (record { lo = pos 0; hi = pos 1 } ∷ []) ∷ Some (record { lo = pos 0; hi = pos 1 } ∷ []) ∷ None ∷ Some (record { lo = pos 0; hi = pos 1 } ∷ []) ∷ [])) }
{
    let name = text(alloc, b"x")?;
    let cells = cells(alloc)?;
    let mut sizes = Row::new(alloc);
    sizes.extend(&[2, 2])?;
    Ok(Decl::Array { name, sizes, cells })
}

// The names of `v` and then `x`: the variable 0, and the variables 1, 2 and 3.
fn names(alloc: Global) -> Result<Names, NameStop>
    ensures { IfOk result (λ names. names ≡ outline_of (Decl.One (codes "v") (record { lo = pos 0; hi = pos 1 } ∷ [])) ∷ record { name = codes "x"; sizes = pos 2 ∷ pos 2 ∷ []; cells = true ∷ true ∷ false ∷ true ∷ [] } ∷ []) }
{
    let (Ok(v), Ok(x)) = (variable(alloc), array(alloc)) else {
        return Err(NameStop::Memory);
    };
    let mut names = Names::new(alloc);
    names.declare(&v)?;
    names.declare(&x)?;
    Ok(names)
}

// The words of a text, each before a comma.
fn joined(alloc: Global, names: &Names, text: &[u8]) -> Result<Vec<u8>, NoMemory> {
    let words = expand_args(alloc, names, text)?;
    let mut joined = Vec::new(alloc);
    for word in words.as_slice() {
        joined.extend_from_slice(word.as_slice())?;
        joined.push(b',')?;
    }
    Ok(joined)
}

#[test]
fn expands_words(rt: HostRuntime) -> Result<(), Fail> {
    let Ok(names) = names(rt.alloc()) else {
        panic!(rt; "want of memory");
    };
    let rows: [(&[u8], u64, &[u8]); 9] = [
        (b"", 0, b""),
        (b" a  (le,3) x[1][0] ", 3, b"a,(le,3),x[1][0],"),
        (b"3x2 -1x+2", 4, b"3,3,-1,-1,"),
        (b"3x0 3x-1 x2 2x 1x2x3", 5, b"3x0,3x-1,x2,2x,1x2x3,"),
        (b"x[][] v", 4, b"x[0][0],x[0][1],x[1][1],v,"),
        (b"x[0..1][0]", 1, b"x[0][0],"),
        (b"x[1][0..0]", 0, b""),
        (b"x[1..0][] %0", 2, b"x[1..0][],%0,"),
        (b"y[]", 0, b""),
    ];
    for (text, count, want) in rows {
        assert!(rt; joined(rt.alloc(), &names, text)?.as_slice() == want);
        assert_eq!(rt; count_args(rt.alloc(), &names, text, count)?, Some(count));
        if count > 0 {
            assert_eq!(rt; count_args(rt.alloc(), &names, text, count - 1)?, None);
        }
    }
    Ok(())
}

#[test]
fn judges_words(rt: HostRuntime) -> Result<(), Fail> {
    let Ok(names) = names(rt.alloc()) else {
        panic!(rt; "want of memory");
    };
    let rows: [(&[u8], bool, bool, bool); 9] = [
        (b"x[][] v", true, true, true),
        (b"w x[0][7]", true, true, true),
        (b"y[]", true, false, true),
        (b"x[0..2][]", true, false, true),
        (b"x[]", true, false, true),
        (
            b"x[][0..99999999999999999999999999999999999999999]",
            true,
            false,
            true,
        ),
        (
            b"1x99999999999999999999999999999999999999999",
            false,
            true,
            false,
        ),
        (b"3", true, true, false),
        (b"x[", true, true, false),
    ];
    for (text, few, named, spelt) in rows {
        assert_eq!(rt; are_few(text), few);
        assert_eq!(rt; are_named(rt.alloc(), &names, text)?, named);
        assert_eq!(rt; are_spelt(text), spelt);
    }
    assert!(rt; is_compact(b"x[]") && !is_compact(b"x[0]") && !is_compact(b"x"));
    assert!(rt; is_count(b"01") && !is_count(b"0") && !is_count(b"a"));
    Ok(())
}
