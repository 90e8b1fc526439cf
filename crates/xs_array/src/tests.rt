ghost use Rattle.std.specs.Prelude.{◌≡◌, IfOk};
ghost use Rattle.std.specs.List.{AllByRecursion};
ghost use Rattle.xs_model.specs.Outline.{outlines_of};
ghost use Rattle.xs_model.specs.Sound.{IsSoundDecl};
ghost use Rattle.xs_var.specs.Taken.{IsSoundTaken};

use crate::read_array;
use std::alloc::Global;
use std::test::Fail;
use xf_markup::read_tree;
use xf_num::Row;
use xs_fields::Condition;
use xs_model::{Decl, Names};
use xs_var::Counted;

// What the one element of a text is as an array behind these declarations.
fn read(
    alloc: Global,
    text: &[u8],
    decls: &[Decl],
    names: &Names,
) -> Result<Result<Counted, Condition>, Fail>
    requires names { names.now ≡ outlines_of decls.now }
    requires decls { AllByRecursion IsSoundDecl decls.now }
    ensures { IfOk result (λ r. IfOk r (λ c. IsSoundTaken (record { decls = decls.now; cells = 0; values = 0 }) c)) }
{
    match read_tree(alloc, text) {
        Ok(node) => {
            let read = read_array(alloc, &node, decls, names, 0, 0)?;
            Ok(read)
        }
        Err(_) => Ok(Err(Condition::Nesting)),
    }
}

// What it misses first where nothing is declared before it.
fn missed(alloc: Global, text: &[u8]) -> Result<Option<Condition>, Fail> {
    let names = Names::new(alloc);
    Ok(read(alloc, text, &[], &names)?.err())
}

// What the second of two arrays is behind the first.
fn second(alloc: Global, before: &[u8], text: &[u8]) -> Result<Result<Counted, Condition>, Fail> {
    let mut names = Names::new(alloc);
    let first = read(alloc, before, &[], &names)?;
    match first {
        Ok(counted) => {
            let decl = counted.decl;
            let added = names.declare(&decl);
            match added {
                Ok(()) => read(alloc, text, &[decl], &names),
                Err(_) => Ok(Err(Condition::Nesting)),
            }
        }
        Err(missed) => Ok(Err(missed)),
    }
}

#[test]
fn conditions_on_an_array(rt: HostRuntime) -> Result<(), Fail> {
    let cases: [(&[u8], Option<Condition>); 30] = [
        (b"<array id=\"x\" size=\"[2][2]\"> 0..3 </array>", None),
        (
            b"<array id=\"x\" size=\"[2]\" type=\"integer\" class=\"c\" note=\"n\"> 0 </array>",
            None,
        ),
        (
            b"<array id=\"x\" size=\"[2]\" foo=\"1\"> 0 </array>",
            Some(Condition::Known),
        ),
        (
            b"<array id=\"x\" size=\"[2]\"><list/></array>",
            Some(Condition::Known),
        ),
        (
            b"<array id=\"x\" size=\"[2]\"><domain for=\"others\" id=\"d\"> 0 </domain></array>",
            Some(Condition::Known),
        ),
        (
            b"<array id=\"x\" size=\"[2]\"><domain for=\"others\"> 0 <a/></domain></array>",
            Some(Condition::Known),
        ),
        (
            b"<array size=\"[2]\"> 0 </array>",
            Some(Condition::Spelling),
        ),
        (b"<array id=\"x\"> 0 </array>", Some(Condition::Spelling)),
        (
            b"<array id=\"x\" size=\" [2]\"> 0 </array>",
            Some(Condition::Spelling),
        ),
        (
            b"<array id=\"x\" size=\"[2\"> 0 </array>",
            Some(Condition::Spelling),
        ),
        (
            b"<array id=\"x\" size=\"[2]\"> 0 <domain for=\"others\"> 0 </domain></array>",
            Some(Condition::Spelling),
        ),
        (
            b"<array id=\"x\" size=\"[2]\"><domain> 0 </domain></array>",
            Some(Condition::Spelling),
        ),
        (
            b"<array id=\"x\" size=\"[2]\" as=\"y\"> 0 </array>",
            Some(Condition::Spelling),
        ),
        (
            b"<array id=\"x\" size=\"[85070591730234615865843651857942052864]\"> 0 </array>",
            Some(Condition::Magnitude),
        ),
        (
            b"<array id=\"x\" size=\"[2]\"><domain for=\"y[0]\"> 0 </domain></array>",
            Some(Condition::Naming),
        ),
        (
            b"<array id=\"x\" size=\"[2]\"><domain for=\"x[2]\"> 0 </domain></array>",
            Some(Condition::Naming),
        ),
        (
            b"<array id=\"x\" size=\"[2]\"><domain for=\"x[0] others\"> 0 </domain></array>",
            Some(Condition::Naming),
        ),
        (
            b"<array id=\"x\" size=\"[2]\" as=\"x\"/>",
            Some(Condition::Naming),
        ),
        (
            b"<array id=\"x\" size=\"[99999999999][99999999999]\"> 0 </array>",
            Some(Condition::Counting),
        ),
        (
            b"<array id=\"x\" size=\"[1048577]\"> 0 </array>",
            Some(Condition::Counting),
        ),
        (
            b"<array id=\"x\" size=\"[2]\"> 0 9000000..18000000 </array>",
            Some(Condition::Counting),
        ),
        (
            b"<array id=\"x\" size=\"[99999999999][0]\"> 0 </array>",
            Some(Condition::Fitting),
        ),
        (
            b"<array id=\"x\" size=\"[-1]\"> 0 </array>",
            Some(Condition::Fitting),
        ),
        (
            b"<array id=\"x\" size=\"[2]\"> </array>",
            Some(Condition::Fitting),
        ),
        (
            b"<array id=\"x\" size=\"[2]\"><domain for=\"x[0]\"> 0 </domain><domain for=\"x[]\"> 1 </domain></array>",
            Some(Condition::Fitting),
        ),
        (
            b"<array id=\"x\" size=\"[2]\"><domain for=\"others\"> 0 </domain><domain for=\"x[0]\"> 1 </domain></array>",
            Some(Condition::Fitting),
        ),
        (
            b"<array id=\"x\" size=\"[2]\"><domain for=\"x[] x[0]\"> 0 </domain><domain for=\" others \"> 1 </domain><domain for=\"others\"> 2 </domain></array>",
            None,
        ),
        (
            b"<array id=\"x\" size=\"[2]\"><domain for=\"x[]\"> 0 </domain><domain for=\"\"> </domain></array>",
            Some(Condition::Fitting),
        ),
        (
            b"<array id=\"x\" size=\"[2]\"><domain for=\"\"> 0 </domain></array>",
            Some(Condition::Fitting),
        ),
        (
            b"<array id=\"x\" size=\"[2]\"><domain for=\"x[0]\"> 0 9000000..18000000 </domain><domain for=\"x[0]\"> 1 </domain></array>",
            Some(Condition::Counting),
        ),
    ];
    for (text, want) in cases {
        assert_eq!(rt; missed(rt.alloc(), text)?, want);
    }
    Ok(())
}

// The least member of each cell of an array; -1 where it is undefined.
fn leasts(alloc: Global, decl: &Decl) -> Result<Row<i128>, Fail> {
    let mut found = Row::new(alloc);
    if let Decl::Array { cells, .. } = decl {
        for cell in cells.as_slice() {
            match cell {
                Some(domain) => found.push(domain.least())?,
                None => found.push(-1)?,
            }
        }
    }
    Ok(found)
}

#[test]
fn cells_of_arrays(rt: HostRuntime) -> Result<(), Fail> {
    // A text, the least members of its cells, and the values that it counts.
    let cases: [(&[u8], &[i128], u64); 4] = [
        (
            b"<array id=\"a\" size=\"[2][2]\"><domain for=\"a[0][]\"> 1 </domain></array>",
            &[1, 1, -1, -1],
            0,
        ),
        (
            b"<array id=\"b\" size=\"[4]\"><domain for=\"b[1]\"> 1 </domain><domain for=\"others\"> 2 4 </domain><domain for=\"others\"> 3 </domain></array>",
            &[2, 1, 2, 2],
            6,
        ),
        (b"<array id=\"e\" size=\"[3]\"> 7 5 </array>", &[5, 5, 5], 6),
        (
            b"<array id=\"g\" size=\"[3][2]\"><domain for=\"g[1..2][0] g[0][1]\"> 9 </domain></array>",
            &[-1, 9, 9, -1, 9, -1],
            0,
        ),
    ];
    let names = Names::new(rt.alloc());
    for (text, want, values) in cases {
        let found = read(rt.alloc(), text, &[], &names)?;
        assert!(rt; is_array(rt.alloc(), found, want, values)?);
    }
    Ok(())
}

// Whether an array has cells with these least members, and counts so many values.
fn is_array(
    alloc: Global,
    found: Result<Counted, Condition>,
    want: &[i128],
    values: u64,
) -> Result<bool, Fail> {
    match found {
        Ok(counted) => {
            let members = leasts(alloc, &counted.decl)?;
            Ok(
                members.as_slice() == want
                    && counted.cells == want.len() as u64
                    && counted.values == values,
            )
        }
        Err(_) => Ok(false),
    }
}

#[test]
fn cells_by_an_array(rt: HostRuntime) -> Result<(), Fail> {
    let some: &[u8] =
        b"<array id=\"a\" size=\"[2][2]\"><domain for=\"a[0][]\"> 1 </domain></array>";
    let full: &[u8] = b"<array id=\"a\" size=\"[3]\"> 7 5 </array>";
    let cases: [(&[u8], &[u8], &[i128], u64); 3] = [
        (
            some,
            b"<array id=\"x\" size=\"[2][2]\" as=\"a\"/>",
            &[1, 1, -1, -1],
            0,
        ),
        (
            full,
            b"<array id=\"x\" size=\"[3]\" as=\"a\"/>",
            &[5, 5, 5],
            6,
        ),
        (full, b"<array id=\"x\" size=\"[2]\" as=\"a\"/>", &[5, 5], 4),
    ];
    for (before, text, want, values) in cases {
        let found = second(rt.alloc(), before, text)?;
        assert!(rt; is_array(rt.alloc(), found, want, values)?);
    }
    let refused: [(&[u8], &[u8], Condition); 3] = [
        (
            some,
            b"<array id=\"x\" size=\"[4]\" as=\"a\"/>",
            Condition::Fitting,
        ),
        (
            some,
            b"<array id=\"x\" size=\"[2]\" as=\"a\"/>",
            Condition::Fitting,
        ),
        (
            full,
            b"<array id=\"a\" size=\"[4]\"> 0 </array>",
            Condition::Naming,
        ),
    ];
    for (before, text, want) in refused {
        assert_eq!(rt; second(rt.alloc(), before, text)?.err(), Some(want));
    }
    Ok(())
}
