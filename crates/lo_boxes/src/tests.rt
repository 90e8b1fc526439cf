//! Boxes, and what they are lowered to. The table has the calls as FlatZinc writes them, worked out by hand, behind the
//! variables x, y, z, u, v and w.

ghost use Rattle.std.specs.Prelude.{◌≡◌, ◌<◌, ◌≤◌, length, All, IfOk};

use crate::lower_no_overlap;
use fz_file::call_line;
use fz_model::{FzVar, FzVars, Goal, Model};
use lo_base::Held;
use std::alloc::Global;
use std::test::Fail;
use xf_num::{Domain, NoMemory, Row, Span, Text, Vars};
use xs_model::{Term, Terms};

/// Boxes: the origins, the lengths, whether zeros are ignored, how many variables are made, and the calls.
type Case = (
    &'static [&'static [u32]],
    &'static [&'static [Term]],
    bool,
    usize,
    &'static str,
);

const CASES: &[Case] = &[
    // No box, and one.
    (&[], &[], true, 0, ""),
    (&[&[0]], &[&[Term::Int(2)]], true, 0, ""),
    (
        &[&[0]],
        &[&[Term::Var(1)]],
        true,
        1,
        "constraint int_eq_reif(y,0,a_0);\n",
    ),
    (&[&[0]], &[&[Term::Var(1)]], false, 0, ""),
    // Two boxes of one dimension.
    (
        &[&[0], &[1]],
        &[&[Term::Int(2)], &[Term::Int(3)]],
        true,
        2,
        "constraint int_lin_le_reif([1,1,-1],[x,2,y],0,a_0);\n\
         constraint int_lin_le_reif([1,1,-1],[y,3,x],0,a_1);\n\
         constraint bool_clause([a_0,a_1],[]);\n",
    ),
    // A length of 0 is as any other where zeros count.
    (
        &[&[0], &[1]],
        &[&[Term::Int(0)], &[Term::Int(-3)]],
        false,
        2,
        "constraint int_lin_le_reif([1,1,-1],[x,0,y],0,a_0);\n\
         constraint int_lin_le_reif([1,1,-1],[y,-3,x],0,a_1);\n\
         constraint bool_clause([a_0,a_1],[]);\n",
    ),
    // Where they are ignored, a box with such a length is dropped.
    (
        &[&[0], &[1], &[2]],
        &[&[Term::Int(2)], &[Term::Int(0)], &[Term::Int(3)]],
        true,
        2,
        "constraint int_lin_le_reif([1,1,-1],[x,2,z],0,a_0);\n\
         constraint int_lin_le_reif([1,1,-1],[z,3,x],0,a_1);\n\
         constraint bool_clause([a_0,a_1],[]);\n",
    ),
    // Lengths that are variables.
    (
        &[&[0], &[1]],
        &[&[Term::Var(2)], &[Term::Var(3)]],
        true,
        4,
        "constraint int_eq_reif(z,0,a_0);\n\
         constraint int_eq_reif(u,0,a_1);\n\
         constraint int_lin_le_reif([1,1,-1],[x,z,y],0,a_2);\n\
         constraint int_lin_le_reif([1,1,-1],[y,u,x],0,a_3);\n\
         constraint bool_clause([a_2,a_3,a_0,a_1],[]);\n",
    ),
    (
        &[&[0], &[1]],
        &[&[Term::Var(2)], &[Term::Var(3)]],
        false,
        2,
        "constraint int_lin_le_reif([1,1,-1],[x,z,y],0,a_0);\n\
         constraint int_lin_le_reif([1,1,-1],[y,u,x],0,a_1);\n\
         constraint bool_clause([a_0,a_1],[]);\n",
    ),
    // Each length has a truth value of its own.
    (
        &[&[0], &[1]],
        &[&[Term::Var(2)], &[Term::Var(2)]],
        true,
        4,
        "constraint int_eq_reif(z,0,a_0);\n\
         constraint int_eq_reif(z,0,a_1);\n\
         constraint int_lin_le_reif([1,1,-1],[x,z,y],0,a_2);\n\
         constraint int_lin_le_reif([1,1,-1],[y,z,x],0,a_3);\n\
         constraint bool_clause([a_2,a_3,a_0,a_1],[]);\n",
    ),
    // Two dimensions.
    (
        &[&[0, 1], &[2, 3]],
        &[&[Term::Int(2), Term::Int(4)], &[Term::Int(3), Term::Int(5)]],
        true,
        4,
        "constraint int_lin_le_reif([1,1,-1],[x,2,z],0,a_0);\n\
         constraint int_lin_le_reif([1,1,-1],[z,3,x],0,a_1);\n\
         constraint int_lin_le_reif([1,1,-1],[y,4,u],0,a_2);\n\
         constraint int_lin_le_reif([1,1,-1],[u,5,y],0,a_3);\n\
         constraint bool_clause([a_0,a_1,a_2,a_3],[]);\n",
    ),
    (
        &[&[0, 1], &[2, 3]],
        &[&[Term::Int(2), Term::Var(4)], &[Term::Var(5), Term::Int(1)]],
        true,
        6,
        "constraint int_eq_reif(v,0,a_0);\n\
         constraint int_eq_reif(w,0,a_1);\n\
         constraint int_lin_le_reif([1,1,-1],[x,2,z],0,a_2);\n\
         constraint int_lin_le_reif([1,1,-1],[z,w,x],0,a_3);\n\
         constraint int_lin_le_reif([1,1,-1],[y,v,u],0,a_4);\n\
         constraint int_lin_le_reif([1,1,-1],[u,1,y],0,a_5);\n\
         constraint bool_clause([a_2,a_3,a_4,a_5,a_0,a_1],[]);\n",
    ),
    // A box that is dropped makes nothing.
    (
        &[&[0, 1], &[2, 3]],
        &[&[Term::Var(4), Term::Int(0)], &[Term::Int(1), Term::Int(1)]],
        true,
        0,
        "",
    ),
    // Three boxes: the pairs by the first box, then by the second.
    (
        &[&[0], &[1], &[2]],
        &[&[Term::Int(1)], &[Term::Int(2)], &[Term::Var(3)]],
        true,
        7,
        "constraint int_eq_reif(u,0,a_0);\n\
         constraint int_lin_le_reif([1,1,-1],[x,1,y],0,a_1);\n\
         constraint int_lin_le_reif([1,1,-1],[y,2,x],0,a_2);\n\
         constraint bool_clause([a_1,a_2],[]);\n\
         constraint int_lin_le_reif([1,1,-1],[x,1,z],0,a_3);\n\
         constraint int_lin_le_reif([1,1,-1],[z,u,x],0,a_4);\n\
         constraint bool_clause([a_3,a_4,a_0],[]);\n\
         constraint int_lin_le_reif([1,1,-1],[y,2,z],0,a_5);\n\
         constraint int_lin_le_reif([1,1,-1],[z,u,y],0,a_6);\n\
         constraint bool_clause([a_5,a_6,a_0],[]);\n",
    ),
];

fn variable(alloc: Global, name: u8) -> Result<FzVar, NoMemory> {
    Ok(FzVar {
        name: Row::from_slice(alloc, &[name])?,
        boolean: false,
        domain: Domain::of(alloc, Span::new(0, 9).unwrap())?,
        equal: None,
        shown: true,
    })
}

// The variables x, y, z, u, v and w.
fn variables(alloc: Global) -> Result<FzVars, NoMemory>
    ensures { IfOk result (λ vars. length vars ≡ 6) }
{
    let mut vars = Row::new(alloc);
    vars.push(variable(alloc, b'x')?)?;
    vars.push(variable(alloc, b'y')?)?;
    vars.push(variable(alloc, b'z')?)?;
    vars.push(variable(alloc, b'u')?)?;
    vars.push(variable(alloc, b'v')?)?;
    vars.push(variable(alloc, b'w')?)?;
    Ok(vars)
}

// The calls of a model.
fn calls_in(alloc: Global, model: &Model) -> Result<Text, NoMemory> {
    let mut text = Row::new(alloc);
    for call in model.calls.as_slice() {
        let line = call_line(alloc, call, model.vars.as_slice())?;
        text.extend(line.as_slice())?;
    }
    Ok(text)
}

// The origins of this many dimensions.
fn origins_of(alloc: Global, rows: &[&[u32]], wide: usize) -> Result<Row<Vars>, NoMemory>
    ensures few { IfOk result (λ all. length all ≤ length rows.now) }
    ensures even { IfOk result (λ all. All (λ row. length row ≡ wide) all) }
{
    let mut all = Row::new(alloc);
    for row in rows {
        if row.len() == wide {
            all.push(Row::from_slice(alloc, row)?)?;
        }
    }
    Ok(all)
}

// The lengths of this many dimensions.
fn lengths_of(alloc: Global, rows: &[&[Term]], wide: usize) -> Result<Row<Terms>, NoMemory>
    ensures even { IfOk result (λ all. All (λ row. length row ≡ wide) all) }
{
    let mut all = Row::new(alloc);
    for row in rows {
        if row.len() == wide {
            all.push(Row::from_slice(alloc, row)?)?;
        }
    }
    Ok(all)
}

// The model of boxes of this many dimensions.
fn lowered(
    alloc: Global,
    origins: &[Vars],
    lengths: &[Terms],
    wide: usize,
    zero_ignored: bool,
) -> Result<Model, Fail>
    requires narrow { (0 < wide) × (wide ≤ 8) }
    requires few { length origins.now ≤ 8 }
    requires as_many { length lengths.now ≡ length origins.now }
    requires even { All (λ row. length row ≡ wide) origins.now }
    requires as_wide { All (λ row. length row ≡ wide) lengths.now }
{
    let mut held = Held::new(alloc, variables(alloc)?);
    lower_no_overlap(alloc, origins, lengths, zero_ignored, &mut held)?;
    Ok(held.finish(Goal::Satisfy))
}

#[test]
fn boxes(rt: HostRuntime) -> Result<(), Fail> {
    let alloc = rt.alloc();
    for (origins, lengths, zero_ignored, made, calls) in CASES {
        let wide = if origins.is_empty() {
            1
        } else {
            origins[0].len()
        };
        assert!(rt; origins.len() <= 8 && 0 < wide && wide <= 8);
        let starts = origins_of(alloc, origins, wide)?;
        let sizes = lengths_of(alloc, lengths, wide)?;
        assert!(rt; sizes.len() == starts.len());
        let model = lowered(
            alloc,
            starts.as_slice(),
            sizes.as_slice(),
            wide,
            *zero_ignored,
        )?;
        assert_eq!(rt; model.vars.len().checked_sub(6), Some(*made));
        assert_eq!(rt; calls_in(alloc, &model)?.as_slice(), calls.as_bytes());
    }
    Ok(())
}
