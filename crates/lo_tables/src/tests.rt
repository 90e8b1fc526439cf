//! Tables, and what they are lowered to. The tables here have the calls as FlatZinc writes them, worked out by hand, behind
//! the variables x, y and z.

ghost use Rattle.std.specs.Prelude.{◌≡◌, ◌≤◌, length, All, IfOk};

use crate::{lower_extension, lower_unary};
use fz_file::call_line;
use fz_model::{FzVar, FzVars, Goal, Model};
use lo_base::Held;
use std::alloc::Global;
use std::test::Fail;
use xf_num::{Domain, NoMemory, Row, Span, Spans, Text};
use xs_model::Tuple;

type Entries = &'static [Option<i128>];

/// A table: the variables, the tuples, whether they are supports, how many variables are made, and the calls.
type Table = (
    &'static [u32],
    &'static [Entries],
    bool,
    usize,
    &'static str,
);

/// A table of the values of x, by the ends of its ranges.
type Values = (&'static [(i128, i128)], bool, usize, &'static str);

const TABLES: &[Table] = &[
    // Two tuples that share the literal of a place.
    (
        &[0, 1],
        &[&[Some(1), Some(2)], &[Some(1), Some(3)]],
        true,
        5,
        "constraint int_eq_reif(x,1,a_0);\n\
         constraint int_eq_reif(y,2,a_1);\n\
         constraint array_bool_and([a_0,a_1],a_2);\n\
         constraint int_eq_reif(y,3,a_3);\n\
         constraint array_bool_and([a_0,a_3],a_4);\n\
         constraint bool_clause([a_2,a_4],[]);\n",
    ),
    // One tuple.
    (
        &[0, 1],
        &[&[Some(0), Some(1)]],
        true,
        3,
        "constraint int_eq_reif(x,0,a_0);\n\
         constraint int_eq_reif(y,1,a_1);\n\
         constraint array_bool_and([a_0,a_1],a_2);\n\
         constraint bool_clause([a_2],[]);\n",
    ),
    // No tuple: no values are supported, and none are in conflict.
    (&[0, 1], &[], true, 0, "constraint bool_clause([],[]);\n"),
    (&[0, 1], &[], false, 0, ""),
    // What agrees with every value needs no literal.
    (
        &[0, 1],
        &[&[None, Some(5)], &[Some(4), None]],
        true,
        4,
        "constraint int_eq_reif(y,5,a_0);\n\
         constraint array_bool_and([a_0],a_1);\n\
         constraint int_eq_reif(x,4,a_2);\n\
         constraint array_bool_and([a_2],a_3);\n\
         constraint bool_clause([a_1,a_3],[]);\n",
    ),
    (
        &[0, 1],
        &[&[None, None]],
        true,
        1,
        "constraint array_bool_and([],a_0);\n\
         constraint bool_clause([a_0],[]);\n",
    ),
    (
        &[0, 1],
        &[&[None, None]],
        false,
        0,
        "constraint bool_clause([],[]);\n",
    ),
    (
        &[0, 1],
        &[&[None, Some(5)], &[Some(5), None]],
        false,
        2,
        "constraint int_eq_reif(y,5,a_0);\n\
         constraint bool_clause([],[a_0]);\n\
         constraint int_eq_reif(x,5,a_1);\n\
         constraint bool_clause([],[a_1]);\n",
    ),
    // Conflicts.
    (
        &[0, 1],
        &[&[Some(1), Some(2)], &[Some(3), Some(2)]],
        false,
        3,
        "constraint int_eq_reif(x,1,a_0);\n\
         constraint int_eq_reif(y,2,a_1);\n\
         constraint bool_clause([],[a_0,a_1]);\n\
         constraint int_eq_reif(x,3,a_2);\n\
         constraint bool_clause([],[a_2,a_1]);\n",
    ),
    // One variable at two places has a literal for each.
    (
        &[0, 0],
        &[&[Some(1), Some(1)]],
        true,
        3,
        "constraint int_eq_reif(x,1,a_0);\n\
         constraint int_eq_reif(x,1,a_1);\n\
         constraint array_bool_and([a_0,a_1],a_2);\n\
         constraint bool_clause([a_2],[]);\n",
    ),
    // A tuple twice.
    (
        &[0, 1],
        &[&[Some(-1), Some(2)], &[Some(-1), Some(2)]],
        true,
        4,
        "constraint int_eq_reif(x,-1,a_0);\n\
         constraint int_eq_reif(y,2,a_1);\n\
         constraint array_bool_and([a_0,a_1],a_2);\n\
         constraint array_bool_and([a_0,a_1],a_3);\n\
         constraint bool_clause([a_2,a_3],[]);\n",
    ),
    (
        &[0, 1],
        &[&[Some(-1), Some(2)], &[Some(-1), Some(2)]],
        false,
        2,
        "constraint int_eq_reif(x,-1,a_0);\n\
         constraint int_eq_reif(y,2,a_1);\n\
         constraint bool_clause([],[a_0,a_1]);\n\
         constraint bool_clause([],[a_0,a_1]);\n",
    ),
    // One variable: its tuples have one entry.
    (
        &[2],
        &[&[Some(3)], &[Some(5)]],
        true,
        4,
        "constraint int_eq_reif(z,3,a_0);\n\
         constraint array_bool_and([a_0],a_1);\n\
         constraint int_eq_reif(z,5,a_2);\n\
         constraint array_bool_and([a_2],a_3);\n\
         constraint bool_clause([a_1,a_3],[]);\n",
    ),
    (
        &[2],
        &[&[Some(3)], &[Some(3)]],
        false,
        1,
        "constraint int_eq_reif(z,3,a_0);\n\
         constraint bool_clause([],[a_0]);\n\
         constraint bool_clause([],[a_0]);\n",
    ),
    (
        &[2],
        &[&[None]],
        true,
        1,
        "constraint array_bool_and([],a_0);\n\
         constraint bool_clause([a_0],[]);\n",
    ),
    // Three variables, with entries in the midst that agree with every value.
    (
        &[0, 1, 2],
        &[&[Some(1), None, Some(2)], &[Some(1), Some(3), None]],
        true,
        5,
        "constraint int_eq_reif(x,1,a_0);\n\
         constraint int_eq_reif(z,2,a_1);\n\
         constraint array_bool_and([a_0,a_1],a_2);\n\
         constraint int_eq_reif(y,3,a_3);\n\
         constraint array_bool_and([a_0,a_3],a_4);\n\
         constraint bool_clause([a_2,a_4],[]);\n",
    ),
    (
        &[0, 1, 2],
        &[&[Some(1), None, Some(2)], &[None, None, Some(2)]],
        false,
        2,
        "constraint int_eq_reif(x,1,a_0);\n\
         constraint int_eq_reif(z,2,a_1);\n\
         constraint bool_clause([],[a_0,a_1]);\n\
         constraint bool_clause([],[a_1]);\n",
    ),
    // The value 0 is no such entry.
    (
        &[0, 1],
        &[&[Some(0), None], &[None, Some(0)]],
        true,
        4,
        "constraint int_eq_reif(x,0,a_0);\n\
         constraint array_bool_and([a_0],a_1);\n\
         constraint int_eq_reif(y,0,a_2);\n\
         constraint array_bool_and([a_2],a_3);\n\
         constraint bool_clause([a_1,a_3],[]);\n",
    ),
];

const VALUES: &[Values] = &[
    (&[], true, 0, "constraint bool_clause([],[]);\n"),
    (&[], false, 0, ""),
    (&[(2, 5)], true, 0, "constraint set_in(x,2..5);\n"),
    (&[(4, 4)], true, 0, "constraint set_in(x,4..4);\n"),
    (
        &[(2, 5)],
        false,
        1,
        "constraint set_in_reif(x,2..5,a_0);\n\
         constraint bool_clause([],[a_0]);\n",
    ),
    // Ranges that touch are one, whatever their order.
    (&[(1, 2), (3, 4)], true, 0, "constraint set_in(x,1..4);\n"),
    (
        &[(3, 4), (1, 2)],
        false,
        1,
        "constraint set_in_reif(x,1..4,a_0);\n\
         constraint bool_clause([],[a_0]);\n",
    ),
    (
        &[(1, 5), (2, 3), (5, 9)],
        true,
        0,
        "constraint set_in(x,1..9);\n",
    ),
    // Those with a gap are two, in ascending order.
    (
        &[(1, 2), (4, 4)],
        true,
        2,
        "constraint set_in_reif(x,1..2,a_0);\n\
         constraint set_in_reif(x,4..4,a_1);\n\
         constraint bool_clause([a_0,a_1],[]);\n",
    ),
    (
        &[(8, 9), (1, 2), (-3, -3)],
        true,
        3,
        "constraint set_in_reif(x,-3..-3,a_0);\n\
         constraint set_in_reif(x,1..2,a_1);\n\
         constraint set_in_reif(x,8..9,a_2);\n\
         constraint bool_clause([a_0,a_1,a_2],[]);\n",
    ),
    (
        &[(4, 4), (1, 2)],
        false,
        2,
        "constraint set_in_reif(x,1..2,a_0);\n\
         constraint bool_clause([],[a_0]);\n\
         constraint set_in_reif(x,4..4,a_1);\n\
         constraint bool_clause([],[a_1]);\n",
    ),
    (&[(3, 3), (3, 3)], true, 0, "constraint set_in(x,3..3);\n"),
];

fn variable(alloc: Global, name: &[u8]) -> Result<FzVar, NoMemory> {
    Ok(FzVar {
        name: Row::from_slice(alloc, name)?,
        boolean: false,
        domain: Domain::of(alloc, Span::new(0, 9).unwrap())?,
        equal: None,
        shown: true,
    })
}

// The variables x, y and z.
fn variables(alloc: Global) -> Result<FzVars, NoMemory>
    ensures { IfOk result (λ vars. length vars ≡ 3) }
{
    let mut vars = Row::new(alloc);
    vars.push(variable(alloc, b"x")?)?;
    vars.push(variable(alloc, b"y")?)?;
    vars.push(variable(alloc, b"z")?)?;
    Ok(vars)
}

// The calls of a model.
fn calls_in(alloc: Global, model: &Model) -> Result<Text, NoMemory> {
    let mut text = Row::new(alloc);
    for call in model.calls.as_slice() {
        let line = call_line(alloc, call, model.vars.as_slice())?;
        text.extend(line.as_slice())?;
    }
    Ok(text)
}

// The tuples of this length.
fn tuples_of(
    alloc: Global,
    entries: &[&[Option<i128>]],
    width: usize,
) -> Result<Row<Tuple>, NoMemory>
    ensures few { IfOk result (λ rows. length rows ≤ length entries.now) }
    ensures long { IfOk result (λ rows. All (λ row. length row ≡ width) rows) }
{
    let mut rows = Row::new(alloc);
    for entry in entries {
        if entry.len() == width {
            rows.push(Row::from_slice(alloc, entry)?)?;
        }
    }
    Ok(rows)
}

// The model of a table of tuples.
fn table(
    alloc: Global,
    list: &[u32],
    entries: &[&[Option<i128>]],
    positive: bool,
) -> Result<Model, Fail>
    requires short { length list.now ≤ 8 }
    requires few { length entries.now ≤ 8 }
{
    let tuples = tuples_of(alloc, entries, list.len())?;
    let mut held = Held::new(alloc, variables(alloc)?);
    lower_extension(alloc, list, tuples.as_slice(), positive, &mut held)?;
    Ok(held.finish(Goal::Satisfy))
}

fn spans_of(alloc: Global, ends: &[(i128, i128)]) -> Result<Spans, NoMemory>
    ensures { IfOk result (λ spans. length spans ≤ length ends.now) }
{
    let mut spans = Row::new(alloc);
    for (lo, hi) in ends {
        if let Some(span) = Span::new(*lo, *hi) {
            spans.push(span)?;
        }
    }
    Ok(spans)
}

// The model of a table of the values of x.
fn values(alloc: Global, ends: &[(i128, i128)], positive: bool) -> Result<Model, Fail>
    requires { length ends.now ≤ 8 }
{
    let spans = spans_of(alloc, ends)?;
    let mut held = Held::new(alloc, variables(alloc)?);
    lower_unary(alloc, 0, spans.as_slice(), positive, &mut held)?;
    Ok(held.finish(Goal::Satisfy))
}

#[test]
fn tables(rt: HostRuntime) -> Result<(), Fail> {
    let alloc = rt.alloc();
    for (list, entries, positive, made, calls) in TABLES {
        assert!(rt; list.len() <= 8 && entries.len() <= 8);
        let model = table(alloc, list, entries, *positive)?;
        assert_eq!(rt; model.vars.len().checked_sub(3), Some(*made));
        assert_eq!(rt; calls_in(alloc, &model)?.as_slice(), calls.as_bytes());
    }
    for (ends, positive, made, calls) in VALUES {
        assert!(rt; ends.len() <= 8);
        let model = values(alloc, ends, *positive)?;
        assert_eq!(rt; model.vars.len().checked_sub(3), Some(*made));
        assert_eq!(rt; calls_in(alloc, &model)?.as_slice(), calls.as_bytes());
    }
    Ok(())
}
