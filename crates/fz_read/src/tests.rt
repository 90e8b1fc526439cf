use crate::{denotes_law, one_reading, read_model, sound_reading};
use fz_model::{Goal, Model};
use std::alloc::Global;
use std::process::Abort;
use std::test::Fail;
use xf_text::{Fault, Kind, Stop};

/// The fault of a text without a bound, if it has one.
fn fault(alloc: Global, text: &[u8]) -> Option<Fault> {
    match read_model(alloc, text, None) {
        Err(Stop::Refused(fault)) => Some(fault),
        _ => None,
    }
}

const FAULTS: [(&[u8], Kind, u64); 92] = [
    // the grammar: the first token that does not fit, or the end
    (b"", Kind::Syntax, 0),
    (b"solve satis", Kind::Syntax, 6),
    (b"solve satisfy", Kind::Syntax, 13),
    (b"\xef\xbb\xbfsolve satisfy;", Kind::Syntax, 0),
    (b"solve satisfy; x", Kind::Syntax, 15),
    (b"predicate p(;\nsolve satisfy", Kind::Syntax, 27),
    (b"predicate 1;", Kind::Syntax, 10),
    (b"predicate p \"a;", Kind::Syntax, 12),
    (b"int x = 3;", Kind::Syntax, 4),
    (b"int: x = 1.5;", Kind::Syntax, 9),
    (b"int: x = ;", Kind::Syntax, 9),
    (b"set of bool: s = {};", Kind::Syntax, 7),
    (b"set of int: s = {1,};", Kind::Syntax, 19),
    (b"array [0..2] of int: p = [];", Kind::Syntax, 7),
    (b"array [1..2] of set: p = [];", Kind::Syntax, 16),
    (b"array [1..2] of var int: p;", Kind::Syntax, 26),
    (b"var 0..1.5: x;", Kind::Syntax, 7),
    (b"var {1..2}: x;", Kind::Syntax, 6),
    (b"var 0..1: true;", Kind::Syntax, 10),
    (b"var 0..1: x :: a(;", Kind::Syntax, 17),
    (b"var 0..1: x = f(1);", Kind::Syntax, 15),
    (b"var 0..1: x; int: y = 1;", Kind::Syntax, 13),
    (
        b"var 0..1: x; array [1..1] of int: y = [1];",
        Kind::Syntax,
        29,
    ),
    (b"constraint f();", Kind::Syntax, 13),
    (b"constraint f(1.5);", Kind::Syntax, 13),
    (b"constraint f(1) var 0..1: x;", Kind::Syntax, 16),
    (b"constraint f(0...1);", Kind::Syntax, 16),
    (b"constraint f(0x);", Kind::Syntax, 14),
    (b"solve minimize 1;", Kind::Syntax, 15),
    (b"solve minimize x[y];", Kind::Syntax, 17),
    (b"solve :: a satisfy x;", Kind::Syntax, 19),
    // the called name
    (
        b"var 0..1: x;\nconstraint foo(x);\nsolve satisfy;\n",
        Kind::Unknown,
        13,
    ),
    (b"constraint foo(y);solve satisfy;", Kind::Unknown, 0),
    (
        b"constraint int_eq_reif2(1);solve satisfy;",
        Kind::Unknown,
        0,
    ),
    // names
    (
        b"var 0..1: x;\nvar 0..1: x;\nsolve satisfy;\n",
        Kind::Name,
        13,
    ),
    (b"int: x = 1;var 0..1: x;solve satisfy;", Kind::Name, 11),
    (b"constraint int_eq(x,1);solve satisfy;", Kind::Name, 0),
    (b"constraint int_eq([[x]],1);solve satisfy;", Kind::Name, 0),
    (b"var 0..1: x = x;solve satisfy;", Kind::Name, 0),
    (
        b"array [1..1] of var int: x = [x[1]];solve satisfy;",
        Kind::Name,
        0,
    ),
    (b"var 1..0: x = y;solve satisfy;", Kind::Name, 0),
    (b"solve minimize x;", Kind::Name, 0),
    (b"solve minimize x[1];", Kind::Name, 0),
    // kinds, and the number of arguments
    (
        b"var 0..1: x;\nconstraint bool2int(x,x);\nsolve satisfy;\n",
        Kind::Kinds,
        13,
    ),
    (b"int: x = true;solve satisfy;", Kind::Kinds, 0),
    (b"bool: x = 1;solve satisfy;", Kind::Kinds, 0),
    (b"set of int: x = 1;solve satisfy;", Kind::Kinds, 0),
    (b"array [1..1] of int: x = 1;solve satisfy;", Kind::Kinds, 0),
    (
        b"array [1..1] of bool: x = [1];solve satisfy;",
        Kind::Kinds,
        0,
    ),
    (b"var bool: x = 1;solve satisfy;", Kind::Kinds, 0),
    (
        b"var 0..1: x;array [1..1] of var bool: y = [x];solve satisfy;",
        Kind::Kinds,
        12,
    ),
    (b"constraint int_eq(1);solve satisfy;", Kind::Kinds, 0),
    (b"constraint int_eq(1,2,3);solve satisfy;", Kind::Kinds, 0),
    (b"constraint bool_xor(true);solve satisfy;", Kind::Kinds, 0),
    (b"constraint set_in(1,2);solve satisfy;", Kind::Kinds, 0),
    (b"constraint int_eq([1],1);solve satisfy;", Kind::Kinds, 0),
    (
        b"int: x = 1;constraint int_eq(x[1],1);solve satisfy;",
        Kind::Kinds,
        11,
    ),
    (
        b"array [1..1] of int: x = [1];constraint int_eq(x,1);solve satisfy;",
        Kind::Kinds,
        29,
    ),
    (
        b"var 0..1: v;array [1..1] of var int: a = [v];constraint int_lin_eq([a[2]],[v],0);solve satisfy;",
        Kind::Kinds,
        45,
    ),
    (b"int: x = 1;solve minimize x;", Kind::Kinds, 11),
    (b"var bool: x;solve minimize x;", Kind::Kinds, 12),
    (
        b"array [1..1] of var int: x = [3];solve minimize x[1];",
        Kind::Kinds,
        33,
    ),
    (
        b"array [1..1] of var int: x = [3];solve minimize x;",
        Kind::Kinds,
        33,
    ),
    (
        b"constraint int_eq(85070591730234615865843651857942052864,true);solve satisfy;",
        Kind::Kinds,
        0,
    ),
    // magnitudes
    (
        b"var 0..85070591730234615865843651857942052864: x;\nsolve satisfy;\n",
        Kind::Range,
        0,
    ),
    (
        b"predicate p(85070591730234615865843651857942052864);solve satisfy;",
        Kind::Range,
        0,
    ),
    (
        b"int: x :: a([b(85070591730234615865843651857942052864)]) = 1;solve satisfy;",
        Kind::Range,
        0,
    ),
    (
        b"int: x = -0x40000000000000000000000000000000;solve satisfy;",
        Kind::Range,
        0,
    ),
    (
        b"int: x = 0o4000000000000000000000000000000000000000000;solve satisfy;",
        Kind::Range,
        0,
    ),
    (
        b"array [1..85070591730234615865843651857942052864] of int: x = [];solve satisfy;",
        Kind::Range,
        0,
    ),
    (
        b"var 85070591730234615865843651857942052864..0: x;solve satisfy;",
        Kind::Range,
        0,
    ),
    (
        b"array [1..1] of var 85070591730234615865843651857942052864..0: x = [1];solve satisfy;",
        Kind::Range,
        0,
    ),
    (
        b"array [1..1] of int: a = [1];constraint int_eq(a[85070591730234615865843651857942052864],1);solve satisfy;",
        Kind::Range,
        29,
    ),
    (
        b"solve :: a(85070591730234615865843651857942052864) satisfy;",
        Kind::Range,
        0,
    ),
    // lengths, accesses, domains, shown arrays
    (
        b"array [1..2] of int: p = [1];\nsolve satisfy;\n",
        Kind::Shape,
        0,
    ),
    (b"var 1..0: x;\nsolve satisfy;\n", Kind::Shape, 0),
    (b"var {}: x;solve satisfy;", Kind::Shape, 0),
    (
        b"array [1..-1] of int: p = [];solve satisfy;",
        Kind::Shape,
        0,
    ),
    (
        b"array [1..1] of var int: p = [1,2];solve satisfy;",
        Kind::Shape,
        0,
    ),
    (
        b"array [1..1] of int: a = [1];int: b = a[2];solve satisfy;",
        Kind::Shape,
        29,
    ),
    (
        b"array [1..1] of int: a = [1];int: b = a[0];solve satisfy;",
        Kind::Shape,
        29,
    ),
    (
        b"array [1..1] of int: a = [1];int: b = a[-1];solve satisfy;",
        Kind::Shape,
        29,
    ),
    (
        b"array [1..1] of int: a = [1];constraint int_eq(a[2],1);solve satisfy;",
        Kind::Shape,
        29,
    ),
    (
        b"array [1..1] of int: a = [1];constraint int_lin_eq([a[2]],[1],0);solve satisfy;",
        Kind::Shape,
        29,
    ),
    (
        b"var 0..1: x;array [1..1] of var int: a = [x];solve minimize a[2];",
        Kind::Shape,
        45,
    ),
    (
        b"constraint int_lin_eq([1],[],0);solve satisfy;",
        Kind::Shape,
        0,
    ),
    (
        b"constraint bool_lin_le([1],[true,true],0);solve satisfy;",
        Kind::Shape,
        0,
    ),
    (
        b"array [1..2] of var int: x :: output_array([1..3]) = [1,2];solve satisfy;",
        Kind::Shape,
        0,
    ),
    (
        b"array [1..0] of var int: x :: output_array([1..1]) = [];solve satisfy;",
        Kind::Shape,
        0,
    ),
    (
        b"array [1..2] of var int: x :: output_array([1..2,1..2]) = [1,2];solve satisfy;",
        Kind::Shape,
        0,
    ),
    // bounds
    (
        b"var int: x;\nconstraint bool_clause([],[]);\nconstraint int_lin_le([],[],-1);\nsolve maximize x;\n",
        Kind::Unbounded,
        0,
    ),
    (b"var int: x = 3;solve satisfy;", Kind::Unbounded, 0),
];

/// Each fault stands at its place, also where a later condition is missed too.
fn faults(rt: &impl Abort, alloc: Global) -> Result<(), Fail> {
    for (at, (text, kind, place)) in FAULTS.iter().enumerate() {
        let expected = Fault {
            kind: *kind,
            place: *place,
        };
        assert!(rt; fault(alloc, text) == Some(expected), "row {at}");
    }
    Ok(())
}

// The numbers of variables, shown arrays and calls.
fn counts(model: &Model) -> (usize, usize, usize) {
    (model.vars.len(), model.outputs.len(), model.calls.len())
}

const MODELS: [(&[u8], (usize, usize, usize)); 15] = [
    (b"solve satisfy;", (0, 0, 0)),
    (
        b"% nothing\n solve :: a :: b(c, [1.5e3, \"x\\\"y\"], d[1], {}, 1..2) satisfy ; % end",
        (0, 0, 0),
    ),
    (
        b"predicate fzn_all(array [int] of var int: x);\narray [1..2] of int: X_INTRODUCED_2_ = [1,-1];\nvar 0..3: X_INTRODUCED_0_;\nvar 0..3: X_INTRODUCED_1_ :: is_defined_var;\narray [1..2] of var int: q :: output_array([1..2]) = [X_INTRODUCED_0_,X_INTRODUCED_1_];\nconstraint int_lin_le(X_INTRODUCED_2_,[X_INTRODUCED_0_,X_INTRODUCED_1_],-1) :: domain;\nsolve :: int_search(q,first_fail,indomain_min,complete) satisfy;\n",
        (2, 1, 1),
    ),
    // an annotation that is not an output array is dropped; of two the first counts
    (
        b"array [1..2] of var int: x :: output_array([]) = [1,2];solve satisfy;",
        (0, 0, 0),
    ),
    (
        b"array [1..2] of var int: x :: output_array([2..1]) = [1,2];solve satisfy;",
        (0, 0, 0),
    ),
    (
        b"array [1..2] of var int: x :: output_array = [1,2];solve satisfy;",
        (0, 0, 0),
    ),
    (
        b"array [1..2] of var int: x :: output_array([0..1,3..3]) :: output_array([1..3]) = [1,2];solve satisfy;",
        (0, 1, 0),
    ),
    // the type of an array's members limits nothing
    (
        b"array [1..1] of var 3..1: x = [1];solve satisfy;",
        (0, 0, 0),
    ),
    (
        b"array [1..1] of var int: x = [1];solve satisfy;",
        (0, 0, 0),
    ),
    // parameters by earlier ones, whole arrays and sets too
    (
        b"array [1..2] of int: p = [1,0x10];array [1..2] of int: q = p;int: n = q[2];set of int: s = 5..2;set of int: t = s;constraint set_in(n,t);constraint int_lin_eq(q,p,n);solve satisfy;",
        (0, 0, 2),
    ),
    (
        b"var {3,1,1,2}: x :: output_var;var bool: b :: output_var();solve minimize x;",
        (2, 0, 0),
    ),
    (
        b"var bool: b = true;array [1..2] of var bool: c = [b,false];constraint array_bool_and(c,c[1]);constraint bool_xor(b,b);constraint bool_xor(b,b,c[2]);solve satisfy;",
        (1, 0, 3),
    ),
    (
        b"constraint set_in(1,5..2);constraint set_in(1,{2,1,2});constraint bool_clause([],[]);solve satisfy;",
        (0, 0, 3),
    ),
    (
        b"var -85070591730234615865843651857942052863..85070591730234615865843651857942052863: x;solve maximize x;",
        (1, 0, 0),
    ),
    (
        b"var 1..1: float;constraint int_eq(float,-0o17);solve satisfy;",
        (1, 0, 1),
    ),
];

/// Each model has so many variables, shown arrays and calls.
fn models(rt: &impl Abort, alloc: Global) -> Result<(), Fail> {
    for (at, (text, expected)) in MODELS.iter().enumerate() {
        match read_model(alloc, text, None) {
            Ok(model) => assert!(rt; counts(&model) == *expected, "row {at}"),
            Err(_) => assert!(rt; false, "row {at}"),
        }
    }
    let bounded =
        b"var int: x;\nconstraint bool_clause([],[]);\nconstraint int_lin_le([],[],-1);\nsolve maximize x;\n";
    match read_model(alloc, bounded, Some(100)) {
        Ok(model) => {
            assert_eq!(rt; model.goal, Goal::Maximize(0));
            match (model.vars.as_slice(), model.calls.as_slice()) {
                ([x], [_, second]) => {
                    assert!(rt; x.domain.least() == -100 && second.place == 43)
                }
                _ => assert!(rt; false),
            }
        }
        Err(_) => assert!(rt; false),
    }
    Ok(())
}

const LONG: &[u8] =
    b"predicate p(a);array [1..2] of int: c = [1,-1];var 0..3: x :: output_var;var {1,5}: y = x;array [1..2] of var int: q :: output_array([1..2]) = [x,y];constraint int_lin_le(c,[x,y],-0x1) :: d(1.5e3,\"s\");solve :: s minimize q[1];";

// Where a text is refused that is cut off within a token that is then none or does not fit: the first and the last size,
// and the place. At every other size it ends too early, and the place is the end.
const CUTS: [(usize, usize, u64); 28] = [
    (1, 8, 0),
    (16, 19, 15),
    (24, 24, 23),
    (29, 29, 28),
    (32, 33, 31),
    (44, 44, 43),
    (48, 49, 47),
    (53, 53, 52),
    (60, 60, 59),
    (74, 75, 73),
    (91, 94, 90),
    (99, 99, 98),
    (104, 104, 103),
    (107, 108, 106),
    (111, 112, 110),
    (118, 118, 117),
    (136, 136, 135),
    (150, 158, 149),
    (163, 163, 160),
    (180, 180, 179),
    (182, 182, 181),
    (186, 186, 185),
    (192, 192, 191),
    (194, 194, 193),
    (197, 198, 196),
    (202, 205, 201),
    (208, 208, 207),
    (213, 219, 212),
];

// Where the first so many bytes of the long text are refused.
fn place_of_cut(size: usize) -> u64 {
    for (first, last, place) in CUTS.iter() {
        if *first <= size && size <= *last {
            return *place;
        }
    }
    size as u64
}

// Whether the first so many bytes of the long text are refused at the right place.
fn ends_at(alloc: Global, size: usize) -> bool {
    if size > LONG.len() {
        return false;
    }
    let expected = Fault {
        kind: Kind::Syntax,
        place: place_of_cut(size),
    };
    fault(alloc, &LONG[..size]) == Some(expected)
}

// So many brackets behind the beginning of a call.
fn nested(alloc: Global, levels: usize) -> Result<Vec<u8>, Fail> {
    let mut text = Vec::from_slice(alloc, b"constraint bool_clause(")?;
    for _ in 0..levels {
        text.push(b'[')?;
    }
    Ok(text)
}

/// A text that is cut off, and the levels of brackets.
fn ends(rt: &impl Abort, alloc: Global) -> Result<(), Fail> {
    one_reading();
    denotes_law();
    sound_reading();
    assert!(rt; read_model(alloc, LONG, None).is_ok());
    for size in 0..LONG.len() {
        assert!(rt; ends_at(alloc, size), "size {size}");
    }
    let deep = nested(alloc, 200)?;
    let depth = Fault {
        kind: Kind::Depth,
        place: 222,
    };
    assert!(rt; fault(alloc, deep.as_slice()) == Some(depth));
    let shallow = nested(alloc, 199)?;
    let end = Fault {
        kind: Kind::Syntax,
        place: 222,
    };
    assert!(rt; fault(alloc, shallow.as_slice()) == Some(end));
    Ok(())
}

// The words before, so many brackets, so many that close them, and the words behind.
fn bracketed(
    alloc: Global,
    before: &[u8],
    opened: usize,
    closed: usize,
    behind: &[u8],
) -> Result<Vec<u8>, Fail> {
    let mut text = Vec::from_slice(alloc, before)?;
    for _ in 0..opened {
        text.push(b'[')?;
    }
    for _ in 0..closed {
        text.push(b']')?;
    }
    text.extend_from_slice(behind)?;
    Ok(text)
}

/// Of 200 levels a text is accepted, and the bracket that opens one more is refused; so it is in a predicate.
fn levels(rt: &impl Abort, alloc: Global) -> Result<(), Fail> {
    let most = bracketed(alloc, b"solve :: a(", 199, 199, b") satisfy;")?;
    assert!(rt; read_model(alloc, most.as_slice(), None).is_ok());
    let more = bracketed(alloc, b"solve :: a(", 200, 200, b") satisfy;")?;
    let deep = Fault {
        kind: Kind::Depth,
        place: 210,
    };
    assert!(rt; fault(alloc, more.as_slice()) == Some(deep));
    let skipped = bracketed(alloc, b"predicate p", 200, 0, b";solve satisfy;")?;
    assert!(rt; read_model(alloc, skipped.as_slice(), None).is_ok());
    let sunk = bracketed(alloc, b"predicate p", 201, 0, b";solve satisfy;")?;
    let place = Fault {
        kind: Kind::Depth,
        place: 211,
    };
    assert!(rt; fault(alloc, sunk.as_slice()) == Some(place));
    Ok(())
}

// A set of 2,048 members, these declarations, 2,046 calls of 2,049 leaves each, and these calls: 4,194,302 leaves and
// those of the declarations and the calls given.
fn heavy(alloc: Global, declared: &[u8], called: &[u8]) -> Result<Vec<u8>, Fail> {
    let mut text = Vec::from_slice(alloc, b"set of int: s = {1")?;
    for _ in 0..2047 {
        text.extend_from_slice(b",1")?;
    }
    text.extend_from_slice(b"};")?;
    text.extend_from_slice(declared)?;
    for _ in 0..2046 {
        text.extend_from_slice(b"constraint set_in(1,s);")?;
    }
    text.extend_from_slice(called)?;
    text.extend_from_slice(b"solve satisfy;")?;
    Ok(text)
}

// Declarations and calls with two leaves or three, and where the text is too long, the bytes that it has behind the
// first byte of the call that passes the limit.
const LEAVES: [(&[u8], &[u8], Option<u64>); 8] = [
    (b"", b"constraint int_eq(1,1);", None),
    (b"", b"constraint bool_eq_reif(true,true,true);", Some(54)),
    (
        b"var 0..9: x = 3;array [1..2] of var int: a = [x,x];",
        b"",
        None,
    ),
    (b"array [1..3] of var int: a = [1,1,1];", b"", Some(37)),
    (b"var {5,5}: x;", b"", None),
    (b"var {5,5,5}: x;", b"", Some(37)),
    (b"set of int: t = 9..1;", b"", None),
    (b"", b"constraint set_in(1,1..9);", Some(40)),
];

// Whether the text is accepted, or refused for its leaves where so many bytes are left.
fn is_counted(alloc: Global, text: &[u8], behind: Option<u64>) -> bool {
    match (read_model(alloc, text, None), behind) {
        (Ok(_), None) => true,
        (Err(Stop::Refused(found)), Some(left)) => {
            let expected = Fault {
                kind: Kind::Many,
                place: (text.len() as u64).saturating_sub(left),
            };
            found == expected
        }
        _ => false,
    }
}

/// The leaves of calls, members of arrays and members of sets are at most 4,194,304.
fn leaves(rt: &impl Abort, alloc: Global) -> Result<(), Fail> {
    for (at, (declared, called, behind)) in LEAVES.iter().enumerate() {
        let text = heavy(alloc, declared, called)?;
        assert!(rt; is_counted(alloc, text.as_slice(), *behind), "row {at}");
    }
    Ok(())
}

#[test]
fn refusals(rt: HostRuntime) -> Result<(), Fail> {
    faults(&rt, rt.alloc())?;
    ends(&rt, rt.alloc())?;
    levels(&rt, rt.alloc())?;
    Ok(())
}

#[test]
fn readings(rt: HostRuntime) -> Result<(), Fail> {
    models(&rt, rt.alloc())?;
    leaves(&rt, rt.alloc())?;
    Ok(())
}
