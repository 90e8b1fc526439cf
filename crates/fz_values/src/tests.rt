//! What texts and expressions stand for, where `x` is the integer variable 0, `t` is true and `a` the array of `x` and 5.

ghost use Rattle.std.specs.Prelude.{◌≡◌, IfOk};

use crate::{
    Found, Meaning, Names, Single, Sort, arg_in, count_in, fits, int_of, members_in, one_in,
    reaches, set_in, single_in,
};
use fz_grammar::Expr;
use fz_model::{Arg, Asked, Kind};
use std::alloc::Global;
use std::test::Fail;
use xf_num::{NoMemory, Row, Text};

fn text(alloc: Global, bytes: &[u8]) -> Result<Text, NoMemory> {
    let mut row = Row::new(alloc);
    row.extend(bytes)?;
    Ok(row)
}

fn name(alloc: Global, bytes: &[u8]) -> Result<Expr, NoMemory> {
    Ok(Expr::Name(text(alloc, bytes)?))
}

// The meaning of each of these names.
fn meaning(alloc: Global, name: &[u8]) -> Result<Meaning, NoMemory> {
    match name {
        b"x" => Ok(Meaning::One(Single::IntVar(0))),
        b"t" => Ok(Meaning::One(Single::Bool(true))),
        _ => {
            let mut members = Row::new(alloc);
            members.extend(&[Single::IntVar(0), Single::Int(5)])?;
            Ok(Meaning::Array(Sort::IntVar, members))
        }
    }
}

fn names(alloc: Global) -> Result<Names, Fail> {
    let mut names = Names::new(alloc);
    let spelt: [&[u8]; 3] = [b"x", b"t", b"a"];
    for word in spelt {
        if names.find(word).is_none() {
            let mut owned = Vec::new(alloc);
            owned.extend_from_slice(word)?;
            names.declare(owned, meaning(alloc, word)?)?;
        }
    }
    Ok(names)
}

#[test]
fn integers(rt: HostRuntime) {
    let cases: [(&[u8], i128); 6] = [
        (b"0", 0),
        (b"-7", -7),
        (b"007", 7),
        (b"0x1F", 31),
        (b"-0xff", -255),
        (b"0o17", 15),
    ];
    for (text, value) in cases {
        assert_eq!(rt; int_of(text), value);
    }
}

#[test]
fn expressions(rt: HostRuntime) -> Result<(), Fail> {
    let alloc = rt.alloc();
    let names = names(alloc)?;
    let (x, a, unknown) = (name(alloc, b"x")?, name(alloc, b"a")?, name(alloc, b"y")?);
    let past = Expr::Index(text(alloc, b"a")?, text(alloc, b"3")?);
    let second = Expr::Index(text(alloc, b"a")?, text(alloc, b"2")?);
    assert_eq!(rt; one_in(&names, &x), Found::Here(Single::IntVar(0)));
    assert_eq!(rt; one_in(&names, &a), Found::Other);
    assert_eq!(rt; one_in(&names, &unknown), Found::Other);
    assert_eq!(rt; one_in(&names, &past), Found::Past(Sort::IntVar));
    assert_eq!(rt; single_in(&names, &second), Single::Int(5));
    assert_eq!(rt; fits(&names, Kind::One(Asked::Int), &x), true);
    assert_eq!(rt; fits(&names, Kind::One(Asked::Bool), &x), false);
    assert_eq!(rt; fits(&names, Kind::Many(Asked::Int), &a), true);
    assert_eq!(rt; reaches(&names, Kind::One(Asked::Int), &past), false);
    assert_eq!(rt; count_in(&names, &a), 2);
    assert_eq!(rt; members_in(alloc, &names, &a)?.len(), 2);
    match arg_in(alloc, &names, Kind::Many(Asked::Int), &a)? {
        Arg::List(list) => assert_eq!(rt; list.len(), 2),
        _ => assert!(rt; false),
    }
    let _ = set_in(
        alloc,
        &names,
        &Expr::Range(text(alloc, b"5")?, text(alloc, b"2")?),
    )?;
    Ok(())
}
