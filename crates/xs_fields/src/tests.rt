use crate::{
    Condition, earlier, is_blank, is_identifier, judge_identifier, judge_integer, judge_pieces,
    judge_sizes, next_word, read_identifier, read_integer, read_ints, read_pieces, read_sizes,
    read_vars, read_word,
};
use std::alloc::Global;
use std::process::Abort;
use xf_text::{FieldStop, Kind};
use xs_model::Names;

/// 2^126, the least magnitude that is too great.
const GREAT: &[u8] = b"85070591730234615865843651857942052864";

fn lists_of_integers(rt: &impl Abort, alloc: Global) {
    let names = Names::new(alloc);
    let accepted: [(&[u8], &[i128]); 7] = [
        (b"", &[]),
        (b" \t\r\n", &[]),
        (b"1 -2 +3", &[1, -2, 3]),
        (b"0x3\n7", &[0, 0, 0, 7]),
        (b"-1x+2 007", &[-1, -1, 7]),
        (b"  5x1  ", &[5]),
        (
            b"85070591730234615865843651857942052863",
            &[85070591730234615865843651857942052863],
        ),
    ];
    for (text, want) in accepted {
        match read_ints(alloc, text, &names, 4) {
            Ok(ints) => assert_eq!(rt; ints.as_slice(), want),
            Err(_) => assert!(rt; false),
        }
    }
}

fn refused_lists_of_integers(rt: &impl Abort, alloc: Global) {
    let names = Names::new(alloc);
    let refused: [(&[u8], Kind); 18] = [
        (b"1x0", Kind::Shape),
        (b"1x-1", Kind::Shape),
        (b"1x-170141183460469231731687303715884105729", Kind::Shape),
        (b"x3", Kind::Shape),
        (b"1x", Kind::Shape),
        (b"1x2x3", Kind::Shape),
        (b"1,2", Kind::Shape),
        (b"1..2", Kind::Shape),
        (b"+", Kind::Shape),
        (b"+-1", Kind::Shape),
        (b"1\x0b2", Kind::Shape),
        (b"85070591730234615865843651857942052864 y", Kind::Shape),
        (b"85070591730234615865843651857942052864", Kind::Range),
        (b"-85070591730234615865843651857942052864", Kind::Range),
        (b"1x170141183460469231731687303715884105728", Kind::Range),
        (
            b"1x99999999 85070591730234615865843651857942052864",
            Kind::Range,
        ),
        (b"1x99999999", Kind::Many),
        (b"1 2 3 4 5", Kind::Many),
    ];
    for (text, want) in refused {
        match read_ints(alloc, text, &names, 4) {
            Ok(_) => assert!(rt; false),
            Err(stop) => assert_eq!(rt; stop, FieldStop::Refused(want)),
        }
    }
}

fn domain_texts(rt: &impl Abort, alloc: Global) {
    let accepted: [(&[u8], &[(i128, i128)]); 4] = [
        (b" ", &[]),
        (b"3 1..2", &[(3, 3), (1, 2)]),
        (b"-5..+5\t-0", &[(-5, 5), (0, 0)]),
        (b"1..1 1", &[(1, 1), (1, 1)]),
    ];
    for (text, want) in accepted {
        match read_pieces(alloc, text) {
            Ok(pieces) => {
                assert_eq!(rt; pieces.len(), want.len());
                for (piece, (low, high)) in pieces.as_slice().iter().zip(want) {
                    assert_eq!(rt; piece.lo(), *low);
                    assert_eq!(rt; piece.hi(), *high);
                }
            }
            Err(_) => assert!(rt; false),
        }
    }
    let refused: [(&[u8], Condition); 9] = [
        (b"2..1", Condition::Spelling),
        (b"0 ..1", Condition::Spelling),
        (b"0...1", Condition::Spelling),
        (b"1x2", Condition::Spelling),
        (b"1..2..3", Condition::Spelling),
        (
            b"340282366920938463463374607431768211456..5",
            Condition::Spelling,
        ),
        (
            b"340282366920938463463374607431768211457..340282366920938463463374607431768211456",
            Condition::Spelling,
        ),
        (
            b"5..340282366920938463463374607431768211456",
            Condition::Magnitude,
        ),
        (
            b"-340282366920938463463374607431768211457..-340282366920938463463374607431768211456",
            Condition::Magnitude,
        ),
    ];
    for (text, want) in refused {
        assert_eq!(rt; judge_pieces(text), Some(want));
        match read_pieces(alloc, text) {
            Ok(_) => assert!(rt; false),
            Err(stop) => assert_eq!(rt; stop, FieldStop::Refused(want.kind())),
        }
    }
}

fn sizes_of_arrays(rt: &impl Abort, alloc: Global) {
    let accepted: [(&[u8], &[i128]); 3] = [
        (b"[2][3]", &[2, 3]),
        (b"[07]", &[7]),
        (b"[0][-1]", &[0, -1]),
    ];
    for (text, want) in accepted {
        match read_sizes(alloc, text) {
            Ok(sizes) => assert_eq!(rt; sizes.as_slice(), want),
            Err(_) => assert!(rt; false),
        }
    }
    let refused: [(&[u8], Condition); 9] = [
        (b"", Condition::Spelling),
        (b"2", Condition::Spelling),
        (b"[]", Condition::Spelling),
        (b"[2] [3]", Condition::Spelling),
        (b"[2", Condition::Spelling),
        (b"[2]]", Condition::Spelling),
        (b"x[2]", Condition::Spelling),
        (
            b"[85070591730234615865843651857942052864][",
            Condition::Spelling,
        ),
        (
            b"[85070591730234615865843651857942052864]",
            Condition::Magnitude,
        ),
    ];
    for (text, want) in refused {
        assert_eq!(rt; judge_sizes(text), Some(want));
        match read_sizes(alloc, text) {
            Ok(_) => assert!(rt; false),
            Err(stop) => assert_eq!(rt; stop, FieldStop::Refused(want.kind())),
        }
    }
}

fn single_words(rt: &impl Abort, alloc: Global) {
    assert_eq!(rt; read_integer(b"-012"), Ok(-12));
    assert_eq!(rt; read_integer(b"1 "), Err(Condition::Spelling));
    assert_eq!(rt; read_integer(GREAT), Err(Condition::Magnitude));
    assert_eq!(rt; judge_integer(b"+4"), None);
    let cases: [(&[u8], bool); 6] = [
        (b"x_1", true),
        (b"_Za", true),
        (b"1xa", false),
        (b"a-b", false),
        (b" ab", false),
        (b"", false),
    ];
    for (text, want) in cases {
        assert_eq!(rt; is_identifier(text), want);
        assert_eq!(rt; judge_identifier(text).is_none(), want);
        match read_identifier(alloc, text) {
            Ok(name) => assert_eq!(rt; name.as_slice(), text),
            Err(stop) => assert_eq!(rt; stop, FieldStop::Refused(Kind::Shape)),
        }
    }
}

fn words_and_conditions(rt: &impl Abort) {
    assert!(rt; is_blank(b" \t\r\n"));
    assert!(rt; !is_blank(b" \x0c"));
    match next_word(b"\n ab c") {
        Some((word, more)) => {
            assert_eq!(rt; word, b"ab".as_slice());
            assert_eq!(rt; more, b" c".as_slice());
        }
        None => assert!(rt; false),
    }
    assert_eq!(rt;
        earlier(Some(Condition::Naming), Some(Condition::Spelling)),
        Some(Condition::Spelling)
    );
    assert_eq!(rt;
        earlier(None, Some(Condition::Fitting)),
        Some(Condition::Fitting)
    );
}

fn variable_words(rt: &impl Abort, alloc: Global) {
    let right: [(&[u8], usize, bool); 5] = [
        (b"x", 0, true),
        (b"x_1[+3][0]", 2, true),
        (b"x[]", 1, false),
        (b"x[1..2][7]", 2, false),
        (b"x[-1..-1]", 1, false),
    ];
    for (text, brackets, is_direct) in right {
        match read_word(alloc, text) {
            Ok(word) => {
                assert_eq!(rt; word.brackets.len(), brackets);
                assert_eq!(rt; word.is_direct(), is_direct);
            }
            Err(_) => assert!(rt; false),
        }
    }
    let names = Names::new(alloc);
    let refused: [(&[u8], Kind); 9] = [
        (b"x", Kind::Name),
        (b"x[1] y[]", Kind::Name),
        (b"x 1y", Kind::Shape),
        (b"x[2..1]", Kind::Shape),
        (b"x[1]y", Kind::Shape),
        (b"x[1", Kind::Shape),
        (b"x[ 1]", Kind::Shape),
        (b"x[85070591730234615865843651857942052864] [", Kind::Shape),
        (b"x[85070591730234615865843651857942052864]", Kind::Range),
    ];
    for (text, want) in refused {
        match read_vars(alloc, text, &names, 9) {
            Ok(_) => assert!(rt; false),
            Err(stop) => assert_eq!(rt; stop, FieldStop::Refused(want)),
        }
    }
    match read_vars(alloc, b" ", &names, 0) {
        Ok(vars) => assert!(rt; vars.is_empty()),
        Err(_) => assert!(rt; false),
    }
}

#[test]
fn integers(rt: HostRuntime) {
    lists_of_integers(&rt, rt.alloc());
    refused_lists_of_integers(&rt, rt.alloc());
    domain_texts(&rt, rt.alloc());
    sizes_of_arrays(&rt, rt.alloc());
}

#[test]
fn words(rt: HostRuntime) {
    single_words(&rt, rt.alloc());
    words_and_conditions(&rt);
    variable_words(&rt, rt.alloc());
}
