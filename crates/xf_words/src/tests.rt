//! The words of the program's table, and what each kind of slot takes.

use crate::call::{Call, Command, Numbers, Which, file_word, pick};
use crate::rows::{Name, Slot, fit, read_call, rows_alone};
use std::alloc::Global;
use std::test::Fail;

// The words of a line, which are separated by single spaces.
fn words_of(alloc: Global, line: &str) -> Result<Vec<String>, Fail> {
    let mut words = Vec::new(alloc);
    for word in line.split(' ') {
        words.push(String::from_str(alloc, word)?)?;
    }
    Ok(words)
}

const NONE: Numbers = Numbers {
    bound: None,
    size: 0,
    number: 0,
};

#[test]
fn words_are_a_call_where_they_are_a_row(rt: HostRuntime) -> Result<(), Fail> {
    let alloc = rt.alloc();
    rows_alone();
    for file in ["i.xml", "-", "a-b", "/x/i.xml"] {
        let words = words_of(alloc, format!(in alloc; "to-fzn {file}")?.as_str())?;
        let call = Call {
            command: Command::ToFzn,
            numbers: NONE,
        };
        assert_eq!(rt; read_call(&words), Some(call), "{file}");
        assert_eq!(rt; file_word(Some(call), Which::File, &words), file);
        assert_eq!(rt; file_word(Some(call), Which::Solution, &words), "");
        assert_eq!(rt; pick(Which::Solution, "f", "s"), "s");
    }
    let lines = [
        "",
        "to-fzn",
        "to-fzn ",
        "to-fzn -x",
        "to-fzn --",
        "to-fzn i.xml i.xml",
        "to-fzn i.xml --bound 3",
        "TO-FZN i.xml",
        " to-fzn i.xml",
        "check - -",
        "make queens 0 1",
        "show",
        "show i.xml i.xml",
        "i.xml",
    ];
    for line in lines {
        let words = words_of(alloc, line)?;
        assert_eq!(rt; read_call(&words), None, "{line}");
    }
    assert_eq!(rt; read_call(&[]), None);
    assert_eq!(rt; file_word(None, Which::File, &[]), "");
    Ok(())
}

#[test]
fn slots_take_words(rt: HostRuntime) -> Result<(), Fail> {
    let alloc = rt.alloc();
    let slots = [
        Slot::Word(Name::ToFzn),
        Slot::Size(50),
        Slot::Number,
        Slot::Solution,
        Slot::Bound,
    ];
    let cases = [
        (
            "to-fzn 50 18446744073709551615 s 9223372036854775807",
            Some((50, u64::MAX, (1 << 63) - 1)),
        ),
        ("to-fzn 007 0 - 0", Some((7, 0, 0))),
        (
            "to-fzn 0000000000000000000000050 1 s 00000000000000000000000000000000",
            Some((50, 1, 0)),
        ),
        ("to-fzn 51 1 s 0", None),
        ("to-fzn 0 1 s 0", None),
        ("to-fzn 1 18446744073709551616 s 0", None),
        ("to-fzn 1 99999999999999999999999 s 0", None),
        ("to-fzn 1 1 s 9223372036854775808", None),
        ("to-fzn +1 1 s 0", None),
        ("to-fzn 1 -1 s 0", None),
        ("to-fzn  1 s 0", None),
        ("to-fzn 1 1x s 0", None),
        ("to-fzn 1 1 -s 0", None),
        ("to-fzn 1 1 s", None),
        ("to-fzn 1 1 s 0 0", None),
    ];
    for (line, expected) in cases {
        let words = words_of(alloc, line)?;
        let numbers = fit(&slots, &words, NONE);
        let found = match numbers {
            Some(numbers) => match numbers.bound {
                Some(bound) => Some((numbers.size, numbers.number, bound)),
                None => None,
            },
            None => None,
        };
        assert_eq!(rt; found, expected, "{line}");
    }
    Ok(())
}
