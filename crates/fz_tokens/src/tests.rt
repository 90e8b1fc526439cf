use crate::{Sort, next};

const TOKENS: [(&[u8], Sort, usize, usize); 24] = [
    (b"abc_1 x", Sort::Name, 5, 7),
    (b"_", Sort::Name, 1, 1),
    (b"floats;", Sort::Name, 6, 7),
    (b"intx", Sort::Name, 4, 4),
    (b" \t\r\nint x", Sort::Fixed, 3, 5),
    (b"% a ; b\n::x", Sort::Fixed, 2, 3),
    (b":x", Sort::Fixed, 1, 2),
    (b"-12x", Sort::Number, 3, 4),
    (b"1..5", Sort::Number, 1, 4),
    (b"1.", Sort::Number, 1, 2),
    (b"1e", Sort::Number, 1, 2),
    (b"0x", Sort::Number, 1, 2),
    (b"-0x1fG", Sort::Number, 5, 6),
    (b"0o178", Sort::Number, 4, 5),
    (b"1.5..2", Sort::Decimal, 3, 6),
    (b"-1.5e-30x", Sort::Decimal, 8, 9),
    (b"1E+2", Sort::Decimal, 4, 4),
    (b"..1", Sort::Fixed, 2, 3),
    (b".1", Sort::Junk, 0, 2),
    (b"-x", Sort::Junk, 0, 2),
    (b"\"a\\\"b\"c", Sort::Words, 6, 7),
    (b"\"a\nb\"", Sort::Junk, 0, 5),
    (b"\"a", Sort::Junk, 0, 2),
    (b"~", Sort::Junk, 0, 1),
];

/// The first token of each text, its length, and how many bytes the text has from there on.
#[test]
fn first_tokens(rt: HostRuntime) {
    for (at, (text, sort, size, left)) in TOKENS.iter().enumerate() {
        match next(text) {
            Some(found) => assert!(rt;
                found.sort == *sort && found.bytes.len() == *size && found.left == *left,
                "row {at}"
            ),
            None => assert!(rt; false, "row {at}"),
        }
    }
    assert!(rt; next(b" % end").is_none());
}
