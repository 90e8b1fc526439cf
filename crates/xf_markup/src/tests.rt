ghost use Rattle.std.specs.Prelude.{◌≡◌, true, IfOk};
ghost use Rattle.xf_markup.specs.Written.{is_spelt};

use crate::tag::copied;
use crate::{Node, Piece, read_tree, write_tree};
use std::alloc::{AllocError, Global};
use std::process::Abort;
use xf_num::{NoMemory, Row};
use xf_text::{Fault, Kind, Stop};

// Why a text is refused, None where it has a tree.
fn stop_of(alloc: Global, text: &[u8]) -> Option<Stop> {
    match read_tree(alloc, text) {
        Ok(_) => None,
        Err(stop) => Some(stop),
    }
}

fn syntax(place: u64) -> Option<Stop> {
    Some(Stop::Refused(Fault {
        kind: Kind::Syntax,
        place,
    }))
}

fn too_deep(place: u64) -> Option<Stop> {
    Some(Stop::Refused(Fault {
        kind: Kind::Depth,
        place,
    }))
}

fn texts_with_a_tree(rt: &impl Abort, alloc: Global) {
    let texts = [
        "<a/>",
        "<a></a>",
        "<a />",
        "<a></a\n>",
        "\n<a/>\r\t ",
        "<!--c--><a/><!--d-->",
        "<a><!----></a>",
        "<a b=\"x\" c = '\"&>'>t<d/><!-- < -- -->u</a >\n",
        "<_a-b.c:d9 _x='1'/>",
        "<a b='1\n2' B=''>x ]]> y</a>",
        "\u{FEFF}<a/>",
        "<?xml?><a/>",
        "<?xml version='1.0'?>\n<a/>",
        "\u{FEFF}<?xml v?> <a/>",
    ];
    for text in texts {
        assert_eq!(rt; stop_of(alloc, text.as_bytes()), None);
    }
}

fn texts_that_are_cut_or_of_wrong_tokens(rt: &impl Abort, alloc: Global) {
    let cases = [
        ("", 0),
        (" ", 1),
        ("x", 0),
        ("<a", 0),
        ("<a>", 3),
        ("<a></a", 3),
        ("<a><c>", 6),
        ("<a>&</a>", 3),
        ("<a>x&amp;</a>", 4),
        ("<a b=\"x\"c=\"y\"/>", 0),
        ("<a/ >", 0),
        ("< a/>", 0),
        ("<a></ a>", 3),
        ("<a b/>", 0),
        ("<a b=1/>", 0),
        ("<a b=\"<\"/>", 0),
        ("<a b='1''/>", 0),
        ("<1a/>", 0),
        ("<-a/>", 0),
        ("<a><!--></a>", 3),
        ("<!-- <a/>", 0),
        ("<a><?p?></a>", 3),
        (" <?xml?><a/>", 1),
        ("<?xml <a/>", 0),
        ("<?xml?>", 7),
        ("<!DOCTYPE a><a/>", 0),
        ("<a><![CDATA[x]]></a>", 3),
        ("\u{FEFF}", 3),
        ("\u{FEFF}\u{FEFF}<a/>", 3),
    ];
    for (text, place) in cases {
        assert_eq!(rt; stop_of(alloc, text.as_bytes()), syntax(place));
    }
}

fn tokens_that_do_not_fit(rt: &impl Abort, alloc: Global) {
    let cases = [
        ("<a></b>", 3),
        ("</a>", 0),
        ("<a/> x", 4),
        ("x<a/>", 0),
        ("<a/><a/>", 4),
        ("<a/></a>", 4),
        ("<a/>&", 4),
        ("<a/><!--c--> <b/>", 13),
        ("<a><b></a></b>", 6),
        (" <a b='' b=''/>", 1),
        ("<a><b x='1' y='1' x='2'></b></a>", 3),
    ];
    for (text, place) in cases {
        assert_eq!(rt; stop_of(alloc, text.as_bytes()), syntax(place));
    }
}

fn a_text_cut_after_each_byte(rt: &impl Abort, alloc: Global) {
    let text = b"<a b=\"1\">x</a>";
    let places = [0, 0, 0, 0, 0, 0, 0, 0, 0, 9, 10, 10, 10, 10];
    for (len, place) in places.iter().enumerate() {
        assert_eq!(rt; stop_of(alloc, &text[..len]), syntax(*place));
    }
    assert_eq!(rt; stop_of(alloc, text), None);
}

// So many open tags, then the bytes, then so many end tags.
fn nested(alloc: Global, open: usize, inside: &[u8], close: usize) -> Result<Vec<u8>, AllocError> {
    let mut text = Vec::new(alloc);
    for _ in 0..open {
        text.extend_from_slice(b"<b>")?;
    }
    text.extend_from_slice(inside)?;
    for _ in 0..close {
        text.extend_from_slice(b"</b>")?;
    }
    Ok(text)
}

fn levels(rt: &impl Abort, alloc: Global) -> Result<(), AllocError> {
    assert_eq!(rt; stop_of(alloc, &nested(alloc, 200, b"x", 200)?), None);
    assert_eq!(rt;
        stop_of(alloc, &nested(alloc, 199, b"<b/><b/>", 199)?),
        None
    );
    assert_eq!(rt;
        stop_of(alloc, &nested(alloc, 201, b"", 201)?),
        too_deep(600)
    );
    assert_eq!(rt; stop_of(alloc, &nested(alloc, 201, b"", 0)?), too_deep(600));
    assert_eq!(rt;
        stop_of(alloc, &nested(alloc, 200, b"<b/>", 200)?),
        too_deep(600)
    );
    assert_eq!(rt;
        stop_of(alloc, &nested(alloc, 200, b"<b a='' a=''/>", 200)?),
        syntax(600)
    );
    assert_eq!(rt;
        stop_of(alloc, &nested(alloc, 200, b"</c><b>", 0)?),
        syntax(600)
    );
    Ok(())
}

#[test]
fn pieces_are_joined(rt: HostRuntime) -> Result<(), Stop> {
    let node = read_tree(rt.alloc(), b"<a b=\"x\"><!--c-->t<d/>u<!--e-->v</a>")?;
    assert_eq!(rt; node.name.as_slice(), b"a".as_slice());
    assert_eq!(rt; node.place, 0);
    assert_eq!(rt; node.attrs.len(), 1);
    assert_eq!(rt; node.attrs.as_slice()[0].value.as_slice(), b"x".as_slice());
    match node.pieces.as_slice() {
        [
            Piece::Words(before),
            Piece::Inner(inner),
            Piece::Words(after),
        ] => {
            assert_eq!(rt; before.as_slice(), b" t".as_slice());
            assert_eq!(rt; inner.place, 18);
            assert_eq!(rt; after.as_slice(), b"u v".as_slice());
        }
        _ => assert!(rt; false),
    }
    Ok(())
}

// The element `<a></a>`.
fn leaf(alloc: Global) -> Result<Node, NoMemory>
    ensures { IfOk result (λ node. is_spelt node ≡ true) }
{
    let name = copied(alloc, b"a")?;
    Ok(Node {
        name,
        attrs: Row::new(alloc),
        pieces: Row::new(alloc),
        place: 0,
    })
}

#[test]
fn a_tree_is_written(rt: HostRuntime) -> Result<(), NoMemory> {
    let alloc = rt.alloc();
    let text = write_tree(alloc, &leaf(alloc)?)?;
    assert_eq!(rt; text.as_slice(), b"<a></a>".as_slice());
    assert_eq!(rt; stop_of(alloc, &text), None);
    Ok(())
}

#[test]
fn trees(rt: HostRuntime) -> Result<(), AllocError> {
    texts_with_a_tree(&rt, rt.alloc());
    texts_that_are_cut_or_of_wrong_tokens(&rt, rt.alloc());
    tokens_that_do_not_fit(&rt, rt.alloc());
    a_text_cut_after_each_byte(&rt, rt.alloc());
    levels(&rt, rt.alloc())?;
    Ok(())
}
