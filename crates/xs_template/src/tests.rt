use crate::{
    ByWords, alike_places, asked_by, concrete_of, cut_text, fill, fill_window, made_from,
    next_start, room, template_asks, template_of, template_open,
};
use std::alloc::Global;
use std::test::Fail;
use xf_markup::{Node, read_tree};
use xf_num::{NoMemory, Row, Text};
use xs_fields::next_word;
use xs_model::Concrete;

fn words(alloc: Global, text: &[u8]) -> Result<Row<Text>, NoMemory> {
    let mut words = Row::new(alloc);
    let mut rest = text;
    while let Some((word, more)) = next_word(rest) {
        let mut copy = Row::new(alloc);
        copy.extend(word)?;
        words.push(copy)?;
        rest = more;
    }
    Ok(words)
}

// The text with its gaps filled by these words.
fn filled(alloc: Global, text: &[u8], list: &[u8]) -> Result<Text, NoMemory> {
    let spots = cut_text(alloc, text)?;
    let list = words(alloc, list)?;
    let asked = asked_by(spots.as_slice()) as usize;
    fill(alloc, spots.as_slice(), list.as_slice(), asked)
}

// The text with its gaps filled by the window from `start` on.
fn window(alloc: Global, text: &[u8], list: &[u8], start: usize) -> Result<Text, NoMemory> {
    let spots = cut_text(alloc, text)?;
    let list = words(alloc, list)?;
    let asked = asked_by(spots.as_slice()) as usize;
    fill_window(alloc, spots.as_slice(), list.as_slice(), start, asked)
}

#[test]
fn fills_texts(rt: HostRuntime) -> Result<(), Fail> {
    let rows: [(&[u8], &[u8], &[u8]); 9] = [
        (b"eq(%0,%1)", b"a 3", b"eq(a,3)"),
        (b"%10%0", b"0 1 2 3 4 5 6 7 8 9 z", b"z0"),
        (b"%0 %1", b"%1 %...", b"%1 %..."),
        (b"%0;%...;%...", b"a b c", b"a;b c;b c"),
        (b"%...", b"", b""),
        (b"%% %x 7%", b"a", b"%% %x 7%"),
        (b"%01", b"a b", b"b"),
        (b"%0%99999999999999999999", b"a b", b"a"),
        (b"", b"a", b""),
    ];
    for (text, list, want) in rows {
        let made = filled(rt.alloc(), text, list)?;
        assert!(rt; made.as_slice() == want);
    }
    let rows: [(&[u8], &[u8], usize, &[u8]); 3] = [
        (b"%0 %1", b"a b c", 1, b"b c"),
        (b"%1 %0", b"a b c", 2, b"a c"),
        (b"%0 %4", b"a b c d e", 4, b"e d"),
    ];
    for (text, list, start, want) in rows {
        let made = window(rt.alloc(), text, list, start)?;
        assert!(rt; made.as_slice() == want);
    }
    assert_eq!(rt; next_start(0, 2, 5), 2);
    assert_eq!(rt; next_start(0, 7, 5), 5);
    assert_eq!(rt; room(false, 2, 3), 2);
    assert_eq!(rt; room(true, 2, 3), 3);
    assert_eq!(rt; room(false, 5, 3), 0);
    alike_places();
    Ok(())
}

// Appends a constraint's name, and its parts, each behind its name and a colon.
fn push_shown(shown: &mut Vec<u8>, made: &Concrete) -> Result<(), NoMemory> {
    shown.extend_from_slice(made.name.as_slice())?;
    for part in made.parts.as_slice() {
        shown.push(b';')?;
        shown.extend_from_slice(part.name.as_slice())?;
        shown.push(b':')?;
        shown.extend_from_slice(part.text.as_slice())?;
    }
    Ok(())
}

// What a template makes of words, shown, and what the element is as it stands.
fn made(alloc: Global, node: &Node, list: &[u8]) -> Result<Vec<u8>, NoMemory> {
    let template = template_of(alloc, node)?;
    let list = words(alloc, list)?;
    let by = ByWords {
        words: list.as_slice(),
        asked: template_asks(&template) as usize,
    };
    let made = made_from(alloc, &template, &by, 7)?;
    let same = concrete_of(alloc, node)?;
    let mut shown = Vec::new(alloc);
    push_shown(&mut shown, &made)?;
    if template_open(&template) {
        shown.push(b'+')?;
    }
    shown.push(b'|')?;
    push_shown(&mut shown, &same)?;
    Ok(shown)
}

#[test]
fn makes_constraints(rt: HostRuntime) -> Result<(), Fail> {
    let rows: [(&[u8], &[u8], &[u8]); 4] = [
        (
            b"<sum><list>%...</list><coeffs>%1 %0</coeffs></sum>",
            b"2 3 c d",
            b"sum;list:c d;coeffs:3 2+|sum;list:%...;coeffs:%1 %0",
        ),
        (b"<a>%...</a>", b"", b"a+|a;:%..."),
        (b"<a>%0<b> x </b></a>", b"y", b"a;:y;b: x |a;:%0;b: x "),
        (b"<a> <b/></a>", b"y", b"a;b:|a;b:"),
    ];
    for (text, list, want) in rows {
        match read_tree(rt.alloc(), text) {
            Ok(node) => assert!(rt; made(rt.alloc(), &node, list)?.as_slice() == want),
            Err(_) => assert!(rt; false),
        }
    }
    Ok(())
}
