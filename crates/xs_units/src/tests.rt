use crate::{
    is_circular, is_form, is_form_known, judge_container, judge_group, judge_slide, list_in,
    next_child, offset_text, template_in,
};
use std::alloc::Global;
use std::test::Fail;
use xf_markup::{Node, read_tree};
use xf_text::Stop;
use xs_fields::Condition;

/// What an element misses first as a block, as a group and as a slide, and whether it is a constraint of a known form.
type Judged = (
    Option<Condition>,
    Option<Condition>,
    Option<Condition>,
    bool,
);

fn judged(alloc: Global, text: &[u8]) -> Result<Judged, Stop> {
    let node = read_tree(alloc, text)?;
    let block = judge_container(alloc, &node)?;
    let group = judge_group(alloc, &node)?;
    let slide = judge_slide(alloc, &node)?;
    Ok((block, group, slide, is_form_known(&node)))
}

#[test]
fn judges_containers(rt: HostRuntime) -> Result<(), Fail> {
    let known = Some(Condition::Known);
    let spelling = Some(Condition::Spelling);
    let rows: [(&[u8], Judged); 13] = [
        (b"<a/>", (None, spelling, spelling, false)),
        (b"<a rank=\"1\"> v </a>", (known, known, known, false)),
        (b"<a> v </a>", (spelling, spelling, spelling, false)),
        (
            b"<intension id=\"a\"><function class=\"b\"> v </function></intension>",
            (None, None, known, true),
        ),
        (b"<a><intension/><args/></a>", (None, None, known, false)),
        (
            b"<a><args/><intension/></a>",
            (None, spelling, known, false),
        ),
        (
            b"<a><intension/><allDifferent/></a>",
            (None, spelling, None, false),
        ),
        (
            b"<a><intension/><stretch/></a>",
            (None, known, known, false),
        ),
        (
            b"<a circular=\"true\"><list offset=\"2\"> v </list><intension/></a>",
            (known, known, None, false),
        ),
        (
            b"<a circular=\"yes\"><list/><intension/></a>",
            (known, known, known, false),
        ),
        (
            b"<a><list><v/></list><intension/></a>",
            (None, spelling, known, false),
        ),
        (
            b"<intension><list/></intension>",
            (None, None, spelling, false),
        ),
        (
            b"<allDifferent><list><v/></list></allDifferent>",
            (None, None, known, false),
        ),
    ];
    for (text, want) in rows {
        match judged(rt.alloc(), text) {
            Ok(judged) => assert!(rt; judged == want),
            Err(_) => assert!(rt; false),
        }
    }
    assert!(rt; is_form(b"allDifferent") && is_form(b"intension") && !is_form(b"group"));
    Ok(())
}

// Whether the element has a list at this place and a template at that.
fn are_at(node: &Node, list: u64, template: u64) -> bool {
    let pieces = node.pieces.as_slice();
    match (list_in(pieces), template_in(pieces)) {
        (Some(a), Some(b)) => a.place == list && b.place == template,
        _ => false,
    }
}

#[test]
fn finds_the_parts_of_slides(rt: HostRuntime) -> Result<(), Fail> {
    let Ok(node) = read_tree(rt.alloc(), b"<a> v <intension/><list/><list/></a>") else {
        panic!(rt; "not read");
    };
    assert!(rt; are_at(&node, 18, 6));
    match next_child(node.pieces.as_slice()) {
        Some((child, _)) => assert_eq!(rt; child.place, 6),
        None => assert!(rt; false),
    }
    assert!(rt; is_circular(Some(b"true")) && !is_circular(Some(b"false")) && !is_circular(None));
    assert!(rt; offset_text(Some(b"3")) == b"3".as_slice() && offset_text(None) == b"1".as_slice());
    Ok(())
}
