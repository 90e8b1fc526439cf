use crate::{judge_var, judge_variables, scan_var};
use std::alloc::Global;
use std::test::Fail;
use xf_markup::read_tree;
use xs_fields::Condition;
use xs_model::Names;

// What the one element of a text misses first as a `var` that nothing is declared before.
fn missed(alloc: Global, text: &[u8]) -> Result<Option<Condition>, Fail> {
    match read_tree(alloc, text) {
        Ok(node) => {
            let names = Names::new(alloc);
            let read = scan_var(alloc, &node, &[], &names)?;
            let domain = read.value.as_ref();
            Ok(judge_var(&node, &[], &names, 0, 0, read.missed, domain))
        }
        Err(_) => Ok(Some(Condition::Nesting)),
    }
}

#[test]
fn conditions_on_a_var(rt: HostRuntime) -> Result<(), Fail> {
    let cases: [(&[u8], Option<Condition>); 13] = [
        (b"<var id=\"x\"> 0..3 </var>", None),
        (
            b"<var id=\"x\" type=\"integer\" class=\"c\" note=\"n\"> 7 0..3 2 </var>",
            None,
        ),
        (b"<var id=\"x\" foo=\"1\"> 0 </var>", Some(Condition::Known)),
        (
            b"<var id=\"x\" type=\"real\"> 0 </var>",
            Some(Condition::Known),
        ),
        (b"<var id=\"x\"> 0 <a/></var>", Some(Condition::Known)),
        (b"<var> 0 </var>", Some(Condition::Spelling)),
        (b"<var id=\" x\"> 0 </var>", Some(Condition::Spelling)),
        (b"<var id=\"x\"> 1..0 </var>", Some(Condition::Spelling)),
        (
            b"<var id=\"x\" as=\"y\"> 0 </var>",
            Some(Condition::Spelling),
        ),
        (
            b"<var id=\"x\"> 85070591730234615865843651857942052864 0 </var>",
            Some(Condition::Magnitude),
        ),
        (b"<var id=\"x\" as=\"y\"> </var>", Some(Condition::Naming)),
        (
            b"<var id=\"x\"> 0 9000000..18000000 </var>",
            Some(Condition::Counting),
        ),
        (b"<var id=\"x\"> </var>", Some(Condition::Fitting)),
    ];
    for (text, want) in cases {
        assert_eq!(rt; missed(rt.alloc(), text)?, want);
    }
    Ok(())
}

#[test]
fn conditions_on_variables(rt: HostRuntime) -> Result<(), Fail> {
    let cases: [(&[u8], Option<Condition>); 5] = [
        (b"<variables/>", None),
        (b"<variables note=\"n\"> <var/> <array/> </variables>", None),
        (b"<variables id=\"v\"/>", Some(Condition::Known)),
        (b"<variables> 0 <list/></variables>", Some(Condition::Known)),
        (
            b"<variables> 0 <var/></variables>",
            Some(Condition::Spelling),
        ),
    ];
    for (text, want) in cases {
        match read_tree(rt.alloc(), text) {
            Ok(node) => assert_eq!(rt; judge_variables(rt.alloc(), &node)?, want),
            Err(_) => assert!(rt; false),
        }
    }
    Ok(())
}
