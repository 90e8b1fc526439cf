use crate::{is_objective_known, read_objective, write_objective, written_again};
use std::alloc::Global;
use std::test::Fail;
use xf_markup::read_tree;
use xf_num::Row;
use xf_text::{FieldStop, Kind};
use xs_model::{Body, Decls, Direction, Names, Objective};
use xs_template::concrete_of;

// The kind of fault of an objective over no variables, where so many items may still come.
fn fault(alloc: Global, text: &[u8], left: u64) -> Option<Kind> {
    let names = Names::new(alloc);
    let Ok(node) = read_tree(alloc, text) else {
        return Some(Kind::Syntax);
    };
    if !is_objective_known(&node) {
        return Some(Kind::Unknown);
    }
    let Ok(made) = concrete_of(alloc, &node) else {
        return None;
    };
    match read_objective(alloc, &made, &names, left) {
        Err(FieldStop::Refused(kind)) => Some(kind),
        _ => None,
    }
}

#[test]
fn refuses_by_the_first_condition(rt: HostRuntime) -> Result<(), Fail> {
    let rows: [(&[u8], u64, Option<Kind>); 20] = [
        (b"<minimize> add(1,2) </minimize>", 3, None),
        (
            b"<maximize id=\"a\" type=\"expression\" class=\"b\" note=\"c\">7</maximize>",
            1,
            None,
        ),
        (b"<minimize type=\"sum\"/>", 0, None),
        (
            b"<minimize type=\"sum\"><coeffs/><list/></minimize>",
            0,
            None,
        ),
        (b"<minimize type=\"nValues\"> </minimize>", 0, None),
        (b"<minimise> 1 </minimise>", 9, Some(Kind::Unknown)),
        (
            b"<minimize type=\"lex\"> 1 </minimize>",
            9,
            Some(Kind::Unknown),
        ),
        (b"<minimize><list/></minimize>", 9, Some(Kind::Unknown)),
        (
            b"<minimize type=\"sum\"><list startIndex=\"0\"/></minimize>",
            9,
            Some(Kind::Unknown),
        ),
        (
            b"<minimize type=\"sum\"><list><b/></list></minimize>",
            9,
            Some(Kind::Unknown),
        ),
        (
            b"<minimize type=\"nValues\"><coeffs/></minimize>",
            9,
            Some(Kind::Unknown),
        ),
        (b"<minimize/>", 9, Some(Kind::Shape)),
        (b"<minimize> add(1) </minimize>", 9, Some(Kind::Shape)),
        (
            b"<minimize type=\"sum\"><list/><list/></minimize>",
            9,
            Some(Kind::Shape),
        ),
        (
            b"<minimize type=\"sum\"> x <list/></minimize>",
            9,
            Some(Kind::Shape),
        ),
        (
            b"<minimize type=\"sum\"><coeffs/><coeffs> x </coeffs></minimize>",
            9,
            Some(Kind::Shape),
        ),
        (
            b"<minimize type=\"sum\"> x <coeffs> 1x9 </coeffs></minimize>",
            8,
            Some(Kind::Name),
        ),
        (
            b"<minimize type=\"sum\"><coeffs> 1x9 </coeffs></minimize>",
            8,
            Some(Kind::Many),
        ),
        (
            b"<minimize type=\"sum\"><coeffs> 1x9 </coeffs></minimize>",
            9,
            Some(Kind::Shape),
        ),
        (b"<minimize type=\"minimum\"/>", 9, Some(Kind::Shape)),
    ];
    for (text, left, want) in rows {
        assert_eq!(rt; fault(rt.alloc(), text, left), want);
    }
    written_again();
    Ok(())
}

#[test]
fn writes_types(rt: HostRuntime) -> Result<(), Fail> {
    let decls: Decls = Row::new(rt.alloc());
    let sum = Objective {
        direction: Direction::Maximize,
        body: Body::Sum(Row::new(rt.alloc()), Row::new(rt.alloc())),
    };
    let text = write_objective(rt.alloc(), &sum, &decls)?;
    assert!(rt;
        text.as_slice()
            == b"<maximize type=\"sum\"> <list> </list> <coeffs> </coeffs> </maximize>".as_slice()
    );
    let distinct = Objective {
        direction: Direction::Minimize,
        body: Body::Distinct(Row::new(rt.alloc())),
    };
    let text = write_objective(rt.alloc(), &distinct, &decls)?;
    assert!(rt; text.as_slice() == b"<minimize type=\"nValues\"> </minimize>".as_slice());
    Ok(())
}
