use crate::{one_reading, read_instance};
use std::alloc::Global;
use std::process::Abort;
use std::test::Fail;
use xf_text::{Fault, Kind, Stop};
use xs_model::{Constraint, Instance};

// How many members the lists of all constraints have, an expression counting as one.
fn items(instance: &Instance) -> usize {
    let mut count: usize = 0;
    for constraint in instance.constraints.as_slice() {
        match constraint {
            Constraint::AllDifferent { list, .. } => count = count.saturating_add(list.len()),
            Constraint::Intension { .. } => count = count.saturating_add(1),
            _ => (),
        }
    }
    count
}

// The fault of a text, if it has one.
fn fault(alloc: Global, text: &[u8]) -> Option<Fault> {
    match read_instance(alloc, text) {
        Err(Stop::Refused(fault)) => Some(fault),
        _ => None,
    }
}

// Each text with the numbers of declarations, constraints and items.
fn reads_instances(rt: &impl Abort, alloc: Global) -> Result<(), Fail> {
    let rows: [(&[u8], usize, usize, usize); 9] = [
        (
            b"<instance><variables><var id=\"x\"> 0..1 </var></variables><constraints><intension> eq(x,1) </intension><allDifferent> x </allDifferent><intension><function> x </function></intension></constraints></instance>",
            1,
            3,
            3,
        ),
        (b"<instance><variables/></instance>", 0, 0, 0),
        (
            b"<?xml version=\"1.0\"?>\n<!-- c --><instance format=\"XCSP3\" type=\"CSP\" class=\"c\" note=\"n\"> <variables> <var id=\"x\"> 0..1 </var> </variables> <constraints id=\"a\" class=\"b\" note=\"c\"> <allDifferent> x </allDifferent> <allDifferent/> </constraints> </instance> ",
            1,
            2,
            1,
        ),
        (
            b"<instance type=\"COP\"><variables><var id=\"x\"> 0..1 </var></variables><objectives class=\"c\"> </objectives><annotations id=\"q\"> z <foo bar=\"1\"/> </annotations><constraints/></instance>",
            1,
            0,
            0,
        ),
        (
            b"<instance><variables><var id=\"x\"> 0 2 </var><var id=\"y\" as=\"x\"/></variables><constraints><allDifferent> <list> x y </list> </allDifferent></constraints></instance>",
            2,
            1,
            2,
        ),
        (
            b"<instance><variables><array id=\"a\" size=\"[2][2]\"> 1..4 </array></variables><constraints><allDifferent> a[0][] </allDifferent><allDifferent> a[][] a[1][0] </allDifferent></constraints></instance>",
            1,
            2,
            7,
        ),
        (
            b"<instance><variables/><annotations/><objectives/><constraints/></instance>",
            0,
            0,
            0,
        ),
        (
            b"<instance><variables><var id=\"x\"> 0 2..4194303 </var></variables><constraints><allDifferent> x </allDifferent><allDifferent/></constraints></instance>",
            1,
            2,
            1,
        ),
        (
            b"<instance><variables><var id=\"x\"> 0..4194304 </var></variables><constraints><allDifferent> x x x </allDifferent></constraints></instance>",
            1,
            1,
            3,
        ),
    ];
    for (text, decls, constraints, count) in rows {
        let instance = read_instance(alloc, text)?;
        assert_eq!(rt; instance.decls.len(), decls);
        assert_eq!(rt; instance.constraints.len(), constraints);
        assert_eq!(rt; items(&instance), count);
    }
    one_reading();
    Ok(())
}

// Faults that stand before any declaration.
fn refuses_roots(rt: &impl Abort, alloc: Global) -> Result<(), Fail> {
    let rows: [(&[u8], Kind, u64); 17] = [
        (b"", Kind::Syntax, 0),
        (b"<instance><variables/><stretch/>", Kind::Syntax, 32),
        (b"<instance>", Kind::Syntax, 10),
        (b"<instance/>", Kind::Shape, 0),
        (
            b"<instance><constraints/><variables/></instance>",
            Kind::Shape,
            0,
        ),
        (
            b"<instance><variables/><variables/></instance>",
            Kind::Shape,
            0,
        ),
        (
            b"<instance><variables/><constraints/><constraints/></instance>",
            Kind::Shape,
            0,
        ),
        (
            b"<instance><variables/><objectives/><constraints/><objectives/></instance>",
            Kind::Shape,
            0,
        ),
        (
            b"<instance><variables/><annotations/><annotations/></instance>",
            Kind::Shape,
            0,
        ),
        (b"<instance> 0 <variables/></instance>", Kind::Shape, 0),
        (b"<!-- c --><instance/>", Kind::Shape, 10),
        (
            b"<instance><variables/><stretch/></instance>",
            Kind::Unknown,
            0,
        ),
        (
            b"<instance> 0 <variables/><stretch/></instance>",
            Kind::Unknown,
            0,
        ),
        (b"<instances><variables/></instances>", Kind::Unknown, 0),
        (
            b"<instance type=\"XYZ\"><variables/></instance>",
            Kind::Unknown,
            0,
        ),
        (
            b"<instance id=\"i\"><variables/></instance>",
            Kind::Unknown,
            0,
        ),
        (b"<instance type=\"csp\"/>", Kind::Unknown, 0),
    ];
    for (text, kind, place) in rows {
        assert_eq!(rt; fault(alloc, text), Some(Fault { kind, place }));
    }
    Ok(())
}

// Faults of sections and constraints.
fn refuses_sections(rt: &impl Abort, alloc: Global) -> Result<(), Fail> {
    let rows: [(&[u8], Kind, u64); 22] = [
        (
            b"<instance><variables><var id=\"x\"> 0..1 </var></variables><constraints> x </constraints></instance>",
            Kind::Shape,
            57,
        ),
        (
            b"<instance><variables><var id=\"x\"> 0..1 </var></variables><constraints rank=\"any\"/></instance>",
            Kind::Unknown,
            57,
        ),
        (
            b"<instance><variables><var id=\"x\"> 0..1 </var></variables><constraints><stretch/></constraints></instance>",
            Kind::Unknown,
            70,
        ),
        (
            b"<instance><variables><var id=\"x\"> 0..1 </var></variables><constraints><block> x </block></constraints></instance>",
            Kind::Shape,
            70,
        ),
        (
            b"<instance><variables><var id=\"x\"> 0..1 </var></variables><constraints><group> 0 </group></constraints></instance>",
            Kind::Shape,
            70,
        ),
        (
            b"<instance><variables><var id=\"x\"> 0..1 </var></variables><constraints><slide/></constraints></instance>",
            Kind::Shape,
            70,
        ),
        (
            b"<instance><variables><var id=\"x\"> 0..1 </var></variables><constraints><allDifferent> x y </allDifferent></constraints></instance>",
            Kind::Name,
            70,
        ),
        (
            b"<instance><variables><var id=\"x\"> 0..1 </var></variables><constraints><allDifferent> 0 </allDifferent></constraints></instance>",
            Kind::Shape,
            70,
        ),
        (
            b"<instance><variables><var id=\"x\"> 0..1 </var></variables><objectives><minimize> x </minimize></objectives></instance>",
            Kind::Unknown,
            69,
        ),
        (
            b"<instance><variables><var id=\"x\"> 0..1 </var></variables><objectives><minimize/><maximize/></objectives></instance>",
            Kind::Shape,
            57,
        ),
        (
            b"<instance><variables><var id=\"x\"> 0..1 </var></variables><objectives> x </objectives></instance>",
            Kind::Shape,
            57,
        ),
        (
            b"<instance><variables><var id=\"x\"> 0..1 </var></variables><objectives id=\"o\"/></instance>",
            Kind::Unknown,
            57,
        ),
        (
            b"<instance><variables><var id=\"x\"> 0 2..4194304 </var></variables><constraints><allDifferent/><allDifferent> x </allDifferent></constraints></instance>",
            Kind::Many,
            93,
        ),
        (
            b"<instance><variables><var id=\"x\"> 0..1 </var></variables><constraints><intension> add(x,1) </intension></constraints></instance>",
            Kind::Logic,
            70,
        ),
        (
            b"<instance><variables><var id=\"x\"> 0..1 </var></variables><constraints><intension> and(x,add(x,1)) </intension></constraints></instance>",
            Kind::Logic,
            70,
        ),
        (
            b"<instance><variables><var id=\"x\"> 0..1 </var></variables><constraints><intension> eq(div(sub(x,1),2),0) </intension></constraints></instance>",
            Kind::Division,
            70,
        ),
        (
            b"<instance><variables><var id=\"x\"> 0..1 </var></variables><constraints><intension> and(x,div(sub(x,1),2)) </intension></constraints></instance>",
            Kind::Division,
            70,
        ),
        (
            b"<instance><variables><var id=\"x\"> 0..1 </var></variables><constraints><intension> eq(mul(x,85070591730234615865843651857942052863,2),0) </intension></constraints></instance>",
            Kind::Range,
            70,
        ),
        (
            b"<instance><variables><var id=\"x\"> 0..1 </var></variables><constraints><intension> eq(x,85070591730234615865843651857942052863) </intension></constraints></instance>",
            Kind::Range,
            70,
        ),
        (
            b"<instance><variables><var id=\"x\"> 0..1 </var></variables><constraints><intension> eq(x,y) </intension></constraints></instance>",
            Kind::Name,
            70,
        ),
        (
            b"<instance><variables><var id=\"x\"> 0..1 </var></variables><constraints><intension> x </intension><intension> add(x,1) </intension></constraints></instance>",
            Kind::Logic,
            96,
        ),
        (
            b"<instance><variables><var id=\"x\"> 0 2..4194302 </var></variables><constraints><allDifferent> x x </allDifferent><allDifferent> x </allDifferent></constraints></instance>",
            Kind::Many,
            112,
        ),
    ];
    for (text, kind, place) in rows {
        assert_eq!(rt; fault(alloc, text), Some(Fault { kind, place }));
    }
    Ok(())
}

// Of two faults, that of the unit that comes first in the text.
fn refuses_by_the_first_unit(rt: &impl Abort, alloc: Global) -> Result<(), Fail> {
    let rows: [(&[u8], Kind, u64); 6] = [
        (
            b"<instance><variables><var/></variables><constraints><stretch/></constraints></instance>",
            Kind::Shape,
            21,
        ),
        (
            b"<instance><variables><var id=\"x\"> 0..1 </var></variables><constraints> 0 <stretch/></constraints></instance>",
            Kind::Shape,
            57,
        ),
        (
            b"<instance><variables><var id=\"x\"> 0..1 </var></variables><constraints><allDifferent> y </allDifferent><stretch/></constraints></instance>",
            Kind::Name,
            70,
        ),
        (
            b"<instance><variables><var id=\"x\"> 0..1 </var></variables><constraints><allDifferent> x </allDifferent><stretch/><allDifferent> y </allDifferent></constraints></instance>",
            Kind::Unknown,
            102,
        ),
        (
            b"<instance><variables><var id=\"x\"> 0..1 </var></variables><objectives><minimize/></objectives><constraints><stretch/></constraints></instance>",
            Kind::Unknown,
            69,
        ),
        (
            b"<instance><variables><var id=\"x\"> 0..1 </var></variables><constraints><stretch/></constraints><objectives><minimize/></objectives></instance>",
            Kind::Unknown,
            70,
        ),
    ];
    for (text, kind, place) in rows {
        assert_eq!(rt; fault(alloc, text), Some(Fault { kind, place }));
    }
    Ok(())
}

// Blocks, groups and slides: what is read of them, and the first fault.
fn reads_containers(rt: &impl Abort, alloc: Global) -> Result<(), Fail> {
    let rows: [(&[u8], usize, usize); 3] = [
        (
            b"<instance><variables><array id=\"x\" size=\"[3]\"> 0..2 </array></variables><constraints><group><intension> eq(%0,%1) </intension><args> x[0] 1 </args><args> x[1..2] </args></group><block><slide><list> x[] </list><intension> le(%0,%1) </intension></slide></block><allDifferent> x[] </allDifferent></constraints></instance>",
            5,
            7,
        ),
        (
            b"<instance><variables><array id=\"x\" size=\"[3]\"> 0..2 </array></variables><constraints><group><allDifferent> %... </allDifferent><args/><args> x[] x[0] </args></group></constraints></instance>",
            2,
            4,
        ),
        (
            b"<instance><variables><array id=\"x\" size=\"[3]\"> 0..2 </array></variables><constraints><slide circular=\"true\"><list> x[] </list><allDifferent> %1 %0 </allDifferent></slide></constraints></instance>",
            3,
            6,
        ),
    ];
    for (text, constraints, count) in rows {
        let instance = read_instance(alloc, text)?;
        assert_eq!(rt; instance.constraints.len(), constraints);
        assert_eq!(rt; items(&instance), count);
    }
    let rows: [(&[u8], Kind, u64); 6] = [
        (
            b"<instance><variables><array id=\"x\" size=\"[3]\"> 0..2 </array></variables><constraints><group><intension> eq(%0,1) </intension><args> x[0] </args><args> y </args><args> x[0] x[1] </args></group><stretch/></constraints></instance>",
            Kind::Name,
            144,
        ),
        (
            b"<instance><variables><array id=\"x\" size=\"[3]\"> 0..2 </array></variables><constraints><allDifferent> y </allDifferent><group/></constraints></instance>",
            Kind::Name,
            85,
        ),
        (
            b"<instance><variables><array id=\"x\" size=\"[3]\"> 0..2 </array></variables><constraints><slide><list> x[] </list><intension> add(%0,%1) </intension></slide><group/></constraints></instance>",
            Kind::Logic,
            85,
        ),
        (
            b"<instance><variables><array id=\"x\" size=\"[3]\"> 0..2 </array></variables><constraints><block><intension rank=\"any\"/></block></constraints></instance>",
            Kind::Unknown,
            92,
        ),
        (
            b"<instance><variables><array id=\"x\" size=\"[3]\"> 0..2 </array></variables><constraints><group><intension> eq(%0,1) </intension><args> x[] </args></group></constraints></instance>",
            Kind::Shape,
            125,
        ),
        (
            b"<instance><variables><array id=\"x\" size=\"[3]\"> 0..2 </array></variables><constraints><slide><list> x[] y </list><allDifferent> %1 </allDifferent></slide></constraints></instance>",
            Kind::Name,
            85,
        ),
    ];
    for (text, kind, place) in rows {
        assert_eq!(rt; fault(alloc, text), Some(Fault { kind, place }));
    }
    Ok(())
}

#[test]
fn reads(rt: HostRuntime) -> Result<(), Fail> {
    reads_instances(&rt, rt.alloc())?;
    reads_containers(&rt, rt.alloc())?;
    Ok(())
}

#[test]
fn refuses(rt: HostRuntime) -> Result<(), Fail> {
    refuses_roots(&rt, rt.alloc())?;
    refuses_sections(&rt, rt.alloc())?;
    refuses_by_the_first_unit(&rt, rt.alloc())?;
    Ok(())
}
