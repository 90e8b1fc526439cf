ghost use Rattle.std.specs.Prelude.{◌≡◌, ◌∷◌, [], pos, codes, true, false, None, Some, IfOk};
ghost use Rattle.xs_model.specs.Outline.{outline_of};
ghost use Rattle.xs_model.specs.declared.decl.Decl.{Decl};

use crate::{by_children, expand};
use std::alloc::Global;
use std::test::Fail;
use xf_markup::read_tree;
use xf_num::{Domain, NoMemory, Row, Span, Text};
use xf_text::{Fault, Kind, Stop};
use xs_model::{Cells, Concrete, Decl, NameStop, Names};
use xs_units::Expansion;

fn text(alloc: Global, bytes: &[u8]) -> Result<Text, NoMemory>
    ensures { IfOk result (λ text. text ≡ bytes.now) }
{
    let mut text = Row::new(alloc);
    text.extend(bytes)?;
    Ok(text)
}

fn bits(alloc: Global) -> Result<Domain, NoMemory>
    ensures { IfOk result (λ domain. domain ≡ record { lo = pos 0; hi = pos 1 } ∷ []) }
{
    match Span::new(0, 1) {
        Some(span) => Domain::of(alloc, span),
        None => Err(NoMemory),
    }
}

// The variable `v`.
fn variable(alloc: Global) -> Result<Decl, NoMemory>
    ensures { IfOk result (λ d. d ≡ Decl.One (codes "v") (record { lo = pos 0; hi = pos 1 } ∷ [])) }
{
    let name = text(alloc, b"v")?;
    let domain = bits(alloc)?;
    Ok(Decl::One { name, domain })
}

fn cells(alloc: Global) -> Result<Cells, NoMemory>
    ensures { IfOk result (λ cells. cells ≡ Some (record { lo = pos 0; hi = pos 1 } ∷ []) ∷ Some (record { lo = pos 0; hi = pos 1 } ∷ []) ∷ None ∷ Some (record { lo = pos 0; hi = pos 1 } ∷ []) ∷ []) }
{
    let mut cells = Row::new(alloc);
    cells.push(Some(bits(alloc)?))?;
    cells.push(Some(bits(alloc)?))?;
    cells.push(None)?;
    cells.push(Some(bits(alloc)?))?;
    Ok(cells)
}

// The array `x` of two times two cells, of which `x[1][0]` is undefined.
fn array(alloc: Global) -> Result<Decl, NoMemory>
    ensures { IfOk result (λ d. d ≡ Decl.Array (codes "x") (pos 2 ∷ pos 2 ∷ []) (Some (record { lo = pos 0; hi = pos 1 } ∷ []) ∷ Some (record { lo = pos 0; hi = pos 1 } ∷ []) ∷ None ∷ Some (record { lo = pos 0; hi = pos 1 } ∷ []) ∷ [])) }
{
    let name = text(alloc, b"x")?;
    let cells = cells(alloc)?;
    let mut sizes = Row::new(alloc);
    sizes.extend(&[2, 2])?;
    Ok(Decl::Array { name, sizes, cells })
}

// The names of `v` and then `x`: the variable 0, and the variables 1, 2 and 3.
fn names(alloc: Global) -> Result<Names, NameStop>
    ensures { IfOk result (λ names. names ≡ outline_of (Decl.One (codes "v") (record { lo = pos 0; hi = pos 1 } ∷ [])) ∷ record { name = codes "x"; sizes = pos 2 ∷ pos 2 ∷ []; cells = true ∷ true ∷ false ∷ true ∷ [] } ∷ []) }
{
    let (Ok(v), Ok(x)) = (variable(alloc), array(alloc)) else {
        return Err(NameStop::Memory);
    };
    let mut names = Names::new(alloc);
    names.declare(&v)?;
    names.declare(&x)?;
    Ok(names)
}

// Appends a constraint's name, and its parts, each behind its name and a colon.
fn push_shown(shown: &mut Vec<u8>, made: &Concrete) -> Result<(), NoMemory> {
    shown.extend_from_slice(made.name.as_slice())?;
    for part in made.parts.as_slice() {
        shown.push(b';')?;
        shown.extend_from_slice(part.name.as_slice())?;
        shown.push(b':')?;
        shown.extend_from_slice(part.text.as_slice())?;
    }
    shown.push(b'\n')?;
    Ok(())
}

fn shown(alloc: Global, expansion: &Expansion) -> Result<Vec<u8>, NoMemory> {
    let mut text = Vec::new(alloc);
    for made in expansion.made.as_slice() {
        push_shown(&mut text, made)?;
    }
    Ok(text)
}

// Whether this is what the element of a text stands for, up to this fault.
fn is_expanded(
    alloc: Global,
    names: &Names,
    text: &[u8],
    want: &[u8],
    fault: Option<Fault>,
) -> Result<bool, Stop> {
    let node = read_tree(alloc, text)?;
    let expansion = expand(alloc, &node, names)?;
    let text = shown(alloc, &expansion)?;
    Ok(text.as_slice() == want && expansion.fault == fault)
}

#[test]
fn expands(rt: HostRuntime) -> Result<(), Fail> {
    by_children();
    let Ok(names) = names(rt.alloc()) else {
        panic!(rt; "want of memory");
    };
    let rows: [(&[u8], &[u8]); 12] = [
        (b"<constraints/>", b""),
        (
            b"<constraints><group><intension>eq(%0,%1)</intension><args> v 3 </args><args>b -4x1</args></group></constraints>",
            b"intension;:eq(v,3)\nintension;:eq(b,-4)\n",
        ),
        (
            b"<constraints><group><allDifferent><list>%... %0</list></allDifferent><args>2x2 c</args><args> x[][] </args></group></constraints>",
            b"allDifferent;list:2 c 2\nallDifferent;list:x[0][1] x[1][1] x[0][0]\n",
        ),
        (
            b"<constraints><group><intension>f(%10,%0,%)</intension><args>0 1 2 3 4 5 6 7 8 9 %0</args></group></constraints>",
            b"intension;:f(%0,0,%)\n",
        ),
        (
            b"<constraints><group><intension>%0 %...</intension><args>a</args></group></constraints>",
            b"intension;:a \n",
        ),
        (
            b"<constraints><group><allDifferent>%...</allDifferent><args/></group><group><intension>%0</intension></group></constraints>",
            b"allDifferent\n",
        ),
        (
            b"<constraints><slide><list> a b c d </list><intension>le(%0,%1)</intension></slide></constraints>",
            b"intension;:le(a,b)\nintension;:le(b,c)\nintension;:le(c,d)\n",
        ),
        (
            b"<constraints><slide><intension>le(%1,%0)</intension><list offset=\"2\"> x[][] v w </list></slide></constraints>",
            b"intension;:le(x[0][1],x[0][0])\nintension;:le(v,x[1][1])\n",
        ),
        (
            b"<constraints><slide circular=\"true\"><list offset=\"2\">a b c</list><intension>le(%0,%2)</intension></slide></constraints>",
            b"intension;:le(a,c)\nintension;:le(c,b)\n",
        ),
        (
            b"<constraints><slide><list> a </list><intension>le(%0,%1)</intension></slide></constraints>",
            b"",
        ),
        (
            b"<constraints><block id=\"p\" class=\"q\"><block><intension>a</intension></block><intension> </intension></block><allDifferent/></constraints>",
            b"intension;:a\nintension\nallDifferent\n",
        ),
        (
            b"<constraints><group><intension><function>%0</function></intension><args class=\"c\">a</args></group></constraints>",
            b"intension;function:a\n",
        ),
    ];
    for (text, want) in rows {
        match is_expanded(rt.alloc(), &names, text, want, None) {
            Ok(is) => assert!(rt; is),
            Err(_) => assert!(rt; false),
        }
    }
    Ok(())
}

#[test]
fn refuses_the_first_fault(rt: HostRuntime) -> Result<(), Fail> {
    let Ok(names) = names(rt.alloc()) else {
        panic!(rt; "want of memory");
    };
    let rows: [(&[u8], &[u8], Kind, u64); 22] = [
        (
            b"<constraints rank=\"any\"> a </constraints>",
            b"",
            Kind::Unknown,
            0,
        ),
        (
            b"<constraints> a <stretch/></constraints>",
            b"",
            Kind::Shape,
            0,
        ),
        (
            b"<constraints><block><allDifferent>a</allDifferent><block><intension/></block></block><stretch/></constraints>",
            b"allDifferent;:a\nintension\n",
            Kind::Unknown,
            85,
        ),
        (
            b"<constraints><block> a </block></constraints>",
            b"",
            Kind::Shape,
            13,
        ),
        (b"<constraints><group/></constraints>", b"", Kind::Shape, 13),
        (
            b"<constraints><group><args/><stretch/></group></constraints>",
            b"",
            Kind::Shape,
            13,
        ),
        (
            b"<constraints><group><stretch/><args> y[] </args></group></constraints>",
            b"",
            Kind::Unknown,
            20,
        ),
        (
            b"<constraints><group><slide/></group></constraints>",
            b"",
            Kind::Unknown,
            20,
        ),
        (
            b"<constraints><group><intension/><stretch/></group></constraints>",
            b"",
            Kind::Unknown,
            13,
        ),
        (
            b"<constraints><group><intension/><intension/></group></constraints>",
            b"",
            Kind::Shape,
            13,
        ),
        (
            b"<constraints><group><intension>%1</intension><args>a</args></group></constraints>",
            b"",
            Kind::Shape,
            45,
        ),
        (
            b"<constraints><group><intension>%0</intension><args>a b</args></group></constraints>",
            b"",
            Kind::Shape,
            45,
        ),
        (
            b"<constraints><group><intension>%0</intension><args id=\"a\"> y[] </args></group></constraints>",
            b"",
            Kind::Unknown,
            45,
        ),
        (
            b"<constraints><group><intension>%0</intension><args> a </args><args> y[] 1x99999999999999999999999999999999999999999 </args></group></constraints>",
            b"intension;:a\n",
            Kind::Range,
            61,
        ),
        (
            b"<constraints><group><intension>%0</intension><args> y[] </args></group></constraints>",
            b"",
            Kind::Name,
            45,
        ),
        (
            b"<constraints><group><intension>%0</intension><args> 1x4194305 </args></group></constraints>",
            b"",
            Kind::Many,
            45,
        ),
        (
            b"<constraints><slide circular=\"yes\"><list>a</list><intension>%1</intension></slide></constraints>",
            b"",
            Kind::Unknown,
            13,
        ),
        (
            b"<constraints><slide circular=\"true\"><list>a</list><intension>%1</intension></slide></constraints>",
            b"",
            Kind::Shape,
            13,
        ),
        (
            b"<constraints><slide><list offset=\"0\">a y[]</list><intension>%1</intension></slide></constraints>",
            b"",
            Kind::Shape,
            13,
        ),
        (
            b"<constraints><slide><list>a y[]</list><intension>%0 %...</intension></slide></constraints>",
            b"",
            Kind::Shape,
            13,
        ),
        (
            b"<constraints><slide><list>a y[]</list><intension>%0</intension></slide></constraints>",
            b"",
            Kind::Name,
            13,
        ),
        (
            b"<constraints><slide><list>a</list><list>a</list></slide></constraints>",
            b"",
            Kind::Shape,
            13,
        ),
    ];
    for (text, want, kind, place) in rows {
        match is_expanded(rt.alloc(), &names, text, want, Some(Fault { kind, place })) {
            Ok(is) => assert!(rt; is),
            Err(_) => assert!(rt; false),
        }
    }
    Ok(())
}
