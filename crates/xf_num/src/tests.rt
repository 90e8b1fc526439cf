use crate::{Domain, DomainFault, Ints, Row, Span, Stack};
use std::alloc::Global;
use std::process::Abort;
use std::test::Fail;

const GREATEST: i128 = i128::MAX;

const LEAST: i128 = i128::MIN;

// The ends of a span, or of none.
fn ends(found: Option<Span>) -> Option<(i128, i128)> {
    match found {
        Some(span) => Some((span.lo(), span.hi())),
        None => None,
    }
}

fn rows_are_lists(rt: &impl Abort, alloc: Global) -> Result<(), Fail> {
    let mut row: Ints = Row::new(alloc);
    assert!(rt; row.is_empty());
    row.push(5)?;
    row.extend(&[6, -7])?;
    assert_eq!(rt; row.as_slice(), [5, 6, -7].as_slice());
    let copy = row.copy(alloc)?;
    row.truncate(1);
    assert_eq!(rt; row.as_slice(), [5].as_slice());
    assert_eq!(rt; copy.len(), 3);
    Ok(())
}

fn items_are_replaced(rt: &impl Abort, alloc: Global) -> Result<(), Fail> {
    let mut row: Ints = Row::new(alloc);
    row.extend(&[5, 6, -7])?;
    assert_eq!(rt; row.replace(1, 8), 6);
    assert_eq!(rt; row.as_slice(), [5, 8, -7].as_slice());
    assert_eq!(rt; row.replace(2, 9), -7);
    assert_eq!(rt; row.replace(2, 10), 9);
    assert_eq!(rt; row.as_slice(), [5, 8, 10].as_slice());
    Ok(())
}

fn stacks_are_lists_from_their_top(rt: &impl Abort, alloc: Global) -> Result<(), Fail> {
    let mut stack: Stack<u8> = Stack::new(alloc);
    assert_eq!(rt; stack.top(), None);
    stack.push(1)?;
    stack.push(2)?;
    assert_eq!(rt; stack.len(), 2);
    assert_eq!(rt; stack.top(), Some(&2));
    assert_eq!(rt; stack.pop(), Some(2));
    assert_eq!(rt; stack.pop(), Some(1));
    assert_eq!(rt; stack.pop(), None);
    Ok(())
}

fn spans_of_two(rt: &impl Abort) {
    let (Some(a), Some(b)) = (Span::new(-2, 3), Span::new(4, 6)) else {
        assert!(rt; false);
        return;
    };
    assert_eq!(rt; ends(Span::new(1, 0)), None);
    assert_eq!(rt; ends(a.add(b)), Some((2, 9)));
    assert_eq!(rt; ends(a.sub(b)), Some((-8, -1)));
    assert_eq!(rt; ends(a.mul(b)), Some((-12, 18)));
    assert_eq!(rt; ends(a.min(b)), Some((-2, 3)));
    assert_eq!(rt; ends(a.max(b)), Some((4, 6)));
    assert_eq!(rt; ends(Some(a.hull_with(b))), Some((-2, 6)));
    assert_eq!(rt; a.contains(3), true);
    assert_eq!(rt; a.contains(4), false);
    assert_eq!(rt; a.magnitude(), 3);
    assert_eq!(rt; a.values_at_most(6), Some(6));
    assert_eq!(rt; a.values_at_most(5), None);
}

fn spans_of_one(rt: &impl Abort) {
    let cases: [(i128, i128, u32, (i128, i128), (i128, i128), (i128, i128)); 4] = [
        (-2, 3, 2, (-3, 2), (0, 3), (0, 9)),
        (-3, -2, 3, (2, 3), (2, 3), (-27, -8)),
        (1, 2, 64, (-2, -1), (1, 2), (1, 18446744073709551616)),
        (-2, 3, 1, (-3, 2), (0, 3), (-2, 3)),
    ];
    for (lo, hi, exponent, negated, absolute, raised) in cases {
        if let Some(span) = Span::new(lo, hi) {
            assert_eq!(rt; ends(span.neg()), Some(negated));
            assert_eq!(rt; ends(span.abs()), Some(absolute));
            if 1 <= exponent && exponent <= 64 {
                assert_eq!(rt; ends(span.pow(exponent)), Some(raised));
            }
        } else {
            assert!(rt; false);
        }
    }
}

fn quotients_and_remainders(rt: &impl Abort) {
    let (Some(a), Some(b)) = (Span::new(7, 20), Span::new(2, 3)) else {
        assert!(rt; false);
        return;
    };
    if 0 <= a.lo() && 1 <= b.lo() {
        assert_eq!(rt; ends(a.div(b)), Some((2, 10)));
        assert_eq!(rt; ends(a.rem(b)), Some((0, 2)));
    }
}

fn ends_past_128_bits_are_no_span(rt: &impl Abort) {
    let (Some(all), Some(one)) = (Span::new(LEAST, GREATEST), Span::new(1, 1)) else {
        assert!(rt; false);
        return;
    };
    assert_eq!(rt; ends(all.add(one)), None);
    assert_eq!(rt; ends(all.sub(one)), None);
    assert_eq!(rt; ends(all.mul(all)), None);
    assert_eq!(rt; ends(all.neg()), None);
    assert_eq!(rt; ends(all.abs()), None);
    assert_eq!(rt; ends(all.pow(2)), None);
    assert_eq!(rt; ends(all.min(one)), Some((LEAST, 1)));
}

fn domains_are_sorted_and_merged(rt: &impl Abort, alloc: Global) -> Result<(), Fail> {
    let mut pieces = Row::new(alloc);
    for (lo, hi) in [(7, 7), (0, 3), (2, 2), (8, 8), (-5, -4)] {
        if let Some(piece) = Span::new(lo, hi) {
            pieces.push(piece)?;
        }
    }
    match Domain::from_pieces(alloc, pieces.as_slice()) {
        Ok(domain) => {
            assert_eq!(rt; domain.ranges(), 3);
            assert_eq!(rt; domain.least(), -5);
            assert_eq!(rt; domain.greatest(), 8);
            assert_eq!(rt; domain.contains(8), true);
            assert_eq!(rt; domain.contains(6), false);
            assert_eq!(rt; domain.values_at_most(8), Some(8));
            assert_eq!(rt; domain.values_at_most(7), None);
            let copy = domain.copy(alloc)?;
            let first = copy.range(0);
            assert_eq!(rt; (first.lo(), first.hi()), (-5, -4));
            assert_eq!(rt; copy.as_slice().len(), 3);
        }
        Err(_) => assert!(rt; false),
    }
    Ok(())
}

fn no_piece_is_no_domain(rt: &impl Abort, alloc: Global) {
    match Domain::from_pieces(alloc, &[]) {
        Ok(_) => assert!(rt; false),
        Err(fault) => assert_eq!(rt; fault, DomainFault::Empty),
    }
}

fn a_domain_of_one_range(rt: &impl Abort, alloc: Global) -> Result<(), Fail> {
    if let Some(span) = Span::new(3, 5) {
        let domain = Domain::of(alloc, span)?;
        assert_eq!(rt; domain.least(), 3);
        assert_eq!(rt; domain.greatest(), 5);
    }
    Ok(())
}

#[test]
fn lists(rt: HostRuntime) -> Result<(), Fail> {
    rows_are_lists(&rt, rt.alloc())?;
    items_are_replaced(&rt, rt.alloc())?;
    stacks_are_lists_from_their_top(&rt, rt.alloc())?;
    Ok(())
}

#[test]
fn spans(rt: HostRuntime) {
    spans_of_two(&rt);
    spans_of_one(&rt);
    quotients_and_remainders(&rt);
    ends_past_128_bits_are_no_span(&rt);
}

#[test]
fn domains(rt: HostRuntime) -> Result<(), Fail> {
    domains_are_sorted_and_merged(&rt, rt.alloc())?;
    no_piece_is_no_domain(&rt, rt.alloc());
    a_domain_of_one_range(&rt, rt.alloc())?;
    Ok(())
}
