//! One constraint, of any form.

ghost use Rattle.std.specs.Prelude.{◌≡◌, ◌+◌, ◌*◌, ◌≤◌, ◌<◌, ◌^◌, true, length, map, IfOk, OnOk, OnErr, IsErrOf};
ghost use Rattle.xf_text.specs.Outside.{Rose};
ghost use Rattle.xs_model.specs.Accepted.{IsSoundConstraint, items_of};
ghost use Rattle.lo_base.specs.Formed.{AreIntegers};
ghost use Rattle.lo_base.specs.Item.{made};
ghost use Rattle.xs_model.specs.Instance.{Holds};
ghost use Rattle.xs_model.specs.Spans.{BeginsWithin};
ghost use Rattle.lo_emit.specs.declared.term.Term.TheVariants.{Var};
ghost use Rattle.lo_formed.specs.Laws.{AreOrdered};
ghost use Rattle.lo_forms.specs.Different.{low_different};
ghost use Rattle.lo_instance.specs.Form.{low_form};
ghost use Rattle.lo_instance.specs.Laws.{square_of};
ghost use Rattle.lo_rules.specs.Laws.{IsLowered};

use lo_base::{Emit, EmitStop};
use lo_emit::variables_of;
use lo_forms::lower_different;
use lo_paths::{lower_mdd, lower_regular};
use lo_tables::{lower_extension, lower_unary};
use lo_terms::lower_intension;
use std::alloc::Global;
use xf_num::Span;
use xs_model::Constraint;

/// Appends the variables and calls that a sound constraint is lowered to. `spans` are the bounds of the variables. The
/// constraint has fewer than 2^29 items, and there are at most 2^60 variables before. On an `Err` it began them.
///
/// What is appended means that the constraint holds, among values of the variables within their bounds; it leaves the new
/// variables one list of values at most; its calls speak of the variables before and of the new ones alone, and are of the
/// right kinds; and it is at most 64 times the square of one more than the constraint's items, new variables and leaves of
/// calls together.
pub fn lower_constraint<E: Emit>(
    alloc: Global,
    c: &Constraint,
    spans: &[Span],
    out: &mut E,
) -> Result<(), EmitStop>
    requires sound { IsSoundConstraint spans.now c.now }
    requires few { items_of c.now < 2 ^ 29 }
    requires room { E.count out.old ≤ 2 ^ 60 }
    ensures ok { OnOk result (E.grew out.old out.new (low_form spans.now (E.count out.old) c.now)) }
    ensures count { OnOk result (E.count out.new ≡ E.count out.old + made (low_form spans.now (E.count out.old) c.now)) }
    ensures stopped { OnErr result (E.began out.old out.new (low_form spans.now (E.count out.old) c.now)) }
    ensures cause { IsErrOf result EmitStop.Failed → Rose (E.faults out.old) (E.faults out.new) }
    ensures law { AreOrdered spans.now → length spans.now ≤ E.count out.old → IsLowered (BeginsWithin spans.now) (λ a. Holds c.now a) (AreIntegers (length spans.now)) (E.count out.old) (low_form spans.now (E.count out.old) c.now) (64 * square_of c.now) }
{
    lower_form(alloc, c, spans, out)?;
    Ok(())
}

/// The items of a constraint, by its form.
#[tactic(auto, using(crate::proofs::Counts::even_tuples, crate::proofs::Counts::few_ranges))]
fn lower_form<E: Emit>(
    alloc: Global,
    c: &Constraint,
    spans: &[Span],
    out: &mut E,
) -> Result<(), EmitStop>
    requires sound { IsSoundConstraint spans.now c.now }
    requires few { items_of c.now < 2 ^ 29 }
    requires room { E.count out.old ≤ 2 ^ 60 }
    ensures ok { OnOk result (E.grew out.old out.new (low_form spans.now (E.count out.old) c.now)) }
    ensures count { OnOk result (E.count out.new ≡ E.count out.old + made (low_form spans.now (E.count out.old) c.now)) }
    ensures stopped { OnErr result (E.began out.old out.new (low_form spans.now (E.count out.old) c.now)) }
    ensures cause { IsErrOf result EmitStop.Failed → Rose (E.faults out.old) (E.faults out.new) }
{
    match c {
        Constraint::AllDifferent { list, .. } => differ(alloc, list.as_slice(), out),
        Constraint::Extension {
            list,
            tuples,
            positive,
        } => lower_extension(alloc, list.as_slice(), tuples.as_slice(), *positive, out),
        Constraint::Intension { expr } => lower_intension(alloc, expr, spans, out),
        Constraint::Mdd {
            list,
            edges,
            root,
            leaf,
        } => lower_mdd(alloc, list.as_slice(), edges.as_slice(), *root, *leaf, out),
        Constraint::Regular {
            list,
            edges,
            start,
            finals,
        } => lower_regular(
            alloc,
            list.as_slice(),
            edges.as_slice(),
            *start,
            finals.as_slice(),
            out,
        ),
        Constraint::Unary {
            var,
            spans,
            positive,
        } => lower_unary(alloc, *var, spans.as_slice(), *positive, out),
        // No other form is lowered.
        _ => unreachable!(),
    }
}

/// The variables of a list differ.
fn differ<E: Emit>(alloc: Global, list: &[u32], out: &mut E) -> Result<(), EmitStop>
    ensures ok { OnOk result (E.grew out.old out.new (low_different (E.count out.old) (map Var list.now))) }
    ensures count { OnOk result (E.count out.new ≡ E.count out.old + made (low_different (E.count out.old) (map Var list.now))) }
    ensures stopped { OnErr result (E.began out.old out.new (low_different (E.count out.old) (map Var list.now))) }
    ensures cause { IsErrOf result EmitStop.Failed → Rose (E.faults out.old) (E.faults out.new) }
{
    let terms = variables_of(alloc, list)?;
    lower_different(alloc, terms.as_slice(), out)
}

#[cfg(test)]
mod tests {
    use super::*;
    use fz_model::{Arg, Call, Goal};
    use lo_base::{Held, auxiliary};
    use std::test::Fail;
    use xf_num::{NoMemory, Row};
    use xs_model::Expr;

    // Keeps what is appended behind two variables of these bounds.
    fn behind_two(alloc: Global, first: Span, second: Span) -> Result<Held, NoMemory>
        ensures { IfOk result (λ held. length held.vars ≡ 2) }
    {
        let mut vars = Row::new(alloc);
        vars.push(auxiliary(alloc, 0, false, first)?)?;
        vars.push(auxiliary(alloc, 1, false, second)?)?;
        Ok(Held::new(alloc, vars))
    }

    // The numbers of the two variables that a call names.
    fn pair(call: &Call) -> Option<(u64, u64)> {
        match call.args.as_slice() {
            [Arg::Var(x), Arg::Var(y)] => Some((*x, *y)),
            _ => None,
        }
    }

    // How many members the two lists of a call have.
    fn lengths(call: &Call) -> Option<(usize, usize)> {
        match call.args.as_slice() {
            [Arg::List(xs), Arg::List(ys)] => Some((xs.len(), ys.len())),
            _ => None,
        }
    }

    #[test]
    fn forms_in_turn(rt: HostRuntime) -> Result<(), Fail> {
        let spans = [Span::new(-2, 3).unwrap(), Span::new(0, 1).unwrap()];
        let mut list = Row::new(rt.alloc());
        list.extend(&[1, 0])?;
        let differ = Constraint::AllDifferent {
            list,
            except: Row::new(rt.alloc()),
        };
        let hold = Constraint::Intension { expr: Expr::Var(1) };
        let mut held = behind_two(rt.alloc(), spans[0], spans[1])?;
        lower_constraint(rt.alloc(), &differ, &spans, &mut held)?;
        lower_constraint(rt.alloc(), &hold, &spans, &mut held)?;
        let model = held.finish(Goal::Satisfy);
        assert_eq!(rt; model.vars.len(), 3);
        assert_eq!(rt; model.vars.as_slice()[2].boolean, true);
        let calls = model.calls.as_slice();
        assert_eq!(rt; calls.len(), 3);
        assert_eq!(rt; calls[0].builtin.name(), b"int_ne".as_slice());
        assert_eq!(rt; pair(&calls[0]), Some((1, 0)));
        assert_eq!(rt; calls[1].builtin.name(), b"bool2int".as_slice());
        assert_eq!(rt; pair(&calls[1]), Some((2, 1)));
        assert_eq!(rt; calls[2].builtin.name(), b"bool_clause".as_slice());
        assert_eq!(rt; lengths(&calls[2]), Some((1, 0)));
        Ok(())
    }
}
