//! `allDifferent` of one list: each two of its members differ.

ghost use Rattle.std.specs.Prelude.{◌≡◌, ◌+◌, OnOk, OnErr, IsErrOf};
ghost use Rattle.xf_text.specs.Outside.{Rose};
ghost use Rattle.lo_base.specs.Item.{made};
ghost use Rattle.lo_emit.specs.Loops.{for_all, for_pairs};
ghost use Rattle.lo_forms.specs.Different.{differ, low_different};

use lo_base::{Emit, EmitStop};
use lo_emit::{Relation, Term, compare_call};
use std::alloc::Global;

/// The first differs from each of the others.
fn differ_from<E: Emit>(
    alloc: Global,
    first: Term,
    others: &[Term],
    out: &mut E,
) -> Result<(), EmitStop>
    ensures ok { OnOk result (E.grew out.old out.new (for_all (λ n y. differ n first y) (E.count out.old) others.now)) }
    ensures count { OnOk result (E.count out.new ≡ E.count out.old + made (for_all (λ n y. differ n first y) (E.count out.old) others.now)) }
    ensures stopped { OnErr result (E.began out.old out.new (for_all (λ n y. differ n first y) (E.count out.old) others.now)) }
    ensures cause { IsErrOf result EmitStop.Failed → Rose (E.faults out.old) (E.faults out.new) }
{
    for other in others {
        out.post(compare_call(alloc, Relation::Ne, first, *other)?)?;
    }
    Ok(())
}

/// Each two of the terms differ.
fn differ_all<E: Emit>(alloc: Global, terms: &[Term], out: &mut E) -> Result<(), EmitStop>
    ensures ok { OnOk result (E.grew out.old out.new (for_pairs differ (E.count out.old) terms.now)) }
    ensures stopped { OnErr result (E.began out.old out.new (for_pairs differ (E.count out.old) terms.now)) }
    ensures cause { IsErrOf result EmitStop.Failed → Rose (E.faults out.old) (E.faults out.new) }
{
    for i in 0..terms.len() {
        differ_from(alloc, terms[i], &terms[i + 1..], out)?;
    }
    Ok(())
}

/// Appends the calls that say that each two of the terms differ. On an `Err` it began them.
pub fn lower_different<E: Emit>(alloc: Global, terms: &[Term], out: &mut E) -> Result<(), EmitStop>
    ensures ok { OnOk result (E.grew out.old out.new (low_different (E.count out.old) terms.now)) }
    ensures count { OnOk result (E.count out.new ≡ E.count out.old + made (low_different (E.count out.old) terms.now)) }
    ensures stopped { OnErr result (E.began out.old out.new (low_different (E.count out.old) terms.now)) }
    ensures cause { IsErrOf result EmitStop.Failed → Rose (E.faults out.old) (E.faults out.new) }
{
    differ_all(alloc, terms, out)?;
    Ok(())
}

#[cfg(test)]
mod tests {
    use super::*;
    use fz_model::{Arg, Call, Goal};
    use lo_base::Held;
    use lo_emit::variables_of;
    use std::test::Fail;
    use xf_num::Row;

    // The numbers of the two variables that a call names.
    fn pair(call: &Call) -> Option<(u64, u64)> {
        match call.args.as_slice() {
            [Arg::Var(x), Arg::Var(y)] => Some((*x, *y)),
            _ => None,
        }
    }

    #[test]
    fn each_pair_differs(rt: HostRuntime) -> Result<(), Fail> {
        let tables: [(&[u32], &[(u64, u64)]); 5] = [
            (&[], &[]),
            (&[5], &[]),
            (&[4, 2, 7], &[(4, 2), (4, 7), (2, 7)]),
            (
                &[0, 1, 2, 3],
                &[(0, 1), (0, 2), (0, 3), (1, 2), (1, 3), (2, 3)],
            ),
            (&[6, 6], &[(6, 6)]),
        ];
        for (list, wanted) in tables {
            let mut held = Held::new(rt.alloc(), Row::new(rt.alloc()));
            let terms = variables_of(rt.alloc(), list)?;
            lower_different(rt.alloc(), terms.as_slice(), &mut held)?;
            let model = held.finish(Goal::Satisfy);
            assert_eq!(rt; model.vars.len(), 0);
            assert_eq!(rt; model.calls.len(), wanted.len());
            for (call, numbers) in model.calls.as_slice().iter().zip(wanted.iter()) {
                assert_eq!(rt; call.builtin.name(), b"int_ne".as_slice());
                assert_eq!(rt; call.place, 0);
                assert_eq!(rt; pair(call), Some(*numbers));
            }
        }
        Ok(())
    }
}
