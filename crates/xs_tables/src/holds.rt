//! Whether tables hold.

ghost use Rattle.std.specs.Prelude.{◌≡◌, ◌↔◌, ◌<◌, true, length, map};
ghost use Rattle.std.specs.List.{AllByRecursion, list_any};
ghost use Rattle.xs_laws.specs.Meeting.{is_within};
ghost use Rattle.xs_laws.specs.Tables.{is_matched};
ghost use Rattle.xs_model.specs.Fitting.{HaveLength};
ghost use Rattle.xs_model.specs.Instance.{values};
ghost use Rattle.xs_model.specs.Language.{IsInSpans, IsInTable};
ghost use Rattle.xs_model.specs.Value.{at};
ghost use Rattle.xs_tables.specs.Holding.{is_asked, is_met};

use xf_num::Span;
use xs_model::Tuple;

/// The value of a variable.
pub fn value_of(a: &[i128], variable: u32) -> i128
    requires { variable < length a.now }
    ensures { result ≡ at a.now variable }
{
    a[variable as usize]
}

// Whether some is told where that is asked, and none where not.
fn is_asked(positive: bool, some: bool) -> bool
    ensures { result ≡ is_asked positive some }
{
    if positive { some } else { !some }
}

// Whether an entry agrees with a value.
fn is_met(entry: Option<i128>, value: i128) -> bool
    ensures { result ≡ is_met entry value }
{
    match entry {
        None => true,
        Some(due) => value == due,
    }
}

// Whether a tuple agrees with the values of a list, as far as both go.
fn is_matched(tuple: &[Option<i128>], list: &[u32], a: &[i128]) -> bool
    requires { AllByRecursion (λ v. v < length a.now) list.now }
    ensures { result ≡ is_matched (values a.now list.now) tuple.now }
{
    let mut entries = tuple;
    let mut variables = list;
    while let Some((entry, more)) = entries.split_first() {
        match variables.split_first() {
            None => return true,
            Some((variable, others)) => {
                if !is_met(*entry, value_of(a, *variable)) {
                    return false;
                }
                entries = more;
                variables = others;
            }
        }
    }
    true
}

// Whether some tuple agrees with the values of a list.
fn some_matched(tuples: &[Tuple], list: &[u32], a: &[i128]) -> bool
    requires { AllByRecursion (λ v. v < length a.now) list.now }
    ensures { result ≡ list_any (is_matched (values a.now list.now)) tuples.now }
{
    for tuple in tuples {
        if is_matched(tuple.as_slice(), list, a) {
            return true;
        }
    }
    false
}

/// Whether some tuple of supports agrees with the values of a list; where not positive, whether none does. Takes no
/// memory.
///
/// Asks that the tuples are as long as the list, and that each of its variables has a value.
pub fn holds_table(list: &[u32], tuples: &[Tuple], positive: bool, a: &[i128]) -> bool
    requires long { HaveLength (length list.now) tuples.now }
    requires valued { AllByRecursion (λ v. v < length a.now) list.now }
    ensures { (result ≡ true) ↔ IsInTable positive tuples.now (values a.now list.now) }
{
    let some = some_matched(tuples, list, a);
    is_asked(positive, some)
}

// Whether some range holds the value of a variable.
fn is_held(spans: &[Span], variable: u32, a: &[i128]) -> bool
    requires { variable < length a.now }
    ensures { result ≡ list_any (λ b. is_within b (at a.now variable)) spans.now }
{
    let value = value_of(a, variable);
    for span in spans {
        if span.lo() <= value && value <= span.hi() {
            return true;
        }
    }
    false
}

/// Whether the value of a variable is within some range; where not positive, whether it is within none. Takes no memory.
///
/// Asks that the variable has a value.
pub fn holds_ranges(variable: u32, spans: &[Span], positive: bool, a: &[i128]) -> bool
    requires { variable < length a.now }
    ensures { (result ≡ true) ↔ IsInSpans positive spans.now (at a.now variable) }
{
    let some = is_held(spans, variable, a);
    is_asked(positive, some)
}
