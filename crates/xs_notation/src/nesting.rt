ghost use Rattle.std.specs.Prelude.{◌≡◌};
ghost use Rattle.xs_fields.specs.Conditions.{first_missed};
ghost use Rattle.xs_notation.specs.Nesting.{is_deeper, nesting_meets};

use xs_expr::is_too_deep;
use xs_fields::Condition;

/// Whether more than 200 `(` are open at once somewhere in the text, a `)` closing one where one is open.
pub fn is_deeper(text: &[u8]) -> bool
    ensures { result ≡ is_deeper 0 text.now }
{
    is_too_deep(text)
}

/// Whether a text misses `Nesting`.
pub fn judge_nesting(text: &[u8]) -> Option<Condition>
    ensures { result ≡ first_missed (nesting_meets text.now) }
{
    if is_deeper(text) {
        Some(Condition::Nesting)
    } else {
        None
    }
}
