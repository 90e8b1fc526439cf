//! A constraint of one text, which is its own or that of one child.

ghost use Rattle.std.specs.Prelude.{◌≡◌};
ghost use Rattle.std.specs.Option.{option_map};
ghost use Rattle.xs_fields.specs.Conditions.{first_missed};
ghost use Rattle.xs_relate.specs.Unit.{unit_meets};
ghost use Rattle.xs_var.specs.Elements.{text_or_none};

use xs_fields::{Condition, earlier};
use xs_parts::judge_nesting;
use xs_var::judge_spelling;

/// What a constraint misses first by itself, where `shallow` says whether its texts are nested no deeper than the limit.
pub(crate) fn judge_unit(shallow: bool, text: Option<&[u8]>) -> Option<Condition>
    ensures { result ≡ first_missed (unit_meets shallow (option_map (λ x. x.now) text.entry)) }
{
    earlier(judge_nesting(shallow), judge_spelling(text.is_some()))
}

/// The one text, where there is one.
pub(crate) fn text_or_none<'a>(text: Option<&'a [u8]>) -> &'a [u8]
    ensures { result.now ≡ text_or_none (option_map (λ x. x.now) text.entry) }
{
    match text {
        Some(text) => text,
        None => &[],
    }
}
