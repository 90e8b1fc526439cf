ghost use Rattle.std.specs.Prelude.{◌≡◌, IfOk};
ghost use Rattle.xs_expr.specs.Tokens.{tokens_of};
ghost use Rattle.xs_notation.specs.Parse.{parse};

use crate::growing::{Growing, step};
use crate::raw::Raw;
use std::alloc::Global;
use xf_num::NoMemory;
use xs_expr::next_token;

/// The expression whose tokens are those of the text. None exactly where there is none.
pub fn read_raw(alloc: Global, text: &[u8]) -> Result<Option<Raw>, NoMemory>
    ensures { IfOk result (λ r. r ≡ parse (tokens_of text.now)) }
{
    let mut state = Growing::new(alloc);
    let mut rest = text;
    while let Some((token, more)) = next_token(rest) {
        let next = step(alloc, token, state)?;
        match next {
            Some(next) => state = next,
            None => return Ok(None),
        }
        rest = more;
    }
    Ok(state.finish())
}
