ghost use Rattle.std.specs.Prelude.{◌≡◌, ◌≤◌, SomeIff};
ghost use Rattle.xs_notation.specs.Count.{OneCount, nodes_of};
ghost use Rattle.xs_notation.specs.Notation.{is_plain};

use xs_expr::next_token;

/// Whether a token is a word: neither empty nor a mark.
fn is_word(token: &[u8]) -> bool
    ensures { result ≡ is_plain token.now }
{
    if token.is_empty() {
        return false;
    }
    token != b"(".as_slice() && (token != b")".as_slice() && token != b",".as_slice())
}

/// The number of nodes of the expression that a text denotes, where it is at most `left`. In any text it is the number
/// of tokens that are no marks.
pub fn count_nodes(text: &[u8], left: u64) -> Option<u64>
    ensures { SomeIff result (nodes_of text.now ≤ left) (nodes_of text.now) }
{
    let mut count: u64 = 0;
    let mut rest = text;
    while let Some((token, more)) = next_token(rest) {
        if is_word(token) {
            if count >= left {
                return None;
            }
            count += 1;
        }
        rest = more;
    }
    Some(count)
}

/// The law of the count: an expression has as many nodes as there are words among the tokens that it is read from, and
/// the expression with each word read has as many. So what `count_nodes` counts are the nodes of what `read_expr` reads.
pub fn one_count()
    ensures { OneCount }
{}
