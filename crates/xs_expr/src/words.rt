ghost use Rattle.std.specs.Prelude.{◌≡◌};
ghost use Rattle.xs_expr.specs.Words.{is_exponent_word};

use xs_fields::read_integer;

/// Whether a word is an exponent: an integer from 1 to 64, however it is spelt.
pub fn is_exponent_word(word: &[u8]) -> bool
    ensures { result ≡ is_exponent_word word.now }
{
    match read_integer(word) {
        Ok(value) => value >= 1 && value <= 64,
        Err(_) => false,
    }
}
