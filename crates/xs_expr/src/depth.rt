ghost use Rattle.std.specs.Prelude.{◌≡◌, ◌≤◌, true, false};
ghost use Rattle.xs_expr.specs.Depth.{levels, opened, IsTooDeep};

/// So many parentheses may be open at once.
const LEVELS: usize = 200;

/// Whether more than 200 `(` are open at once somewhere in the text, a `)` closing one where one is open.
pub fn is_too_deep(text: &[u8]) -> bool
    ensures deep { result ≡ true → IsTooDeep text.now }
    ensures shallow { result ≡ false → ¬ (IsTooDeep text.now) }
{
    let mut level: usize = 0;
    for byte in text {
        level = opened(level, *byte);
        if level > LEVELS {
            return true;
        }
    }
    false
}

/// How many are open behind one byte more.
fn opened(level: usize, byte: u8) -> usize
    requires { level ≤ levels }
    ensures { result ≡ opened level byte }
{
    match byte {
        b'(' => level + 1,
        b')' => level.saturating_sub(1),
        _ => level,
    }
}
