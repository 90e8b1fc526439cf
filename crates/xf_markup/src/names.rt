ghost use Rattle.std.specs.Prelude.{◌≡◌, ◌≤◌, length};
ghost use Rattle.xf_markup.specs.Names.{run, is_name, is_name_start};

/// Whether a name may begin with the byte.
pub fn is_name_start(byte: u8) -> bool
    ensures { result ≡ is_name_start byte }
{
    (b'a' <= byte && byte <= b'z') || (b'A' <= byte && byte <= b'Z') || byte == b'_'
}

// Whether the byte may stand in a name behind its first; `:` comes after `9`.
fn is_name(byte: u8) -> bool
    ensures { result ≡ is_name byte }
{
    is_name_start(byte) || (b'0' <= byte && byte <= b':') || byte == b'-' || byte == b'.'
}

/// How many bytes at the front may stand in a name behind its first.
pub fn name_len(bytes: &[u8]) -> usize
    ensures value { result ≡ run is_name bytes.now }
    ensures within { result ≤ length bytes.now }
{
    for (i, byte) in bytes.iter().enumerate() {
        if !is_name(*byte) {
            return i;
        }
    }
    bytes.len()
}
