//! Numbers as text.

ghost use Rattle.std.specs.Prelude.{◌≡◌, ◌∷◌, ◌++◌, ◌+ℤ◌, pos, map, OnOk};
ghost use Rattle.std.specs.Fmt.{decimal, signed_decimal};
ghost use Rattle.std.specs.List.{flat_map};
ghost use Rattle.std.specs.Int.{int_gap};
ghost use Rattle.fz_file.specs.Layout.{commas, listed, numbers, integers_from, integers_of, range_text, domain_text};

use itoa::Buffer;
use xf_num::{Domain, NoMemory, Span};

/// Appends a number.
pub fn push_number(out: &mut Vec<u8>, number: i128) -> Result<(), NoMemory>
    ensures { OnOk result (out.new.items ≡ out.old.items ++ signed_decimal number) }
{
    let mut buffer = Buffer::new();
    out.extend_from_slice(buffer.format(number).as_bytes())?;
    Ok(())
}

/// Appends a count.
pub fn push_count(out: &mut Vec<u8>, number: u64) -> Result<(), NoMemory>
    ensures { OnOk result (out.new.items ≡ out.old.items ++ decimal number) }
{
    let mut buffer = Buffer::new();
    out.extend_from_slice(buffer.format(number).as_bytes())?;
    Ok(())
}

/// Appends `lo..hi`.
pub fn push_range(out: &mut Vec<u8>, span: Span) -> Result<(), NoMemory>
    ensures { OnOk result (out.new.items ≡ out.old.items ++ range_text span) }
{
    push_number(out, span.lo())?;
    out.extend_from_slice(b"..")?;
    push_number(out, span.hi())?;
    Ok(())
}

/// Appends ranges with commas between them.
pub fn push_spans(out: &mut Vec<u8>, spans: &[Span]) -> Result<(), NoMemory>
    ensures { OnOk result (out.new.items ≡ out.old.items ++ listed (map range_text spans.now)) }
{
    let mut first = true;
    for span in spans {
        if !first {
            out.extend_from_slice(b",")?;
        }
        push_range(out, *span)?;
        first = false;
    }
    Ok(())
}

// Appends a comma and a number.
fn push_after(out: &mut Vec<u8>, number: i128) -> Result<(), NoMemory>
    ensures { OnOk result (out.new.items ≡ out.old.items ++ 44 ∷ signed_decimal number) }
{
    out.extend_from_slice(b",")?;
    push_number(out, number)?;
    Ok(())
}

// Appends the numbers, each behind a comma.
fn push_commas(out: &mut Vec<u8>, values: &[i128]) -> Result<(), NoMemory>
    ensures { OnOk result (out.new.items ≡ out.old.items ++ commas (numbers values.now)) }
{
    for value in values {
        push_after(out, *value)?;
    }
    Ok(())
}

/// Appends the numbers with commas between them.
pub fn push_numbers(out: &mut Vec<u8>, values: &[i128]) -> Result<(), NoMemory>
    ensures { OnOk result (out.new.items ≡ out.old.items ++ listed (numbers values.now)) }
{
    match values {
        [] => {}
        [first, others @ ..] => {
            push_number(out, *first)?;
            push_commas(out, others)?;
        }
    }
    Ok(())
}

// Appends the integers of a range past its first, each behind a comma.
fn push_past_first(out: &mut Vec<u8>, span: Span) -> Result<(), NoMemory>
    ensures { OnOk result (out.new.items ≡ out.old.items ++ commas (numbers (integers_from (span.lo +ℤ pos 1) (int_gap span.lo span.hi)))) }
{
    let mut value = span.lo();
    while value < span.hi() {
        value += 1;
        push_after(out, value)?;
    }
    Ok(())
}

// Appends the integers of the ranges, each behind a comma.
fn push_ranges(out: &mut Vec<u8>, spans: &[Span]) -> Result<(), NoMemory>
    ensures { OnOk result (out.new.items ≡ out.old.items ++ commas (numbers (flat_map integers_of spans.now))) }
{
    for span in spans {
        push_after(out, span.lo())?;
        push_past_first(out, *span)?;
    }
    Ok(())
}

/// Appends a domain: its range where it is one, else the set of its members.
pub fn push_domain(out: &mut Vec<u8>, domain: &Domain) -> Result<(), NoMemory>
    ensures { OnOk result (out.new.items ≡ out.old.items ++ domain_text domain.now) }
{
    match domain.as_slice() {
        [] => out.extend_from_slice(b"{}")?,
        [only] => push_range(out, *only)?,
        [first, others @ ..] => {
            out.extend_from_slice(b"{")?;
            push_number(out, first.lo())?;
            push_past_first(out, *first)?;
            push_ranges(out, others)?;
            out.extend_from_slice(b"}")?;
        }
    }
    Ok(())
}
