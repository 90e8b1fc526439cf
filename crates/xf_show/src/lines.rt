//! The lines of a summary.

ghost use Rattle.std.specs.Prelude.{◌≡◌, ◌++◌, IfOk, OnOk};
ghost use Rattle.std.specs.Fmt.{decimal};
ghost use Rattle.xf_show.specs.Summary.{count_line, head, occurring};

use itoa::Buffer;
use std::alloc::Global;
use xf_num::{NoMemory, Row, Text};

fn push_number(number: u64, text: &mut Text) -> Result<(), NoMemory>
    ensures { OnOk result (text.new ≡ text.old ++ decimal number) }
{
    let mut buffer = Buffer::new();
    text.extend(buffer.format(number).as_bytes())?;
    Ok(())
}

// Appends the line of a count.
fn push_line(name: &[u8], count: u64, text: &mut Text) -> Result<(), NoMemory>
    ensures { OnOk result (text.new ≡ text.old ++ count_line name.now count) }
{
    text.extend(name)?;
    text.extend(b" ")?;
    push_number(count, text)?;
    text.extend(b"\n")?;
    Ok(())
}

/// Appends the line of a count, where it is not 0.
pub fn push_occurring(name: &[u8], count: u64, text: &mut Text) -> Result<(), NoMemory>
    ensures { OnOk result (text.new ≡ text.old ++ occurring name.now count) }
{
    if count != 0 {
        push_line(name, count, text)?;
    }
    Ok(())
}

/// The lines that each summary begins with.
pub fn begin(
    alloc: Global,
    format: &[u8],
    variables: u64,
    constraints: u64,
    goal: &[u8],
) -> Result<Text, NoMemory>
    ensures { IfOk result (λ text. text ≡ head format.now variables constraints goal.now) }
{
    let mut text = Row::new(alloc);
    text.extend(format)?;
    text.extend(b"\n")?;
    push_line(b"variables", variables, &mut text)?;
    push_line(b"constraints", constraints, &mut text)?;
    text.extend(b"goal ")?;
    text.extend(goal)?;
    text.extend(b"\n")?;
    Ok(text)
}
