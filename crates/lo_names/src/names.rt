//! Names.

ghost use Rattle.std.specs.Prelude.{◌≡◌, ◌++◌, IfOk, OnOk};
ghost use Rattle.std.specs.List.{flat_map};
ghost use Rattle.lo_names.specs.LowNames.{AreLowNames};
ghost use Rattle.lo_names.specs.Spelling.{spelled, spelled_byte, IsInjectiveOnWords, IsApart};

use std::alloc::Global;
use xf_num::{NoMemory, Row, Text};

/// Two direct words that differ are spelled by names that differ, and no such name begins as that of an auxiliary
/// or of a constant does.
pub fn distinct_names()
    ensures injective { IsInjectiveOnWords }
    ensures apart { IsApart }
{}

/// The names of direct words that differ, and behind them those of auxiliaries, are identifiers and no words of the
/// grammar, and they differ.
pub fn low_names()
    ensures { AreLowNames }
{}

/// The FlatZinc name of a direct word.
pub fn spell(alloc: Global, word: &[u8]) -> Result<Text, NoMemory>
    ensures { IfOk result (λ name. name ≡ spelled word.now) }
{
    let mut name = Row::new(alloc);
    name.extend(b"v_")?;
    for byte in word {
        push_spelled(&mut name, *byte)?;
    }
    Ok(name)
}

fn push_spelled(name: &mut Text, byte: u8) -> Result<(), NoMemory>
    ensures { OnOk result (name.new ≡ name.old ++ spelled_byte byte) }
{
    match byte {
        b'_' => name.extend(b"__")?,
        b'[' => name.extend(b"_")?,
        b']' => {}
        _ => name.extend(&[byte])?,
    }
    Ok(())
}
