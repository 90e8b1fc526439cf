//! What is read of a model so far.

ghost use Rattle.std.specs.Prelude.{◌≡◌, None, OnOk};
ghost use Rattle.fz_values.specs.Names.{look_up};
ghost use Rattle.fz_items.specs.Progress.{begun, is_new, with_name, with_var, with_output, with_call};

use fz_model::{Call, Calls, FzVar, FzVars, Output, Outputs};
use fz_values::{Meaning, Names};
use std::alloc::Global;
use xf_num::{MAX_ITEMS, NoMemory, Row};

/// The names, the variables, the shown arrays and the calls so far, and how many leaves may still come.
#[derive(Drop)]
pub struct Progress {
    pub names: Names,
    pub vars: FzVars,
    pub outputs: Outputs,
    pub calls: Calls,
    pub room: u64,
}

/// Nothing is read.
pub fn begun(alloc: Global) -> Progress
    ensures { result ≡ begun }
{
    Progress {
        names: Names::new(alloc),
        vars: Row::new(alloc),
        outputs: Row::new(alloc),
        calls: Row::new(alloc),
        room: MAX_ITEMS,
    }
}

/// Whether the name is not declared.
pub fn is_new(progress: &Progress, name: &[u8]) -> bool
    ensures { result ≡ is_new progress.now name.now }
{
    progress.names.find(name).is_none()
}

/// Declares a name that is new, with so many leaves.
pub fn add_name(
    alloc: Global,
    progress: &mut Progress,
    name: &[u8],
    meaning: Meaning,
    leaves: u64,
) -> Result<(), NoMemory>
    requires { look_up progress.old.names name.now ≡ None }
    ensures { OnOk result (progress.new ≡ with_name progress.old name.now meaning leaves) }
{
    let key = Vec::from_slice(alloc, name)?;
    progress.names.declare(key, meaning)?;
    progress.room = progress.room.saturating_sub(leaves);
    Ok(())
}

/// Appends a variable.
pub fn add_var(progress: &mut Progress, var: FzVar) -> Result<(), NoMemory>
    ensures { OnOk result (progress.new ≡ with_var progress.old var) }
{
    progress.vars.push(var)?;
    Ok(())
}

/// Appends a shown array.
pub fn add_output(progress: &mut Progress, output: Output) -> Result<(), NoMemory>
    ensures { OnOk result (progress.new ≡ with_output progress.old output) }
{
    progress.outputs.push(output)?;
    Ok(())
}

/// Appends a call, behind which there is so much room.
pub fn add_call(progress: &mut Progress, call: Call, room: u64) -> Result<(), NoMemory>
    ensures { OnOk result (progress.new ≡ with_call progress.old call room) }
{
    progress.calls.push(call)?;
    progress.room = room;
    Ok(())
}
