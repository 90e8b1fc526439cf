//! `to-fzn FILE`: the FlatZinc model of an XCSP3 instance.

ghost use Rattle.std.specs.Prelude.{◌≡◌, [], true};
ghost use Rattle.xf_top.specs.Commands.{course_of};
ghost use Rattle.xf_top.specs.Promises.{promise_of};
ghost use Rattle.xf_top.specs.Texts.{IsDecided};
ghost use Rattle.xf_words.specs.Words.{no_numbers};

use crate::due::{Decided, Due};
use crate::formats::AnInstance;
use fz_again::{one_layout, written_again};
use std::alloc::Global;
use xf_carry::{low_extends, low_sound};
use xf_course::{Halt, Standing, read_as};
use xf_text::Shelf;
use xf_words::{Command, Which};

/// Decides what the command comes to.
pub fn decide<S: Shelf>(alloc: Global, file: &str, files: &mut S) -> Result<Decided, Halt>
    requires { S.may_ask files.old file.now ≡ true }
    ensures { IsDecided (course_of (S.files files.old) file.now [] Command.ToFzn no_numbers) (promise_of (S.files files.old) file.now [] Command.ToFzn no_numbers) (S.faults files.old) (S.faults files.new) result }
{
    low_extends();
    low_sound();
    written_again();
    one_layout();
    let instance = read_as(alloc, &AnInstance, Which::File, file, files)?;
    Ok(Decided {
        standing: Standing::Met,
        due: Due::Lowered(instance),
    })
}
