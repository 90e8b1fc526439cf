//! `show FILE`: a summary of an XCSP3 instance or of a FlatZinc model.

ghost use Rattle.std.specs.Prelude.{◌≡◌, [], true, IfOk};
ghost use Rattle.xf_course.specs.Course.{Owes, ends_with};
ghost use Rattle.xf_top.specs.Commands.{course_of};
ghost use Rattle.xf_top.specs.Formats.{IsKnown};
ghost use Rattle.xf_top.specs.Promises.{promise_of};
ghost use Rattle.xf_top.specs.Texts.{IsDecided, summary};
ghost use Rattle.xf_words.specs.Words.{no_numbers};

use crate::due::{Decided, Due};
use crate::formats::{AnEither, Either};
use std::alloc::Global;
use xf_course::{Halt, Standing, read_as};
use xf_num::{NoMemory, Text};
use xf_show::{instance_summary, model_summary};
use xf_text::Shelf;
use xf_words::{Command, Which};

/// Decides what the command comes to.
pub fn decide<S: Shelf>(alloc: Global, file: &str, files: &mut S) -> Result<Decided, Halt>
    requires { S.may_ask files.old file.now ≡ true }
    ensures { IsDecided (course_of (S.files files.old) file.now [] Command.Show no_numbers) (promise_of (S.files files.old) file.now [] Command.Show no_numbers) (S.faults files.old) (S.faults files.new) result }
{
    let either = read_as(alloc, &AnEither, Which::File, file, files)?;
    summarize(alloc, &either)
}

// The summary is due.
fn summarize(alloc: Global, either: &Either) -> Result<Decided, Halt>
    requires { IsKnown either.now }
    ensures { IsDecided (ends_with (Owes Standing.Met (summary either.now))) (λ o. Unit {0}) 0 0 result }
{
    match summary(alloc, either) {
        Ok(text) => Ok(Decided {
            standing: Standing::Met,
            due: Due::Text(text),
        }),
        Err(_) => Err(Halt::Memory),
    }
}

fn summary(alloc: Global, either: &Either) -> Result<Text, NoMemory>
    requires { IsKnown either.now }
    ensures { IfOk result (λ text. text ≡ summary either.now) }
{
    match either {
        Either::Markup(instance) => instance_summary(alloc, instance),
        Either::Flat(model) => model_summary(alloc, model),
    }
}
