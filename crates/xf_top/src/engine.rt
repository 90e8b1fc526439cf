//! All that the program does.

ghost use Rattle.std.specs.Prelude.{◌≡◌, ◌⊎◌, ◌↔◌, ℕ, List, None, IsSome, map, string_bytes};
ghost use Rattle.xf_text.specs.Outside.{Appended, Rose};
ghost use Rattle.xf_text.specs.declared.fault.Fault.{Fault};
ghost use Rattle.xf_words.specs.declared.call.Which.{Which};
ghost use Rattle.xf_words.specs.Files.{MayAsk, MayAskFor, word_of};
ghost use Rattle.xf_words.specs.Words.{call_of, files_of};
ghost use Rattle.xf_course.specs.declared.answers.Answer.{Answer};
ghost use Rattle.xf_course.specs.declared.course.Standing.{Standing};
ghost use Rattle.xf_course.specs.Answers.{Says, line_of, read_fault_line, refusal_line, status_of};
ghost use Rattle.xf_course.specs.Course.{Outcome, Owes, Refuses};
ghost use Rattle.xf_course.specs.Ends.{Completes, Ends, IsBegun, IsDone, IsSingle, IsUnmet, IsWrittenAs};
ghost use Rattle.xf_top.specs.Commands.{course_of};
ghost use Rattle.xf_top.specs.Promises.{promise_of};
ghost use Rattle.xf_top.specs.Runs.{course, course_by, promise, promise_by};
ghost use Rattle.xf_top.specs.Texts.{IsDecided, IsWritable, text_of};

use crate::commands::{show, to_fzn};
use crate::due::Decided;
use crate::writing::write_due;
use fz_read::one_reading as one_model;
use lo_base::EmitStop;
use std::alloc::Global;
use xf_course::{Answer, Halt, tell};
use xf_text::{Shelf, Sink};
use xf_words::{Call, Command, Which, file_word, read_call};
use xs_file::one_reading;

/// Does what the words say, with the files and what takes the text; messages go to `err`. Answers the status and
/// gives back what takes the text.
///
/// The course of the words says which files they come to read, what is refused and what is due
/// (`specs/Commands.antt`); the promise of the words what is promised of a text that is due (`specs/Promises.antt`).
pub fn run<S: Shelf, W: Sink, E: Sink>(
    alloc: Global,
    words: &[String],
    files: &mut S,
    out: W,
    err: &mut E,
) -> (u8, W)
    requires { MayAskFor (S.may_ask files.old) (call_of (map string_bytes words.now)) (map string_bytes words.now) }
    // Status 6 comes exactly where the words are no row of the table; no call is made then on the files or on what takes
    // the text.
    ensures no_command { (result.0 ≡ 6) ↔ (call_of (map string_bytes words.now) ≡ None) }
    ensures untouched { result.0 ≡ 6 → (files.new ≡ files.old) × (result.1 ≡ out) }
    // Status 2: a file is refused for the fault that the line names, with the word of that file.
    ensures refused { result.0 ≡ 2 → (which : Which) × (fault : Fault) × (course (S.files files.old) (map string_bytes words.now)).comes (Refuses which fault) × Says (E.faults err.old) (E.faults err.new) (E.holds err.old) (E.holds err.new) (refusal_line fault (word_of which (map string_bytes words.now))) }
    // Status 1: the verdict is not yes. Either its line was said and nothing written, or exactly the due text was written.
    ensures unmet { result.0 ≡ 1 → IsUnmet (course (S.files files.old) (map string_bytes words.now)) (promise (S.files files.old) (map string_bytes words.now)) (E.faults err.old) (E.faults err.new) (E.holds err.old) (E.holds err.new) (W.holds out) (W.holds result.1) }
    // Status 3 comes only where a call on the files failed, at a file that the words come to read and the line names.
    ensures read_fault { result.0 ≡ 3 → Rose (S.faults files.old) (S.faults files.new) × ((which : Which) × (course (S.files files.old) (map string_bytes words.now)).reads which × Says (E.faults err.old) (E.faults err.new) (E.holds err.old) (E.holds err.new) (read_fault_line (word_of which (map string_bytes words.now)))) }
    // Status 4 comes only where a call on what takes the text failed; a prefix of the due text was written.
    ensures write_fault { result.0 ≡ 4 → Rose (W.faults out) (W.faults result.1) }
    ensures front { result.0 ≡ 4 → IsBegun (course (S.files files.old) (map string_bytes words.now)) (W.holds out) (W.holds result.1) }
    // With status 5 too, or nothing was written.
    ensures memory { result.0 ≡ 5 → (W.holds result.1 ≡ W.holds out) ⊎ IsBegun (course (S.files files.old) (map string_bytes words.now)) (W.holds out) (W.holds result.1) }
    // With status 2, 3 or 6 nothing was written.
    ensures quiet { ((result.0 ≡ 2) ⊎ ((result.0 ≡ 3) ⊎ (result.0 ≡ 6))) → W.holds result.1 ≡ W.holds out }
    // Status 0: exactly the due text was written.
    ensures done { result.0 ≡ 0 → (text : List ℕ) × (course (S.files files.old) (map string_bytes words.now)).comes (Owes Standing.Met text) × Appended (W.holds out) (W.holds result.1) text }
    // Status 7 likewise: the search has more nodes than it may open.
    ensures limited { result.0 ≡ 7 → IsDone (course (S.files files.old) (map string_bytes words.now)) (promise (S.files files.old) (map string_bytes words.now)) Standing.Limited (W.holds out) (W.holds result.1) }
    // Where the files are told, the words come to one outcome at most: what is due above is the due text, and the fault
    // the one fault.
    ensures single { IsSome (S.files files.old) → IsSingle (course (S.files files.old) (map string_bytes words.now)).comes }
    // Where the files are told, each outcome gives its status, unless memory was wanting or a call failed.
    ensures complete { IsSome (S.files files.old) → (o : Outcome) → (course (S.files files.old) (map string_bytes words.now)).comes o → Completes result.0 (S.faults files.old) (S.faults files.new) (W.faults out) (W.faults result.1) o }
    // The theorems: the text that was written with status 0 is as promised. For `to-fzn` the file is read as an instance
    // of XCSP3-core, and the text is that of a sound FlatZinc model, the one that it denotes by the grammar, and which extends
    // the instance's problem, in one way, and is no larger than 64 times its weight.
    ensures promised { result.0 ≡ 0 → (text : List ℕ) × promise (S.files files.old) (map string_bytes words.now) (Owes Standing.Met text) × Appended (W.holds out) (W.holds result.1) text }
    // Each status has its line, which is exactly what was appended to `err` where no call on it failed.
    ensures line { (answer : Answer) × (result.0 ≡ status_of answer) × Says (E.faults err.old) (E.faults err.new) (E.holds err.old) (E.holds err.new) (line_of answer (word_of Which.File (map string_bytes words.now)) (word_of Which.Solution (map string_bytes words.now))) }
{
    one_reading();
    one_model();
    let call = read_call(words);
    let (answer, out) = answer_call(alloc, call, words, files, out);
    let _ = tell(
        &answer,
        file_word(call, Which::File, words),
        file_word(call, Which::Solution, words),
        err,
    );
    (answer.status(), out)
}

// Does what the call says; without one nothing.
fn answer_call<S: Shelf, W: Sink>(
    alloc: Global,
    call: Option<Call>,
    words: &[String],
    files: &mut S,
    out: W,
) -> (Answer, W)
    requires { MayAskFor (S.may_ask files.old) call (map string_bytes words.now) }
    ensures no_command { (result.0 ≡ Answer.NoCommand) ↔ (call ≡ None) }
    ensures untouched { result.0 ≡ Answer.NoCommand → (files.new ≡ files.old) × (result.1 ≡ out) }
    ensures ends { Ends (course_by (S.files files.old) call (map string_bytes words.now)) (promise_by (S.files files.old) call (map string_bytes words.now)) (S.faults files.old) (S.faults files.new) (W.faults out) (W.faults result.1) (W.holds out) (W.holds result.1) result.0 }
{
    match call {
        Some(call) => carry_out(
            alloc,
            call,
            call.file(words),
            call.solution(words),
            files,
            out,
        ),
        None => (Answer::NoCommand, out),
    }
}

// Does what the call says: decides what it comes to, and writes the text that is due.
fn carry_out<S: Shelf, W: Sink>(
    alloc: Global,
    call: Call,
    file: &str,
    solution: &str,
    files: &mut S,
    out: W,
) -> (Answer, W)
    requires { MayAsk (S.may_ask files.old) (files_of call.command) file.now solution.now }
    ensures command { result.0 ≡ Answer.NoCommand → ⊥ }
    ensures ends { Ends (course_of (S.files files.old) file.now solution.now call.command call.numbers) (promise_of (S.files files.old) file.now solution.now call.command call.numbers) (S.faults files.old) (S.faults files.new) (W.faults out) (W.faults result.1) (W.holds out) (W.holds result.1) result.0 }
{
    match decide(alloc, call, file, solution, files) {
        Ok(decided) => write_decided(alloc, &decided, out),
        Err(halt) => (Answer::Halted(halt), out),
    }
}

// Decides what the call comes to: one row a command.
fn decide<S: Shelf>(
    alloc: Global,
    call: Call,
    file: &str,
    solution: &str,
    files: &mut S,
) -> Result<Decided, Halt>
    requires { MayAsk (S.may_ask files.old) (files_of call.command) file.now solution.now }
    ensures { IsDecided (course_of (S.files files.old) file.now solution.now call.command call.numbers) (promise_of (S.files files.old) file.now solution.now call.command call.numbers) (S.faults files.old) (S.faults files.new) result }
{
    match call.command {
        Command::ToFzn => to_fzn::decide(alloc, file, files),
        Command::Show => show::decide(alloc, file, files),
    }
}

// Writes the text that is due.
fn write_decided<W: Sink>(alloc: Global, decided: &Decided, out: W) -> (Answer, W)
    requires { IsWritable decided.now.due }
    ensures { IsWrittenAs decided.now.standing (text_of decided.now.due) (W.faults out) (W.faults result.1) (W.holds out) (W.holds result.1) result.0 }
{
    let (written, out) = write_due(alloc, &decided.due, out);
    match written {
        Ok(()) => (Answer::Wrote(decided.standing), out),
        Err(EmitStop::Failed) => (Answer::NotWritten, out),
        Err(EmitStop::Memory) => (Answer::NoMemory, out),
    }
}
