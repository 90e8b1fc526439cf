//! The answers of a run.

ghost use Rattle.std.specs.Prelude.{◌≡◌, ◌≤◌, ◌++◌, codes, OnOk, OnErr};
ghost use Rattle.std.specs.Fmt.{decimal};
ghost use Rattle.xf_text.specs.Outside.{Rose, Appended};
ghost use Rattle.xf_course.specs.Answers.{halt_line, halt_status, line_of, read_fault_line, refusal_line, standing_status, status_of};

use crate::course::{Halt, Standing};
use itoa::Buffer;
use xf_text::{Failed, Fault, Sink, write_whole};
use xf_words::pick;

/// How a run ends.
#[derive(Debug, Drop)]
pub enum Answer {
    /// The text that was due was written.
    Wrote(Standing),
    /// Nothing is due.
    Halted(Halt),
    /// The text could not be written.
    NotWritten,
    /// Memory was wanting while the text was written.
    NoMemory,
    /// The words are no command.
    NoCommand,
}

impl Standing {
    /// The exit status.
    fn status(self) -> u8
        ensures { result ≡ standing_status self }
    {
        match self {
            Standing::Met => 0,
            Standing::Unmet => 1,
            Standing::Limited => 7,
        }
    }
}

impl Halt {
    /// The exit status.
    fn status(&self) -> u8
        ensures { result ≡ halt_status self.now }
    {
        match self {
            Halt::Denied(_) => 1,
            Halt::Refused(_, _) => 2,
            Halt::NotRead(_) => 3,
            Halt::Memory => 5,
        }
    }
}

impl Answer {
    /// The exit status.
    pub fn status(&self) -> u8
        ensures { result ≡ status_of self.now }
    {
        match self {
            Answer::Wrote(standing) => standing.status(),
            Answer::Halted(halt) => halt.status(),
            Answer::NotWritten => 4,
            Answer::NoMemory => 5,
            Answer::NoCommand => 6,
        }
    }
}

/// Writes the line of the answer, and nothing where it has none. The words are those of the two files; `Failed` comes only
/// where a call on `err` failed.
pub fn tell<E: Sink>(answer: &Answer, file: &str, solution: &str, err: &mut E) -> Result<(), Failed>
    ensures ok { OnOk result (Appended (E.holds err.old) (E.holds err.new) (line_of answer.now file.now solution.now)) }
    ensures cause { OnErr result (Rose (E.faults err.old) (E.faults err.new)) }
{
    match answer {
        Answer::Wrote(_) => write_whole(err, b"")?,
        Answer::Halted(halt) => tell_halt(halt, file, solution, err)?,
        Answer::NotWritten => write_whole(err, b"write fault\n")?,
        Answer::NoMemory => write_whole(err, b"want of memory\n")?,
        Answer::NoCommand => write_whole(err, b"words refused\n")?,
    }
    Ok(())
}

fn tell_halt<E: Sink>(halt: &Halt, file: &str, solution: &str, err: &mut E) -> Result<(), Failed>
    ensures ok { OnOk result (Appended (E.holds err.old) (E.holds err.new) (halt_line halt.now file.now solution.now)) }
    ensures cause { OnErr result (Rose (E.faults err.old) (E.faults err.new)) }
{
    match halt {
        Halt::Denied(line) => write_whole(err, line.as_slice())?,
        Halt::Refused(which, fault) => tell_refusal(*fault, pick(*which, file, solution), err)?,
        Halt::NotRead(which) => tell_read_fault(pick(*which, file, solution), err)?,
        Halt::Memory => write_whole(err, b"want of memory\n")?,
    }
    Ok(())
}

fn tell_read_fault<E: Sink>(word: &str, err: &mut E) -> Result<(), Failed>
    ensures count { E.faults err.old ≤ E.faults err.new }
    ensures ok { OnOk result (Appended (E.holds err.old) (E.holds err.new) (read_fault_line word.now)) }
    ensures cause { OnErr result (Rose (E.faults err.old) (E.faults err.new)) }
{
    write_whole(err, b"read fault in ")?;
    tell_word(word, err)?;
    Ok(())
}

fn tell_word<E: Sink>(word: &str, err: &mut E) -> Result<(), Failed>
    ensures count { E.faults err.old ≤ E.faults err.new }
    ensures ok { OnOk result (Appended (E.holds err.old) (E.holds err.new) (word.now ++ codes "\n")) }
    ensures cause { OnErr result (Rose (E.faults err.old) (E.faults err.new)) }
{
    write_whole(err, word.as_bytes())?;
    write_whole(err, b"\n")?;
    Ok(())
}

fn tell_refusal<E: Sink>(fault: Fault, word: &str, err: &mut E) -> Result<(), Failed>
    ensures count { E.faults err.old ≤ E.faults err.new }
    ensures ok { OnOk result (Appended (E.holds err.old) (E.holds err.new) (refusal_line fault word.now)) }
    ensures cause { OnErr result (Rose (E.faults err.old) (E.faults err.new)) }
{
    write_whole(err, b"refused F")?;
    tell_number(u64::from(fault.kind.number()), b" at ", err)?;
    tell_number(fault.place, b" in ", err)?;
    tell_word(word, err)?;
    Ok(())
}

fn tell_number<E: Sink>(number: u64, behind: &[u8], err: &mut E) -> Result<(), Failed>
    ensures count { E.faults err.old ≤ E.faults err.new }
    ensures ok { OnOk result (Appended (E.holds err.old) (E.holds err.new) (decimal number ++ behind.now)) }
    ensures cause { OnErr result (Rose (E.faults err.old) (E.faults err.new)) }
{
    let mut buffer = Buffer::new();
    write_whole(err, buffer.format(number).as_bytes())?;
    write_whole(err, behind)?;
    Ok(())
}
