//! Commands with the files and numbers that their words say.

ghost use Rattle.std.specs.Prelude.{◌≡◌, ◌+◌, [], map, string_bytes, slice_index_or};
ghost use Rattle.xf_words.specs.Files.{pick, word_by};
ghost use Rattle.xf_words.specs.Words.{file_of, names_of, solution_of};

/// What the program is asked to do.
#[derive(Clone, Copy, Debug, PartialEq, Eq)]
pub enum Command {
    /// `to-fzn FILE`: the FlatZinc model of an XCSP3 instance.
    ToFzn,
    /// `show FILE`: a summary of an XCSP3 instance or of a FlatZinc model.
    Show,
}

/// The numbers among the words.
#[derive(Clone, Copy, Debug, PartialEq, Eq)]
pub struct Numbers {
    /// The bound of variables that have none, where one is given.
    pub bound: Option<u64>,
    /// The size of what is made; 0 where the command makes nothing.
    pub size: u64,
    /// The number of what is made; 0 where the command makes nothing.
    pub number: u64,
}

/// A command with its numbers.
#[derive(Clone, Copy, Debug, PartialEq, Eq)]
pub struct Call {
    pub command: Command,
    pub numbers: Numbers,
}

/// One of the two files that a command may read.
#[derive(Clone, Copy, Debug, PartialEq, Eq)]
pub enum Which {
    File,
    Solution,
}

/// The word of this file, of the two.
pub fn pick<'a>(which: Which, file: &'a str, solution: &'a str) -> &'a str
    ensures { result.now ≡ pick which file.now solution.now }
{
    match which {
        Which::File => file,
        Which::Solution => solution,
    }
}

impl Command {
    // How many words name the command, before those of its files.
    fn names(self) -> usize
        ensures { result ≡ names_of self }
    {
        match self {
            Command::ToFzn | Command::Show => 1,
        }
    }
}

impl Call {
    /// The word of FILE; empty where there is none.
    pub fn file(self, words: &[String]) -> &str
        ensures { result.now ≡ file_of self (map string_bytes words.now) }
    {
        word_at(self.command.names(), words)
    }

    /// The word of SOLUTION; empty where there is none.
    pub fn solution(self, words: &[String]) -> &str
        ensures { result.now ≡ solution_of self (map string_bytes words.now) }
    {
        word_at(self.command.names() + 1, words)
    }
}

fn word_at(at: usize, words: &[String]) -> &str
    ensures { result.now ≡ slice_index_or (map string_bytes words.now) at [] }
{
    match words.get(at) {
        Some(word) => word.as_str(),
        None => "",
    }
}

/// The word of the call's file; empty without a call.
pub fn file_word(call: Option<Call>, which: Which, words: &[String]) -> &str
    ensures { result.now ≡ word_by call which (map string_bytes words.now) }
{
    match (call, which) {
        (Some(call), Which::File) => call.file(words),
        (Some(call), Which::Solution) => call.solution(words),
        (None, _) => "",
    }
}
