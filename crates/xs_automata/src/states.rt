//! The numbers of states.

ghost use Rattle.std.specs.Prelude.{◌≡◌, ◌++◌, ◌∷◌, [], length, position, None, IfOk, OnOk};
ghost use Rattle.std.specs.Str.{bytes_eq};
ghost use Rattle.xs_automata.specs.Numbers.{number_of, with_name};

use indexmap::IndexSet;
use std::alloc::Global;
use std::marker::Model;
use xf_num::NoMemory;

/// The states that were mentioned, each once in the order of first mention, seen as the list of their names.
#[derive(Drop)]
pub struct States {
    alloc: Global,
    names: IndexSet<Vec<u8>>,
}

impl Model for States {
    ghost use Rattle.std.specs.Prelude.{ℕ, List, map};

    ghost Value = { List (List ℕ) };

    ghost view = { λ states. map (λ name. name.items) states.names.keys };
}

impl States {
    pub fn new(alloc: Global) -> States
        ensures { result ≡ [] }
    {
        States {
            alloc,
            names: IndexSet::new(alloc),
        }
    }

    /// How many states were mentioned.
    pub fn count(&self) -> usize
        ensures { result ≡ length self.now }
    {
        self.names.len()
    }

    // The number of a state that was mentioned.
    fn position(&self, name: &[u8]) -> Option<usize>
        ensures { result ≡ position (bytes_eq name.now) self.now }
    {
        self.names.get_index_of(name)
    }

    // Appends a state that was not mentioned.
    fn push(&mut self, name: &[u8]) -> Result<(), NoMemory>
        requires { position (bytes_eq name.now) self.old ≡ None }
        ensures { OnOk result (self.new ≡ self.old ++ name.now ∷ []) }
    {
        let name = Vec::from_slice(self.alloc, name)?;
        self.names.insert(name)?;
        Ok(())
    }

    // The number of a state that was not mentioned, which is appended.
    fn add(&mut self, name: &[u8]) -> Result<u32, NoMemory>
        requires { position (bytes_eq name.now) self.old ≡ None }
        ensures value { IfOk result (λ number. number ≡ length self.old) }
        ensures known { OnOk result (self.new ≡ self.old ++ name.now ∷ []) }
    {
        let number = narrow(self.count())?;
        self.push(name)?;
        Ok(number)
    }

    /// The number of a state, which is mentioned. Past 2^32 states memory is wanting.
    pub fn number(&mut self, name: &[u8]) -> Result<u32, NoMemory>
        ensures value { IfOk result (λ number. number ≡ number_of self.old name.now) }
        ensures known { OnOk result (self.new ≡ with_name self.old name.now) }
    {
        match self.position(name) {
            Some(at) => narrow(at),
            None => self.add(name),
        }
    }
}

// A number of 32 bits.
fn narrow(at: usize) -> Result<u32, NoMemory>
    ensures { IfOk result (λ number. number ≡ at) }
{
    if at <= u32::MAX as usize {
        Ok(at as u32)
    } else {
        Err(NoMemory)
    }
}
