//! Names that differ, each with what it stands for.

ghost use Rattle.std.specs.Prelude.{◌≡◌, ◌++◌, ◌∷◌, [], None, OnOk, OnErr};
ghost use Rattle.std.specs.Option.{option_map};
ghost use Rattle.fz_values.specs.Names.{look_up};

use crate::meaning::Meaning;
use indexmap::IndexMap;
use std::alloc::Global;
use std::marker::Model;
use xf_num::NoMemory;

/// Declared names, seen as the list of the names in order, each with what it stands for.
#[derive(Drop)]
pub struct Names {
    entries: IndexMap<Vec<u8>, Meaning>,
}

impl Model for Names {
    ghost use Rattle.std.specs.Prelude.{ℕ, List, map};
    ghost use Rattle.fz_values.specs.declared.meaning.Meaning.{Meaning};

    ghost Value = { List (List ℕ × Meaning) };

    ghost view = { λ names. map (λ e. (e.0.items, e.1)) names.entries.entries };
}

impl Names {
    /// No names.
    pub fn new(alloc: Global) -> Names
        ensures { result ≡ [] }
    {
        Names {
            entries: IndexMap::new(alloc),
        }
    }

    /// What a name stands for; None where it is not declared.
    pub fn find(&self, name: &[u8]) -> Option<&Meaning>
        ensures { option_map (λ meaning. meaning.now) result ≡ look_up self.now name.now }
    {
        self.entries.get(name)
    }

    /// Appends a name that is not there, or changes nothing.
    pub fn declare(&mut self, name: Vec<u8>, meaning: Meaning) -> Result<(), NoMemory>
        requires { look_up self.old name.items ≡ None }
        ensures ok { OnOk result (self.new ≡ self.old ++ (name.items, meaning) ∷ []) }
        ensures err { OnErr result (self.new ≡ self.old) }
    {
        self.entries.insert(name, meaning)?;
        Ok(())
    }
}
