//! States that are found by their numbers.

ghost use Rattle.std.specs.Prelude.{◌≡◌, ◌<◌, ◌∷◌, ◌++◌, ℕ, [], None, length, eqb, get_or, IfSome, IfOk, OnOk};
ghost use Rattle.std.specs.List.{list_any};
ghost use Rattle.xs_paths.specs.Layers.{once};
ghost use Rattle.lo_paths.specs.Path.{with_one};
ghost use Rattle.lo_paths.specs.Places.{place};

use std::alloc::Global;
use std::marker::Model;
use xf_num::{NoMemory, Row};

fn place_in(places: &[Option<usize>], state: u32) -> Option<usize>
    ensures { result ≡ get_or places.now state None }
{
    let at = state as usize;
    if at < places.len() { places[at] } else { None }
}

/// Makes room for the place of a state. No place changes.
fn widen(places: &mut Row<Option<usize>>, state: u32) -> Result<(), NoMemory>
    ensures same { (q : ℕ) → get_or places.new q None ≡ get_or places.old q None }
    ensures long { OnOk result (state < length places.new) }
{
    for _number in places.len()..state as usize + 1 {
        places.push(None)?;
    }
    Ok(())
}

/// States, each once, seen as the list of them in order. States have small numbers: a table has the place of each by its
/// number, up to the greatest.
#[derive(Drop)]
pub struct States {
    listed: Row<u32>,
    places: Row<Option<usize>>,
}

impl Model for States {
    ghost use Rattle.std.specs.Prelude.{ℕ, List};
    ghost use Rattle.lo_paths.specs.Places.{ArePlaces};

    ghost Value = { List ℕ };

    ghost view = { λ states. states.listed };

    ghost invariant = { λ states. ArePlaces states.listed states.places };
}

impl States {
    /// No states.
    pub fn new(alloc: Global) -> States
        ensures { result ≡ [] }
    {
        States {
            listed: Row::new(alloc),
            places: Row::new(alloc),
        }
    }

    pub fn as_slice(&self) -> &[u32]
        ensures { result.now ≡ self.now }
    {
        self.listed.as_slice()
    }

    /// The place of a state, where it is there, in constant time.
    pub fn place(&self, state: u32) -> Option<usize>
        ensures value { result ≡ place self.now state }
        ensures within { IfSome result (λ at. at < length self.now) }
    {
        place_in(self.places.as_slice(), state)
    }

    /// Whether a state is there, in constant time.
    pub fn contains(&self, state: u32) -> bool
        ensures { result ≡ list_any (eqb state) self.now }
    {
        self.place(state).is_some()
    }

    /// Appends a state that is not there.
    pub fn push(&mut self, state: u32) -> Result<(), NoMemory>
        requires { place self.old state ≡ None }
        ensures { OnOk result (self.new ≡ self.old ++ state ∷ []) }
    {
        widen(&mut self.places, state)?;
        let at = self.listed.len();
        self.listed.push(state)?;
        self.places.replace(state as usize, Some(at));
        Ok(())
    }

    /// Appends a state, where it is not there.
    pub fn put(&mut self, state: u32) -> Result<(), NoMemory>
        ensures { OnOk result (self.new ≡ with_one self.old state) }
    {
        match self.place(state) {
            Some(_) => Ok(()),
            None => self.push(state),
        }
    }
}

/// The states of a list, each once.
#[tactic(auto, using(crate::proofs::Targets::adds_once))]
pub fn states_of(alloc: Global, list: &[u32]) -> Result<States, NoMemory>
    ensures { IfOk result (λ states. states ≡ once list.now) }
{
    let mut states = States::new(alloc);
    for state in list {
        states.put(*state)?;
    }
    Ok(states)
}
