//! Room for the tests of constraints.

ghost use Rattle.std.specs.Prelude.{◌≡◌, ◌∷◌, ◌++◌, [], ◌<◌, ◌≤◌, length, take, IfOk, slice_index_or, false};
ghost use Rattle.std.specs.List.Sorted.{IsPermutation, IsSorted};
ghost use Rattle.std.specs.Ordering.{int_cmp};
ghost use Rattle.xs_forms.specs.Laws.{RoomLaws};
ghost use Rattle.xs_forms.specs.Room.{Room, flags_in, room_for, with_flag, with_values};

use crate::sizes::{goal_length, most_longest, most_states};
use std::alloc::Global;
use std::marker::Model;
use xf_num::NoMemory;
use xs_model::Instance;

/// Room for the tests of the constraints of an instance, so that none of them takes memory: two lists of flags, each as
/// long as the greatest number of states of a constraint, and room to put as many values and sort them as the longest
/// list of a constraint or of the objective has members. No call changes how long these are.
#[derive(Drop)]
pub struct Scratch {
    first: Vec<bool>,
    second: Vec<bool>,
    room: Vec<i128>,
    used: usize,
}

impl Model for Scratch {
    ghost use Rattle.std.specs.Prelude.{◌≤◌, length, take};
    ghost use Rattle.xs_forms.specs.Room.{Room};

    ghost Value = { Room };

    ghost view = { λ s. record { first = s.first.items; second = s.second.items; values = take s.used s.room.items; most = length s.room.items } };

    ghost invariant = { λ s. s.used ≤ length s.room.items };
}

impl Scratch {
    /// Room for every constraint of the instance and for its objective: no flag is set, and no value is put.
    pub fn new(alloc: Global, inst: &Instance) -> Result<Scratch, NoMemory>
        ensures { IfOk result (λ s. s ≡ room_for inst.now) }
    {
        let states = most_states(inst.constraints.as_slice()) as usize;
        let longest = most_longest(inst.constraints.as_slice()).max(goal_length(&inst.objective));
        let first = vec![in alloc; false; states]?;
        let second = vec![in alloc; false; states]?;
        let room = vec![in alloc; 0; longest]?;
        Ok(Scratch {
            first,
            second,
            room,
            used: 0,
        })
    }

    /// Whether flag `at` of the first or of the second list is set.
    pub fn marked(&self, second: bool, at: u32) -> bool
        requires { at < length (flags_in second self.now) }
        ensures { result ≡ slice_index_or (flags_in second self.now) at false }
    {
        if second {
            self.second[at as usize]
        } else {
            self.first[at as usize]
        }
    }

    /// Sets flag `at` of the first or of the second list.
    pub fn mark(&mut self, second: bool, at: u32, flag: bool)
        requires { at < length (flags_in second self.old) }
        ensures { self.new ≡ with_flag self.old second at flag }
    {
        if second {
            self.second[at as usize] = flag;
        } else {
            self.first[at as usize] = flag;
        }
    }

    /// Takes all values away.
    pub fn clear(&mut self)
        ensures { self.new ≡ with_values self.old [] }
    {
        self.used = 0;
    }

    /// Puts a value behind the others.
    ///
    /// Asks that there is room for one more.
    pub fn put(&mut self, value: i128)
        requires { length self.old.values < self.old.most }
        ensures { self.new ≡ with_values self.old (self.old.values ++ value ∷ []) }
    {
        self.room[self.used] = value;
        self.used += 1;
    }

    /// The values, in the order in which they were put, or sorted.
    pub fn values(&self) -> &[i128]
        ensures { result.now ≡ self.now.values }
    {
        &self.room[..self.used]
    }

    /// Sorts the values, the least first, in their place.
    pub fn sort(&mut self)
        ensures same { self.new ≡ with_values self.old self.new.values }
        ensures permutation { IsPermutation self.old.values self.new.values }
        ensures sorted { IsSorted int_cmp self.new.values }
    {
        sort_front(&mut self.room, self.used);
    }
}

// Sorts the first so many values.
fn sort_front(values: &mut [i128], used: usize)
    requires { used ≤ length values.old }
    ensures len { length values.new ≡ length values.old }
    ensures permutation { IsPermutation (take used values.old) (take used values.new) }
    ensures sorted { IsSorted int_cmp (take used values.new) }
{
    values[..used].sort_unstable();
}

/// The room that is made for an instance is enough for each of its constraints and for its objective, and each state of
/// a constraint has a flag.
pub fn has_room()
    ensures { RoomLaws }
{}
