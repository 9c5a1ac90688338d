ghost use Rattle.std.specs.Prelude.{◌≡◌, ◌==◌, ℕ, ◌+◌, ◌*◌, ◌<◌, ◌≤◌, [], ◌∷◌, ◌++◌, length, All, IfOk, OnOk, slice_set, if◌then◌else◌};
ghost use Rattle.std.specs.List.{list_any};
ghost use Rattle.sibling_chains.specs.Ends.{at};
ghost use Rattle.spare_tables.specs.Pairs.{second_of};
ghost use Rattle.sibling_chains.specs.Grouping.{IsNext, is_either, lesser_of, numbers_of};

use media_types::{NoMemory, Steps};
use spare_tables::{PairSet, pair_laws};
use std::alloc::Global;
use std::marker::Model;
use std::sync::ledger::Ledger;

/// Numbers from 0, each in a group that has a label.
#[derive(Drop)]
pub struct Grouped {
    labels: Vec<u32>,
    /// Each number behind its label.
    members: PairSet,
}

impl Model for Grouped {
    ghost use Rattle.std.specs.Prelude.{◌-◌, min, vec_len, vec_capacity};
    ghost use Rattle.sibling_chains.specs.Grouping.{Grouping, IsGrouped};

    ghost Value = { Grouping };

    ghost view = { λ grouped. record {
      labels = grouped.labels.items;
      spare = min (vec_capacity grouped.labels - vec_len grouped.labels) grouped.members.spare;
    } };

    ghost invariant = { λ grouped. IsGrouped grouped.labels.items grouped.members.rows };
}

impl Grouped {
    /// No numbers. It takes no memory yet.
    pub fn new(alloc: Global) -> Grouped
        ensures labels { result.labels ≡ [] }
    {
        Grouped {
            labels: Vec::new(alloc),
            members: PairSet::new(alloc),
        }
    }

    /// Makes room for one more number.
    pub fn reserve(&mut self) -> Result<(), NoMemory>
        ensures labels { self.new.labels ≡ self.old.labels }
        ensures ok { OnOk result (1 ≤ self.new.spare) }
        ensures spare { self.old.spare ≤ self.new.spare }
    {
        self.labels.reserve(1)?;
        self.members.reserve(1)?;
        Ok(())
    }

    /// Adds the next number to a group, in the room that was made.
    pub fn push(&mut self, label: u32)
        requires spare { 1 ≤ self.old.spare }
        requires few { length self.old.labels < 4294967294 }
        ensures labels { self.new.labels ≡ self.old.labels ++ label ∷ [] }
        ensures spare { self.old.spare ≤ self.new.spare + 1 }
    {
        let number = self.labels.len() as u32;
        self.labels.push_reserved(label);
        self.members.insert((label, number));
    }

    /// How many numbers there are.
    pub fn len(&self) -> u32
        ensures { result ≡ length self.now.labels }
    {
        let _members = &self.members;
        self.labels.len() as u32
    }

    /// The label of a number's group.
    pub fn label(&self, number: u32) -> u32
        requires { number < length self.now.labels }
        ensures { result ≡ at self.now.labels number }
    {
        self.labels[number as usize]
    }

    /// The least number of a group that isn't below another. It counts as one read.
    pub fn next<L: Ledger>(&self, label: u32, from: u32, steps: &mut Steps<L>) -> Option<u32>
        ensures next { IsNext (length self.now.labels) (λ n. at self.now.labels n == label) from result }
        ensures steps { steps.new ≡ steps.old + 1 }
    {
        pair_laws();
        let found = self.members.range_from((label, from), steps);
        second_in(label, found)
    }

    /// The least number of two groups that isn't below another. It counts as two reads.
    pub fn next_of_two<L: Ledger>(
        &self,
        a: u32,
        b: u32,
        from: u32,
        steps: &mut Steps<L>,
    ) -> Option<u32>
        ensures next { IsNext (length self.now.labels) (λ n. is_either a b (at self.now.labels n)) from
            result }
        ensures steps { steps.new ≡ steps.old + 2 }
    {
        let one = self.next(a, from, steps);
        let other = self.next(b, from, steps);
        lesser(one, other)
    }

    /// The numbers of two groups, which may be the same one. Each is two reads, and so is the end.
    pub fn members<L: Ledger>(
        &self,
        alloc: Global,
        a: u32,
        b: u32,
        steps: &mut Steps<L>,
    ) -> Result<Vec<u32>, NoMemory>
        ensures members { IfOk result (λ list. list.items ≡ numbers_of a b self.now.labels) }
        ensures steps { steps.new ≤ steps.old + 2 * (length (numbers_of a b self.now.labels) + 1) }
    {
        let _labels = &self.labels;
        let mut list = Vec::new(alloc);
        let mut from = 0;
        while let Some(number) = self.next_of_two(a, b, from, steps) {
            list.push(number)?;
            from = number + 1;
        }
        Ok(list)
    }

    /// Puts some numbers into one group.
    pub fn put_all(&mut self, numbers: &[u32], label: u32)
        requires { All (λ n. n < length self.old.labels) numbers.now }
        ensures len { length self.new.labels ≡ length self.old.labels }
        ensures labels { (k : ℕ) → at self.new.labels k
            ≡ (if list_any (λ n. n == k) numbers.now then label else at self.old.labels k) }
        ensures spare { self.old.spare ≤ self.new.spare }
    {
        for number in numbers {
            self.put(*number, label);
        }
    }

    // Puts a number into another group, or into its own again.
    fn put(&mut self, number: u32, label: u32)
        requires { number < length self.old.labels }
        ensures labels { self.new.labels ≡ slice_set self.old.labels number label }
        ensures spare { self.old.spare ≤ self.new.spare }
    {
        let old = self.labels[number as usize];
        self.members.remove((old, number));
        self.members.insert((label, number));
        self.labels[number as usize] = label;
    }
}

// The second number of a pair, where its first is this one.
fn second_in(first: u32, pair: Option<(u32, u32)>) -> Option<u32>
    ensures { result ≡ second_of first pair }
{
    match pair {
        Some((found, second)) if found == first => Some(second),
        _ => None,
    }
}

fn lesser(one: Option<u32>, other: Option<u32>) -> Option<u32>
    ensures { result ≡ lesser_of one other }
{
    match (one, other) {
        (Some(m), Some(n)) => Some(m.min(n)),
        (Some(m), None) => Some(m),
        (None, _) => other,
    }
}
