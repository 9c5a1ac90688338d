ghost use Rattle.std.specs.Prelude.{◌≡◌, ◌+◌, ◌∷◌, [], drop, slice_get, IfNone, IfSome};
ghost use Rattle.std.specs.List.Sorted.{IsStrictlySortedBy};
ghost use Rattle.std.specs.Map.{keys_of};
ghost use Rattle.spare_tables.specs.Firsts.{AscendFrom, of_first};
ghost use Rattle.spare_tables.specs.Order.{pair_cmp};

use crate::map::KeyMap;
use crate::walk::Walk;
use media_types::Steps;
use std::marker::Model;
use std::sync::ledger::Ledger;

/// Rows of one first number that are still to be read, in the order of the second ones.
#[derive(Debug, Drop)]
pub struct FirstWalk<'a, V> {
    first: u32,
    /// The rows from there on, also those of later first numbers.
    walk: Walk<'a, ((u32, u32), V)>,
}

impl<'a, V> Model for FirstWalk<'a, V> {
    ghost use Rattle.std.specs.Prelude.{List, ℕ};
    ghost use Rattle.spare_tables.specs.Firsts.{AscendFrom, of_first};

    ghost Value = { List ((ℕ × ℕ) × V) };

    ghost view = { λ it. of_first it.first it.walk };

    ghost invariant = { λ it. AscendFrom it.first it.walk };
}

impl<'a, V: Copy> FirstWalk<'a, V> {
    fn new(first: u32, walk: Walk<'a, ((u32, u32), V)>) -> FirstWalk<'a, V>
        requires { AscendFrom first walk }
        ensures { result ≡ of_first first walk.entry }
    {
        FirstWalk { first, walk }
    }

    /// The next row, if there is one. It counts as one read.
    pub fn next<L: Ledger>(&mut self, steps: &mut Steps<L>) -> Option<((u32, u32), V)>
        ensures first { result ≡ slice_get self.old 0 }
        ensures rest { self.new ≡ drop 1 self.old }
        ensures taken { IfSome result (λ row. self.old ≡ row ∷ self.new) }
        ensures ended { IfNone result (self.old ≡ []) }
        ensures steps { steps.new ≡ steps.old + 1 }
    {
        let row = self.walk.next(steps)?;
        if row.0.0 != self.first {
            return None;
        }
        Some(row)
    }
}

impl<V: Copy> KeyMap<(u32, u32), V> {
    /// The rows of a first number, to be read one after the other. Finding the first one counts as one read,
    /// and so does the look at the row behind the last one.
    pub fn walk_first<L: Ledger>(&self, first: u32, steps: &mut Steps<L>) -> FirstWalk<'_, V>
        ensures rows { result ≡ of_first first self.now.rows }
        ensures sorted { IsStrictlySortedBy pair_cmp (keys_of self.now.rows) }
        ensures steps { steps.new ≡ steps.old + 1 }
    {
        FirstWalk::new(first, self.walk_from((first, 0), steps))
    }
}
