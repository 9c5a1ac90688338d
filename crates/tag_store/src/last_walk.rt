ghost use Rattle.std.specs.Prelude.{◌≡◌, ◌≤◌, ◌<◌, ◌+◌, ◌^◌, ◌∷◌, ℕ, [], All, drop, false, find, nat_le, slice_get, IfNone, IfSome};
ghost use Rattle.std.specs.Map.{keys_of};
ghost use Rattle.tag_store.specs.Lasts.{AscendFrom, IsShort, is_behind, lasts, lasts_from};
ghost use Rattle.tag_store.specs.Mapped.{with_state};

use media_types::Steps;
use spare_tables::{KeyMap, Walk};
use std::marker::Model;
use std::sync::ledger::Ledger;
use tag_types::MapState;

/// The state of each triple of numbers.
pub type TripleMap = KeyMap<(u32, u32, u32), MapState>;

/// Rows of two first numbers that are still to be read, in the order of the last ones.
#[derive(Debug, Drop)]
pub struct LastWalk<'a> {
    first: u32,
    second: u32,
    /// The rows from there on, also those of later first numbers.
    walk: Walk<'a, ((u32, u32, u32), MapState)>,
}

impl<'a> Model for LastWalk<'a> {
    ghost use Rattle.std.specs.Prelude.{List, ℕ};
    ghost use Rattle.tag_types.specs.declared.map_state.MapState.{MapState};
    ghost use Rattle.tag_store.specs.Lasts.{AscendFrom, lasts};

    ghost Value = { List (ℕ × MapState) };

    ghost view = { λ it. lasts it.first it.second it.walk };

    ghost invariant = { λ it. AscendFrom it.first it.second it.walk };
}

impl<'a> LastWalk<'a> {
    // The next last number with its state, if there is one. It counts as one read.
    pub fn next<L: Ledger>(&mut self, steps: &mut Steps<L>) -> Option<(u32, MapState)>
        ensures first { result ≡ slice_get self.old 0 }
        ensures rest { self.new ≡ drop 1 self.old }
        ensures taken { IfSome result (λ it. self.old ≡ it ∷ self.new) }
        ensures ended { IfNone result (self.old ≡ []) }
        ensures steps { steps.new ≡ steps.old + 1 }
    {
        let (key, state) = self.walk.next(steps)?;
        if key.0 == self.first && key.1 == self.second {
            return Some((key.2, state));
        }
        None
    }
}

/// The rows of two first numbers from a last one on, to be read one after the other. Finding that place counts
/// as one read, and so does the look at the row behind the last one.
pub fn walk_lasts<'a, L: Ledger>(
    map: &'a TripleMap,
    first: u32,
    second: u32,
    from: u32,
    steps: &mut Steps<L>,
) -> LastWalk<'a>
    ensures rows { result ≡ lasts_from first second from map.now.rows }
    ensures steps { steps.new ≡ steps.old + 1 }
{
    LastWalk {
        first,
        second,
        walk: map.walk_from((first, second, from), steps),
    }
}

/// The first row of two first numbers whose last one comes after a place. It counts as two reads at most.
pub fn first_behind<L: Ledger>(
    map: &TripleMap,
    first: u32,
    second: u32,
    after: Option<u32>,
    steps: &mut Steps<L>,
) -> Option<(u32, MapState)>
    requires short { All IsShort (keys_of map.now.rows) }
    ensures first { result ≡ find (λ it. is_behind after it.0) (lasts first second map.now.rows) }
    ensures reads { steps.new ≤ steps.old + 2 }
{
    let from = start_behind(after)?;
    walk_lasts(map, first, second, from, steps).next(steps)
}

// Where the numbers begin that come after a place, unless it is the last number of all.
fn start_behind(after: Option<u32>) -> Option<u32>
    ensures some { IfSome result (λ from. (n : ℕ) → nat_le from n ≡ is_behind after n) }
    ensures none { IfNone result ((n : ℕ) → n < 2 ^ 32 → is_behind after n ≡ false) }
{
    match after {
        Some(after) => after.checked_add(1),
        None => Some(0),
    }
}

/// Sets the state of a triple in the room that was made, or takes its row out.
pub fn set_row(map: &mut TripleMap, key: (u32, u32, u32), state: Option<MapState>)
    requires { 1 ≤ map.old.spare }
    ensures rows { map.new.rows ≡ with_state map.old.rows key.0 key.1 key.2 state }
    ensures spare { map.old.spare ≤ map.new.spare + 1 }
{
    match state {
        Some(state) => {
            map.insert(key, state);
        }
        None => {
            map.take(key);
        }
    }
}
