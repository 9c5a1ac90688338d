ghost use Rattle.std.specs.Prelude.{◌≡◌, ◌≢◌, ◌↔◌, ◌<◌, ◌≤◌, length, slice_get, true, false, Some, IsTrue, IfOk, Err, if◌then◌else◌};
ghost use Rattle.media_types.specs.Cause.{HasCause};
ghost use Rattle.media_keeper.specs.Script.{is_failing, after_call, after_fault, start_answer, after_start, after_next, after_put};

use media_base::{CallList, Change, ChangeList, Keeper, NextFault, PutFault, StartFault};
use std::alloc::Global;
use std::marker::Model;

/// A keeper of changes in memory, which tells what it keeps. It fails the calls that it was told, and takes
/// the memory of the copies that it gives and keeps.
#[derive(Debug, Drop)]
pub struct MemoryKeeper {
    alloc: Global,
    kept: ChangeList,
    limit: u64,
    fails: CallList,
    calls: u64,
    faults: u64,
    started: bool,
    given: usize,
    told: usize,
}

impl Model for MemoryKeeper {
    ghost use Rattle.std.specs.Prelude.{◌≤◌, length};
    ghost use Rattle.media_keeper.specs.Script.{KeeperScript};

    ghost Value = { KeeperScript };

    ghost view = { λ keeper. record {
      kept = keeper.kept;
      limit = keeper.limit;
      fails = keeper.fails;
      calls = keeper.calls;
      faults = keeper.faults;
      started = keeper.started;
      given = keeper.given;
      told = keeper.told;
    } };

    ghost invariant = { λ keeper. keeper.told ≤ length keeper.kept };
}

impl MemoryKeeper {
    /// A keeper of these changes, which has no room once `limit` are kept. Each change is one unit. The
    /// calls whose numbers stand in `fails`, from 1 over all three kinds of calls, fail.
    pub fn new(alloc: Global, kept: ChangeList, fails: CallList, limit: u64) -> MemoryKeeper
        ensures { result ≡ record {
          kept = kept;
          limit = limit;
          fails = fails;
          calls = 0;
          faults = 0;
          started = false;
          given = 0;
          told = 0;
        } }
    {
        MemoryKeeper {
            alloc,
            kept,
            limit,
            fails,
            calls: 0,
            faults: 0,
            started: false,
            given: 0,
            told: 0,
        }
    }

    /// The changes that it keeps.
    pub fn changes(&self) -> &ChangeList
        ensures { result.now ≡ self.now.kept }
    {
        &self.kept
    }

    fn count_call(&mut self)
        ensures { self.new ≡ after_call self.old }
    {
        self.calls = self.calls.saturating_add(1);
    }

    // Counts a call, and a fault where it is one that fails.
    fn is_failing_now(&mut self) -> bool
        ensures value { result ≡ is_failing self.old }
        ensures later { self.old.faults ≤ self.new.faults }
        ensures after { self.new ≡ (if result then after_fault self.old else after_call self.old) }
    {
        self.count_call();
        let fails = self.fails.as_slice().contains(&self.calls);
        if fails {
            self.faults = self.faults.saturating_add(1);
        }
        fails
    }
}

impl Keeper for MemoryKeeper {
    ghost use Rattle.std.specs.Prelude.{Some, None, false, IsTrue, length, refl};
    ghost use Rattle.media_keeper.specs.Script.{readings_of};

    ghost faults = { λ keeper. keeper.faults };

    ghost alien = { λ _. Some false };

    ghost gives = { λ keeper. Some (readings_of keeper.kept) };

    ghost kept = { λ keeper. Some (readings_of keeper.kept) };

    ghost ready = { λ keeper. IsTrue keeper.started };

    ghost place = { λ keeper. Some (keeper.given, keeper.told) };

    ghost used = { λ keeper. length keeper.kept };

    ghost units = { λ _ _. 1 };

    ghost limit = { λ keeper. keeper.limit };

    ghost attempted = { λ _. None };

    ghost moment = { λ _. 0 };

    ghost may_leave = { λ _ _. ⊥ };

    ghost left_since = { λ _ _ _. ⊥ };

    /// It fails only where it was told to.
    fn start(&mut self) -> Result<u64, StartFault>
        ensures cause { HasCause self.old.faults self.new.faults StartFault.Failed result }
        ensures script { result ≡ start_answer self.old }
        ensures after { self.new ≡ after_start self.old result }
    {
        if self.is_failing_now() {
            return Err(StartFault::Failed);
        }
        self.started = true;
        self.given = 0;
        self.told = self.kept.len();
        Ok(self.told as u64)
    }

    fn next(&mut self) -> Result<Change, NextFault>
        requires ready { IsTrue self.old.started }
        requires more { self.old.given < self.old.told }
        ensures cause { HasCause self.old.faults self.new.faults NextFault.Failed result }
        ensures failed { (result ≡ Err NextFault.Failed) ↔ IsTrue (is_failing self.old) }
        ensures readable { result ≢ Err NextFault.Unreadable }
        ensures given { IfOk result (λ change. slice_get self.old.kept self.old.given ≡ Some change) }
        ensures after { self.new ≡ after_next self.old result }
    {
        if self.is_failing_now() {
            return Err(NextFault::Failed);
        }
        let change = self.kept.get(self.given).copied(self.alloc)?;
        self.given += 1;
        Ok(change)
    }

    /// A call that finds no room doesn't fail, whatever it was told.
    fn put(&mut self, change: &Change) -> Result<(), PutFault>
        requires ready { IsTrue self.old.started }
        requires all { self.old.given ≡ self.old.told }
        ensures cause { HasCause self.old.faults self.new.faults PutFault.Failed result }
        ensures full { (result ≡ Err PutFault.Full) ↔ (self.old.limit ≤ length self.old.kept) }
        ensures failed { (result ≡ Err PutFault.Failed)
            ↔ (IsTrue (is_failing self.old) × (length self.old.kept < self.old.limit)) }
        ensures after { self.new ≡ after_put self.old change.now result }
    {
        if self.kept.len() as u64 >= self.limit {
            self.count_call();
            return Err(PutFault::Full);
        }
        if self.is_failing_now() {
            return Err(PutFault::Failed);
        }
        let change = change.copied(self.alloc)?;
        self.kept.push(change)?;
        Ok(())
    }

    ghost kept_is_given = { λ _ _ told. told };

    ghost kept_tells_alien = { λ _ _ _. refl };

    ghost counts_now = { λ _ _ _ _ none. none };

    ghost only_now = { λ _ _ none. none };

    ghost at_rest = { λ _ _ _ none. absurd none };
}
