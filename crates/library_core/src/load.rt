ghost use Rattle.std.specs.Prelude.{◌≡◌, ◌≢◌, ◌≤◌, ℕ, true, false, [], length, Option, Some, None, Ok, Err, slice_get, option_map, IfOk, IfErr, OnOk};
ghost use Rattle.media_types.specs.Cause.{HasCause, Rose};
ghost use Rattle.media_base.specs.Keeping.{Readings, HasMore, next_place};
ghost use Rattle.media_base.specs.declared.change.Change.{Change as ChangeValue};
ghost use Rattle.library_machine.specs.Desks.{no_desks};
ghost use Rattle.library_machine.specs.Opening.{after_reading, opened};
ghost use Rattle.library_machine.specs.Records.{Fits, no_records};
ghost use Rattle.vp_tree.specs.Building.{IsBuiltWhole};
ghost use Rattle.library_tables.specs.Tables.{HasWords, records_of};

use crate::library::Library;
use crate::load_fail::LoadFail;
use library_tables::{Prepared, Tables};
use media_base::{Keeper, NextFault, Steps};
use std::alloc::Global;
use std::sync::ledger::Ledger;

// Does what the keeper's next change says, which is the one of this number.
fn take_next<K: Keeper, L: Ledger>(
    tables: &mut Tables,
    keeper: &mut K,
    number: u64,
    steps: &mut Steps<L>,
) -> Result<(), LoadFail>
    requires ready { K.ready keeper.old }
    requires more { HasMore (K.place keeper.old) }
    ensures cause { HasCause (K.faults keeper.old) (K.faults keeper.new) LoadFail.StoreFault result }
    ensures taken { (readings : Readings) (given told : ℕ) → K.gives keeper.old ≡ Some readings
        → K.place keeper.old ≡ Some (given, told)
        → OnOk result ((reading : Option ChangeValue) → slice_get readings given ≡ Some reading
        → after_reading (records_of tables.old) reading ≡ Some (records_of tables.new)) }
    ensures bad { (readings : Readings) (given told n : ℕ) → K.gives keeper.old ≡ Some readings
        → K.place keeper.old ≡ Some (given, told) → result ≡ Err (LoadFail.BadStore n)
        → (reading : Option ChangeValue) → slice_get readings given ≡ Some reading
        → after_reading (records_of tables.old) reading ≡ None }
    ensures its_number { (n : ℕ) → result ≡ Err (LoadFail.BadStore n) → n ≡ number }
    ensures not_alien { result ≢ Err LoadFail.AlienStore }
    ensures ready { K.ready keeper.new }
    ensures place { OnOk result (K.place keeper.new ≡ option_map next_place (K.place keeper.old)) }
    ensures same_alien { K.alien keeper.new ≡ K.alien keeper.old }
    ensures same_gives { K.gives keeper.new ≡ K.gives keeper.old }
    ensures same_kept { K.kept keeper.new ≡ K.kept keeper.old }
    ensures same_limit { K.limit keeper.new ≡ K.limit keeper.old }
    ensures same_units { K.units keeper.new ≡ K.units keeper.old }
{
    let change = match keeper.next() {
        Ok(change) => change,
        Err(NextFault::Failed) => return Err(LoadFail::StoreFault),
        Err(NextFault::NoMemory) => return Err(LoadFail::NoMemory),
        Err(NextFault::Unreadable) => return Err(LoadFail::BadStore(number)),
    };
    match tables.plan(&change, steps)? {
        Prepared::Ready(plan, answer) => {
            drop(answer);
            tables.commit(plan, steps);
            Ok(())
        }
        Prepared::Idle(_answer) => Err(LoadFail::BadStore(number)),
        Prepared::Refused(_why) => Err(LoadFail::BadStore(number)),
    }
}

// Does in order what the keeper's changes say, from the first on, and builds the tree of all words.
fn take_all<K: Keeper, L: Ledger>(
    tables: &mut Tables,
    keeper: &mut K,
    count: u64,
    steps: &mut Steps<L>,
) -> Result<(), LoadFail>
    requires empty { records_of tables.old ≡ no_records }
    requires ready { K.ready keeper.old }
    requires place { K.place keeper.old ≡ Some (0, count) }
    requires told { (readings : Readings) → K.gives keeper.old ≡ Some readings
        → count ≡ length readings }
    ensures cause { HasCause (K.faults keeper.old) (K.faults keeper.new) LoadFail.StoreFault result }
    ensures opened { (readings : Readings) → K.gives keeper.old ≡ Some readings
        → OnOk result (opened readings ≡ Ok (records_of tables.new)) }
    ensures bad { (readings : Readings) (n : ℕ) → K.gives keeper.old ≡ Some readings
        → result ≡ Err (LoadFail.BadStore n) → opened readings ≡ Err n }
    ensures fits { OnOk result (Fits (records_of tables.new)) }
    ensures words { OnOk result (HasWords tables.new.tree.rows (records_of tables.new)) }
    ensures whole { OnOk result (IsBuiltWhole tables.new.tree.rows) }
    ensures unmarked { OnOk result (tables.new.work.marks ≡ []) }
    ensures not_alien { result ≢ Err LoadFail.AlienStore }
    ensures ready { K.ready keeper.new }
    ensures place { OnOk result (K.place keeper.new ≡ Some (count, count)) }
    ensures same_alien { K.alien keeper.new ≡ K.alien keeper.old }
    ensures same_gives { K.gives keeper.new ≡ K.gives keeper.old }
    ensures same_kept { K.kept keeper.new ≡ K.kept keeper.old }
    ensures same_limit { K.limit keeper.new ≡ K.limit keeper.old }
    ensures same_units { K.units keeper.new ≡ K.units keeper.old }
{
    for number in 0..count {
        take_next(tables, keeper, number, steps)?;
    }
    tables.build_tree(steps)?;
    Ok(())
}

// The tables to which the keeper's changes lead.
fn open_tables<K: Keeper, L: Ledger>(
    alloc: Global,
    keeper: &mut K,
    count: u64,
    steps: &mut Steps<L>,
) -> Result<Tables, LoadFail>
    requires ready { K.ready keeper.old }
    requires place { K.place keeper.old ≡ Some (0, count) }
    requires told { (readings : Readings) → K.gives keeper.old ≡ Some readings
        → count ≡ length readings }
    ensures cause { HasCause (K.faults keeper.old) (K.faults keeper.new) LoadFail.StoreFault result }
    ensures opened { (readings : Readings) → K.gives keeper.old ≡ Some readings
        → IfOk result (λ tables. opened readings ≡ Ok (records_of tables)) }
    ensures bad { (readings : Readings) (n : ℕ) → K.gives keeper.old ≡ Some readings
        → result ≡ Err (LoadFail.BadStore n) → opened readings ≡ Err n }
    ensures fits { IfOk result (λ tables. Fits (records_of tables)) }
    ensures words { IfOk result (λ tables. HasWords tables.tree.rows (records_of tables)) }
    ensures whole { IfOk result (λ tables. IsBuiltWhole tables.tree.rows) }
    ensures unmarked { IfOk result (λ tables. tables.work.marks ≡ []) }
    ensures not_alien { result ≢ Err LoadFail.AlienStore }
    ensures ready { K.ready keeper.new }
    ensures place { OnOk result (K.place keeper.new ≡ Some (count, count)) }
    ensures same_alien { K.alien keeper.new ≡ K.alien keeper.old }
    ensures same_gives { K.gives keeper.new ≡ K.gives keeper.old }
    ensures same_kept { K.kept keeper.new ≡ K.kept keeper.old }
    ensures same_limit { K.limit keeper.new ≡ K.limit keeper.old }
    ensures same_units { K.units keeper.new ≡ K.units keeper.old }
{
    let mut tables = Tables::new(alloc)?;
    match take_all(&mut tables, keeper, count, steps) {
        Ok(()) => Ok(tables),
        Err(fail) => {
            // Dropping them by a call is proved faster.
            drop(tables);
            Err(fail)
        }
    }
}

impl<K: Keeper> Library<K> {
    /// Opens a library: starts the keeper, and does in order what its changes say.
    pub fn load<L: Ledger>(
        alloc: Global,
        keeper: K,
        steps: &mut Steps<L>,
    ) -> Result<Library<K>, (LoadFail, K)>
        // The records are those that the keeper's changes open. A store is bad exactly where they open none.
        ensures opened { (readings : Readings) → K.gives keeper ≡ Some readings
            → IfOk result (λ library. opened readings ≡ Ok library.state.kept) }
        ensures fits { IfOk result (λ library. Fits library.state.kept) }
        ensures no_desks { IfOk result (λ library. library.state.desks ≡ no_desks) }

        // The tree is built of all words, and no node of it is marked.
        ensures words { IfOk result (λ library. HasWords library.tree.nodes library.state.kept) }
        ensures whole { IfOk result (λ library. IsBuiltWhole library.tree.nodes) }
        ensures unmarked { IfOk result (λ library. library.tree.marks ≡ []) }
        ensures bad { (readings : Readings) (n : ℕ) → K.gives keeper ≡ Some readings
            → IfErr result (λ fail. fail.0 ≡ LoadFail.BadStore n → opened readings ≡ Err n) }

        // Each other fault has its cause, and no store of another is told as bad.
        ensures own { IfOk result (λ library. K.alien keeper ≢ Some true) }
        ensures bad_own { (n : ℕ) → IfErr result (λ fail. fail.0 ≡ LoadFail.BadStore n → K.alien keeper ≢ Some true) }
        ensures alien { IfErr result (λ fail. fail.0 ≡ LoadFail.AlienStore → K.alien keeper ≢ Some false) }
        ensures later { IfOk result (λ library. K.faults keeper ≤ K.faults library.keeper) }
        ensures later_fail { IfErr result (λ fail. K.faults keeper ≤ K.faults fail.1) }
        ensures store { IfErr result (λ fail. fail.0 ≡ LoadFail.StoreFault
            → Rose (K.faults keeper) (K.faults fail.1)) }

        // What is kept stays, and how much room there is in all.
        ensures kept { IfOk result (λ library. K.kept library.keeper ≡ K.kept keeper) }
        ensures kept_fail { IfErr result (λ fail. K.kept fail.1 ≡ K.kept keeper) }
        ensures same_limit { IfOk result (λ library. K.limit library.keeper ≡ K.limit keeper) }
        ensures same_units { IfOk result (λ library. K.units library.keeper ≡ K.units keeper) }
    {
        let mut keeper = keeper;
        let count = match keeper.start() {
            Ok(count) => count,
            Err(fault) => return Err((LoadFail::from(fault), keeper)),
        };
        match open_tables(alloc, &mut keeper, count, steps) {
            Ok(tables) => Ok(Library { tables, keeper }),
            Err(fail) => Err((fail, keeper)),
        }
    }

    /// Hands the keeper back and opens the library again: the records are the same, or a fault has its cause.
    pub fn reopen<L: Ledger>(
        self,
        alloc: Global,
        steps: &mut Steps<L>,
    ) -> Result<Library<K>, (LoadFail, K)>
        ensures same { (readings : Readings) → K.kept self.keeper ≡ Some readings
            → IfOk result (λ library. library.state.kept ≡ self.state.kept) }
        ensures fits { IfOk result (λ library. Fits library.state.kept) }
        ensures no_desks { IfOk result (λ library. library.state.desks ≡ no_desks) }
        ensures words { IfOk result (λ library. HasWords library.tree.nodes library.state.kept) }
        ensures whole { IfOk result (λ library. IsBuiltWhole library.tree.nodes) }
        ensures unmarked { IfOk result (λ library. library.tree.marks ≡ []) }
        ensures never_bad { (readings : Readings) → K.kept self.keeper ≡ Some readings
            → IfErr result (λ fail. (n : ℕ) → fail.0 ≢ LoadFail.BadStore n) }
        ensures never_alien { (readings : Readings) → K.kept self.keeper ≡ Some readings
            → IfErr result (λ fail. fail.0 ≢ LoadFail.AlienStore) }
        ensures kept { IfOk result (λ library. K.kept library.keeper ≡ K.kept self.keeper) }
        ensures kept_fail { IfErr result (λ fail. K.kept fail.1 ≡ K.kept self.keeper) }
        ensures later { IfOk result (λ library. K.faults self.keeper ≤ K.faults library.keeper) }
        ensures later_fail { IfErr result (λ fail. K.faults self.keeper ≤ K.faults fail.1) }
        ensures store { IfErr result (λ fail. fail.0 ≡ LoadFail.StoreFault
            → Rose (K.faults self.keeper) (K.faults fail.1)) }
        ensures same_limit { IfOk result (λ library. K.limit library.keeper ≡ K.limit self.keeper) }
        ensures same_units { IfOk result (λ library. K.units library.keeper ≡ K.units self.keeper) }
    {
        Library::load(alloc, self.release(), steps)
    }
}
