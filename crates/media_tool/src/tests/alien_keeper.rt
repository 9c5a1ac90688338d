//! A session over a store that belongs to something else.

use crate::tests::playing::{Outlet, owned_words, run_over, source_of};
use media_base::{BytesSource, Change, Keeper, NextFault, PutFault, Source, StartFault, Status};
use std::alloc::Global;
use std::process::Abort;
use std::test::Fail;
use std::thread::Threads;

/// A keeper that finds its store to be another's.
#[derive(Drop)]
struct AlienKeeper;

impl Keeper for AlienKeeper {
    ghost use Rattle.std.specs.Prelude.{◌≡◌, Err, Some, None, true};

    ghost faults = { λ _. 0 };

    ghost alien = { λ _. Some true };

    ghost gives = { λ _. None };

    ghost kept = { λ _. None };

    ghost ready = { λ _. Unit {0} };

    ghost place = { λ _. Some (0, 0) };

    ghost used = { λ _. 0 };

    ghost units = { λ _ _. 0 };

    ghost limit = { λ _. 0 };

    ghost attempted = { λ _. None };

    ghost moment = { λ _. 0 };

    ghost may_leave = { λ _ _. ⊥ };

    ghost left_since = { λ _ _ _. ⊥ };

    fn start(&mut self) -> Result<u64, StartFault>
        ensures { result ≡ Err StartFault.Alien }
    {
        Err(StartFault::Alien)
    }

    fn next(&mut self) -> Result<Change, NextFault>
        ensures { result ≡ Err NextFault.NoMemory }
    {
        Err(NextFault::NoMemory)
    }

    fn put(&mut self, _change: &Change) -> Result<(), PutFault>
        ensures { result ≡ Err PutFault.NoMemory }
    {
        Err(PutFault::NoMemory)
    }

    ghost kept_is_given = { λ _ _ told. Prim.cc };

    ghost kept_tells_alien = { λ _ _ told. Prim.cc };

    ghost counts_now = { λ _ _ _ _ none. none };

    ghost only_now = { λ _ _ none. none };

    ghost at_rest = { λ _ _ _ none. absurd none };
}

// It is told as a status of its own, and nothing is written.
fn assert_alien(
    rt: &(impl Threads + Abort),
    alloc: Global,
    words: &[String],
    source: &mut BytesSource,
    outlet: &mut Outlet,
) {
    let (status, _keeper) = run_over(rt, alloc, words, source, outlet, AlienKeeper);
    assert_eq!(rt; status, Status::AlienStore);
    assert!(rt; outlet.written().is_empty());
}

// The source still gives all of its bytes.
fn assert_unread(rt: &impl Abort, source: &mut BytesSource, bytes: usize) {
    let mut first = [0; 64];
    assert_eq!(rt; source.read(&mut first).ok(), Some(bytes));
}

#[test]
fn another_store_opens_no_library(rt: HostRuntime) -> Result<(), Fail> {
    let alloc = rt.alloc();
    let input = "{\"do\":\"queues\"}\n";
    let words = owned_words(alloc, &["play", "-"])?;
    let mut source = source_of(&rt, alloc, input, 65_536, 0)?;
    let mut outlet = Outlet::new(alloc, false, 0)?;
    assert_alien(&rt, alloc, &words, &mut source, &mut outlet);
    assert_unread(&rt, &mut source, input.len());
    Ok(())
}
