ghost use Rattle.std.specs.Prelude.{◌≡◌, Ok, Err};

use media_base::{Change, Keeper, NextFault, PutFault, StartFault};

/// A keeper that never fails and always has room. It gives no change, tells that it gives none, and doesn't
/// tell what was put into it: it is for records that end with the program.
#[derive(Debug, Default, Drop)]
pub struct QuietKeeper;

impl QuietKeeper {
    pub fn new() -> QuietKeeper {
        QuietKeeper
    }
}

impl Keeper for QuietKeeper {
    ghost use Rattle.std.specs.Prelude.{Some, None, [], false, refl};

    ghost faults = { λ _. 0 };

    ghost alien = { λ _. Some false };

    ghost gives = { λ _. Some [] };

    ghost kept = { λ _. None };

    ghost ready = { λ _. Unit {0} };

    ghost place = { λ _. Some (0, 0) };

    ghost used = { λ _. 0 };

    ghost units = { λ _ _. 0 };

    ghost limit = { λ _. 0 };

    ghost attempted = { λ _. None };

    ghost moment = { λ _. 0 };

    ghost may_leave = { λ _ _. ⊥ };

    ghost left_since = { λ _ _ _. ⊥ };

    fn start(&mut self) -> Result<u64, StartFault>
        ensures { result ≡ Ok 0 }
    {
        Ok(0)
    }

    /// It has none.
    fn next(&mut self) -> Result<Change, NextFault>
        ensures { result ≡ Err NextFault.NoMemory }
    {
        Err(NextFault::NoMemory)
    }

    fn put(&mut self, _change: &Change) -> Result<(), PutFault>
        ensures { result ≡ Ok tt }
    {
        Ok(())
    }

    ghost kept_is_given = { λ _ _ told. Prim.cc };

    ghost kept_tells_alien = { λ _ _ _. refl };

    ghost counts_now = { λ _ _ _ _ none. none };

    ghost only_now = { λ _ _ none. none };

    ghost at_rest = { λ _ _ _ none. absurd none };
}
