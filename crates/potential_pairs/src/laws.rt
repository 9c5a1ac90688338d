ghost use Rattle.std.specs.Prelude.{◌≡◌, ◌<◌, ℕ};
ghost use Rattle.relation_groups.specs.Relations.{Relations};
ghost use Rattle.potential_pairs.specs.Potential.{AreBelow, AreOf, PairsView, potentials};

/// What the words about potential pairs mean, for all near pairs and groups. The call does nothing.
pub fn potential_laws()
    ensures read { (n : ℕ) (R : Relations) (v : PairsView) → AreOf R v → AreBelow n v.near
        → ((f : ℕ) → f < n → R.king f < n) → v.pairs ≡ potentials n R v.gone v.near }
{}
