ghost use Rattle.std.specs.Prelude.{List};
ghost use Rattle.media_types.specs.declared.decision.Decision.{Decision};
ghost use Rattle.relation_groups.specs.Laws.{AreNamed, AreOfTwo, AreSound, ClosedSetsFoldAlone, ClosedSetsSplit, OthersStay};
ghost use Rattle.relation_groups.specs.Relations.{relations};

/// What holds of the relations that any decisions make. The call does nothing.
pub fn relation_laws()
    ensures sound { (ds : List Decision) → AreOfTwo ds → AreSound (relations ds) }
    ensures named { (ds : List Decision) → AreOfTwo ds → AreNamed (relations ds) }
    ensures split { ClosedSetsSplit }
    ensures fold_alone { ClosedSetsFoldAlone }
    ensures others_stay { OthersStay }
{}
