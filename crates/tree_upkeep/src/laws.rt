ghost use Rattle.std.specs.Prelude.{◌≡◌, ◌≢◌, ◌↔◌, ◌<◌, Bool, false, not, ◌==◌, if◌then◌else◌, IsTrue, List, [], ◌∷◌, ◌++◌, All, Contains, filter};
ghost use Rattle.media_types.specs.declared.numbers.FileNo.{FileNo};
ghost use Rattle.tree_upkeep.specs.Queue.{Ascend, noted};

/// What a noted queue is, for all queues: the file is in it where it was to be, the others are as they
/// were, and it ascends. The call does nothing.
pub fn queue_laws()
    ensures this { (file : FileNo) (queued : Bool) (queue : List FileNo)
        → Contains (noted file queued queue) file ↔ IsTrue queued }
    ensures others { (file other : FileNo) (queued : Bool) (queue : List FileNo)
        → other ≢ file → Contains (noted file queued queue) other ↔ Contains queue other }
    ensures ascending { (file : FileNo) (queued : Bool) (queue : List FileNo)
        → Ascend queue → Ascend (noted file queued queue) }

    // A file that is greater than all others goes last, and one that is taken out leaves the others.
    ensures at_end { (file : FileNo) (queued : Bool) (queue : List FileNo)
        → All (λ f. f.0 < file.0) queue
        → noted file queued queue ≡ queue ++ (if queued then file ∷ [] else []) }
    ensures taken_out { (file : FileNo) (queue : List FileNo)
        → Ascend queue → noted file false queue ≡ filter (λ other. not (file.0 == other.0)) queue }
{}
