use crate::decisions::{PlannedDecision, PlannedUndo};
use crate::deletion::PlannedLive;
use crate::imports::PlannedImport;
use crate::searches::{PlannedDistance, PlannedSearch};
use crate::tag_pairs::PlannedPair;
use crate::tags::{PlannedMapping, PlannedOrders};
use media_base::{Answer, Change, Unmet};

/// A change of the tables that is ready to be made. Dropped, it changes nothing.
#[derive(Drop)]
pub enum TablesPlan {
    Import(PlannedImport),
    Live(PlannedLive),
    Decide(PlannedDecision),
    Undo(PlannedUndo),
    Distance(PlannedDistance),
    Search(PlannedSearch),
    Service,
    Orders(PlannedOrders),
    Mapping(PlannedMapping),
    Pair(PlannedPair),
}

/// What a change comes to.
#[derive(Drop)]
pub enum Prepared {
    /// The records lack what it needs.
    Refused(Unmet),
    /// It would change nothing, and this is the answer.
    Idle(Answer),
    /// The plan makes it. The change is to be kept first, and then this is the answer.
    Ready(TablesPlan, Answer),
}

impl From<Unmet> for Prepared {
    ghost use Rattle.std.specs.Prelude.{◌≡◌};
    ghost use Rattle.library_tables.specs.declared.plan.Prepared.TheVariants as prepared;

    ghost from_gives = { λ why refused. refused ≡ prepared.Refused why };

    fn from(why: Unmet) -> Prepared {
        Prepared::Refused(why)
    }
}

/// What a job comes to.
#[derive(Drop)]
pub enum Deed {
    /// There is nothing to do, and this is the answer.
    Tells(Answer),
    /// This change is to be made.
    Makes(Change),
}
