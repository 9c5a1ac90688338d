use media_types::FileNo;
use spare_tables::KeySet;
use std::marker::Model;

/// Another queue that is planned and not put in place yet. Dropping it is giving it up.
#[derive(Debug, Drop)]
pub struct QueuePlan {
    pub(crate) files: KeySet<FileNo>,
}

impl Model for QueuePlan {
    ghost use Rattle.std.specs.Prelude.{List};
    ghost use Rattle.media_types.specs.declared.numbers.FileNo.{FileNo};
    ghost use Rattle.tree_upkeep.specs.Queue.{Ascend};

    ghost Value = { List FileNo };

    ghost view = { λ plan. plan.files.rows };

    ghost invariant = { λ plan. Ascend plan.files.rows };
}
