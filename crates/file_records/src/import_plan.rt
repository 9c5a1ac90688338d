ghost use Rattle.std.specs.Prelude.{◌≡◌};

use crate::file_row::FileRow;
use media_types::{Hash64, HashList};
use std::marker::Model;

/// The import of a file that is planned and not made yet. Dropping it is giving it up.
#[derive(Debug, Drop)]
pub struct ImportPlan {
    pub(crate) row: FileRow,
    pub(crate) words: HashList,
}

impl Model for ImportPlan {
    ghost use Rattle.file_records.specs.Importing.{PlannedFile};

    ghost Value = { PlannedFile };

    ghost view = { λ plan. record { row = plan.row; words = plan.words } };
}

impl ImportPlan {
    /// Those of the file's hashes that no file has yet, each once. They will have the next numbers.
    pub fn words(&self) -> &[Hash64]
        ensures { result.now ≡ self.now.words }
    {
        self.words.as_slice()
    }
}
