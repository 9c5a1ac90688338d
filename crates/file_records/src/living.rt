ghost use Rattle.std.specs.Prelude.{◌≡◌, ◌<◌, ◌≤◌, length};
ghost use Rattle.file_records.specs.Living.{with_live_mark};

use crate::files::Files;
use media_types::FileNo;

/// Which files are live.
impl Files {
    /// Marks a file as live, or as deleted. All else that is recorded of it stays.
    pub fn set_live(&mut self, file: FileNo, live: bool)
        requires { file.0 < length self.old.rows }
        ensures rows { self.new.rows ≡ with_live_mark file.0 live self.old.rows }
        ensures spare { self.old.spare ≤ self.new.spare }
    {
        self.rows[file.0 as usize].live = live;
    }
}
