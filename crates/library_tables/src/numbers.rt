ghost use Rattle.std.specs.Prelude.{◌≡◌, IfOk};
ghost use Rattle.media_types.specs.Numbered.{files};

use media_base::{FileList, FileNo, NoMemory};
use std::alloc::Global;

/// The first `count` files, ascending.
pub fn all_files(alloc: Global, count: u32) -> Result<FileList, NoMemory>
    ensures { IfOk result (λ list. list ≡ files count) }
{
    let mut list = FileList::with_room(alloc, count as usize)?;
    for number in 0..count {
        list.push(FileNo(number))?;
    }
    Ok(list)
}
