ghost use Rattle.std.specs.Prelude.{◌≡◌, ◌≤◌, ◌+◌, ◌*◌, length, List, IfOk};
ghost use Rattle.media_types.specs.declared.numbers.FileNo.{FileNo as File};
ghost use Rattle.file_records.specs.Near.{near_pairs};
ghost use Rattle.file_records.specs.Searching.{rising, searched};
ghost use Rattle.file_records.specs.Words.{words_of};
ghost use Rattle.vp_tree.specs.Nodes.{words_in};
ghost use Rattle.potential_pairs.specs.Planning.{AreFound, with_found};
ghost use Rattle.near_search.specs.Work.{work};

use crate::search::Search;
use file_records::Files;
use media_types::{FileNo, NearList, NoMemory, SearchDistance, Steps};
use std::alloc::Global;
use std::sync::ledger::Ledger;
use vp_tree::Tree;

/// The pairs of files that a search of these files within a distance makes near. The files are those whose
/// searched distance the search raises. A pair may stand in the list more than once, and may be near already.
///
/// Each hash of the files is looked for in the tree, and each file that has a hash within the distance is
/// looked at.
pub fn find_near<L: Ledger>(
    alloc: Global,
    files: &Files,
    tree: &Tree,
    risen: &[FileNo],
    distance: SearchDistance,
    steps: &mut Steps<L>,
) -> Result<NearList, NoMemory>
    requires words { words_in tree.now.rows ≡ words_of files.now.rows }
    requires risen { (named : List File) × (risen.now ≡ rising distance named files.now.rows) }
    ensures found { IfOk result (AreFound (length files.now.rows) (near_pairs files.now.rows)) }
    ensures near { IfOk result (λ found. with_found found (near_pairs files.now.rows)
        ≡ near_pairs (searched distance risen.now files.now.rows)) }
    ensures few { IfOk result (λ found. length found
        ≤ work tree.now.rows files.now.rows distance risen.now) }
    ensures reads { steps.new ≤ steps.old
        + 8 * (length risen.now + work tree.now.rows files.now.rows distance risen.now) }
{
    let search = Search {
        files,
        tree,
        risen,
        distance: distance.bits(),
    };
    let mut found = NearList::new(alloc);
    for file in risen {
        search.note_file(*file, &mut found, steps)?;
    }
    Ok(found)
}
