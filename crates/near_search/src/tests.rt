ghost use Rattle.std.specs.Prelude.{◌≡◌, ◌≢◌, ◌<◌, ◌++◌, ◌∷◌, [], All, length, OnOk, IsTrue};
ghost use Rattle.file_records.specs.Words.{words_of};
ghost use Rattle.vp_tree.specs.Nodes.{words_in};

use super::*;
use file_records::{Files, NewFile};
use media_types::{
    FileHashes, FileList, FileNo, Hash64, HashList, HashNo, MAX_FILES, MAX_HASHES, MAX_WORDS,
    NearList, NoMemory, SearchDistance, Sha, Steps,
};
use std::alloc::Global;
use std::marker::Brand;
use std::process::Abort;
use std::sync::ledger::{Blank, Ledger};
use std::test::Fail;
use std::thread::Threads;
use vp_tree::Tree;

// A file of these hashes. Its number stands for its SHA-256.
fn file_of(rt: &impl Abort, alloc: Global, number: u8, words: &[u64]) -> Result<NewFile, NoMemory> {
    let mut list = HashList::new(alloc);
    for word in words {
        list.push(Hash64(*word))?;
    }
    assert!(rt; list.len() <= MAX_HASHES);
    Ok(NewFile {
        sha: Sha([number; 32]),
        hashes: FileHashes::new(list),
        size: 1,
        width: 1,
        height: 1,
    })
}

// Looks at each node, since a tree takes only words that aren't there.
fn assert_new<L: Ledger>(rt: &impl Abort, tree: &Tree, word: Hash64, steps: &mut Steps<L>)
    ensures { All (λ node. node.word ≢ word) tree.now.rows }
{
    for at in 0..tree.len() {
        assert!(rt; tree.node(HashNo(at), steps).word.0 != word.0);
    }
}

fn insert<L: Ledger>(
    rt: &impl Abort,
    tree: &mut Tree,
    word: Hash64,
    steps: &mut Steps<L>,
) -> Result<(), NoMemory>
    ensures { OnOk result (words_in tree.new.rows ≡ words_in tree.old.rows ++ word ∷ []) }
{
    assert!(rt; tree.len() < MAX_WORDS);
    assert_new(rt, tree, word, steps);
    let plan = tree.plan_insert(word)?;
    tree.commit_insert(plan, steps);
    Ok(())
}

fn insert_all<L: Ledger>(
    rt: &impl Abort,
    tree: &mut Tree,
    words: &[Hash64],
    steps: &mut Steps<L>,
) -> Result<(), NoMemory>
    ensures { OnOk result (words_in tree.new.rows ≡ words_in tree.old.rows ++ words.now) }
{
    for word in words {
        insert(rt, tree, *word, steps)?;
    }
    Ok(())
}

fn import<L: Ledger>(
    rt: &impl Abort,
    files: &mut Files,
    tree: &mut Tree,
    file: &NewFile,
    steps: &mut Steps<L>,
) -> Result<(), NoMemory>
    requires { words_in tree.old.rows ≡ words_of files.old.rows }
    ensures { OnOk result (words_in tree.new.rows ≡ words_of files.new.rows) }
{
    assert!(rt; files.find(&file.sha).is_none());
    assert!(rt; files.len() < MAX_FILES);
    let plan = files.plan_import(file)?;
    insert_all(rt, tree, plan.words(), steps)?;
    files.commit_import(plan);
    Ok(())
}

fn import_all<L: Ledger>(
    rt: &impl Abort,
    alloc: Global,
    files: &mut Files,
    tree: &mut Tree,
    hashes: &[&[u64]],
    steps: &mut Steps<L>,
) -> Result<(), NoMemory>
    requires { words_in tree.old.rows ≡ words_of files.old.rows }
    ensures { OnOk result (words_in tree.new.rows ≡ words_of files.new.rows) }
{
    for words in hashes {
        assert!(rt; files.len() < 256);
        let file = file_of(rt, alloc, files.len() as u8, words)?;
        import(rt, files, tree, &file, steps)?;
    }
    Ok(())
}

// Whether all of the files are there.
fn are_known(named: &[FileNo], files: u32) -> bool
    ensures { IsTrue result → All (λ file. file.0 < files) named.now }
{
    named.iter().all(|file| file.0 < files)
}

#[tactic(auto, using(file_records::specs::SearchLaws::words, file_records::specs::SearchLaws::same_length))]
fn set_searched(files: &mut Files, risen: &[FileNo], distance: SearchDistance)
    requires { All (λ file. file.0 < length files.old.rows) risen.now }
    ensures { words_of files.new.rows ≡ words_of files.old.rows }
{
    for file in risen {
        files.set_searched(*file, distance);
    }
}

fn listed(alloc: Global, numbers: &[u32]) -> Result<FileList, NoMemory> {
    let mut files = FileList::new(alloc);
    for number in numbers {
        files.push(FileNo(*number))?;
    }
    Ok(files)
}

fn assert_pairs(rt: &impl Abort, found: &NearList, want: &[(u32, u32, u8)], about: &str) {
    assert_eq!(rt; found.len(), want.len(), "{about}");
    for (pair, (f, g, distance)) in found.as_slice().iter().zip(want) {
        assert_eq!(rt; *pair, (FileNo(*f), FileNo(*g), *distance), "{about}");
    }
}

// A search of files within a distance, and what it finds, in the order in which the pairs are noted.
struct Searched<'a> {
    named: &'a [u32],
    within: u64,
    found: &'a [(u32, u32, u8)],
}

// Files of these hashes are imported, and searched one time after the other.
struct Case<'a> {
    about: &'a str,
    hashes: &'a [&'a [u64]],
    searches: &'a [Searched<'a>],
}

const CASES: [Case<'static>; 4] = [
    Case {
        about: "distances 8, 9 and 1",
        hashes: &[&[0x00], &[0xff], &[0x1ff]],
        searches: &[
            Searched {
                named: &[0, 1, 2],
                within: 8,
                found: &[(0, 1, 8), (0, 1, 8), (1, 2, 1), (1, 2, 1)],
            },
            Searched {
                named: &[2, 0],
                within: 9,
                found: &[(0, 1, 8), (0, 2, 9), (0, 2, 9), (1, 2, 1)],
            },
            Searched {
                named: &[2, 0],
                within: 9,
                found: &[],
            },
        ],
    },
    Case {
        about: "the lesser reach counts",
        hashes: &[&[0x00], &[0xff], &[0x1ff]],
        searches: &[
            Searched {
                named: &[0],
                within: 9,
                found: &[],
            },
            Searched {
                named: &[1],
                within: 8,
                found: &[(0, 1, 8)],
            },
            Searched {
                named: &[2],
                within: 8,
                found: &[(1, 2, 1)],
            },
        ],
    },
    Case {
        about: "one hash",
        hashes: &[&[0x5], &[], &[0x5]],
        searches: &[
            Searched {
                named: &[0, 1],
                within: 0,
                found: &[],
            },
            Searched {
                named: &[2],
                within: 0,
                found: &[(0, 2, 0)],
            },
        ],
    },
    // 00 and ff are 4 and 4 from 0f, and 7 and 1 from 7f.
    Case {
        about: "the least distance of two hashes each",
        hashes: &[&[0x00, 0xff], &[0x0f, 0x7f]],
        searches: &[
            Searched {
                named: &[1],
                within: 16,
                found: &[],
            },
            Searched {
                named: &[0],
                within: 4,
                found: &[(0, 1, 1), (0, 1, 1), (0, 1, 1)],
            },
        ],
    },
];

#[tactic(auto, using(file_records::specs::SearchLaws::known))]
fn assert_search<L: Ledger>(
    rt: &impl Abort,
    alloc: Global,
    files: &mut Files,
    tree: &Tree,
    searched: &Searched<'_>,
    about: &str,
    steps: &mut Steps<L>,
) -> Result<(), NoMemory>
    requires { words_in tree.now.rows ≡ words_of files.old.rows }
    ensures { OnOk result (words_of files.new.rows ≡ words_of files.old.rows) }
{
    let distance = SearchDistance::new(searched.within).expect(rt, "at most the greatest distance");
    let named = listed(alloc, searched.named)?;
    assert!(rt; are_known(named.as_slice(), files.len()));
    let risen = files.rising(named.as_slice(), distance, steps)?;
    let found = find_near(alloc, files, tree, risen.as_slice(), distance, steps)?;
    assert_pairs(rt, &found, searched.found, about);
    set_searched(files, risen.as_slice(), distance);
    Ok(())
}

fn assert_searches<L: Ledger>(
    rt: &impl Abort,
    alloc: Global,
    files: &mut Files,
    tree: &Tree,
    case: &Case<'_>,
    steps: &mut Steps<L>,
) -> Result<(), NoMemory>
    requires { words_in tree.now.rows ≡ words_of files.old.rows }
{
    for searched in case.searches {
        assert_search(rt, alloc, files, tree, searched, case.about, steps)?;
    }
    Ok(())
}

#[tactic(auto, unfolding(file_records::specs::Words::words_of))]
fn assert_case<L: Ledger>(
    rt: &impl Abort,
    alloc: Global,
    case: &Case<'_>,
    steps: &mut Steps<L>,
) -> Result<(), NoMemory> {
    let mut files = Files::new(alloc);
    let mut tree = Tree::new(alloc);
    import_all(rt, alloc, &mut files, &mut tree, case.hashes, steps)?;
    assert_searches(rt, alloc, &mut files, &tree, case, steps)
}

fn assert_cases<L: Ledger>(
    rt: &(impl Abort + Threads),
    alloc: Global,
    blank: Blank,
) -> Result<(), Fail>
    requires name { blank.name ≡ L.name }
    requires parts { blank.parts ≡ L.parts }
    requires some { 0 < L.parts }
{
    let mut steps = Steps::<L>::new(rt, blank);
    for case in &CASES {
        assert_case(rt, alloc, case, &mut steps)?;
    }
    Ok(())
}

#[test]
fn searches_find_what_they_make_near(rt: HostRuntime) -> Result<(), Fail> {
    assert_cases::<Brand>(&rt, rt.alloc(), Blank::new(1))
}
