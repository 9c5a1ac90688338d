ghost use Rattle.std.specs.Prelude.{◌≡◌, IfOk};
ghost use Rattle.file_records.specs.Importing.{IsPlannedFor};

mod hashes;
mod searching;

use super::*;
use media_types::{FileHashes, FileNo, Hash64, HashList, MAX_FILES, MAX_HASHES, Sha};
use std::alloc::Global;
use std::process::Abort;
use std::test::Fail;

fn sha_of(number: u32) -> Sha {
    let mut bytes = [0; 32];
    bytes[..4].copy_from_slice(&number.to_be_bytes());
    Sha(bytes)
}

// A file of these hashes. Its number stands for its SHA-256 and its size.
fn file_of(rt: &impl Abort, alloc: Global, number: u32, words: &[u64]) -> Result<NewFile, Fail> {
    let mut list = HashList::new(alloc);
    for word in words {
        list.push(Hash64(*word))?;
    }
    assert!(rt; list.len() <= MAX_HASHES);
    Ok(NewFile {
        sha: sha_of(number),
        hashes: FileHashes::new(list),
        size: u64::from(number),
        width: 3,
        height: 2,
    })
}

fn plan_new(rt: &impl Abort, files: &mut Files, file: &NewFile) -> Result<ImportPlan, Fail>
    ensures { IfOk result (λ plan. IsPlannedFor plan files.new) }
{
    assert!(rt; files.find(&file.sha).is_none());
    assert!(rt; files.len() < MAX_FILES);
    let plan = files.plan_import(file)?;
    Ok(plan)
}

// Imports a file, which gets the number that stands for its SHA-256.
fn import(
    rt: &impl Abort,
    alloc: Global,
    files: &mut Files,
    number: u32,
    words: &[u64],
) -> Result<(), Fail> {
    let file = file_of(rt, alloc, number, words)?;
    let plan = plan_new(rt, files, &file)?;
    assert_eq!(rt; files.commit_import(plan), FileNo(number));
    Ok(())
}

fn import_many(rt: &impl Abort, alloc: Global, files: &mut Files) -> Result<(), Fail> {
    for number in 0..2_000 {
        import(rt, alloc, files, number, &[7, u64::from(number)])?;
    }
    Ok(())
}

fn find_many(rt: &impl Abort, files: &Files) {
    for number in 0..2_000 {
        assert_eq!(rt; files.find(&sha_of(number)), Some(FileNo(number)));
    }
    assert_eq!(rt; files.find(&sha_of(2_000)), None);
}

#[test]
fn many_files_are_found_again(rt: HostRuntime) -> Result<(), Fail> {
    let mut files = Files::new(rt.alloc());
    import_many(&rt, rt.alloc(), &mut files)?;
    find_many(&rt, &files);
    Ok(())
}
