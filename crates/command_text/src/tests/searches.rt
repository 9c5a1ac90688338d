use super::{assert_all_refused, assert_faulty, assert_refused, read_pieces};
use media_base::{Change, Command, FieldName, FileNo, Job, Query, Refusal, Searching, Upkeep};
use std::alloc::{AllocError, Global};
use std::process::Abort;
use std::test::Fail;

#[test]
fn faulty_distances_are_refused(rt: HostRuntime) -> Result<(), Fail> {
    let faulty = &Refusal::NotARequest(FieldName::Distance);
    let bad_distance = &Refusal::BadDistance;
    let cases = [
        ("\"Distance\":8", faulty),
        ("\"distance\":\"8\"", faulty),
        ("\"distance\":null", faulty),
        ("\"distance\":[8]", faulty),
        ("\"distance\":-1", faulty),
        ("\"distance\":-0", faulty),
        ("\"distance\":8.0", faulty),
        ("\"distance\":18446744073709551616", faulty),
        ("\"distance\":17", bad_distance),
        ("\"distance\":4294967304", bad_distance),
        ("\"distance\":18446744073709551615", bad_distance),
    ];
    assert_all_refused(&rt, rt.alloc(), "{\"do\":\"search_distance\"", &cases)?;
    let searching = "{\"do\":\"search_files\",\"files\":[]";
    assert_all_refused(&rt, rt.alloc(), searching, &cases)?;
    let alone = b"{\"do\":\"search_distance\"}";
    assert_faulty(&rt, rt.alloc(), alone, FieldName::Distance);
    Ok(())
}

#[test]
fn faulty_search_jobs_are_refused(rt: HostRuntime) -> Result<(), Fail> {
    let faulty = &Refusal::NotARequest(FieldName::N);
    let bad_number = &Refusal::BadNumber;
    let cases = [
        ("\"distance\":8", faulty),
        ("\"n\":\"1\"", faulty),
        ("\"n\":null", faulty),
        ("\"n\":-1", faulty),
        ("\"n\":1.5", faulty),
        ("\"n\":1e0", faulty),
        ("\"n\":18446744073709551616", faulty),
        ("\"n\":0", bad_number),
        ("\"n\":1025", bad_number),
        ("\"n\":4294967297", bad_number),
        ("\"n\":18446744073709551615", bad_number),
    ];
    assert_all_refused(&rt, rt.alloc(), "{\"do\":\"search_job\"", &cases)
}

// The forms come first, then the distance, then the number of files.
#[test]
fn faulty_searches_of_files_are_refused(rt: HostRuntime) -> Result<(), Fail> {
    let faulty = &Refusal::NotARequest(FieldName::Files);
    let no_distance = &Refusal::NotARequest(FieldName::Distance);
    let bad_distance = &Refusal::BadDistance;
    let bad_number = &Refusal::BadNumber;
    let cases = [
        ("\"distance\":8", faulty),
        ("\"files\":null,\"distance\":8", faulty),
        ("\"files\":7,\"distance\":8", faulty),
        ("\"files\":\"7\",\"distance\":8", faulty),
        ("\"files\":{},\"distance\":8", faulty),
        ("\"files\":[\"7\"],\"distance\":8", faulty),
        ("\"files\":[null],\"distance\":8", faulty),
        ("\"files\":[[7]],\"distance\":8", faulty),
        ("\"files\":[-1],\"distance\":8", faulty),
        ("\"files\":[1.0],\"distance\":8", faulty),
        ("\"files\":[4294967296],\"distance\":8", faulty),
        ("\"files\":[7,8,\"9\"],\"distance\":17", faulty),
        ("\"files\":[\"9\"]", faulty),
        ("\"files\":[7]", no_distance),
        ("\"files\":[]", no_distance),
        ("\"files\":[],\"distance\":17", bad_distance),
        ("\"files\":[7],\"distance\":17", bad_distance),
        ("\"files\":[],\"distance\":16", bad_number),
    ];
    assert_all_refused(&rt, rt.alloc(), "{\"do\":\"search_files\"", &cases)
}

#[test]
fn distances_are_read(rt: HostRuntime) -> Result<(), Fail> {
    let end = ",\"do\":\"search_distance\"}";
    for (number, bits) in &[("0", 0), ("8", 8), ("16", 16)] {
        let Command::Do(change) = read_pieces(rt.alloc(), "{\"distance\":", number, end)? else {
            panic!(rt; "no change: {number}")
        };
        match change {
            Change::Distance(distance) => assert_eq!(rt; distance.bits(), *bits),
            _ => panic!(rt; "no distance: {number}"),
        }
    }
    Ok(())
}

#[test]
fn search_jobs_are_read(rt: HostRuntime) -> Result<(), Fail> {
    let end = ",\"do\":\"search_job\",\"files\":7}";
    for (number, want) in &[("1", 1), ("2", 2), ("1024", 1_024)] {
        let Command::Run(job) = read_pieces(rt.alloc(), "{\"n\":", number, end)? else {
            panic!(rt; "no job: {number}")
        };
        let Job::Search(n) = job;
        assert_eq!(rt; n.number(), *want);
    }
    Ok(())
}

// File 0 and so on, up to the last.
fn search_up_to(alloc: Global, last: u32) -> Result<String, AllocError> {
    let mut line = format!(in alloc; "{{\"do\":\"search_files\",\"distance\":16,\"files\":[0")?;
    for number in 1..=last {
        line.push(',')?;
        let file = number.to_string(alloc)?;
        line.push_str(file.as_str())?;
    }
    line.push_str("]}")?;
    Ok(line)
}

fn searching_of(rt: &impl Abort, alloc: Global, line: &str) -> Result<Searching, Fail> {
    match read_pieces(alloc, line, "", "")? {
        Command::Do(Change::Searched(searching)) => Ok(searching),
        _ => panic!(rt; "no search: {line}"),
    }
}

fn assert_searches_up_to(rt: &impl Abort, alloc: Global, last: u32) -> Result<(), Fail> {
    let line = search_up_to(alloc, last)?;
    let searching = searching_of(rt, alloc, line.as_str())?;
    assert_eq!(rt; searching.distance.bits(), 16);
    assert_eq!(rt; searching.files.as_slice().len(), last as usize + 1);
    assert_eq!(rt;
        searching.files.as_slice().last().copied(),
        Some(FileNo(last))
    );
    Ok(())
}

#[test]
fn searches_of_files_are_read(rt: HostRuntime) -> Result<(), Fail> {
    for last in [0, 1, 1_023] {
        assert_searches_up_to(&rt, rt.alloc(), last)?;
    }
    let many = search_up_to(rt.alloc(), 1_024)?;
    assert_refused(&rt, rt.alloc(), many.as_bytes(), &Refusal::BadNumber);
    Ok(())
}

#[test]
fn the_files_of_a_search_keep_their_order(rt: HostRuntime) -> Result<(), Fail> {
    let line = "{\"do\":\"search_files\",\"distance\":0,\"files\":[9,4294967295,9,0]}";
    let searching = searching_of(&rt, rt.alloc(), line)?;
    assert_eq!(rt;
        searching.files.as_slice(),
        [FileNo(9), FileNo(u32::MAX), FileNo(9), FileNo(0)].as_slice()
    );
    Ok(())
}

const OTHER_FIELDS: [&str; 4] = [
    "",
    ",\"n\":0",
    ",\"files\":null,\"distance\":17",
    ",\"hashes\":7",
];

#[test]
fn questions_for_queues_are_read(rt: HostRuntime) -> Result<(), Fail> {
    for fields in OTHER_FIELDS {
        match read_pieces(rt.alloc(), "{\"do\":\"queues\"", fields, "}")? {
            Command::Ask(Query::Queues) => {}
            _ => panic!(rt; "no question: {fields}"),
        }
    }
    Ok(())
}

#[test]
fn rebalance_jobs_are_read(rt: HostRuntime) -> Result<(), Fail> {
    for fields in OTHER_FIELDS {
        match read_pieces(rt.alloc(), "{\"do\":\"rebalance_job\"", fields, "}")? {
            Command::Tend(Upkeep::Rebalance) => {}
            _ => panic!(rt; "no job: {fields}"),
        }
    }
    Ok(())
}
