use super::{assert_all_faulty, assert_all_refused, read_pieces};
use media_base::{Command, FieldName, FileNo, PairPage, Query, Refusal};
use std::alloc::Global;
use std::process::Abort;
use std::test::Fail;

#[test]
fn faulty_places_are_refused(rt: HostRuntime) -> Result<(), Fail> {
    let cases = [
        ("\"after_j\":7", FieldName::AfterK),
        ("\"after_j\":7,\"after_k\":null", FieldName::AfterK),
        ("\"after_j\":7,\"after_k\":\"8\"", FieldName::AfterK),
        ("\"after_j\":7,\"after_k\":8.0", FieldName::AfterK),
        ("\"after_j\":7,\"after_k\":-8", FieldName::AfterK),
        ("\"after_j\":7,\"after_k\":4294967296", FieldName::AfterK),
        ("\"after_k\":8", FieldName::AfterJ),
        ("\"after_k\":null", FieldName::AfterJ),
        ("\"after_j\":null", FieldName::AfterJ),
        ("\"after_j\":null,\"after_k\":null", FieldName::AfterJ),
        ("\"after_j\":null,\"after_k\":8", FieldName::AfterJ),
        ("\"after_j\":[7],\"after_k\":8", FieldName::AfterJ),
        ("\"after_j\":7e0,\"after_k\":8", FieldName::AfterJ),
        ("\"after_j\":4294967296,\"after_k\":8", FieldName::AfterJ),
        ("\"after_J\":7,\"after_k\":8", FieldName::AfterJ),
    ];
    let front = "{\"do\":\"pairs\",\"n\":0,\"at_most\":17";
    assert_all_faulty(&rt, rt.alloc(), front, &cases)
}

// The forms come first, then the distance, then the number of pairs.
#[test]
fn faulty_pages_are_refused(rt: HostRuntime) -> Result<(), Fail> {
    let no_number = &Refusal::NotARequest(FieldName::N);
    let no_distance = &Refusal::NotARequest(FieldName::AtMost);
    let bad_distance = &Refusal::BadDistance;
    let bad_number = &Refusal::BadNumber;
    let cases = [
        ("\"at_most\":8", no_number),
        ("\"n\":null,\"at_most\":\"8\"", no_number),
        ("\"n\":1.0,\"at_most\":8", no_number),
        ("\"n\":18446744073709551616,\"at_most\":8", no_number),
        ("\"n\":1", no_distance),
        ("\"n\":0,\"distance\":8", no_distance),
        ("\"n\":1,\"at_most\":null", no_distance),
        ("\"n\":1,\"at_most\":-0", no_distance),
        ("\"n\":1,\"at_most\":18446744073709551616", no_distance),
        ("\"n\":1,\"at_most\":17", bad_distance),
        ("\"n\":0,\"at_most\":17", bad_distance),
        ("\"n\":1,\"at_most\":18446744073709551615", bad_distance),
        ("\"n\":0,\"at_most\":16", bad_number),
        ("\"n\":1025,\"at_most\":16", bad_number),
        ("\"n\":18446744073709551615,\"at_most\":0", bad_number),
    ];
    assert_all_refused(&rt, rt.alloc(), "{\"do\":\"pairs\"", &cases)?;
    let behind = "{\"do\":\"pairs\",\"after_j\":0,\"after_k\":0";
    assert_all_refused(&rt, rt.alloc(), behind, &cases)
}

fn page_of(rt: &impl Abort, alloc: Global, fields: &str) -> Result<PairPage, Fail> {
    let Command::Ask(query) = read_pieces(alloc, "{\"do\":\"pairs\",", fields, "}")? else {
        panic!(rt; "no question: {fields}")
    };
    match query {
        Query::Pairs(page) => Ok(page),
        _ => panic!(rt; "no pairs: {fields}"),
    }
}

// A place may be of any two numbers.
#[test]
fn pages_are_read(rt: HostRuntime) -> Result<(), Fail> {
    let cases = [
        ("\"n\":1,\"at_most\":0", None, 1, 0),
        ("\"at_most\":16,\"n\":1024", None, 1_024, 16),
        (
            "\"n\":2,\"at_most\":8,\"After_j\":null,\"after\":3,\"distance\":99",
            None,
            2,
            8,
        ),
        (
            "\"n\":2,\"at_most\":8,\"after_j\":0,\"after_k\":0",
            Some((FileNo(0), FileNo(0))),
            2,
            8,
        ),
        (
            "\"n\":2,\"after_k\":4294967295,\"at_most\":8,\"after_j\":7",
            Some((FileNo(7), FileNo(u32::MAX))),
            2,
            8,
        ),
        (
            "\"n\":2,\"after_j\":4294967295,\"at_most\":8,\"after_k\":7",
            Some((FileNo(u32::MAX), FileNo(7))),
            2,
            8,
        ),
        (
            "\"n\":2,\"at_most\":8,\"after_j\":null,\"after_j\":5,\"after_k\":6",
            Some((FileNo(5), FileNo(6))),
            2,
            8,
        ),
    ];
    for (fields, after, n, at_most) in cases {
        let page = page_of(&rt, rt.alloc(), fields)?;
        assert_eq!(rt; page.after, after);
        assert_eq!(rt; page.n.number(), n);
        assert_eq!(rt; page.at_most.bits(), at_most);
    }
    Ok(())
}

#[test]
fn faulty_counts_are_refused(rt: HostRuntime) -> Result<(), Fail> {
    let faulty = &Refusal::NotARequest(FieldName::AtMost);
    let bad_distance = &Refusal::BadDistance;
    let cases = [
        ("\"distance\":8", faulty),
        ("\"at_most\":null", faulty),
        ("\"at_most\":[8]", faulty),
        ("\"at_most\":8.0", faulty),
        ("\"at_most\":18446744073709551616", faulty),
        ("\"at_most\":17", bad_distance),
        ("\"at_most\":18446744073709551615", bad_distance),
    ];
    assert_all_refused(&rt, rt.alloc(), "{\"do\":\"pair_count\"", &cases)
}

#[test]
fn counts_are_read(rt: HostRuntime) -> Result<(), Fail> {
    let front = "{\"do\":\"pair_count\",\"at_most\":";
    for (number, bits) in &[("0", 0), ("8", 8), ("16", 16)] {
        let read = read_pieces(rt.alloc(), front, number, ",\"after_j\":null,\"n\":0}")?;
        let Command::Ask(query) = read else {
            panic!(rt; "no question: {number}")
        };
        match query {
            Query::PairCount(distance) => assert_eq!(rt; distance.bits(), *bits),
            _ => panic!(rt; "no count: {number}"),
        }
    }
    Ok(())
}
