use super::{assert_all_faulty, assert_faulty, read_pieces};
use media_base::{Change, Command, FieldName, FileNo, Query};
use std::test::Fail;

#[test]
fn faulty_files_are_refused(rt: HostRuntime) -> Result<(), Fail> {
    let cases = [
        ("\"File\":1", FieldName::File),
        ("\"files\":[1]", FieldName::File),
        ("\"decision\":1", FieldName::File),
        ("\"file\":null", FieldName::File),
        ("\"file\":true", FieldName::File),
        ("\"file\":\"1\"", FieldName::File),
        ("\"file\":[1]", FieldName::File),
        ("\"file\":{}", FieldName::File),
        ("\"file\":-1", FieldName::File),
        ("\"file\":-0", FieldName::File),
        ("\"file\":1.0", FieldName::File),
        ("\"file\":1e0", FieldName::File),
        ("\"file\":4294967296", FieldName::File),
        ("\"file\":18446744073709551616", FieldName::File),
        ("\"file\":1,\"file\":null", FieldName::File),
    ];
    assert_all_faulty(&rt, rt.alloc(), "{\"do\":\"delete\"", &cases)?;
    assert_all_faulty(&rt, rt.alloc(), "{\"do\":\"undelete\"", &cases)?;
    assert_all_faulty(&rt, rt.alloc(), "{\"do\":\"relations\"", &cases)
}

#[test]
fn a_file_is_asked_for(rt: HostRuntime) {
    let field = FieldName::File;
    assert_faulty(&rt, rt.alloc(), b"{\"do\":\"delete\"}", field);
    assert_faulty(&rt, rt.alloc(), b"{\"do\":\"undelete\"}", field);
    assert_faulty(&rt, rt.alloc(), b"{\"do\":\"relations\"}", field);
}

const NUMBERS: [(&str, FileNo); 4] = [
    ("0", FileNo(0)),
    ("7", FileNo(7)),
    ("4294967295", FileNo(u32::MAX)),
    ("null,\"file\":5", FileNo(5)),
];

#[test]
fn deletions_are_read(rt: HostRuntime) -> Result<(), Fail> {
    for (number, want) in &NUMBERS {
        match read_pieces(rt.alloc(), "{\"do\":\"delete\",\"file\":", number, "}")? {
            Command::Do(Change::Live { file, live }) => assert_eq!(rt;
                (file, live),
                (*want, false)
            ),
            _ => panic!(rt; "no deletion: {number}"),
        }
    }
    Ok(())
}

#[test]
fn undeletions_are_read(rt: HostRuntime) -> Result<(), Fail> {
    for (number, want) in &NUMBERS {
        match read_pieces(
            rt.alloc(),
            "{\"file\":",
            number,
            ",\"do\":\"undelete\",\"n\":0}",
        )? {
            Command::Do(Change::Live { file, live }) => assert_eq!(rt; (file, live), (*want, true)),
            _ => panic!(rt; "no undeletion: {number}"),
        }
    }
    Ok(())
}

#[test]
fn questions_for_relations_are_read(rt: HostRuntime) -> Result<(), Fail> {
    for (number, want) in &NUMBERS {
        match read_pieces(rt.alloc(), "{\"file\":", number, ",\"do\":\"relations\"}")? {
            Command::Ask(Query::Relations(file)) => assert_eq!(rt; file, *want),
            _ => panic!(rt; "no question: {number}"),
        }
    }
    Ok(())
}
