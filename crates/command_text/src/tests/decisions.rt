use super::{DECIDE, assert_all_faulty, assert_faulty, read_pieces};
use media_base::{Change, Code, Command, Decision, DecisionNo, FieldName, FileNo, Query};
use std::test::Fail;

#[test]
fn faulty_decisions_are_refused(rt: HostRuntime) -> Result<(), Fail> {
    let cases = [
        ("\"code\":0", FieldName::Code),
        ("\"code\":5", FieldName::Code),
        ("\"code\":6", FieldName::Code),
        ("\"code\":8", FieldName::Code),
        ("\"code\":-1", FieldName::Code),
        ("\"code\":4294967300", FieldName::Code),
        ("\"code\":\"4\"", FieldName::Code),
        ("\"code\":4.0", FieldName::Code),
        ("\"code\":[4]", FieldName::Code),
        ("\"a\":null", FieldName::A),
        ("\"b\":4294967296", FieldName::B),
        ("\"b\":1.0,\"a\":-1,\"code\":9", FieldName::Code),
        ("\"b\":1.0,\"a\":-1,\"code\":7", FieldName::A),
    ];
    assert_all_faulty(&rt, rt.alloc(), DECIDE, &cases)
}

#[test]
fn faulty_numbers_of_decisions_are_refused(rt: HostRuntime) -> Result<(), Fail> {
    let cases = [
        ("\"decision\":-1", FieldName::Decision),
        ("\"decision\":-0", FieldName::Decision),
        ("\"decision\":1.0", FieldName::Decision),
        ("\"decision\":1e0", FieldName::Decision),
        ("\"decision\":4294967296", FieldName::Decision),
        ("\"decision\":\"1\"", FieldName::Decision),
        ("\"decision\":null", FieldName::Decision),
        ("\"decision\":[1]", FieldName::Decision),
        ("\"file\":1", FieldName::Decision),
    ];
    assert_all_faulty(&rt, rt.alloc(), "{\"do\":\"undo\"", &cases)?;
    assert_all_faulty(&rt, rt.alloc(), "{\"do\":\"decision\"", &cases)?;
    let field = FieldName::Decision;
    assert_faulty(&rt, rt.alloc(), b"{\"do\":\"undo\"}", field);
    assert_faulty(&rt, rt.alloc(), b"{\"do\":\"decision\"}", field);
    Ok(())
}

// Worse 1 2 is better 2 1.
#[test]
fn decisions_are_read(rt: HostRuntime) -> Result<(), Fail> {
    let cases = [
        ("1", Code::NotRelated, FileNo(1), FileNo(2)),
        ("2", Code::Same, FileNo(1), FileNo(2)),
        ("3", Code::Alternates, FileNo(1), FileNo(2)),
        ("4", Code::Better, FileNo(1), FileNo(2)),
        ("7", Code::Better, FileNo(2), FileNo(1)),
    ];
    let front = r#" {"do":"decide","code":4,"a":1,"b":2 , "hashes":7, "code":"#;
    for (number, code, a, b) in cases {
        match read_pieces(rt.alloc(), front, number, "} ")? {
            Command::Do(Change::Decision(decision)) => assert_eq!(rt;
                decision,
                Decision { code, a, b }
            ),
            _ => panic!(rt; "no decision: {number}"),
        }
    }
    Ok(())
}

const NUMBERS: [(&str, DecisionNo); 3] = [
    ("0", DecisionNo(0)),
    ("7", DecisionNo(7)),
    ("4294967295", DecisionNo(u32::MAX)),
];

#[test]
fn undos_are_read(rt: HostRuntime) -> Result<(), Fail> {
    for (number, want) in &NUMBERS {
        match read_pieces(rt.alloc(), "{\"decision\":", number, ",\"do\":\"undo\"}")? {
            Command::Do(Change::Undo(decision)) => assert_eq!(rt; decision, *want),
            _ => panic!(rt; "no undo: {number}"),
        }
    }
    Ok(())
}

#[test]
fn questions_for_decisions_are_read(rt: HostRuntime) -> Result<(), Fail> {
    let end = ",\"code\":9,\"do\":\"decision\"}";
    for (number, want) in &NUMBERS {
        match read_pieces(rt.alloc(), "{\"decision\":", number, end)? {
            Command::Ask(Query::Decision(decision)) => assert_eq!(rt; decision, *want),
            _ => panic!(rt; "no question: {number}"),
        }
    }
    Ok(())
}
