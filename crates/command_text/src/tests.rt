mod decisions;
mod files;
mod imports;
mod pairs;
mod searches;
mod tags;

use super::*;
use media_base::{Command, FieldName, Refusal};
use std::alloc::Global;
use std::process::Abort;
use std::test::Fail;

// A decision that lacks only its closing brace: of a name that stands twice the last value counts.
const DECIDE: &str = r#"{"do":"decide","code":4,"a":1,"b":2"#;

fn assert_refused(rt: &impl Abort, alloc: Global, line: &[u8], want: &Refusal) {
    let read = read_line(alloc, line);
    assert_eq!(rt; read.as_ref().err(), Some(want), "at {line:?}");
}

// The line is no request because of this field.
fn assert_faulty(rt: &impl Abort, alloc: Global, line: &[u8], field: FieldName) {
    assert_refused(rt, alloc, line, &Refusal::NotARequest(field));
}

// Each line begins so, and has these fields and a closing brace behind.
fn assert_all_refused(
    rt: &impl Abort,
    alloc: Global,
    front: &str,
    cases: &[(&str, &Refusal)],
) -> Result<(), Fail> {
    for (fields, want) in cases {
        let line = format!(in alloc; "{front},{fields}}}")?;
        assert_refused(rt, alloc, line.as_bytes(), want);
    }
    Ok(())
}

// The same, where each line is no request because of a field.
fn assert_all_faulty(
    rt: &impl Abort,
    alloc: Global,
    front: &str,
    cases: &[(&str, FieldName)],
) -> Result<(), Fail> {
    for (fields, field) in cases {
        let line = format!(in alloc; "{front},{fields}}}")?;
        assert_faulty(rt, alloc, line.as_bytes(), *field);
    }
    Ok(())
}

// What the line of these three pieces asks.
fn read_pieces(alloc: Global, front: &str, middle: &str, end: &str) -> Result<Command, Fail> {
    let line = format!(in alloc; "{front}{middle}{end}")?;
    Ok(read_line(alloc, line.as_bytes())?)
}

#[test]
fn lines_that_are_no_json_are_refused(rt: HostRuntime) {
    let cases: [&[u8]; 5] = [
        b"",
        b"[",
        b"{\"do\":\"relations\",\"file\":1",
        b"{\"do\":\"relations\",\"file\":1}{}",
        b"{\"do\":\"\xff\"}",
    ];
    for line in cases {
        assert_refused(&rt, rt.alloc(), line, &Refusal::NotJson);
    }
}

#[test]
fn faulty_lines_are_refused(rt: HostRuntime) {
    let cases = [
        ("7", FieldName::Do),
        ("[]", FieldName::Do),
        ("\"x\"", FieldName::Do),
        ("{}", FieldName::Do),
        ("{\"do\":1}", FieldName::Do),
        ("{\"do\":\"fly\"}", FieldName::Do),
        ("{\"do\":\"Import\"}", FieldName::Do),
        ("{\"do\":\"import\"}", FieldName::Sha256),
        ("{\"do\":\"decide\",\"code\":4,\"b\":2}", FieldName::A),
        ("{\"do\":\"decide\",\"a\":1,\"b\":2}", FieldName::Code),
        ("{\"do\":\"undone\",\"decision\":1}", FieldName::Do),
        ("{\"do\":\"deleted\",\"file\":1}", FieldName::Do),
        ("{\"do\":\"Undelete\",\"file\":1}", FieldName::Do),
        ("{\"do\":\"sibling\",\"service\":0}", FieldName::Do),
        ("{\"do\":\"parent\",\"service\":0}", FieldName::Do),
        ("{\"do\":\"Ideal\",\"service\":0}", FieldName::Do),
    ];
    for (line, field) in cases {
        assert_faulty(&rt, rt.alloc(), line.as_bytes(), field);
    }
}

fn padded(alloc: Global, text: &str, len: usize) -> Result<String, Fail> {
    let mut line = String::new(alloc);
    line.push_str(text)?;
    for _ in text.len()..len {
        line.push(' ')?;
    }
    Ok(line)
}

fn assert_padded_refused(
    rt: &impl Abort,
    alloc: Global,
    text: &str,
    len: usize,
    want: &Refusal,
) -> Result<(), Fail> {
    let line = padded(alloc, text, len)?;
    assert_refused(rt, alloc, line.as_bytes(), want);
    Ok(())
}

// 65,536 bytes are read, whatever they are, and 65,537 aren't.
#[test]
fn long_lines_are_refused_first(rt: HostRuntime) -> Result<(), Fail> {
    let alloc = rt.alloc();
    let decide = format!(in alloc; "{DECIDE}}}")?;
    assert_padded_refused(&rt, alloc, "", 65_536, &Refusal::NotJson)?;
    assert_padded_refused(&rt, alloc, "", 65_537, &Refusal::LineTooLong)?;
    assert_padded_refused(&rt, alloc, decide.as_str(), 65_537, &Refusal::LineTooLong)?;
    let read = padded(alloc, decide.as_str(), 65_536)?;
    assert!(rt; read_line(alloc, read.as_bytes()).is_ok());
    Ok(())
}

fn nested(alloc: Global, depth: u32) -> Result<String, Fail> {
    let mut text = String::new(alloc);
    for _ in 0..depth {
        text.push('[')?;
    }
    for _ in 0..depth {
        text.push(']')?;
    }
    Ok(text)
}

fn nested_in_a_decision(alloc: Global, depth: u32) -> Result<String, Fail> {
    let field = nested(alloc, depth)?;
    Ok(format!(in alloc; "{DECIDE},\"x\":{field}}}")?)
}

fn assert_nested_refused(
    rt: &impl Abort,
    alloc: Global,
    depth: u32,
    want: &Refusal,
) -> Result<(), Fail> {
    let line = nested(alloc, depth)?;
    assert_refused(rt, alloc, line.as_bytes(), want);
    Ok(())
}

// 127 levels are read, in a field that is ignored too.
#[test]
fn deep_lines_are_no_json(rt: HostRuntime) -> Result<(), Fail> {
    let alloc = rt.alloc();
    assert_nested_refused(&rt, alloc, 127, &Refusal::NotARequest(FieldName::Do))?;
    assert_nested_refused(&rt, alloc, 128, &Refusal::NotJson)?;
    let deepest = nested_in_a_decision(alloc, 126)?;
    assert!(rt; read_line(alloc, deepest.as_bytes()).is_ok());
    let too_deep = nested_in_a_decision(alloc, 127)?;
    assert_refused(&rt, alloc, too_deep.as_bytes(), &Refusal::NotJson);
    Ok(())
}
