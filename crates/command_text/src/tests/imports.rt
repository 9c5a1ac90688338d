use super::{assert_all_faulty, assert_refused};
use crate::read_line;
use media_base::{Change, Command, FieldName, Hash64, NewFile, Refusal};
use std::alloc::Global;
use std::process::Abort;
use std::test::Fail;

// An import that lacks only its closing brace, and has no hashes yet.
const IMPORT: &str =
    r#"{"do":"import","size":1,"width":2,"height":3,"sha256":"00112233445566778899aabbccddeeffFFEEDDCCBBAA99887766554433221100""#;

#[test]
fn faulty_imports_are_refused(rt: HostRuntime) -> Result<(), Fail> {
    let cases = [
        ("\"sha256\":5", FieldName::Sha256),
        ("\"sha256\":null", FieldName::Sha256),
        ("\"sha256\":[]", FieldName::Sha256),
        ("\"hashes\":null", FieldName::Hashes),
        ("\"hashes\":{}", FieldName::Hashes),
        ("\"hashes\":[1]", FieldName::Hashes),
        ("\"hashes\":\"00000000000000aa\"", FieldName::Hashes),
        ("\"hashes\":[null]", FieldName::Hashes),
        ("\"hashes\":[[]]", FieldName::Hashes),
        ("\"hashes\":[\"00000000000000aa\",170]", FieldName::Hashes),
        ("\"hashes\":[\"\",170]", FieldName::Hashes),
        ("\"size\":-1", FieldName::Size),
        ("\"size\":1.0", FieldName::Size),
        ("\"size\":1e3", FieldName::Size),
        ("\"size\":18446744073709551616", FieldName::Size),
        ("\"size\":\"1\"", FieldName::Size),
        ("\"width\":4294967296", FieldName::Width),
        ("\"height\":4294967296", FieldName::Height),
        ("\"height\":-1,\"width\":-1,\"size\":-1", FieldName::Size),
        ("\"hashes\":1,\"sha256\":1", FieldName::Sha256),
        ("\"sha256\":\"00\",\"hashes\":1", FieldName::Hashes),
        ("\"sha256\":\"00\",\"width\":-1", FieldName::Width),
        ("\"sha256\":\"00\",\"height\":null", FieldName::Height),
        ("\"hashes\":[\"0\"],\"height\":-1", FieldName::Height),
        (
            "\"hashes\":[\"0\",\"0\",\"0\",\"0\",\"0\"],\"width\":-1",
            FieldName::Width,
        ),
    ];
    assert_all_faulty(&rt, rt.alloc(), IMPORT, &cases)
}

// 63 digits, behind which one more makes a hash.
const DIGITS: &str = "00112233445566778899aabbccddeeff00112233445566778899aabbccddeef";

fn assert_bad_digits(
    rt: &impl Abort,
    alloc: Global,
    front: &str,
    ends: &[&str],
) -> Result<(), Fail> {
    for end in ends {
        let line = format!(in alloc; "{IMPORT},\"sha256\":\"{front}{end}\"}}")?;
        assert_refused(rt, alloc, line.as_bytes(), &Refusal::BadHash);
    }
    Ok(())
}

#[test]
fn other_than_sixty_four_digits_are_a_bad_hash(rt: HostRuntime) -> Result<(), Fail> {
    let ends = ["", "g", "G", " ", "ff", "fff", "\u{e9}"];
    assert_bad_digits(&rt, rt.alloc(), DIGITS, &ends)?;
    assert_bad_digits(&rt, rt.alloc(), "", &["", "0", "00", "0x00"])
}

// The import that has these fields too.
fn imported(rt: &impl Abort, alloc: Global, fields: &str) -> Result<NewFile, Fail> {
    let line = format!(in alloc; "{IMPORT},{fields}}}")?;
    match read_line(alloc, line.as_bytes())? {
        Command::Do(Change::File(file)) => Ok(file),
        _ => panic!(rt; "no import: {line}"),
    }
}

#[test]
fn sixty_four_digits_are_read(rt: HostRuntime) -> Result<(), Fail> {
    for end in ["0", "9", "a", "f", "A", "F"] {
        let line = format!(in rt.alloc(); "{IMPORT},\"sha256\":\"{DIGITS}{end}\"}}")?;
        assert!(rt; read_line(rt.alloc(), line.as_bytes()).is_ok());
    }
    Ok(())
}

const FOUR: &str = r#""00000000000000aa","00000000000000aa","00000000000000aa","00000000000000aa""#;

#[test]
fn other_than_sixteen_digits_are_a_bad_hash(rt: HostRuntime) -> Result<(), Fail> {
    let texts = [
        "",
        "00000000000000a",
        "00000000000000aaa",
        "00000000000000aaaa",
        "00000000000000ag",
        "0x000000000000aa",
        " 00000000000000a",
        "00000000000000\u{e9}",
    ];
    for text in texts {
        let line = format!(in rt.alloc(); "{IMPORT},\"hashes\":[\"{text}\"]}}")?;
        assert_refused(&rt, rt.alloc(), line.as_bytes(), &Refusal::BadHash);
    }
    Ok(())
}

// A bad hash is told before their number, wherever it stands.
#[test]
fn more_than_four_hashes_are_refused(rt: HostRuntime) -> Result<(), Fail> {
    let too_many = &Refusal::TooManyHashes;
    let bad_hash = &Refusal::BadHash;
    let cases = [
        (",\"00000000000000aa\"", too_many),
        (",\"00000000000000aa\",\"00000000000000ab\"", too_many),
        (",\"0\"", bad_hash),
        (",\"00000000000000aa\",\"0\"", bad_hash),
        (",\"0\",\"00000000000000aa\"", bad_hash),
        ("],\"sha256\":\"00\",\"x\":[", bad_hash),
        (",\"00000000000000aa\"],\"sha256\":\"00\",\"x\":[", bad_hash),
    ];
    for (more, want) in cases {
        let line = format!(in rt.alloc(); "{IMPORT},\"hashes\":[{FOUR}{more}]}}")?;
        assert_refused(&rt, rt.alloc(), line.as_bytes(), want);
    }
    Ok(())
}

// The first digit is the highest, and case doesn't matter.
#[test]
fn a_hash_is_read(rt: HostRuntime) -> Result<(), Fail> {
    let cases = [
        ("\"hashes\":[\"00000000000000aa\"]", 0xaa),
        ("\"hashes\":[\"00000000000000AA\"]", 0xaa),
        ("\"hashes\":[\"aA00000000000000\"]", 0xaa00_0000_0000_0000),
        ("\"hashes\":[\"0123456789abcdef\"]", 0x0123_4567_89ab_cdef),
        ("\"hashes\":[\"ffffffffffffffff\"]", u64::MAX),
        ("\"hashes\":[\"0000000000000000\"]", 0),
    ];
    for (fields, want) in cases {
        let file = imported(&rt, rt.alloc(), fields)?;
        assert_eq!(rt; file.hashes.as_slice(), [Hash64(want)].as_slice());
    }
    Ok(())
}

#[test]
fn hashes_keep_their_order(rt: HostRuntime) -> Result<(), Fail> {
    let fields =
        r#""hashes":["0000000000000003","0000000000000001","0000000000000003","0000000000000002"]"#;
    let file = imported(&rt, rt.alloc(), fields)?;
    assert_eq!(rt;
        file.hashes.as_slice(),
        [Hash64(3), Hash64(1), Hash64(3), Hash64(2)].as_slice()
    );
    Ok(())
}

// It has no hashes.
fn assert_measures(rt: &impl Abort, file: &NewFile, size: u64, width: u32, height: u32) {
    assert_eq!(rt; (file.sha.0[1], file.sha.0[16]), (0x11, 0xff));
    assert!(rt; file.hashes.as_slice().is_empty());
    assert_eq!(rt; (file.size, file.width, file.height), (size, width, height));
}

#[test]
fn imports_are_read(rt: HostRuntime) -> Result<(), Fail> {
    let cases = [
        ("\"Hashes\":[1]", 1, 2, 3),
        ("\"hashes\":[]", 1, 2, 3),
        ("\"size\":18446744073709551615", u64::MAX, 2, 3),
        ("\"width\":4294967295,\"height\":0", 1, u32::MAX, 0),
        ("\"size\":\"1\",\"size\":5,\"Size\":[]", 5, 2, 3),
    ];
    for (fields, size, width, height) in cases {
        let file = imported(&rt, rt.alloc(), fields)?;
        assert_measures(&rt, &file, size, width, height);
    }
    Ok(())
}
