use crate::out::Count;
use crate::part::{Field, Part, put_object};
use crate::{put_reply_line, reply_len, write_reply};
use media_base::{
    Answer, BytesSink, CallList, Code, Decision, DecisionNo, FieldName, FileList, FileMappings,
    FileNo, FileRelations, Gather, IdealTag, ImportStatus, Imported, Mapped, PairList, PairTags,
    QueueLengths, Refusal, Reply, SearchCounts, SearchDistance, ServiceNo, TagNo, TagTextList,
    Unmet, clean,
};
use std::alloc::Global;
use std::process::Abort;
use std::test::Fail;

fn sink_failing_at(alloc: Global, call: u64) -> Result<BytesSink, Fail> {
    let fails = CallList::from_rows([call].to_vec(alloc)?);
    Ok(BytesSink::new(alloc, 65_536, fails)?)
}

// A reply of up to 4,096 bytes goes out in one write, so a failure of the second doesn't show.
fn assert_text(rt: &impl Abort, alloc: Global, reply: &Reply, want: &str) -> Result<(), Fail> {
    assert_eq!(rt; reply_len(reply), want.len() as u64, "{want}");
    assert_written(rt, alloc, reply, want)?;
    assert_line(rt, alloc, reply, want)
}

fn assert_written(rt: &impl Abort, alloc: Global, reply: &Reply, want: &str) -> Result<(), Fail> {
    let mut sink = sink_failing_at(alloc, 2)?;
    write_reply(reply, &mut sink)?;
    assert_eq!(rt; sink.bytes().as_slice(), want.as_bytes());
    Ok(())
}

fn assert_line(rt: &impl Abort, alloc: Global, reply: &Reply, want: &str) -> Result<(), Fail> {
    let mut sink = sink_failing_at(alloc, 2)?;
    let mut gather = Gather::new();
    put_reply_line(reply, &mut gather, &mut sink)?;
    gather.flush(&mut sink)?;
    assert_eq!(rt;
        sink.bytes().as_slice().strip_suffix(b"\n"),
        Some(want.as_bytes())
    );
    Ok(())
}

fn assert_texts(rt: &impl Abort, alloc: Global, cases: &[(Reply, &str)]) -> Result<(), Fail> {
    for (reply, want) in cases {
        assert_text(rt, alloc, reply, want)?;
    }
    Ok(())
}

#[test]
fn changes_are_answered(rt: HostRuntime) -> Result<(), Fail> {
    let imported = |file, status| {
        Ok(Answer::Imported(Imported {
            file: FileNo(file),
            status,
        }))
    };
    let cases = [
        (imported(0, ImportStatus::New), "{\"file\":0,\"status\":1}"),
        (
            imported(999_999, ImportStatus::Known),
            "{\"file\":999999,\"status\":2}",
        ),
        (
            imported(0, ImportStatus::Deleted),
            "{\"file\":0,\"status\":3}",
        ),
        (Ok(Answer::Changed(true)), "{\"changed\":true}"),
        (Ok(Answer::Changed(false)), "{\"changed\":false}"),
        (Ok(Answer::Decided(DecisionNo(10))), "{\"decision\":10}"),
        (Ok(Answer::Undone(DecisionNo(0))), "{\"undone\":0}"),
        (
            Ok(Answer::Undone(DecisionNo(4_294_967_295))),
            "{\"undone\":4294967295}",
        ),
    ];
    assert_texts(&rt, rt.alloc(), &cases)
}

#[test]
fn searches_are_answered(rt: HostRuntime) -> Result<(), Fail> {
    let counts = |searched, left| Ok(Answer::Searched(SearchCounts { searched, left }));
    let queues = |search, display| Ok(Answer::Queues(QueueLengths { search, display }));
    let cases = [
        (
            Ok(Answer::Distance(SearchDistance::first())),
            "{\"distance\":8}",
        ),
        (counts(1, 0), "{\"searched\":1,\"left\":0}"),
        (
            counts(1_024, u64::MAX),
            "{\"searched\":1024,\"left\":18446744073709551615}",
        ),
        (queues(0, 0), "{\"search\":0,\"display\":0}"),
        (queues(999_999, 12), "{\"search\":999999,\"display\":12}"),
        (Ok(Answer::Rebalanced), "{\"done\":true}"),
    ];
    assert_texts(&rt, rt.alloc(), &cases)
}

fn assert_pairs(
    rt: &impl Abort,
    alloc: Global,
    rows: &[(FileNo, FileNo, u8)],
    want: &str,
) -> Result<(), Fail> {
    let reply = Ok(Answer::Pairs(PairList::from_rows(rows.to_vec(alloc)?)));
    assert_text(rt, alloc, &reply, want)
}

#[test]
fn pairs_are_answered(rt: HostRuntime) -> Result<(), Fail> {
    let first = (FileNo(0), FileNo(1), 8);
    let second = (FileNo(1), FileNo(2), 1);
    let last = (FileNo(999_998), FileNo(999_999), 16);
    let two = "{\"pairs\":[[0,1,8],[1,2,1]]}";
    assert_pairs(&rt, rt.alloc(), &[], "{\"pairs\":[]}")?;
    assert_pairs(&rt, rt.alloc(), &[first, second], two)?;
    assert_pairs(&rt, rt.alloc(), &[last], "{\"pairs\":[[999998,999999,16]]}")
}

#[test]
fn counts_of_pairs_are_answered(rt: HostRuntime) -> Result<(), Fail> {
    let cases = [
        (Ok(Answer::PairCount(2)), "{\"count\":2}"),
        (
            Ok(Answer::PairCount(u64::MAX)),
            "{\"count\":18446744073709551615}",
        ),
    ];
    assert_texts(&rt, rt.alloc(), &cases)
}

fn files(alloc: Global, numbers: &[FileNo]) -> Result<FileList, Fail> {
    Ok(FileList::from_rows(numbers.to_vec(alloc)?))
}

fn relations_with(alloc: Global, members: FileList, alternates: FileList) -> Reply {
    Ok(Answer::Relations(FileRelations {
        king: FileNo(0),
        members,
        alternates,
        not_related: FileList::new(alloc),
    }))
}

#[test]
fn relations_are_answered(rt: HostRuntime) -> Result<(), Fail> {
    let members = files(rt.alloc(), &[FileNo(0), FileNo(10), FileNo(200)])?;
    let alternates = files(rt.alloc(), &[FileNo(7)])?;
    let reply = relations_with(rt.alloc(), members, alternates);
    assert_text(
        &rt,
        rt.alloc(),
        &reply,
        "{\"king\":0,\"members\":[0,10,200],\"alternates\":[7],\"not_related\":[]}",
    )
}

#[test]
fn decisions_are_told(rt: HostRuntime) -> Result<(), Fail> {
    let told = |code, a, b, undone| {
        let (a, b) = (FileNo(a), FileNo(b));
        let decision = Decision { code, a, b };
        Ok(Answer::Decision { decision, undone })
    };
    let cases = [
        (
            told(Code::NotRelated, 0, 1, false),
            "{\"code\":1,\"a\":0,\"b\":1,\"undone\":false,\"rule\":[]}",
        ),
        (
            told(Code::Same, 7, 3, true),
            "{\"code\":2,\"a\":7,\"b\":3,\"undone\":true,\"rule\":[]}",
        ),
        (
            told(Code::Alternates, 1, 0, false),
            "{\"code\":3,\"a\":1,\"b\":0,\"undone\":false,\"rule\":[]}",
        ),
        (
            told(Code::Better, 999_999, 999_998, true),
            "{\"code\":4,\"a\":999999,\"b\":999998,\"undone\":true,\"rule\":[]}",
        ),
    ];
    assert_texts(&rt, rt.alloc(), &cases)
}

#[test]
fn refusals_are_written(rt: HostRuntime) -> Result<(), Fail> {
    let cases = [
        (Err(Refusal::LineTooLong), "{\"error\":\"line_too_long\"}"),
        (Err(Refusal::NotJson), "{\"error\":\"not_json\"}"),
        (
            Err(Refusal::NotARequest(FieldName::Do)),
            "{\"error\":\"not_a_request\",\"field\":\"do\"}",
        ),
        (
            Err(Refusal::NotARequest(FieldName::Sha256)),
            "{\"error\":\"not_a_request\",\"field\":\"sha256\"}",
        ),
        (
            Err(Refusal::NotARequest(FieldName::Decision)),
            "{\"error\":\"not_a_request\",\"field\":\"decision\"}",
        ),
        (
            Err(Refusal::NotARequest(FieldName::N)),
            "{\"error\":\"not_a_request\",\"field\":\"n\"}",
        ),
        (
            Err(Refusal::NotARequest(FieldName::AfterK)),
            "{\"error\":\"not_a_request\",\"field\":\"after_k\"}",
        ),
        (Err(Refusal::BadHash), "{\"error\":\"bad_hash\"}"),
        (
            Err(Refusal::TooManyHashes),
            "{\"error\":\"too_many_hashes\"}",
        ),
        (Err(Refusal::BadTag), "{\"error\":\"bad_tag\"}"),
        (Err(Refusal::BadDistance), "{\"error\":\"bad_distance\"}"),
        (Err(Refusal::BadNumber), "{\"error\":\"bad_number\"}"),
        (
            Err(Refusal::Unmet(Unmet::UnknownFile)),
            "{\"error\":\"unknown_file\"}",
        ),
        (
            Err(Refusal::Unmet(Unmet::SameFile)),
            "{\"error\":\"same_file\"}",
        ),
        (
            Err(Refusal::Unmet(Unmet::UnknownDecision)),
            "{\"error\":\"unknown_decision\"}",
        ),
        (
            Err(Refusal::Unmet(Unmet::AlreadyUndone)),
            "{\"error\":\"already_undone\"}",
        ),
        (
            Err(Refusal::Unmet(Unmet::FullFiles)),
            "{\"error\":\"full_files\"}",
        ),
        (
            Err(Refusal::Unmet(Unmet::FullNear)),
            "{\"error\":\"full_near\"}",
        ),
        (
            Err(Refusal::Unmet(Unmet::FullDecisions)),
            "{\"error\":\"full_decisions\"}",
        ),
        (
            Err(Refusal::Unmet(Unmet::UnknownService)),
            "{\"error\":\"unknown_service\"}",
        ),
        (
            Err(Refusal::Unmet(Unmet::UnknownTag)),
            "{\"error\":\"unknown_tag\"}",
        ),
        (
            Err(Refusal::Unmet(Unmet::FullTags)),
            "{\"error\":\"full_tags\"}",
        ),
        (
            Err(Refusal::Unmet(Unmet::FullMappings)),
            "{\"error\":\"full_mappings\"}",
        ),
        (
            Err(Refusal::Unmet(Unmet::FullServices)),
            "{\"error\":\"full_services\"}",
        ),
        (
            Err(Refusal::Unmet(Unmet::UnknownPair)),
            "{\"error\":\"unknown_pair\"}",
        ),
        (
            Err(Refusal::Unmet(Unmet::FullRelations)),
            "{\"error\":\"full_relations\"}",
        ),
        (Err(Refusal::NoMemory), "{\"error\":\"no_memory\"}"),
        (Err(Refusal::JournalFull), "{\"error\":\"journal_full\"}"),
        (Err(Refusal::NotKept), "{\"error\":\"not_kept\"}"),
    ];
    assert_texts(&rt, rt.alloc(), &cases)
}

#[test]
fn a_sink_that_fails_at_once_takes_nothing(rt: HostRuntime) -> Result<(), Fail> {
    let mut sink = sink_failing_at(rt.alloc(), 1)?;
    assert!(rt; write_reply(&Ok(Answer::Decided(DecisionNo(1))), &mut sink).is_err());
    assert!(rt; sink.bytes().is_empty());
    Ok(())
}

fn numbered_files(alloc: Global, count: u32) -> Result<FileList, Fail> {
    let mut files = FileList::new(alloc);
    for number in 0..count {
        files.push(FileNo(number))?;
    }
    Ok(files)
}

// A sink that fails at its second call holds a front of the text.
fn assert_front(rt: &impl Abort, alloc: Global, reply: &Reply, text: &[u8]) -> Result<(), Fail> {
    let mut sink = sink_failing_at(alloc, 2)?;
    assert!(rt; write_reply(reply, &mut sink).is_err());
    assert!(rt; !sink.bytes().is_empty() && sink.bytes().len() <= 4_096);
    assert!(rt; text.starts_with(sink.bytes().as_slice()));
    Ok(())
}

fn assert_long(rt: &impl Abort, alloc: Global, reply: &Reply) -> Result<(), Fail> {
    let mut sink = sink_failing_at(alloc, 1_000)?;
    write_reply(reply, &mut sink)?;
    assert_eq!(rt; sink.bytes().len(), 8_945);
    assert_front(rt, alloc, reply, sink.bytes().as_slice())
}

// 10, 90, 900 and 1,000 numbers of one to four digits, 1,999 commas, and 56 bytes around them.
#[test]
fn a_long_reply_goes_out_in_pieces(rt: HostRuntime) -> Result<(), Fail> {
    let members = numbered_files(rt.alloc(), 2_000)?;
    let reply = relations_with(rt.alloc(), members, FileList::new(rt.alloc()));
    assert_eq!(rt; reply_len(&reply), 10 + 180 + 2_700 + 4_000 + 1_999 + 56);
    assert_long(&rt, rt.alloc(), &reply)
}

fn assert_object(
    rt: &impl Abort,
    alloc: Global,
    fields: &[Field<'_>],
    want: &str,
) -> Result<(), Fail> {
    let mut count = Count(0);
    put_object(fields, &mut count, &mut ())?;
    assert_eq!(rt; count.0, want.len() as u64, "{want}");
    let mut sink = sink_failing_at(alloc, 2)?;
    let mut gather = Gather::new();
    put_object(fields, &mut gather, &mut sink)?;
    gather.flush(&mut sink)?;
    assert_eq!(rt; sink.bytes().as_slice(), want.as_bytes());
    Ok(())
}

// The texts are those that Python's json writes.
#[test]
fn texts_are_escaped(rt: HostRuntime) -> Result<(), Fail> {
    let cases = [
        ("", "{\"text\":\"\"}"),
        ("plain", "{\"text\":\"plain\"}"),
        ("a\"b", "{\"text\":\"a\\\"b\"}"),
        ("\\", "{\"text\":\"\\\\\"}"),
        ("/", "{\"text\":\"/\"}"),
        (
            "\u{8}\u{9}\u{a}\u{c}\u{d}",
            "{\"text\":\"\\b\\t\\n\\f\\r\"}",
        ),
        ("\u{0}\u{1}", "{\"text\":\"\\u0000\\u0001\"}"),
        ("\u{b}\u{e}\u{1f}", "{\"text\":\"\\u000b\\u000e\\u001f\"}"),
        (" \u{7f}", "{\"text\":\" \u{7f}\"}"),
        ("é€𝄞", "{\"text\":\"é€𝄞\"}"),
    ];
    for (text, want) in cases {
        assert_object(&rt, rt.alloc(), &[("text", Part::Text(text))], want)?;
    }
    Ok(())
}

#[test]
fn no_fields_are_written(rt: HostRuntime) -> Result<(), Fail> {
    assert_object(&rt, rt.alloc(), &[], "{}")
}

fn tags(alloc: Global, texts: &[&str]) -> Result<TagTextList, Fail> {
    let mut tags = TagTextList::new(alloc);
    for text in texts {
        tags.push(clean(alloc, text)?)?;
    }
    Ok(tags)
}

#[test]
fn tags_are_answered(rt: HostRuntime) -> Result<(), Fail> {
    let mapped = |tag, changed| {
        let tag = TagNo(tag);
        Ok(Answer::Mapped(Mapped { tag, changed }))
    };
    let tags = |first, second| PairTags {
        first: TagNo(first),
        second: TagNo(second),
    };
    let sibling = |bad, good| Ok(Answer::Sibling(tags(bad, good)));
    let parent = |child, parent| Ok(Answer::Parent(tags(child, parent)));
    let cases = [
        (Ok(Answer::Service(ServiceNo(0))), "{\"service\":0}"),
        (Ok(Answer::Service(ServiceNo(255))), "{\"service\":255}"),
        (mapped(0, true), "{\"tag\":0,\"changed\":true}"),
        (mapped(999_999, false), "{\"tag\":999999,\"changed\":false}"),
        (sibling(0, 1), "{\"bad\":0,\"good\":1}"),
        (sibling(999_999, 12), "{\"bad\":999999,\"good\":12}"),
        (parent(0, 1), "{\"child\":0,\"parent\":1}"),
        (parent(7, 999_999), "{\"child\":7,\"parent\":999999}"),
    ];
    assert_texts(&rt, rt.alloc(), &cases)
}

fn assert_ideal(
    rt: &impl Abort,
    alloc: Global,
    tag: &str,
    ancestors: &[&str],
    want: &str,
) -> Result<(), Fail> {
    let ideal = clean(alloc, tag)?;
    let ancestors = tags(alloc, ancestors)?;
    let reply = Ok(Answer::Ideal(IdealTag { ideal, ancestors }));
    assert_text(rt, alloc, &reply, want)
}

// The texts in quotes are those that Python's json writes.
#[test]
fn ideal_tags_are_answered(rt: HostRuntime) -> Result<(), Fail> {
    let alloc = rt.alloc();
    let alone = "{\"ideal\":\"a\",\"ancestors\":[]}";
    assert_ideal(&rt, alloc, "a", &[], alone)?;
    let two = "{\"ideal\":\"d \\\"q\\\"\",\"ancestors\":[\"x\",\"y\"]}";
    assert_ideal(&rt, alloc, "d \"q\"", &["x", "y"], two)?;
    let escaped = "{\"ideal\":\"\\u001f\",\"ancestors\":[\"\\\\\",\"é𝄞\"]}";
    assert_ideal(&rt, alloc, "\u{1f}", &["\\", "é𝄞"], escaped)
}

fn assert_known_pair(rt: &impl Abort, alloc: Global, good: &str, want: &str) -> Result<(), Fail> {
    let good = clean(alloc, good)?;
    assert_text(
        rt,
        alloc,
        &Err(Refusal::Unmet(Unmet::PairKnown(good))),
        want,
    )
}

#[test]
fn known_pairs_are_told(rt: HostRuntime) -> Result<(), Fail> {
    let plain = "{\"error\":\"pair_known\",\"good\":\"b\"}";
    assert_known_pair(&rt, rt.alloc(), "b", plain)?;
    let escaped = "{\"error\":\"pair_known\",\"good\":\"creator:\\\"e\\\"\"}";
    assert_known_pair(&rt, rt.alloc(), "creator:\"e\"", escaped)
}

fn assert_too_many_implied(
    rt: &impl Abort,
    alloc: Global,
    service: ServiceNo,
    tag: &str,
    want: &str,
) -> Result<(), Fail> {
    let tag = clean(alloc, tag)?;
    assert_text(
        rt,
        alloc,
        &Err(Refusal::Unmet(Unmet::TooManyImplied { service, tag })),
        want,
    )
}

#[test]
fn too_many_implied_tags_are_told(rt: HostRuntime) -> Result<(), Fail> {
    let alloc = rt.alloc();
    let plain = "{\"error\":\"too_many_implied\",\"service\":1,\"tag\":\"a b\"}";
    assert_too_many_implied(&rt, alloc, ServiceNo(1), "a b", plain)?;
    let escaped = "{\"error\":\"too_many_implied\",\"service\":255,\"tag\":\"e\\\"\"}";
    assert_too_many_implied(&rt, alloc, ServiceNo(255), "e\"", escaped)
}

// The texts in quotes are those that Python's json writes.
#[test]
fn mappings_are_answered(rt: HostRuntime) -> Result<(), Fail> {
    let alloc = rt.alloc();
    let none = FileMappings {
        current: TagTextList::new(alloc),
        pending: TagTextList::new(alloc),
        deleted: TagTextList::new(alloc),
    };
    let want = "{\"current\":[],\"pending\":[],\"deleted\":[]}";
    assert_text(&rt, alloc, &Ok(Answer::Mappings(none)), want)?;
    let some = FileMappings {
        current: tags(alloc, &["a", "\"b\\", "c d"])?,
        pending: tags(alloc, &["\u{1}\u{1f}\u{7f}"])?,
        deleted: tags(alloc, &["é𝄞", "creator:e/f"])?,
    };
    let want =
        "{\"current\":[\"a\",\"\\\"b\\\\\",\"c d\"],\"pending\":[\"\\u0001\\u001f\u{7f}\"],\"deleted\":[\"é𝄞\",\"creator:e/f\"]}";
    assert_text(&rt, alloc, &Ok(Answer::Mappings(some)), want)
}
