use super::{assert_all_faulty, assert_all_refused, assert_faulty, assert_refused, read_pieces};
use media_base::{
    Change, Command, FieldName, FileNo, MapState, Mapping, Query, Refusal, ServiceNo, TagPair,
};
use std::alloc::Global;
use std::process::Abort;
use std::test::Fail;

const MAP: &str = r#"{"do":"map","service":1,"file":7,"state":"pending""#;

const UNMAP: &str = r#"{"do":"unmap","service":1,"file":7"#;

const ADD_SIBLING: &str = r#"{"do":"add_sibling","service":1"#;

const REMOVE_SIBLING: &str = r#"{"service":1,"tag":0,"do":"remove_sibling""#;

const ADD_PARENT: &str = r#"{"bad":"a","do":"add_parent","service":1"#;

const REMOVE_PARENT: &str = r#"{"do":"remove_parent","good":null,"service":1"#;

const IDEAL: &str = r#"{"do":"ideal","file":null,"service":1"#;

const SERVICE_COMMANDS: [&str; 9] = [
    "apply",
    "map",
    "unmap",
    "mappings",
    "add_sibling",
    "remove_sibling",
    "add_parent",
    "remove_parent",
    "ideal",
];

#[test]
fn faulty_services_are_refused(rt: HostRuntime) -> Result<(), Fail> {
    let cases = [
        ("\"Service\":1", FieldName::Service),
        ("\"file\":1", FieldName::Service),
        ("\"service\":null", FieldName::Service),
        ("\"service\":\"1\"", FieldName::Service),
        ("\"service\":[1]", FieldName::Service),
        ("\"service\":-1", FieldName::Service),
        ("\"service\":-0", FieldName::Service),
        ("\"service\":1.0", FieldName::Service),
        ("\"service\":1e0", FieldName::Service),
        ("\"service\":256", FieldName::Service),
        ("\"service\":18446744073709551616", FieldName::Service),
        ("\"service\":1,\"service\":null", FieldName::Service),
    ];
    for name in SERVICE_COMMANDS {
        let front = format!(in rt.alloc(); "{{\"do\":\"{name}\"")?;
        assert_all_faulty(&rt, rt.alloc(), &front, &cases)?;
        let alone = format!(in rt.alloc(); "{front}}}")?;
        assert_faulty(&rt, rt.alloc(), alone.as_bytes(), FieldName::Service);
    }
    Ok(())
}

// Nine services are too many, as is one that stands twice.
const FAULTY_ORDERS: [&str; 15] = [
    "null",
    "0",
    "\"0\"",
    "{}",
    "[null]",
    "[\"0\"]",
    "[[0]]",
    "[-1]",
    "[0.0]",
    "[256]",
    "[1,256]",
    "[0,0]",
    "[1,2,1]",
    "[0,1,2,3,4,5,6,7,8]",
    "[0,1,2,3,4,5,6,7,7]",
];

#[test]
fn faulty_orders_are_refused(rt: HostRuntime) -> Result<(), Fail> {
    let front = "{\"do\":\"apply\",\"service\":0";
    for order in FAULTY_ORDERS {
        let siblings = format!(in rt.alloc(); "{front},\"siblings\":{order},\"parents\":0}}")?;
        assert_faulty(&rt, rt.alloc(), siblings.as_bytes(), FieldName::Siblings);
        let parents = format!(in rt.alloc(); "{front},\"siblings\":[],\"parents\":{order}}}")?;
        assert_faulty(&rt, rt.alloc(), parents.as_bytes(), FieldName::Parents);
    }
    let cases = [
        ("\"parents\":[]", FieldName::Siblings),
        ("\"siblings\":[]", FieldName::Parents),
    ];
    assert_all_faulty(&rt, rt.alloc(), front, &cases)
}

#[test]
fn services_are_added(rt: HostRuntime) -> Result<(), Fail> {
    for fields in ["", ",\"service\":null", ",\"siblings\":7"] {
        match read_pieces(rt.alloc(), "{\"do\":\"add_service\"", fields, "}")? {
            Command::Do(Change::Service) => {}
            _ => panic!(rt; "no service: {fields}"),
        }
    }
    Ok(())
}

// The two orders of service 255.
fn assert_orders(
    rt: &impl Abort,
    alloc: Global,
    orders: &str,
    siblings: &[ServiceNo],
    parents: &[ServiceNo],
) -> Result<(), Fail> {
    let front = "{\"do\":\"apply\",\"service\":255,\"tag\":0,";
    let Command::Do(change) = read_pieces(alloc, front, orders, "}")? else {
        panic!(rt; "no change: {orders}")
    };
    match change {
        Change::Orders { service, orders } => {
            assert_eq!(rt; service, ServiceNo(255));
            assert_eq!(rt; orders.siblings.as_slice(), siblings);
            assert_eq!(rt; orders.parents.as_slice(), parents);
        }
        _ => panic!(rt; "no orders: {orders}"),
    }
    Ok(())
}

#[test]
fn orders_are_read(rt: HostRuntime) -> Result<(), Fail> {
    let none = "\"siblings\":[],\"parents\":[]";
    assert_orders(&rt, rt.alloc(), none, &[], &[])?;
    let crossed = "\"parents\":[0],\"siblings\":[255,3]";
    let siblings = [ServiceNo(255), ServiceNo(3)];
    assert_orders(&rt, rt.alloc(), crossed, &siblings, &[ServiceNo(0)])?;
    let eight = "\"siblings\":[7,6,5,4,3,2,1,0],\"parents\":[0,7]";
    let falling = [7, 6, 5, 4, 3, 2, 1, 0].map(ServiceNo);
    assert_orders(
        &rt,
        rt.alloc(),
        eight,
        &falling,
        &[ServiceNo(0), ServiceNo(7)],
    )
}

// The forms of all fields come before the tag is cleaned.
#[test]
fn faulty_mappings_are_refused(rt: HostRuntime) -> Result<(), Fail> {
    let cases = [
        ("\"file\":1", FieldName::Tag),
        ("\"tag\":null,\"file\":1", FieldName::Tag),
        ("\"tag\":1,\"file\":1", FieldName::Tag),
        ("\"tag\":[\"a\"],\"file\":1", FieldName::Tag),
        ("\"Tag\":\"a\",\"file\":-1", FieldName::Tag),
        ("\"tag\":\"a\"", FieldName::File),
        ("\"tag\":\"\",\"file\":null", FieldName::File),
        ("\"tag\":\"a\",\"file\":4294967296", FieldName::File),
        ("\"tag\":\"a\",\"file\":1.0,\"state\":7", FieldName::File),
    ];
    assert_all_faulty(&rt, rt.alloc(), "{\"do\":\"map\",\"service\":0", &cases)?;
    assert_all_faulty(&rt, rt.alloc(), "{\"do\":\"unmap\",\"service\":0", &cases)
}

// Both tags have their form before either is cleaned.
#[test]
fn faulty_siblings_are_refused(rt: HostRuntime) -> Result<(), Fail> {
    let cases = [
        ("\"good\":\"b\"", FieldName::Bad),
        ("\"bad\":null,\"good\":\"b\"", FieldName::Bad),
        ("\"bad\":1,\"good\":2", FieldName::Bad),
        ("\"bad\":[\"a\"],\"good\":\"\"", FieldName::Bad),
        ("\"Bad\":\"a\",\"good\":null", FieldName::Bad),
        ("\"tag\":\"a\",\"good\":\"b\"", FieldName::Bad),
        ("\"bad\":\"a\"", FieldName::Good),
        ("\"bad\":\"\",\"good\":null", FieldName::Good),
        ("\"bad\":\"a\",\"good\":2", FieldName::Good),
        ("\"bad\":\"a\",\"good\":[\"b\"]", FieldName::Good),
        ("\"bad\":\" \",\"Good\":\"b\"", FieldName::Good),
    ];
    assert_all_faulty(&rt, rt.alloc(), ADD_SIBLING, &cases)?;
    assert_all_faulty(&rt, rt.alloc(), REMOVE_SIBLING, &cases)
}

#[test]
fn faulty_parents_are_refused(rt: HostRuntime) -> Result<(), Fail> {
    let cases = [
        ("\"parent\":\"b\"", FieldName::Child),
        ("\"child\":null,\"parent\":\"b\"", FieldName::Child),
        ("\"child\":1,\"parent\":2", FieldName::Child),
        ("\"child\":[\"a\"],\"parent\":\"\"", FieldName::Child),
        ("\"Child\":\"a\",\"parent\":null", FieldName::Child),
        ("\"bad\":\"a\",\"good\":\"b\"", FieldName::Child),
        ("\"child\":\"a\"", FieldName::Parent),
        ("\"child\":\"a\",\"good\":\"b\"", FieldName::Parent),
        ("\"child\":\"\",\"parent\":null", FieldName::Parent),
        ("\"child\":\"a\",\"parent\":2", FieldName::Parent),
        ("\"child\":\"a\",\"parent\":[\"b\"]", FieldName::Parent),
        ("\"child\":\" \",\"Parent\":\"b\"", FieldName::Parent),
        ("\"child\":\"a\",\"parents\":\"b\"", FieldName::Parent),
        ("\"child\":1,\"service\":256", FieldName::Service),
    ];
    assert_all_faulty(&rt, rt.alloc(), ADD_PARENT, &cases)?;
    assert_all_faulty(&rt, rt.alloc(), REMOVE_PARENT, &cases)
}

#[test]
fn faulty_questions_for_an_ideal_tag_are_refused(rt: HostRuntime) -> Result<(), Fail> {
    let cases = [
        ("\"Tag\":\"a\"", FieldName::Tag),
        ("\"bad\":\"a\"", FieldName::Tag),
        ("\"tag\":null", FieldName::Tag),
        ("\"tag\":0", FieldName::Tag),
        ("\"tag\":[\"a\"]", FieldName::Tag),
        ("\"tag\":\"\",\"service\":256", FieldName::Service),
    ];
    assert_all_faulty(&rt, rt.alloc(), IDEAL, &cases)
}

#[test]
fn faulty_states_are_refused(rt: HostRuntime) -> Result<(), Fail> {
    let cases = [
        ("\"State\":\"current\"", FieldName::State),
        ("\"state\":null", FieldName::State),
        ("\"state\":0", FieldName::State),
        ("\"state\":[\"current\"]", FieldName::State),
        ("\"state\":\"\"", FieldName::State),
        ("\"state\":\"Current\"", FieldName::State),
        ("\"state\":\"current \"", FieldName::State),
        ("\"state\":\"curren\"", FieldName::State),
        ("\"state\":\"petitioned\"", FieldName::State),
        ("\"state\":\"none\",\"tag\":\"\"", FieldName::State),
    ];
    let front = "{\"do\":\"map\",\"service\":0,\"tag\":\"a\",\"file\":1";
    assert_all_faulty(&rt, rt.alloc(), front, &cases)?;
    let alone = format!(in rt.alloc(); "{front}}}")?;
    assert_faulty(&rt, rt.alloc(), alone.as_bytes(), FieldName::State);
    Ok(())
}

// White space alone leaves nothing.
#[test]
fn bad_tags_are_refused(rt: HostRuntime) -> Result<(), Fail> {
    let bad_tag = &Refusal::BadTag;
    let cases = [
        ("\"tag\":\"\"", bad_tag),
        ("\"tag\":\" \"", bad_tag),
        ("\"tag\":\"\\u0009\\n\\r\"", bad_tag),
        ("\"tag\":\"\\u2003\\u3000\\u0085\"", bad_tag),
        ("\"tag\":\"a\",\"tag\":\"\"", bad_tag),
    ];
    assert_all_refused(&rt, rt.alloc(), MAP, &cases)?;
    assert_all_refused(&rt, rt.alloc(), UNMAP, &cases)?;
    assert_all_refused(&rt, rt.alloc(), IDEAL, &cases)
}

#[test]
fn bad_tags_of_siblings_are_refused(rt: HostRuntime) -> Result<(), Fail> {
    let bad_tag = &Refusal::BadTag;
    let cases = [
        ("\"bad\":\"\",\"good\":\"b\"", bad_tag),
        ("\"bad\":\"a\",\"good\":\" \"", bad_tag),
        ("\"bad\":\"\\t\",\"good\":\"\"", bad_tag),
    ];
    assert_all_refused(&rt, rt.alloc(), ADD_SIBLING, &cases)?;
    assert_all_refused(&rt, rt.alloc(), REMOVE_SIBLING, &cases)
}

#[test]
fn bad_tags_of_parents_are_refused(rt: HostRuntime) -> Result<(), Fail> {
    let bad_tag = &Refusal::BadTag;
    let cases = [
        ("\"child\":\"\",\"parent\":\"b\"", bad_tag),
        ("\"child\":\"a\",\"parent\":\" \"", bad_tag),
        ("\"child\":\"\\t\",\"parent\":\"\"", bad_tag),
    ];
    assert_all_refused(&rt, rt.alloc(), ADD_PARENT, &cases)?;
    assert_all_refused(&rt, rt.alloc(), REMOVE_PARENT, &cases)
}

// A line that begins so, and whose last text has so many letters.
fn with_letters(alloc: Global, front: &str, count: usize) -> Result<String, Fail> {
    let mut line = format!(in alloc; "{front}\":\"")?;
    for _ in 0..count {
        line.push('Q')?;
    }
    line.push_str("\"}")?;
    Ok(line)
}

fn mapping_of(rt: &impl Abort, alloc: Global, line: &str) -> Result<Mapping, Fail> {
    match read_pieces(alloc, line, "", "")? {
        Command::Do(Change::Mapping(mapping)) => Ok(mapping),
        _ => panic!(rt; "no mapping: {line}"),
    }
}

#[test]
fn a_tag_has_a_limit(rt: HostRuntime) -> Result<(), Fail> {
    let front = format!(in rt.alloc(); "{MAP},\"tag")?;
    let longest = with_letters(rt.alloc(), &front, 1_024)?;
    let mapping = mapping_of(&rt, rt.alloc(), &longest)?;
    assert_eq!(rt; mapping.tag.as_bytes().len(), 1_024);
    assert!(rt; mapping.tag.as_bytes().iter().all(|byte| *byte == b'q'));
    assert_too_long(&rt, rt.alloc(), &front)
}

fn assert_too_long(rt: &impl Abort, alloc: Global, front: &str) -> Result<(), Fail> {
    let longer = with_letters(alloc, front, 1_025)?;
    assert_refused(rt, alloc, longer.as_bytes(), &Refusal::BadTag);
    Ok(())
}

#[test]
fn tags_of_parents_have_the_limit(rt: HostRuntime) -> Result<(), Fail> {
    let fronts = [
        "{\"do\":\"add_parent\",\"service\":1,\"parent\":\"b\",\"child",
        "{\"do\":\"add_parent\",\"service\":1,\"child\":\"a\",\"parent",
        "{\"do\":\"remove_parent\",\"service\":1,\"parent\":\"b\",\"child",
        "{\"do\":\"remove_parent\",\"service\":1,\"child\":\"a\",\"parent",
    ];
    for front in fronts {
        let longest = with_letters(rt.alloc(), front, 1_024)?;
        read_pieces(rt.alloc(), &longest, "", "")?;
        assert_too_long(&rt, rt.alloc(), front)?;
    }
    Ok(())
}

// As JSON spells it, and cleaned.
const TAGS: [(&str, &str); 8] = [
    ("a", "a"),
    ("Q\\u0009", "q"),
    ("  Q\\t\\n q ", "q q"),
    ("Creator:Foo  Bar", "creator:foo bar"),
    ("\\u00c9t\\u00E9", "Été"),
    ("\\ud834\\udd1e", "𝄞"),
    ("\\\"\\\\\\/", "\"\\/"),
    ("\\u0000\\u001f\\u007f", "\u{0}\u{1f}\u{7f}"),
];

fn assert_mapping(rt: &impl Abort, mapping: &Mapping, tag: &str, state: Option<MapState>) {
    assert_eq!(rt; mapping.service, ServiceNo(1));
    assert_eq!(rt; mapping.tag.as_str(), tag);
    assert_eq!(rt; mapping.file, FileNo(7));
    assert_eq!(rt; mapping.state, state);
}

#[test]
fn tags_are_read_and_cleaned(rt: HostRuntime) -> Result<(), Fail> {
    for (spelled, tag) in &TAGS {
        let line = format!(in rt.alloc(); "{MAP},\"tag\":\"{spelled}\"}}")?;
        let mapping = mapping_of(&rt, rt.alloc(), &line)?;
        assert_mapping(&rt, &mapping, tag, Some(MapState::Pending));
        let line = format!(in rt.alloc(); "{UNMAP},\"state\":7,\"tag\":\"{spelled}\"}}")?;
        let mapping = mapping_of(&rt, rt.alloc(), &line)?;
        assert_mapping(&rt, &mapping, tag, None);
    }
    Ok(())
}

#[test]
fn states_are_read(rt: HostRuntime) -> Result<(), Fail> {
    let cases = [
        ("current", MapState::Current),
        ("pending", MapState::Pending),
        ("deleted", MapState::Deleted),
        ("d\\u0065leted", MapState::Deleted),
    ];
    for (name, state) in cases {
        let line = format!(in rt.alloc(); "{MAP},\"tag\":\"b\",\"state\":\"{name}\"}}")?;
        let mapping = mapping_of(&rt, rt.alloc(), &line)?;
        assert_mapping(&rt, &mapping, "b", Some(state));
    }
    Ok(())
}

fn assert_mappings_asked(
    rt: &impl Abort,
    alloc: Global,
    fields: &str,
    service: ServiceNo,
    file: FileNo,
) -> Result<(), Fail> {
    let Command::Ask(query) = read_pieces(alloc, "{\"do\":\"mappings\",", fields, "}")? else {
        panic!(rt; "no question: {fields}")
    };
    match query {
        Query::Mappings {
            service: of,
            file: asked,
        } => {
            assert_eq!(rt; of, service);
            assert_eq!(rt; asked, file);
        }
        _ => panic!(rt; "no mappings: {fields}"),
    }
    Ok(())
}

#[test]
fn questions_for_mappings_are_read(rt: HostRuntime) -> Result<(), Fail> {
    let cases = [
        ("\"file\":0,\"service\":0", ServiceNo(0), FileNo(0)),
        (
            "\"service\":255,\"tag\":7,\"file\":4294967295",
            ServiceNo(255),
            FileNo(u32::MAX),
        ),
    ];
    for (fields, service, file) in cases {
        assert_mappings_asked(&rt, rt.alloc(), fields, service, file)?;
    }
    let faulty = [
        ("\"service\":1", FieldName::File),
        ("\"service\":1,\"file\":4294967296", FieldName::File),
        ("\"service\":256,\"file\":-1", FieldName::Service),
    ];
    assert_all_faulty(&rt, rt.alloc(), "{\"do\":\"mappings\"", &faulty)
}

const SIBLINGS: [(&str, &str, &str); 5] = [
    (",\"bad\":\"a\",\"good\":\"b\"}", "a", "b"),
    (",\"good\":\"a\",\"bad\":\" B  c\"}", "b c", "a"),
    (",\"bad\":\"Q\",\"good\":\"q \"}", "q", "q"),
    (
        ",\"bad\":null,\"good\":\"\\u00c9t\\u00E9\",\"bad\":\"\\ud834\\udd1e\"}",
        "𝄞",
        "Été",
    ),
    (
        ",\"bad\":\"\\\"\",\"Bad\":1,\"good\":\"Creator:d\",\"file\":-1}",
        "\"",
        "creator:d",
    ),
];

fn sibling_added(rt: &impl Abort, alloc: Global, fields: &str) -> Result<TagPair, Fail> {
    match read_pieces(alloc, ADD_SIBLING, fields, "")? {
        Command::Do(Change::SiblingAdded(pair)) => Ok(pair),
        _ => panic!(rt; "no sibling: {fields}"),
    }
}

fn sibling_removed(rt: &impl Abort, alloc: Global, fields: &str) -> Result<TagPair, Fail> {
    match read_pieces(alloc, REMOVE_SIBLING, fields, "")? {
        Command::Do(Change::SiblingRemoved(pair)) => Ok(pair),
        _ => panic!(rt; "no sibling: {fields}"),
    }
}

fn assert_pair(rt: &impl Abort, pair: &TagPair, first: &str, second: &str) {
    assert_eq!(rt; pair.service, ServiceNo(1));
    assert_eq!(rt; pair.first.as_str(), first);
    assert_eq!(rt; pair.second.as_str(), second);
}

#[test]
fn siblings_are_read(rt: HostRuntime) -> Result<(), Fail> {
    for (fields, bad, good) in &SIBLINGS {
        assert_pair(&rt, &sibling_added(&rt, rt.alloc(), fields)?, bad, good);
        assert_pair(&rt, &sibling_removed(&rt, rt.alloc(), fields)?, bad, good);
    }
    Ok(())
}

const PARENTS: [(&str, &str, &str); 5] = [
    (",\"child\":\"a\",\"parent\":\"b\"}", "a", "b"),
    (",\"parent\":\"a\",\"child\":\" B  c\"}", "b c", "a"),
    (",\"child\":\"Q\",\"parent\":\"q \"}", "q", "q"),
    (
        ",\"child\":null,\"parent\":\"\\u00c9t\\u00E9\",\"child\":\"\\ud834\\udd1e\"}",
        "𝄞",
        "Été",
    ),
    (
        ",\"child\":\"\\\"\",\"Child\":1,\"parent\":\"Creator:d\",\"parents\":-1}",
        "\"",
        "creator:d",
    ),
];

fn parent_added(rt: &impl Abort, alloc: Global, fields: &str) -> Result<TagPair, Fail> {
    match read_pieces(alloc, ADD_PARENT, fields, "")? {
        Command::Do(Change::ParentAdded(pair)) => Ok(pair),
        _ => panic!(rt; "no parent: {fields}"),
    }
}

fn parent_removed(rt: &impl Abort, alloc: Global, fields: &str) -> Result<TagPair, Fail> {
    match read_pieces(alloc, REMOVE_PARENT, fields, "")? {
        Command::Do(Change::ParentRemoved(pair)) => Ok(pair),
        _ => panic!(rt; "no parent: {fields}"),
    }
}

#[test]
fn parents_are_read(rt: HostRuntime) -> Result<(), Fail> {
    for (fields, child, parent) in &PARENTS {
        assert_pair(&rt, &parent_added(&rt, rt.alloc(), fields)?, child, parent);
        assert_pair(
            &rt,
            &parent_removed(&rt, rt.alloc(), fields)?,
            child,
            parent,
        );
    }
    Ok(())
}

// The tag as JSON spells it.
fn assert_ideal_asked(
    rt: &impl Abort,
    alloc: Global,
    spelled: &str,
    want: &str,
) -> Result<(), Fail> {
    let front = "{\"bad\":0,\"do\":\"ideal\",\"service\":255,\"tag\":\"";
    let Command::Ask(query) = read_pieces(alloc, front, spelled, "\"}")? else {
        panic!(rt; "no question: {spelled}")
    };
    match query {
        Query::Ideal { service, tag } => {
            assert_eq!(rt; service, ServiceNo(255));
            assert_eq!(rt; tag.as_str(), want);
        }
        _ => panic!(rt; "no ideal tag: {spelled}"),
    }
    Ok(())
}

#[test]
fn questions_for_an_ideal_tag_are_read(rt: HostRuntime) -> Result<(), Fail> {
    for (spelled, tag) in &TAGS {
        assert_ideal_asked(&rt, rt.alloc(), spelled, tag)?;
    }
    Ok(())
}
