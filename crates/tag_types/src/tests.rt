use super::*;
use media_types::ServiceNo;
use std::alloc::{AllocError, Global};
use std::test::Fail;

#[test]
fn texts_are_cleaned(rt: HostRuntime) -> Result<(), Fail> {
    for (text, tag) in [
        ("q", "q"),
        ("  Q\t q ", "q q"),
        ("a   b", "a b"),
        ("\r\nCreator:Some  ONE\n", "creator:some one"),
        ("@AZ[ `az{ 09", "@az[ `az{ 09"),
        ("ÉÀ Ωß İ", "ÉÀ Ωß İ"),
        ("\u{200b}", "\u{200b}"),
        ("\u{feff}A\u{200b} ", "\u{feff}a\u{200b}"),
    ] {
        let said = clean(rt.alloc(), text)?;
        assert_eq!(rt; said.as_str(), tag);
        assert_eq!(rt; said.as_bytes(), tag.as_bytes());
    }
    Ok(())
}

// Unicode's `White_Space`.
const SPACES: [char; 25] = [
    '\u{9}', '\u{a}', '\u{b}', '\u{c}', '\u{d}', '\u{20}', '\u{85}', '\u{a0}', '\u{1680}',
    '\u{2000}', '\u{2001}', '\u{2002}', '\u{2003}', '\u{2004}', '\u{2005}', '\u{2006}', '\u{2007}',
    '\u{2008}', '\u{2009}', '\u{200a}', '\u{2028}', '\u{2029}', '\u{202f}', '\u{205f}', '\u{3000}',
];

/// White space, then A, more of it, B, and white space again.
fn spaced(alloc: Global, space: char) -> Result<String, AllocError> {
    let mut text = String::new(alloc);
    text.push(space)?;
    text.push('A')?;
    text.push(space)?;
    text.push(space)?;
    text.push('B')?;
    text.push(space)?;
    Ok(text)
}

#[test]
fn white_space_is_cut_and_becomes_one_space(rt: HostRuntime) -> Result<(), Fail> {
    for space in SPACES {
        let text = spaced(rt.alloc(), space)?;
        assert_eq!(rt; clean(rt.alloc(), text.as_str())?.as_str(), "a b");
    }
    Ok(())
}

/// So many X, and this text behind them.
fn long(alloc: Global, letters: u32, end: &str) -> Result<String, AllocError> {
    let mut text = String::new(alloc);
    for _ in 0..letters {
        text.push('X')?;
    }
    text.push_str(end)?;
    Ok(text)
}

#[test]
fn what_is_left_has_1_to_1024_bytes(rt: HostRuntime) -> Result<(), Fail> {
    for (letters, end, len) in [
        (1_024, "   ", 1_024),
        (1_021, " é", 1_024),
        (1_022, "é ", 1_024),
        (1_020, "\u{10348}", 1_024),
    ] {
        let text = long(rt.alloc(), letters, end)?;
        assert_eq!(rt; clean(rt.alloc(), text.as_str())?.as_bytes().len(), len);
    }
    for (letters, end) in [
        (0, ""),
        (0, " \u{3000}\t"),
        (1_025, ""),
        (1_022, " é"),
        (1_023, "é"),
        (1_021, "\u{10348}"),
        (3_000, " a"),
    ] {
        let text = long(rt.alloc(), letters, end)?;
        let failed = clean(rt.alloc(), text.as_str()).err();
        assert_eq!(rt; failed, Some(CleanFail::BadTag));
    }
    Ok(())
}

#[test]
fn tags_are_copied_and_compared(rt: HostRuntime) -> Result<(), Fail> {
    let alloc = rt.alloc();
    let tag = clean(alloc, "Some Tag")?;
    let copy = tag.copied(alloc)?;
    assert_eq!(rt; copy.as_str(), "some tag");
    assert!(rt; tag == copy);
    assert!(rt; tag != clean(alloc, "some tags")?);
    cleaning_laws();
    Ok(())
}

#[test]
fn a_service_opens_with_its_own_pairs(rt: HostRuntime) {
    let orders = Orders::of_own(ServiceNo(3));
    assert_eq!(rt; orders.siblings.as_slice(), [ServiceNo(3)].as_slice());
    assert_eq!(rt; orders.parents, orders.siblings);
    assert!(rt; orders != Orders::of_own(ServiceNo(4)));
}

#[test]
fn services_are_listed_in_their_order(rt: HostRuntime) {
    let mut list = ServiceList::new();
    assert!(rt; list.is_empty());
    for number in [5, 0, 7] {
        let service = ServiceNo(number);
        if list.len() < MAX_SERVICES && !list.contains(service) {
            list.push(service);
        }
    }
    assert_eq!(rt; list.len(), 3);
    assert_eq!(rt; list.get(2), ServiceNo(7));
    assert!(rt; list.contains(ServiceNo(0)));
    assert!(rt; !list.contains(ServiceNo(1)));
    let kept = list;
    assert_eq!(rt;
        kept.as_slice(),
        [ServiceNo(5), ServiceNo(0), ServiceNo(7)].as_slice()
    );
    assert_eq!(rt; kept, list);
    assert!(rt; kept != ServiceList::new());
}

#[test]
fn states_differ(rt: HostRuntime) {
    assert!(rt; MapState::Current != MapState::Pending);
    assert!(rt; MapState::Deleted != MapState::Pending);
}
