use super::*;
use media_types::{ServiceNo, TagNo};
use std::alloc::Global;
use std::test::Fail;
use tag_types::{CleanFail, MAX_SERVICES, MAX_TAGS, Orders, TagText, clean};

/// The tags that these texts say, used one after the other.
fn used(alloc: Global, texts: &[&str]) -> Result<Tags, CleanFail> {
    let mut tags = Tags::new(alloc);
    for text in texts {
        let tag = clean(alloc, text)?;
        if tags.len() < MAX_TAGS {
            tags.intern(&tag)?;
        }
    }
    Ok(tags)
}

/// The number of a text's tag.
fn number(alloc: Global, tags: &Tags, text: &str) -> Result<Option<u32>, CleanFail> {
    let tag = clean(alloc, text)?;
    Ok(tags.find(&tag).map(|found| found.0))
}

#[test]
fn tags_are_numbered_by_first_use(rt: HostRuntime) -> Result<(), Fail> {
    let alloc = rt.alloc();
    let mut tags = used(alloc, &["Red", "blue", " RED ", "green"])?;
    assert_eq!(rt; tags.len(), 3);
    for (text, found) in [
        ("red", Some(0)),
        ("blue", Some(1)),
        ("green", Some(2)),
        ("grey", None),
    ] {
        assert_eq!(rt; number(alloc, &tags, text)?, found);
    }
    assert_eq!(rt; tags.text(TagNo(2)).as_str(), "green");
    tags.withdraw(1);
    assert_eq!(rt; tags.len(), 1);
    assert_eq!(rt; number(alloc, &tags, "blue")?, None);
    tags.reserve(1)?;
    assert_eq!(rt; tags.insert(clean(alloc, "green")?), TagNo(1));
    assert_eq!(rt; number(alloc, &tags, "green")?, Some(1));
    Ok(())
}

#[test]
fn a_text_is_numbered_behind_another(rt: HostRuntime) -> Result<(), Fail> {
    let alloc = rt.alloc();
    let mut tags = used(alloc, &["red", "blue"])?;
    assert_eq!(rt; tags.len(), 2);
    // The first text, the second, the number of the second, that behind the first, and whether it is new then.
    for (first, second, number, behind, is_new) in [
        ("red", "blue", 1, 1, false),
        ("red", "red", 0, 0, false),
        ("red", "green", 2, 2, true),
        ("green", "blue", 1, 1, false),
        ("green", "green", 2, 2, false),
        ("green", "grey", 2, 3, true),
    ] {
        let first = clean(alloc, first)?;
        let second = clean(alloc, second)?;
        assert_eq!(rt; tags.number(&second), TagNo(number));
        assert_eq!(rt; tags.number_behind(&first, &second), TagNo(behind));
        assert_eq!(rt; tags.is_new_behind(&first, &second), is_new);
    }
    tags.reserve(2)?;
    assert_eq!(rt; tags.insert(clean(alloc, "green")?), TagNo(2));
    assert_eq!(rt; tags.len(), 3);
    assert_eq!(rt; tags.insert(clean(alloc, "grey")?), TagNo(3));
    Ok(())
}

#[test]
fn services_open_with_their_own_pairs(rt: HostRuntime) {
    let mut services = Services::new();
    assert_eq!(rt; services.len(), 1);
    assert!(rt; *services.orders(ServiceNo(0)) == Orders::of_own(ServiceNo(0)));
    for _ in 0..20 {
        if (services.len() as usize) < MAX_SERVICES {
            services.add();
        }
    }
    assert_eq!(rt; services.len(), 8);
    for number in 0..8 {
        let service = ServiceNo(number);
        assert!(rt; *services.orders(service) == Orders::of_own(service));
    }
    services.set(ServiceNo(3), Orders::of_own(ServiceNo(0)));
    assert!(rt; *services.orders(ServiceNo(3)) == Orders::of_own(ServiceNo(0)));
    assert!(rt; *services.orders(ServiceNo(2)) == Orders::of_own(ServiceNo(2)));
}
