use super::*;
use std::alloc::Global;
use std::test::Fail;

fn list<T: Copy>(alloc: Global, rows: &[T]) -> Result<Listed<T>, NoMemory> {
    let mut list = Listed::new(alloc);
    list.push_all(rows)?;
    Ok(list)
}

// Cuts of 2 and 1, and a third call that fails.
#[test]
fn a_source_gives_what_it_was_told(rt: HostRuntime) -> Result<(), Fail> {
    let alloc = rt.alloc();
    let cuts = list(alloc, &[2, 1])?;
    assert!(rt; cuts.as_slice().iter().all(|cut| 0 < *cut));
    let mut source = BytesSource::new(list(alloc, b"abcdefgh")?, cuts, list(alloc, &[3])?);
    let mut room = [0; 4];
    let wanted = [
        (Some(2), b"ab".as_slice()),
        (Some(1), b"c".as_slice()),
        (None, b"".as_slice()),
        (Some(4), b"defg".as_slice()),
        (Some(1), b"h".as_slice()),
        (Some(0), b"".as_slice()),
    ];
    for (count, bytes) in wanted {
        let given = source.read(&mut room).ok();
        assert_eq!(rt; given, count);
        assert!(rt; room.starts_with(bytes));
    }
    Ok(())
}

#[test]
fn a_sink_takes_what_it_was_told(rt: HostRuntime) -> Result<(), Fail> {
    let alloc = rt.alloc();
    let mut sink = BytesSink::new(alloc, 5, list(alloc, &[2])?)?;
    for (piece, count) in [
        (b"abc".as_slice(), Some(3)),
        (b"d".as_slice(), None),
        (b"".as_slice(), Some(0)),
        (b"def".as_slice(), Some(2)),
        (b"g".as_slice(), None),
    ] {
        assert_eq!(rt; sink.write(piece).ok(), count);
    }
    assert_eq!(rt; sink.bytes().as_slice(), b"abcde".as_slice());
    assert!(rt; write_all(b"x", &mut sink).is_err());
    Ok(())
}

// Pieces of 1,000 bytes: four fit, and the fifth makes room by one write of 4,000.
#[test]
fn pieces_go_out_together(rt: HostRuntime) -> Result<(), Fail> {
    let alloc = rt.alloc();
    let mut sink = BytesSink::new(alloc, 20_000, list(alloc, &[2])?)?;
    let mut gather = Gather::new();
    let piece = [7; 1000];
    for _ in 0..4 {
        assert_eq!(rt; gather.put(&piece, &mut sink), Ok(()));
    }
    assert_eq!(rt; sink.bytes().len(), 0);
    assert_eq!(rt;
        gather.put_all(&[piece.as_slice(), b"ab".as_slice()], &mut sink),
        Ok(())
    );
    assert_eq!(rt; sink.bytes().len(), 4000);
    assert_eq!(rt; gather.flush(&mut sink), Err(Failed));
    assert_eq!(rt; gather.flush(&mut sink), Ok(()));
    assert_eq!(rt; gather.put(&[1; 5000], &mut sink), Ok(()));
    assert_eq!(rt; sink.bytes().len(), 9000);
    Ok(())
}

#[test]
fn names(rt: HostRuntime) {
    let fields = [
        (FieldName::Do, "do"),
        (FieldName::Sha256, "sha256"),
        (FieldName::Hashes, "hashes"),
        (FieldName::Size, "size"),
        (FieldName::Width, "width"),
        (FieldName::Height, "height"),
        (FieldName::Code, "code"),
        (FieldName::A, "a"),
        (FieldName::B, "b"),
        (FieldName::File, "file"),
        (FieldName::Decision, "decision"),
        (FieldName::Files, "files"),
        (FieldName::Distance, "distance"),
        (FieldName::N, "n"),
        (FieldName::AfterJ, "after_j"),
        (FieldName::AfterK, "after_k"),
        (FieldName::AtMost, "at_most"),
        (FieldName::Service, "service"),
        (FieldName::Siblings, "siblings"),
        (FieldName::Parents, "parents"),
        (FieldName::Tag, "tag"),
        (FieldName::State, "state"),
        (FieldName::Bad, "bad"),
        (FieldName::Good, "good"),
        (FieldName::Child, "child"),
        (FieldName::Parent, "parent"),
    ];
    for (field, text) in fields {
        assert_eq!(rt; field.text(), text);
    }
    let statuses = [
        (Status::Done, 0),
        (Status::Usage, 1),
        (Status::ReadFault, 2),
        (Status::WriteFault, 3),
        (Status::StoreFault, 4),
        (Status::NoMemory, 5),
        (Status::InputTooLong, 6),
        (Status::BadStore(1), 7),
        (Status::AlienStore, 8),
    ];
    for (status, number) in statuses {
        assert_eq!(rt; status.number(), number);
    }
    assert_eq!(rt; Refusal::from(NoMemory), Refusal::NoMemory);
    assert_eq!(rt;
        Refusal::from(Unmet::FullNear),
        Refusal::Unmet(Unmet::FullNear)
    );
}

#[test]
fn a_change_is_copied(rt: HostRuntime) -> Result<(), Fail> {
    let alloc = rt.alloc();
    let file = NewFile {
        sha: Sha([7; 32]),
        hashes: FileHashes::none(alloc),
        size: 4,
        width: 5,
        height: 6,
    };
    let decision = Decision {
        code: Code::Better,
        a: FileNo(1),
        b: FileNo(2),
    };
    let mut list = FileList::new(alloc);
    list.push(FileNo(8))?;
    list.push(FileNo(7))?;
    let files = match FileBatch::new(list) {
        Some(files) => files,
        None => panic!(rt; "two files are a batch"),
    };
    let searching = Searching {
        files,
        distance: SearchDistance::first(),
    };
    for change in [
        Change::File(file),
        Change::Decision(decision),
        Change::Undo(DecisionNo(3)),
        Change::Distance(SearchDistance::first()),
        Change::Searched(searching),
    ] {
        let copy = change.copied(alloc)?;
        assert_eq!(rt;
            format!(in alloc; "{copy:?}")?,
            format!(in alloc; "{change:?}")?
        );
    }
    Ok(())
}

#[test]
fn a_pair_is_copied(rt: HostRuntime) -> Result<(), Fail> {
    let alloc = rt.alloc();
    let pair = TagPair {
        service: ServiceNo(3),
        first: clean(alloc, "a")?,
        second: clean(alloc, "b")?,
    };
    let copy = pair.copied(alloc)?;
    assert_eq!(rt; copy.service.0, 3);
    assert_eq!(rt; copy.first.as_str(), "a");
    assert_eq!(rt; copy.second.as_str(), "b");
    Ok(())
}

#[test]
fn want_of_memory_has_its_names(rt: HostRuntime) {
    assert_eq!(rt; StartFault::from(NoMemory), StartFault::NoMemory);
    assert_eq!(rt; NextFault::from(NoMemory), NextFault::NoMemory);
    assert_eq!(rt; PutFault::from(NoMemory), PutFault::NoMemory);
}

#[test]
fn faults_have_messages(rt: HostRuntime) -> Result<(), Fail> {
    let alloc = rt.alloc();
    let messages = [
        (
            StartFault::Alien.to_string(alloc)?,
            "what should hold the keeper's changes belongs to something else",
        ),
        (
            NextFault::Unreadable.to_string(alloc)?,
            "the keeper's next change can't be read",
        ),
        (
            PutFault::Full.to_string(alloc)?,
            "the keeper has no room for the change",
        ),
    ];
    for (message, wanted) in &messages {
        assert_eq!(rt; message.as_str(), *wanted);
    }
    Ok(())
}
