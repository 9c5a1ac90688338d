ghost use Rattle.std.specs.Prelude.{◌≡◌, ◌<◌};

use super::*;
use media_types::{Code, Decision, DecisionNo, FileNo, MAX_FILES, NoMemory, Steps};
use std::alloc::Global;
use std::marker::Brand;
use std::process::Abort;
use std::sync::ledger::{Blank, Ledger};
use std::test::Fail;
use std::thread::Threads;

fn better(a: u32, b: u32) -> Decision {
    Decision {
        code: Code::Better,
        a: FileNo(a),
        b: FileNo(b),
    }
}

fn assert_book<L: Ledger>(
    rt: &(impl Abort + Threads),
    alloc: Global,
    blank: Blank,
) -> Result<(), NoMemory>
    requires name { blank.name ≡ L.name }
    requires parts { blank.parts ≡ L.parts }
    requires some { 0 < L.parts }
{
    let mut steps = Steps::<L>::new(rt, blank);
    let mut book = Book::new(alloc);
    for _ in 0..3 {
        book.reserve(&mut steps)?;
        assert!(rt; book.files() < MAX_FILES);
        book.add_file();
    }
    assert!(rt; book.files() == 3 && book.len() == 0);
    let decisions = [better(0, 1), better(1, 2), better(0, 2)];
    for (number, decision) in decisions.iter().enumerate() {
        book.reserve(&mut steps)?;
        let Decision { code, a, b } = *decision;
        assert!(rt; a.0 < book.files() && b.0 < book.files() && a.0 != b.0 && book.len() < 9);
        assert_eq!(rt; book.add(code, a, b), DecisionNo(number as u32));
    }
    let undone = DecisionNo(1);
    assert!(rt; book.len() == 3 && !book.row(undone, &mut steps).undone);
    let all = book.standing(alloc, &mut steps)?;
    assert_eq!(rt; all.as_slice(), decisions.as_slice());
    let others = [better(0, 1), better(0, 2)];
    let without = book.standing_without(undone, alloc, &mut steps)?;
    assert_eq!(rt; without.as_slice(), others.as_slice());
    book.undo(undone);
    let left = book.standing(alloc, &mut steps)?;
    assert_eq!(rt; left.as_slice(), others.as_slice());
    assert!(rt; book.len() == 3);
    Ok(())
}

#[test]
fn a_book_keeps_what_was_undone(rt: HostRuntime) -> Result<(), Fail> {
    assert_book::<Brand>(&rt, rt.alloc(), Blank::new(1))?;
    Ok(())
}
