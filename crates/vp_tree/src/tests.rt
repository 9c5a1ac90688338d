ghost use Rattle.std.specs.Prelude.{◌≡◌, ◌≢◌, ◌+◌, ◌<◌, ◌≤◌, All, length, IfOk, OnOk};
ghost use Rattle.media_types.specs.declared.limits.TheConstants.{MAX_HASHES};
ghost use Rattle.vp_tree.specs.Placing.{CanTake};

use super::*;
use media_types::{Hash64, HashNo, MAX_WORDS, NoMemory, Steps, distance};
use std::alloc::Global;
use std::marker::Brand;
use std::process::Abort;
use std::sync::ledger::{Blank, Ledger};
use std::test::Fail;
use std::thread::Threads;

// Looks at each node, since a tree takes only words that aren't there.
fn assert_new<L: Ledger>(rt: &impl Abort, tree: &Tree, word: Hash64, steps: &mut Steps<L>)
    ensures { All (λ node. node.word ≢ word) tree.now.rows }
{
    for at in 0..tree.len() {
        assert!(rt; tree.node(HashNo(at), steps).word.0 != word.0);
    }
}

fn plan_word<L: Ledger>(
    rt: &impl Abort,
    tree: &mut Tree,
    word: Hash64,
    steps: &mut Steps<L>,
) -> Result<InsertPlan, NoMemory>
    ensures plan { IfOk result (λ plan. plan.word ≡ word) }
    ensures ready { OnOk result (CanTake tree.new word) }
    ensures room { OnOk result (MAX_HASHES ≤ tree.new.spare) }
{
    assert!(rt; tree.len() < MAX_WORDS);
    assert_new(rt, tree, word, steps);
    tree.plan_insert(word)
}

// Tells the branch that is to be built anew.
fn insert<L: Ledger>(
    rt: &impl Abort,
    tree: &mut Tree,
    word: Hash64,
    steps: &mut Steps<L>,
) -> Result<Option<HashNo>, NoMemory> {
    let plan = plan_word(rt, tree, word, steps)?;
    let (_number, branch) = tree.commit_insert(plan, steps);
    Ok(branch)
}

// The plan's room is still there, though other words were placed since.
fn place_later<L: Ledger>(
    rt: &impl Abort,
    tree: &mut Tree,
    plan: InsertPlan,
    number: u32,
    steps: &mut Steps<L>,
)
    requires { 1 ≤ tree.old.spare }
    ensures { tree.old.spare ≤ tree.new.spare + 1 }
{
    assert!(rt; tree.len() < MAX_WORDS);
    assert_new(rt, tree, plan.word, steps);
    let (placed, _branch) = tree.commit_insert(plan, steps);
    assert_eq!(rt; placed, HashNo(number));
}

// The words of a file are all planned before the first is placed. The second differs from the first
// in 8 bits, the third in 9, the fourth in 64.
fn insert_four<L: Ledger>(
    rt: &impl Abort,
    tree: &mut Tree,
    steps: &mut Steps<L>,
) -> Result<(), NoMemory> {
    let first = plan_word(rt, tree, Hash64(0), steps)?;
    let second = plan_word(rt, tree, Hash64(0xff), steps)?;
    let third = plan_word(rt, tree, Hash64(0x1ff), steps)?;
    let fourth = plan_word(rt, tree, Hash64(u64::MAX), steps)?;
    place_later(rt, tree, first, 0, steps);
    place_later(rt, tree, second, 1, steps);
    place_later(rt, tree, third, 2, steps);
    place_later(rt, tree, fourth, 3, steps);
    Ok(())
}

fn build<L: Ledger>(
    rt: &impl Abort,
    tree: &mut Tree,
    top: HashNo,
    steps: &mut Steps<L>,
) -> Result<(), NoMemory> {
    assert!(rt; top.0 < tree.len());
    let plan = tree.plan_build(top, steps)?;
    tree.commit_build(plan);
    Ok(())
}

// The plain way: look at every word.
fn assert_as_scan<L: Ledger>(
    rt: &impl Abort,
    tree: &Tree,
    query: Hash64,
    within: u32,
    steps: &mut Steps<L>,
) -> Result<(), NoMemory> {
    let hits = tree.search(query, within, steps)?;
    let mut next = 0;
    for at in 0..tree.len() {
        let away = distance(query, tree.node(HashNo(at), steps).word);
        if away <= within {
            assert!(rt; next < hits.len(), "{at} is missing");
            assert_eq!(rt; *hits.get(next), (HashNo(at), away));
            next += 1;
        }
    }
    assert_eq!(rt; next, hits.len());
    Ok(())
}

// Searches around 0.
fn assert_hits<L: Ledger>(
    rt: &impl Abort,
    tree: &Tree,
    searches: &[(u32, &[(HashNo, u32)])],
    steps: &mut Steps<L>,
) -> Result<(), NoMemory> {
    for (within, want) in searches {
        let hits = tree.search(Hash64(0), *within, steps)?;
        assert_eq!(rt; hits.as_slice(), *want, "within {within}");
    }
    Ok(())
}

const LEAF: NodeView = NodeView {
    word: Hash64(0),
    radius: None,
    inner: None,
    outer: None,
    below: 0,
    built: 0,
};

// A tree of these words in which branches are built anew, one after another; what it then keeps of nodes,
// and what searches around 0 find.
#[derive(Drop)]
struct Case<'a> {
    words: &'a [u64],
    builds: &'a [u32],
    nodes: &'a [(u32, NodeView)],
    searches: &'a [(u32, &'a [(HashNo, u32)])],
}

const CASES: [Case<'static>; 5] = [
    Case {
        words: &[0, 0xff, 0x1ff],
        builds: &[],
        nodes: &[(
            0,
            NodeView {
                word: Hash64(0),
                radius: Some(8),
                inner: Some(HashNo(1)),
                outer: Some(HashNo(2)),
                below: 2,
                built: 0,
            },
        )],
        searches: &[
            (8, &[(HashNo(0), 0), (HashNo(1), 8)]),
            (9, &[(HashNo(0), 0), (HashNo(1), 8), (HashNo(2), 9)]),
        ],
    },
    Case {
        words: &[0, 0xff, 0x1ff],
        builds: &[0],
        nodes: &[
            (
                0,
                NodeView {
                    word: Hash64(0),
                    radius: Some(8),
                    inner: Some(HashNo(1)),
                    outer: Some(HashNo(2)),
                    below: 2,
                    built: 2,
                },
            ),
            (
                1,
                NodeView {
                    word: Hash64(0xff),
                    ..LEAF
                },
            ),
            (
                2,
                NodeView {
                    word: Hash64(0x1ff),
                    ..LEAF
                },
            ),
        ],
        searches: &[],
    },
    // The others differ from the first word in 16, 1, 2 and 2 bits.
    Case {
        words: &[0, 0xffff, 0x1, 0x3, 0x6],
        builds: &[0],
        nodes: &[
            (
                0,
                NodeView {
                    word: Hash64(0),
                    radius: Some(2),
                    inner: Some(HashNo(2)),
                    outer: Some(HashNo(1)),
                    below: 4,
                    built: 4,
                },
            ),
            (
                1,
                NodeView {
                    word: Hash64(0xffff),
                    ..LEAF
                },
            ),
            (
                2,
                NodeView {
                    word: Hash64(0x1),
                    radius: Some(1),
                    inner: Some(HashNo(3)),
                    outer: Some(HashNo(4)),
                    below: 2,
                    built: 2,
                },
            ),
            (
                3,
                NodeView {
                    word: Hash64(0x3),
                    ..LEAF
                },
            ),
        ],
        searches: &[(
            2,
            &[
                (HashNo(0), 0),
                (HashNo(2), 1),
                (HashNo(3), 2),
                (HashNo(4), 2),
            ],
        )],
    },
    // Words of one bit each lie at the same distance from 0, and at the same from one another.
    Case {
        words: &[0, 0x1, 0x2, 0x4],
        builds: &[1],
        nodes: &[(
            1,
            NodeView {
                word: Hash64(0x1),
                radius: Some(2),
                inner: Some(HashNo(2)),
                outer: None,
                below: 2,
                built: 2,
            },
        )],
        searches: &[],
    },
    Case {
        words: &[0, 0x1, 0x2, 0x4],
        builds: &[1, 0],
        nodes: &[
            (
                0,
                NodeView {
                    word: Hash64(0),
                    radius: Some(1),
                    inner: Some(HashNo(1)),
                    outer: None,
                    below: 3,
                    built: 3,
                },
            ),
            (
                2,
                NodeView {
                    word: Hash64(0x2),
                    radius: Some(2),
                    inner: Some(HashNo(3)),
                    outer: None,
                    below: 1,
                    built: 1,
                },
            ),
        ],
        searches: &[],
    },
];

// The words leave no branch lopsided.
fn insert_all<L: Ledger>(
    rt: &impl Abort,
    tree: &mut Tree,
    words: &[u64],
    steps: &mut Steps<L>,
) -> Result<(), NoMemory> {
    for word in words {
        assert_eq!(rt; insert(rt, tree, Hash64(*word), steps)?, None);
    }
    Ok(())
}

fn build_all<L: Ledger>(
    rt: &impl Abort,
    tree: &mut Tree,
    tops: &[u32],
    steps: &mut Steps<L>,
) -> Result<(), NoMemory> {
    for top in tops {
        build(rt, tree, HashNo(*top), steps)?;
    }
    Ok(())
}

fn assert_nodes<L: Ledger>(
    rt: &impl Abort,
    tree: &Tree,
    nodes: &[(u32, NodeView)],
    steps: &mut Steps<L>,
) {
    for (at, node) in nodes {
        assert!(rt; *at < tree.len());
        assert_eq!(rt; tree.node(HashNo(*at), steps), *node, "at {at}");
    }
}

fn assert_case<L: Ledger>(
    rt: &impl Abort,
    alloc: Global,
    case: &Case,
    steps: &mut Steps<L>,
) -> Result<(), NoMemory> {
    let mut tree = Tree::new(alloc);
    insert_all(rt, &mut tree, case.words, steps)?;
    build_all(rt, &mut tree, case.builds, steps)?;
    assert_eq!(rt; tree.len() as usize, case.words.len());
    assert_nodes(rt, &tree, case.nodes, steps);
    assert_hits(rt, &tree, case.searches, steps)
}

fn assert_cases<L: Ledger>(
    rt: &(impl Abort + Threads),
    alloc: Global,
    blank: Blank,
) -> Result<(), NoMemory>
    requires name { blank.name ≡ L.name }
    requires parts { blank.parts ≡ L.parts }
    requires some { 0 < L.parts }
{
    let mut steps = Steps::<L>::new(rt, blank);
    for case in &CASES {
        assert_case(rt, alloc, case, &mut steps)?;
    }
    Ok(())
}

#[test]
fn words_are_placed_and_built(rt: HostRuntime) -> Result<(), Fail> {
    assert_cases::<Brand>(&rt, rt.alloc(), Blank::new(1))?;
    root_law();
    placing_laws();
    Ok(())
}

fn four_words_in<L: Ledger>(
    rt: &(impl Abort + Threads),
    blank: Blank,
    tree: &mut Tree,
) -> Result<(), NoMemory>
    requires name { blank.name ≡ L.name }
    requires parts { blank.parts ≡ L.parts }
    requires some { 0 < L.parts }
{
    let mut steps = Steps::<L>::new(rt, blank);
    insert_four(rt, tree, &mut steps)?;
    let all = [
        (HashNo(0), 0),
        (HashNo(1), 8),
        (HashNo(2), 9),
        (HashNo(3), 64),
    ];
    assert_hits(rt, tree, &[(64, &all)], &mut steps)
}

#[test]
fn four_words_of_a_file(rt: HostRuntime) -> Result<(), Fail> {
    let mut tree = Tree::new(rt.alloc());
    four_words_in::<Brand>(&rt, Blank::new(1), &mut tree)?;
    Ok(())
}

const UNLUCKY: [u64; 16] = [0, u64::MAX, 1, 2, 3, 4, 5, 6, 7, 8, 9, 10, 11, 12, 13, 14];

fn unlucky_words_in<L: Ledger>(
    rt: &(impl Abort + Threads),
    blank: Blank,
    tree: &mut Tree,
) -> Result<(), NoMemory>
    requires name { blank.name ≡ L.name }
    requires parts { blank.parts ≡ L.parts }
    requires some { 0 < L.parts }
{
    let mut steps = Steps::<L>::new(rt, blank);
    insert_all(rt, tree, &UNLUCKY, &mut steps)?;
    let branch = insert(rt, tree, Hash64(15), &mut steps)?;
    assert_eq!(rt; branch, Some(HashNo(0)));
    let placed = NodeView {
        word: Hash64(0),
        radius: Some(64),
        inner: Some(HashNo(1)),
        outer: None,
        below: 16,
        built: 0,
    };
    assert_nodes(rt, tree, &[(0, placed)], &mut steps);
    build(rt, tree, HashNo(0), &mut steps)?;
    let built = NodeView {
        word: Hash64(0),
        radius: Some(2),
        inner: Some(HashNo(2)),
        outer: Some(HashNo(1)),
        below: 16,
        built: 16,
    };
    assert_nodes(rt, tree, &[(0, built)], &mut steps);

    // Of the fifteen words that differ from 0 in four bits at most, ten differ in one or two.
    assert!(rt; tree.len() > 2);
    assert_eq!(rt; tree.node(HashNo(2), &mut steps).below, 9);
    Ok(())
}

#[test]
fn unlucky_words_ask_for_a_branch(rt: HostRuntime) -> Result<(), Fail> {
    let mut tree = Tree::new(rt.alloc());
    unlucky_words_in::<Brand>(&rt, Blank::new(1), &mut tree)?;
    Ok(())
}

// Words in families of eight, whose members differ from the first in one or two bits.
fn family_word(number: u64) -> Hash64 {
    let first = (number / 8 + 1).wrapping_mul(0x9e37_79b9_7f4a_7c15);
    let member = number % 8;
    let near = if member == 0 {
        0
    } else {
        (1u64 << member) | (1u64 << (member * 7))
    };
    Hash64(first ^ near)
}

fn assert_all_as_scan<L: Ledger>(
    rt: &impl Abort,
    tree: &Tree,
    steps: &mut Steps<L>,
) -> Result<(), NoMemory> {
    for number in 0..20 {
        for within in [0, 1, 8, 16, 64] {
            assert_as_scan(rt, tree, family_word(number * 203), within, steps)?;
        }
    }
    Ok(())
}

fn insert_families<L: Ledger>(
    rt: &impl Abort,
    tree: &mut Tree,
    steps: &mut Steps<L>,
) -> Result<(), NoMemory> {
    for number in 0..4000 {
        insert(rt, tree, family_word(number), steps)?;
    }
    Ok(())
}

fn many_words_in<L: Ledger>(
    rt: &(impl Abort + Threads),
    blank: Blank,
    tree: &mut Tree,
) -> Result<(), NoMemory>
    requires name { blank.name ≡ L.name }
    requires parts { blank.parts ≡ L.parts }
    requires some { 0 < L.parts }
{
    let mut steps = Steps::<L>::new(rt, blank);
    insert_families(rt, tree, &mut steps)?;
    assert_all_as_scan(rt, tree, &mut steps)?;
    build(rt, tree, HashNo(1), &mut steps)?;
    assert_all_as_scan(rt, tree, &mut steps)?;
    build(rt, tree, HashNo(0), &mut steps)?;
    assert_all_as_scan(rt, tree, &mut steps)
}

#[test]
fn many_words_as_the_scan(rt: HostRuntime) -> Result<(), Fail> {
    let mut tree = Tree::new(rt.alloc());
    many_words_in::<Brand>(&rt, Blank::new(1), &mut tree)?;
    Ok(())
}
