ghost use Rattle.std.specs.Prelude.{◌≡◌, ◌<◌, ◌≤◌, ◌↔◌, List, IfOk, IsTrue, All};
ghost use Rattle.media_types.specs.declared.decision.Decision.{Decision};
ghost use Rattle.media_types.specs.declared.limits.TheConstants.{MAX_DISTANCE};
ghost use Rattle.potential_pairs.specs.Potential.{AreBelow, AreOf};
ghost use Rattle.relation_groups.specs.Laws.{AreOfTwo};
ghost use Rattle.relation_groups.specs.Reading.{relations_in, size_of};
ghost use Rattle.relation_groups.specs.Relations.{at_first, relations};

use super::*;
use media_types::{Code, FileNo, MAX_DISTANCE, MAX_FILES, NearList, NoMemory, PairList, Steps};
use relation_groups::Groups;
use std::alloc::Global;
use std::marker::Brand;
use std::process::Abort;
use std::sync::ledger::{Blank, Ledger};
use std::test::Fail;
use std::thread::Threads;

const SAME: Code = Code::Same;

const BETTER: Code = Code::Better;

const ALTERNATES: Code = Code::Alternates;

const NOT_RELATED: Code = Code::NotRelated;

fn groups_of(rt: &impl Abort, alloc: Global, files: u32) -> Result<Groups, NoMemory>
    ensures { IfOk result (λ groups. relations_in groups ≡ at_first) }
{
    let mut groups = Groups::new(alloc);
    for _ in 0..files {
        groups.reserve_file()?;
        assert!(rt; groups.len() < MAX_FILES);
        groups.add_file();
    }
    Ok(groups)
}

fn decide<L: Ledger>(
    rt: &impl Abort,
    groups: &mut Groups,
    steps: &mut Steps<L>,
    row: (Code, u32, u32),
) -> Result<(), NoMemory> {
    assert!(rt; row.1 < groups.len() && row.2 < groups.len() && row.1 != row.2);
    let plan = groups.plan_decide(row.0, FileNo(row.1), FileNo(row.2), steps)?;
    groups.commit(plan);
    Ok(())
}

fn list_of(alloc: Global, rows: &[(u32, u32, u8)]) -> Result<NearList, NoMemory> {
    let mut list = NearList::new(alloc);
    for (f, g, distance) in rows {
        list.push((FileNo(*f), FileNo(*g), *distance))?;
    }
    Ok(list)
}

// Whether each is of two of so many files, the lower first, at a distance within which files are searched.
fn are_pairs(found: &[(FileNo, FileNo, u8)], files: u32) -> bool
    ensures { IsTrue result
        ↔ All (λ a. (a.0.0 < a.1.0) × (a.1.0 < files) × (a.2 ≤ MAX_DISTANCE)) found.now }
{
    found
        .iter()
        .all(|a| a.0.0 < a.1.0 && a.1.0 < files && a.2 <= MAX_DISTANCE)
}

// Whether none of the pairs is the same at another distance.
fn agrees(pair: (FileNo, FileNo, u8), found: &[(FileNo, FileNo, u8)]) -> bool
    ensures { IsTrue result
        → All (λ b. pair.0 ≡ b.0 → pair.1 ≡ b.1 → pair.2 ≡ b.2) found.now }
{
    found.iter().all(|b| pair.0.0 != b.0.0 || pair.1.0 != b.1.0 || pair.2 == b.2)
}

// Whether none is there at two distances.
fn agree(found: &[(FileNo, FileNo, u8)]) -> bool
    ensures { IsTrue result
        → All (λ a. All (λ b. a.0 ≡ b.0 → a.1 ≡ b.1 → a.2 ≡ b.2) found.now) found.now }
{
    for pair in found {
        if !agrees(*pair, found) {
            return false;
        }
    }
    true
}

// What it makes of the groups that these pairs are found, so many times.
fn pairs_of<L: Ledger>(
    rt: &impl Abort,
    alloc: Global,
    groups: &Groups,
    found: &NearList,
    times: u32,
    steps: &mut Steps<L>,
) -> Result<Pairs, NoMemory>
    ensures of { IfOk result (λ pairs. AreOf (relations_in groups.now) pairs.rows) }
    ensures below { IfOk result (λ pairs. AreBelow (size_of groups.now) pairs.rows.near) }
{
    let mut pairs = Pairs::new(alloc);
    assert!(rt; are_pairs(found.as_slice(), groups.len()));
    assert!(rt; agree(found.as_slice()));
    for _turn in 0..times {
        let plan = pairs.plan_found(found, groups, steps)?;
        pairs.commit(plan);
    }
    Ok(pairs)
}

fn assert_list(rt: &impl Abort, list: &PairList, want: &[(u32, u32, u8)]) {
    assert_eq!(rt; list.len(), want.len());
    for (at, (j, k, distance)) in want.iter().enumerate() {
        assert!(rt; at < list.len());
        assert_eq!(rt; *list.get(at), (FileNo(*j), FileNo(*k), *distance));
    }
}

// A page after a place, of so many pairs at most, within a distance.
type PageRow<'a> = (Option<(u32, u32)>, u32, u8, &'a [(u32, u32, u8)]);

fn assert_pages<L: Ledger>(
    rt: &impl Abort,
    pairs: &Pairs,
    steps: &mut Steps<L>,
    rows: &[PageRow],
) -> Result<(), NoMemory> {
    for (after, n, at_most, want) in rows {
        let after = after.map(|(j, k)| (FileNo(j), FileNo(k)));
        let page = pairs.page(after, *n, *at_most, steps)?;
        assert_list(rt, &page, want);
    }
    Ok(())
}

// Three files whose hashes differ from one another in 8, 9 and 1 bits, each alone in its group.
fn three_files<L: Ledger>(
    rt: &(impl Abort + Threads),
    alloc: Global,
    blank: Blank,
) -> Result<(), NoMemory>
    requires name { blank.name ≡ L.name }
    requires parts { blank.parts ≡ L.parts }
    requires some { 0 < L.parts }
{
    let mut steps = Steps::<L>::new(rt, blank);
    let groups = groups_of(rt, alloc, 3)?;
    let found = list_of(alloc, &[(0, 1, 8), (0, 2, 9), (1, 2, 1)])?;
    let pairs = pairs_of(rt, alloc, &groups, &found, 2, &mut steps)?;
    assert_eq!(rt; pairs.near_len(), 3);
    for (at_most, count) in [(0, 0), (1, 1), (7, 1), (8, 2), (9, 3), (16, 3), (255, 3)] {
        assert_eq!(rt; pairs.count(at_most), count, "within {at_most}");
    }
    assert_eq!(rt; pairs.is_pair(FileNo(0), FileNo(2), &mut steps), Some(9));
    assert_eq!(rt; pairs.is_pair(FileNo(2), FileNo(0), &mut steps), None);
    let all: &[(u32, u32, u8)] = &[(0, 1, 8), (0, 2, 9), (1, 2, 1)];
    assert_pages(
        rt,
        &pairs,
        &mut steps,
        &[
            (None, 9, 16, all),
            (None, 3, 255, all),
            (None, 9, 8, &[(0, 1, 8), (1, 2, 1)]),
            (None, 9, 0, &[]),
            (None, 0, 16, &[]),
            (None, 1, 16, &[(0, 1, 8)]),
            (None, 2, 16, &[(0, 1, 8), (0, 2, 9)]),
            (Some((0, 1)), 1, 16, &[(0, 2, 9)]),
            (Some((0, 1)), 1, 8, &[(1, 2, 1)]),
            (Some((0, 0)), 1, 16, &[(0, 1, 8)]),
            (Some((0, u32::MAX)), 9, 16, &[(1, 2, 1)]),
            (Some((1, 2)), 9, 16, &[]),
            (Some((u32::MAX, u32::MAX)), 9, 16, &[]),
        ],
    )
}

#[test]
fn pairs_of_three_files(rt: HostRuntime) -> Result<(), Fail> {
    three_files::<Brand>(&rt, rt.alloc(), Blank::new(1))?;
    Ok(())
}

#[derive(Drop)]
struct Case<'a> {
    files: u32,
    decisions: &'a [(Code, u32, u32)],
    found: &'a [(u32, u32, u8)],
    pairs: &'a [(u32, u32, u8)],
}

fn assert_case<L: Ledger>(
    rt: &(impl Abort + Threads),
    alloc: Global,
    blank: Blank,
    case: &Case,
) -> Result<(), NoMemory>
    requires name { blank.name ≡ L.name }
    requires parts { blank.parts ≡ L.parts }
    requires some { 0 < L.parts }
{
    let mut steps = Steps::<L>::new(rt, blank);
    let mut groups = groups_of(rt, alloc, case.files)?;
    for decision in case.decisions {
        decide(rt, &mut groups, &mut steps, *decision)?;
    }
    let found = list_of(alloc, case.found)?;
    let pairs = pairs_of(rt, alloc, &groups, &found, 1, &mut steps)?;
    let page = pairs.page(None, 9, MAX_DISTANCE, &mut steps)?;
    assert_list(rt, &page, case.pairs);
    Ok(())
}

#[test]
fn two_files_of_a_group_are_no_pair(rt: HostRuntime) -> Result<(), Fail> {
    assert_case::<Brand>(
        &rt,
        rt.alloc(),
        Blank::new(1),
        &Case {
            files: 2,
            decisions: &[(BETTER, 0, 1)],
            found: &[(0, 1, 3)],
            pairs: &[],
        },
    )?;
    Ok(())
}

// Files 0 and 3 are of the group of king 3, files 1 and 2 of the group of king 1.
#[test]
fn a_pair_is_of_the_kings_and_the_least_distance(rt: HostRuntime) -> Result<(), Fail> {
    assert_case::<Brand>(
        &rt,
        rt.alloc(),
        Blank::new(1),
        &Case {
            files: 4,
            decisions: &[(BETTER, 3, 0), (SAME, 1, 2)],
            found: &[(0, 1, 5), (0, 2, 4), (2, 3, 6), (1, 2, 0)],
            pairs: &[(1, 3, 4)],
        },
    )?;
    Ok(())
}

#[test]
fn alternates_and_unrelated_files_are_no_pair(rt: HostRuntime) -> Result<(), Fail> {
    assert_case::<Brand>(
        &rt,
        rt.alloc(),
        Blank::new(1),
        &Case {
            files: 4,
            decisions: &[(ALTERNATES, 0, 1), (NOT_RELATED, 1, 2)],
            found: &[(0, 1, 1), (1, 2, 2), (0, 2, 3), (2, 3, 16)],
            pairs: &[(2, 3, 16)],
        },
    )?;
    Ok(())
}

// Makes a decision in the groups and in the pairs.
fn decide_in_both<L: Ledger>(
    rt: &impl Abort,
    groups: &mut Groups,
    pairs: &mut Pairs,
    steps: &mut Steps<L>,
    row: (Code, u32, u32),
) -> Result<(), NoMemory>
    requires made { (ds : List Decision) × AreOfTwo ds × (relations_in groups.old ≡ relations ds) }
    requires of { AreOf (relations_in groups.old) pairs.old.rows }
    requires below { AreBelow (size_of groups.old) pairs.old.rows.near }
    ensures made { (ds : List Decision) × AreOfTwo ds × (relations_in groups.new ≡ relations ds) }
    ensures of { AreOf (relations_in groups.new) pairs.new.rows }
    ensures below { AreBelow (size_of groups.new) pairs.new.rows.near }
{
    assert!(rt; row.1 < groups.len() && row.2 < groups.len() && row.1 != row.2);
    let moved = groups.plan_decide(row.0, FileNo(row.1), FileNo(row.2), steps)?;
    let plan = pairs.plan_moved(&moved, groups, steps)?;
    pairs.commit(plan);
    groups.commit(moved);
    Ok(())
}

// Sets whether a file is live.
fn set_live<L: Ledger>(
    rt: &impl Abort,
    groups: &Groups,
    pairs: &mut Pairs,
    steps: &mut Steps<L>,
    row: (u32, bool),
) -> Result<(), NoMemory>
    requires of { AreOf (relations_in groups.now) pairs.old.rows }
    requires below { AreBelow (size_of groups.now) pairs.old.rows.near }
    ensures of { AreOf (relations_in groups.now) pairs.new.rows }
    ensures below { AreBelow (size_of groups.now) pairs.new.rows.near }
{
    assert!(rt; row.0 < groups.len());
    let plan = pairs.plan_live(FileNo(row.0), row.1, groups, steps)?;
    pairs.commit(plan);
    Ok(())
}

// Whether two files are of the groups of two kings.
fn are_across(groups: &Groups, files: (u32, u32), kings: (u32, u32)) -> bool {
    files.0 < groups.len()
        && files.1 < groups.len()
        && [kings, (kings.1, kings.0)].contains(&(
            groups.king_of(FileNo(files.0)).0,
            groups.king_of(FileNo(files.1)).0,
        ))
}

// The least distance of the live near pairs of two groups.
fn plain_least(
    groups: &Groups,
    near: &[(u32, u32, u8)],
    gone: &[u32],
    kings: (u32, u32),
) -> Option<u8> {
    let mut least = None;
    for (f, g, distance) in near {
        if !gone.contains(f) && !gone.contains(g) && are_across(groups, (*f, *g), kings) {
            least = match least {
                Some(old) if old <= *distance => least,
                _ => Some(*distance),
            };
        }
    }
    least
}

// The distance of the potential pair of two files, by all near pairs.
fn plain_distance(
    rt: &impl Abort,
    groups: &Groups,
    near: &[(u32, u32, u8)],
    gone: &[u32],
    kings: (u32, u32),
) -> Option<u8> {
    assert!(rt; kings.0 < groups.len() && kings.1 < groups.len());
    let (j, k) = (FileNo(kings.0), FileNo(kings.1));
    if j.0 >= k.0 || groups.class_of(j) == groups.class_of(k) || groups.is_not_related(j, k) {
        return None;
    }
    plain_least(groups, near, gone, kings)
}

// That the pairs are those that all near pairs make of the groups, for four files.
fn assert_plain<L: Ledger>(
    rt: &impl Abort,
    groups: &Groups,
    pairs: &Pairs,
    near: &[(u32, u32, u8)],
    gone: &[u32],
    steps: &mut Steps<L>,
) {
    for (j, k) in [
        (0, 1),
        (0, 2),
        (0, 3),
        (1, 2),
        (1, 3),
        (2, 3),
        (1, 0),
        (2, 2),
    ] {
        let want = plain_distance(rt, groups, near, gone, (j, k));
        assert_eq!(rt;
            pairs.is_pair(FileNo(j), FileNo(k), steps),
            want,
            "{j} and {k}"
        );
    }
    assert_eq!(rt; pairs.near_len(), near.len() as u64);
}

// All near pairs of four files.
const NEAR: [(u32, u32, u8); 6] = [
    (0, 1, 5),
    (0, 2, 4),
    (0, 3, 3),
    (1, 2, 6),
    (1, 3, 1),
    (2, 3, 2),
];

// Makes a decision, and then deletes the last file and takes it back.
fn follow<L: Ledger>(
    rt: &impl Abort,
    groups: &mut Groups,
    pairs: &mut Pairs,
    steps: &mut Steps<L>,
    row: (Code, u32, u32),
) -> Result<(), NoMemory>
    requires made { (ds : List Decision) × AreOfTwo ds × (relations_in groups.old ≡ relations ds) }
    requires of { AreOf (relations_in groups.old) pairs.old.rows }
    requires below { AreBelow (size_of groups.old) pairs.old.rows.near }
    ensures made { (ds : List Decision) × AreOfTwo ds × (relations_in groups.new ≡ relations ds) }
    ensures of { AreOf (relations_in groups.new) pairs.new.rows }
    ensures below { AreBelow (size_of groups.new) pairs.new.rows.near }
{
    decide_in_both(rt, groups, pairs, steps, row)?;
    assert_plain(rt, groups, pairs, &NEAR, &[], steps);
    set_live(rt, groups, pairs, steps, (3, false))?;
    assert_plain(rt, groups, pairs, &NEAR, &[3], steps);
    set_live(rt, groups, pairs, steps, (3, true))?;
    assert_plain(rt, groups, pairs, &NEAR, &[], steps);
    Ok(())
}

fn follow_all<L: Ledger>(
    rt: &impl Abort,
    groups: &mut Groups,
    pairs: &mut Pairs,
    steps: &mut Steps<L>,
    decisions: &[(Code, u32, u32)],
) -> Result<(), NoMemory>
    requires made { (ds : List Decision) × AreOfTwo ds × (relations_in groups.old ≡ relations ds) }
    requires of { AreOf (relations_in groups.old) pairs.old.rows }
    requires below { AreBelow (size_of groups.old) pairs.old.rows.near }
{
    for decision in decisions {
        follow(rt, groups, pairs, steps, *decision)?;
    }
    Ok(())
}

fn four_files<L: Ledger>(
    rt: &(impl Abort + Threads),
    alloc: Global,
    blank: Blank,
    decisions: &[(Code, u32, u32)],
) -> Result<(), NoMemory>
    requires name { blank.name ≡ L.name }
    requires parts { blank.parts ≡ L.parts }
    requires some { 0 < L.parts }
{
    let mut steps = Steps::<L>::new(rt, blank);
    let mut groups = groups_of(rt, alloc, 4)?;
    let found = list_of(alloc, &NEAR)?;
    let mut pairs = pairs_of(rt, alloc, &groups, &found, 1, &mut steps)?;
    follow_all(rt, &mut groups, &mut pairs, &mut steps, decisions)
}

// Files 2 and 3 become duplicates, and then 3 and 1; 3 becomes king and leaves again; 0 and 1 become
// alternates; 2 isn't related to either.
#[test]
fn pairs_follow_the_groups(rt: HostRuntime) -> Result<(), Fail> {
    four_files::<Brand>(
        &rt,
        rt.alloc(),
        Blank::new(1),
        &[
            (SAME, 2, 3),
            (BETTER, 3, 1),
            (BETTER, 3, 2),
            (ALTERNATES, 2, 3),
            (ALTERNATES, 0, 1),
            (NOT_RELATED, 2, 0),
        ],
    )?;
    Ok(())
}
