ghost use Rattle.std.specs.Prelude.{◌≡◌, ◌==◌, ◌&&◌, not, ◌<◌, ◌≤◌, ℕ, [], ◌∷◌, true, if◌then◌else◌, length, map, All, IfOk, OnOk, Some, None, slice_index_or, vec_capacity};
ghost use Rattle.std.specs.List.{list_any};
ghost use Rattle.sibling_chains.specs.Ends.{at, end_beside, ends, ends_after, led_on};
ghost use Rattle.sibling_chains.specs.Known.{AreEndsFor, are_long};
ghost use Rattle.sibling_chains.specs.Recorded.{ideal, pairs_of};

use crate::chain_ends::ChainEnds;
use crate::relation_row::RelationRow;
use media_types::{Listed, NoMemory, ServiceNo};
use std::alloc::Global;
use tag_types::ServiceList;

// The end, or where the chain goes on from there.
fn end_led_on(end: u32, bad: u32, to: u32) -> u32
    ensures { result ≡ led_on bad to end }
{
    if end == bad { to } else { end }
}

// Leads each chain that ends at the bad tag on to another end.
fn lead_on(chain_ends: &mut Vec<u32>, bad: u32, to: u32)
    ensures { chain_ends.new.items ≡ map (led_on bad to) chain_ends.old.items }
{
    for end in chain_ends.iter_mut() {
        *end = end_led_on(*end, bad, to);
    }
}

/// The end of a tag of a cluster, where it is one of its tags. It looks at each tag.
pub fn seek(tags: &[u32], chain_ends: &[u32], tag: u32) -> Option<u32>
    requires { length chain_ends.now ≡ length tags.now }
    ensures { result ≡ (if list_any (λ x. x == tag) tags.now then Some (end_beside tags.now chain_ends.now tag) else None) }
{
    for at in 0..tags.len() {
        if tags[at] == tag {
            return Some(chain_ends[at]);
        }
    }
    None
}

// The end of a tag of a cluster; a tag of none is its own.
fn end_in(tags: &[u32], chain_ends: &[u32], tag: u32) -> u32
    requires { length chain_ends.now ≡ length tags.now }
    ensures { result ≡ end_beside tags.now chain_ends.now tag }
{
    for at in 0..tags.len() {
        if tags[at] == tag {
            return chain_ends[at];
        }
    }
    tag
}

// Whether a pair is taken: by the ends of its bad and of its good tag.
fn is_taken(own: u32, to: u32, bad: u32) -> bool
    ensures { result ≡ (own == bad && not (to == bad)) }
{
    own == bad && to != bad
}

// Meets one more pair of a cluster, and takes it unless it is passed over. It looks at each tag.
fn meet(tags: &[u32], chain_ends: &mut Vec<u32>, bad: u32, good: u32)
    requires len { length chain_ends.old.items ≡ length tags.now }
    requires bad_there { list_any (λ t. t == bad) tags.now ≡ true }
    ensures len { length chain_ends.new.items ≡ length tags.now }
    ensures met { end_beside tags.now chain_ends.new.items
        ≡ ends (bad, good) (end_beside tags.now chain_ends.old.items) }
{
    let to = end_in(tags, chain_ends.as_slice(), good);
    let own = end_in(tags, chain_ends.as_slice(), bad);
    if is_taken(own, to, bad) {
        lead_on(chain_ends, bad, to);
    }
}

// Meets the pair of a row, where it stands and is of the service.
fn meet_row(tags: &[u32], chain_ends: &mut Vec<u32>, row: RelationRow, service: ServiceNo)
    requires len { length chain_ends.old.items ≡ length tags.now }
    requires there { list_any (λ t. t == row.first.0) tags.now ≡ true }
    ensures len { length chain_ends.new.items ≡ length tags.now }
    ensures met { end_beside tags.now chain_ends.new.items
        ≡ ends_after (pairs_of (row ∷ []) service) (end_beside tags.now chain_ends.old.items) }
{
    if row.standing && row.service.0 == service.0 {
        meet(tags, chain_ends, row.first.0, row.second.0);
    }
}

// Meets the standing pairs of a service among the rows of a cluster.
fn meet_all(tags: &[u32], chain_ends: &mut Vec<u32>, rows: &[RelationRow], service: ServiceNo)
    requires len { length chain_ends.old.items ≡ length tags.now }
    requires there { All (λ row. list_any (λ t. t == row.first.0) tags.now ≡ true) rows.now }
    ensures len { length chain_ends.new.items ≡ length tags.now }
    ensures met { end_beside tags.now chain_ends.new.items
        ≡ ends_after (pairs_of rows.now service) (end_beside tags.now chain_ends.old.items) }
{
    for row in rows {
        meet_row(tags, chain_ends, *row, service);
    }
}

/// The ends of the chains of a cluster's tags, from its rows in order of recording, for a service that takes
/// pairs from these services. For each pair it looks at each tag.
pub fn fold_cluster(
    alloc: Global,
    tags: &[u32],
    rows: &[RelationRow],
    order: &ServiceList,
) -> Result<Vec<u32>, NoMemory>
    requires { All (λ row. list_any (λ t. t == row.first.0) tags.now ≡ true) rows.now }
    ensures len { IfOk result (λ v. length v.items ≡ length tags.now) }
    ensures ends { IfOk result (λ v. (t : ℕ) → end_beside tags.now v.items t ≡ ideal order.now rows.now t) }
{
    let mut chain_ends = Vec::from_slice(alloc, tags)?;
    for service in order.as_slice() {
        meet_all(tags, &mut chain_ends, rows, *service);
    }
    Ok(chain_ends)
}

/// The same for each service.
pub fn fold_all(
    alloc: Global,
    tags: &[u32],
    rows: &[RelationRow],
    orders: &[ServiceList],
) -> Result<Vec<Listed<u32>>, NoMemory>
    requires { All (λ row. list_any (λ t. t == row.first.0) tags.now ≡ true) rows.now }
    ensures { IfOk result (λ v. AreEndsFor tags.now rows.now orders.now v.items (length orders.now)) }
{
    let mut ends = Vec::new(alloc);
    for order in orders {
        let list = fold_cluster(alloc, tags, rows, order)?;
        ends.push(Listed::from_rows(list))?;
    }
    Ok(ends)
}

/// Makes each list of ends so long at least. It changes no end.
pub fn grow_all(ends: &mut Vec<ChainEnds>, tags: u32) -> Result<(), NoMemory>
    ensures len { length ends.new.items ≡ length ends.old.items }
    ensures capacity { vec_capacity ends.new ≡ vec_capacity ends.old }
    ensures same { (s t : ℕ) → at (slice_index_or ends.new.items s []) t ≡ at (slice_index_or ends.old.items s []) t }
    ensures ok { OnOk result (are_long tags ends.new.items ≡ true) }
{
    for service in 0..ends.len() {
        ends[service].grow(tags)?;
    }
    Ok(())
}

/// Puts the ends of some tags in place, for each service.
pub fn put_all_ends(ends: &mut Vec<ChainEnds>, tags: &[u32], lists: &[Listed<u32>])
    requires count { length lists.now ≡ length ends.old.items }
    requires known { (s : ℕ) → s < length ends.old.items
        → All (λ t. t < length (slice_index_or ends.old.items s [])) tags.now }
    requires long { (s : ℕ) → s < length ends.old.items
        → length (slice_index_or lists.now s []) ≡ length tags.now }
    ensures len { length ends.new.items ≡ length ends.old.items }
    ensures capacity { vec_capacity ends.new ≡ vec_capacity ends.old }
    ensures put { (s t : ℕ) → s < length ends.old.items → at (slice_index_or ends.new.items s []) t
        ≡ (if list_any (λ x. x == t) tags.now then end_beside tags.now (slice_index_or lists.now s []) t
        else at (slice_index_or ends.old.items s []) t) }
{
    for service in 0..ends.len() {
        ends[service].put(tags, lists[service].as_slice());
    }
}
