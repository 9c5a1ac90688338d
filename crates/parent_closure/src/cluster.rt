//! What the tags of a cluster imply, read from the rows of these tags alone.

ghost use Rattle.std.specs.Prelude.{◌≡◌, ℕ, ◌+◌, ◌*◌, ◌<◌, ◌≤◌, ◌==◌, ◌||◌, ◌++◌, IfOk, OnOk, filter, length, map, slice_index_or};
ghost use Rattle.std.specs.List.{flat_map, range_with_len};
ghost use Rattle.std.specs.List.Sorted.{IsNonDecreasingBy};
ghost use Rattle.std.specs.Option.{ForSome, option_map};
ghost use Rattle.sibling_chains.specs.Clustered.{rows_but};
ghost use Rattle.sibling_chains.specs.Clusters.{rows_within};
ghost use Rattle.sibling_chains.specs.Planning.{IsPlanFor as IsSiblingPlanFor};
ghost use Rattle.sibling_chains.specs.Recorded.{no_row};
ghost use Rattle.parent_closure.specs.Ancestors.{is_above};
ghost use Rattle.parent_closure.specs.Implied.{added_by, chained, gone_by, planned, relations_of};
ghost use Rattle.parent_closure.specs.Kept.{rows_of, rows_with};
ghost use Rattle.parent_closure.specs.Planning.{IsPlanFor};
ghost use Rattle.parent_closure.specs.CountLaws.{AreDifferent};
ghost use Rattle.parent_closure.specs.Reached.{has};
ghost use Rattle.parent_closure.specs.Sets.{HaveSame, steps_within};

use crate::ancestors::{TagList, ascending, put_steps};
use crate::parent_plan::{Change, ParentPlan};
use crate::parents::Parents;
use crate::search::{by_child, is_in, put, reached_from};
use media_types::{NoMemory, ServiceNo, Steps};
use sibling_chains::{RelationRow, SiblingPlan, Siblings};
use std::alloc::Global;
use std::sync::ledger::Ledger;

impl Parents {
    /// The standing parent pairs that a service takes of those whose child is one of these tags, between ideal
    /// tags, once plans are carried out. It counts as one read for each tag, and two for each of their rows.
    pub fn pairs_among<L: Ledger>(
        &self,
        plan: Option<&ParentPlan>,
        siblings: &Siblings,
        chains: Option<&SiblingPlan>,
        service: ServiceNo,
        tags: &[u32],
        steps: &mut Steps<L>,
    ) -> Result<Vec<(u32, u32)>, NoMemory>
        requires plan { ForSome plan (λ p. IsPlanFor p.now self.now) }
        requires chains { ForSome chains (λ p. IsSiblingPlanFor p.now siblings.now) }
        requires service { service.0 < length self.now.orders }
        requires siblings { service.0 < length siblings.now.orders }
        requires different { AreDifferent tags.now }
        ensures pairs { IfOk result (λ v. HaveSame v.items (steps_within (has tags.now)
            (relations_of (planned (option_map (λ p. p.now) plan.entry) self.now)
            (chained (option_map (λ p. p.now) chains.entry) siblings.now) service.0))) }
        ensures reads { steps.new ≤ steps.old + (length tags.now + 2 * length (rows_within (has tags.now) self.now.rows)) }
    {
        let rows = self.rows_among(plan, tags, steps)?;
        let order = self.order_after(plan, service);
        let mut pairs = Vec::new(self.alloc);
        for of in order.as_slice() {
            put_steps(&mut pairs, rows.as_slice(), *of, siblings, chains, service)?;
        }
        Ok(pairs)
    }

    // The rows of these children, once a plan is carried out.
    fn rows_among<L: Ledger>(
        &self,
        plan: Option<&ParentPlan>,
        tags: &[u32],
        steps: &mut Steps<L>,
    ) -> Result<Vec<RelationRow>, NoMemory>
        requires { ForSome plan (λ p. IsPlanFor p.now self.now) }
        ensures rows { IfOk result (λ v. HaveSame v.items
            (rows_within (has tags.now) (planned (option_map (λ p. p.now) plan.entry) self.now).rows)) }
        ensures reads { steps.new ≤ steps.old + (length tags.now + 2 * length (flat_map (rows_of self.now.rows) tags.now)) }
    {
        let mut rows = self.rows_but(gone_by(plan), tags, steps)?;
        push_among(&mut rows, added_by(plan), tags)?;
        Ok(rows)
    }

    // The rows of these children, one child after the other, where one is read as removed.
    fn rows_but<L: Ledger>(
        &self,
        gone: Option<u32>,
        tags: &[u32],
        steps: &mut Steps<L>,
    ) -> Result<Vec<RelationRow>, NoMemory>
        ensures rows { IfOk result (λ v. v.items ≡ flat_map (rows_of (rows_but gone self.now.rows)) tags.now) }
        ensures reads { steps.new ≤ steps.old + (length tags.now + 2 * length (flat_map (rows_of self.now.rows) tags.now)) }
    {
        let mut rows = Vec::new(self.alloc);
        for tag in tags {
            self.put_rows(&mut rows, *tag, gone, steps)?;
        }
        Ok(rows)
    }

    // Puts the rows of a child last, where one is read as removed.
    fn put_rows<L: Ledger>(
        &self,
        rows: &mut Vec<RelationRow>,
        child: u32,
        gone: Option<u32>,
        steps: &mut Steps<L>,
    ) -> Result<(), NoMemory>
        ensures rows { OnOk result (rows.new.items ≡ rows.old.items ++ rows_of (rows_but gone self.now.rows) child) }
        ensures reads { steps.new ≤ steps.old + (1 + 2 * length (rows_of self.now.rows child)) }
    {
        let mut from = 0;
        while let Some(number) = self.children.next(child, from, steps) {
            rows.push(self.row_but(number, gone, steps))?;
            from = number + 1;
        }
        Ok(())
    }

    // A row, which is read as removed where it is the one that goes.
    fn row_but<L: Ledger>(&self, at: u32, gone: Option<u32>, steps: &mut Steps<L>) -> RelationRow
        requires { at < length self.now.rows }
        ensures row { result ≡ slice_index_or (rows_but gone self.now.rows) at no_row }
        ensures steps { steps.new ≡ steps.old + 1 }
    {
        let row = self.row(at, steps);
        match gone {
            Some(number) if number == at => RelationRow {
                standing: false,
                ..row
            },
            _ => row,
        }
    }
}

// The number of the row that a plan removes, where there is a plan and it removes one.
fn gone_by(plan: Option<&ParentPlan>) -> Option<u32>
    ensures { result ≡ gone_by (option_map (λ p. p.now) plan.entry) }
{
    match &plan?.change {
        Change::Remove(it) => Some(it.number),
        Change::Add(_) | Change::Order(_) => None,
    }
}

// The row that a plan records, where there is a plan and it records one.
fn added_by(plan: Option<&ParentPlan>) -> Option<RelationRow>
    ensures { result ≡ added_by (option_map (λ p. p.now) plan.entry) }
{
    match &plan?.change {
        Change::Add(row) => Some(*row),
        Change::Remove(_) | Change::Order(_) => None,
    }
}

// Puts a row last, where there is one and its child is one of these tags.
fn push_among(
    rows: &mut Vec<RelationRow>,
    added: Option<RelationRow>,
    tags: &[u32],
) -> Result<(), NoMemory>
    ensures { OnOk result (rows.new.items ≡ rows.old.items ++ rows_within (has tags.now) (rows_with added)) }
{
    if let Some(row) = added {
        if is_in(tags, row.first.0) {
            rows.push(row)?;
        }
    }
    Ok(())
}

/// What a tag implies by these pairs, ascending: its ideal tag, and all below the end to which the pairs lead from it.
pub fn implied_by(
    alloc: Global,
    pairs: &[(u32, u32)],
    ideal: u32,
    end: u32,
) -> Result<TagList, NoMemory>
    ensures { IfOk result (λ list. map (λ t. t.0) list
        ≡ filter (λ b. b == ideal || is_above pairs.now ideal b) (range_with_len 0 end)) }
{
    let sorted = by_child(Vec::from_slice(alloc, pairs)?);
    implied_from(alloc, sorted.as_slice(), ideal, end)
}

/// The same, of pairs that ascend by child.
pub fn implied_from(
    alloc: Global,
    pairs: &[(u32, u32)],
    ideal: u32,
    end: u32,
) -> Result<TagList, NoMemory>
    requires { IsNonDecreasingBy (λ p. p.0) pairs.now }
    ensures { IfOk result (λ list. map (λ t. t.0) list
        ≡ filter (λ b. b == ideal || is_above pairs.now ideal b) (range_with_len 0 end)) }
{
    let mut reached = reached_from(alloc, pairs, ideal)?;
    put(&mut reached, ideal)?;
    ascending(alloc, reached, end)
}
