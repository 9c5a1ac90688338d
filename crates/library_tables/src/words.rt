//! The words of a file that is imported, in the tree.

ghost use Rattle.std.specs.Prelude.{◌≡◌, ◌≤◌, ◌+◌, ◌++◌, [], ◌∷◌, length, IfOk, OnOk};
ghost use Rattle.media_types.specs.declared.limits.TheConstants.{MAX_HASHES, MAX_WORDS};
ghost use Rattle.file_records.specs.Words.{AreDistinctWords};
ghost use Rattle.vp_tree.specs.Marking.{ArePlaced, IsGrown};
ghost use Rattle.vp_tree.specs.Nodes.{words_in};
ghost use Rattle.vp_tree.specs.Placing.{CanTake};
ghost use Rattle.tree_upkeep.specs.Marks.{AreNodes};
ghost use Rattle.library_tables.specs.Imports.{words_planned};
ghost use Rattle.library_tables.specs.Tables.{with_marks};

use media_base::{Hash64, NoMemory, Steps};
use std::alloc::Global;
use std::sync::ledger::Ledger;
use tree_upkeep::Upkeep;
use vp_tree::{InsertPlan, Tree};

/// Plans to place these words, one behind the other. The tree stays as it is.
pub fn plan_words(
    tree: &mut Tree,
    alloc: Global,
    words: &[Hash64],
) -> Result<Vec<InsertPlan>, NoMemory>
    requires distinct { AreDistinctWords (words_in tree.old.rows ++ words.now) }
    requires few { length words.now ≤ MAX_HASHES }
    requires few_words { length tree.old.rows + length words.now ≤ MAX_WORDS }
    ensures rows { tree.new.rows ≡ tree.old.rows }
    ensures plans { IfOk result (λ plans. words_planned plans.items ≡ words.now) }
    ensures room { OnOk result (length words.now ≤ tree.new.spare) }
{
    let mut plans = Vec::with_capacity(alloc, words.len())?;
    for word in words {
        plans.push(tree.plan_insert(*word)?)?;
    }
    Ok(plans)
}

/// Places the word of a plan, and marks the branch that is to be built anew, if there is one.
fn place_word<L: Ledger>(
    tree: &mut Tree,
    upkeep: &mut Upkeep,
    plan: InsertPlan,
    steps: &mut Steps<L>,
)
    requires ready { CanTake tree.old plan.word }
    requires marked { AreNodes tree.old.rows upkeep.old.marks }
    requires room { 1 ≤ upkeep.old.mark_spare }
    ensures grown { IsGrown (with_marks tree.old upkeep.old) (with_marks tree.new upkeep.new) plan.word }
    ensures words { words_in tree.new.rows ≡ words_in tree.old.rows ++ plan.word ∷ [] }
    ensures marked { AreNodes tree.new.rows upkeep.new.marks }
    ensures spare { tree.old.spare ≤ tree.new.spare + 1 }
    ensures mark_spare { upkeep.old.mark_spare ≤ upkeep.new.mark_spare + 1 }
    ensures queue { upkeep.new.queue ≡ upkeep.old.queue }
    ensures queue_spare { upkeep.new.spare ≡ upkeep.old.spare }
{
    let (_number, branch) = tree.commit_insert(plan, steps);
    if let Some(branch) = branch {
        upkeep.mark(branch);
    }
}

/// Places the words of these plans, one behind the other, and marks what is to be built anew.
pub fn place_words<L: Ledger>(
    tree: &mut Tree,
    upkeep: &mut Upkeep,
    plans: Vec<InsertPlan>,
    steps: &mut Steps<L>,
)
    requires distinct { AreDistinctWords (words_in tree.old.rows ++ words_planned plans.items) }
    requires few_words { length tree.old.rows + length plans.items ≤ MAX_WORDS }
    requires room { length plans.items ≤ tree.old.spare }
    requires marked { AreNodes tree.old.rows upkeep.old.marks }
    requires mark_room { length plans.items ≤ upkeep.old.mark_spare }
    ensures placed { ArePlaced (with_marks tree.old upkeep.old) (words_planned plans.items)
        (with_marks tree.new upkeep.new) }
    ensures words { words_in tree.new.rows ≡ words_in tree.old.rows ++ words_planned plans.items }
    ensures marked { AreNodes tree.new.rows upkeep.new.marks }
    ensures queue { upkeep.new.queue ≡ upkeep.old.queue }
    ensures queue_spare { upkeep.new.spare ≡ upkeep.old.spare }
    ensures steps { words_planned plans.items ≡ [] → steps.new ≡ steps.old }
{
    for plan in plans {
        place_word(tree, upkeep, plan, steps);
    }
}
