ghost use Rattle.std.specs.Prelude.{◌≡◌, ◌≢◌, ◌+◌, ◌<◌, ◌≤◌, ℕ, [], true, false, length, vec_len, All, IfOk, OnOk};
ghost use Rattle.media_types.specs.declared.limits.TheConstants.{MAX_DECISIONS, MAX_FILES};
ghost use Rattle.relation_groups.specs.Clusters.{IsSplitBy, IsWithin, is_one_of, patched};
ghost use Rattle.relation_groups.specs.Laws.{AreOfTwo};
ghost use Rattle.relation_groups.specs.Moves.{Marks, is_moved, move_to, moves};
ghost use Rattle.media_types.specs.Numbered.{is_past};
ghost use Rattle.relation_groups.specs.Reading.{size_of, relations_in, next_of, is_king_beside, names_unrelated, IsPlanFor, relations_after};
ghost use Rattle.relation_groups.specs.Relations.{Relations, at_first, by_code, class_of, of_one_group, relations, standing_of};

use crate::draft::Draft;
use crate::group_plan::GroupPlan;
use crate::moves::{Move, MoveList};
use crate::numbers::{has_pair, mark_lacking};
use media_types::{Code, Decision, DecisionList, FileList, FileNo, FileRelations, NoMemory, Steps};
use std::alloc::Global;
use std::marker::Model;
use std::sync::ledger::Ledger;

/// The groups of duplicates, their kings, the classes of alternates and the not-related pairs of classes,
/// kept for all files. A class is named by its least file.
#[derive(Drop)]
pub struct Groups {
    alloc: Global,
    /// The king of each file's group.
    kings: Vec<u32>,
    /// The least file of each file's class.
    classes: Vec<u32>,
    /// The not-related pairs, by the least files of the two classes in either order.
    pairs: Vec<(u32, u32)>,
}

impl Model for Groups {
    ghost use Rattle.std.specs.Prelude.{◌-◌, min, vec_len, vec_capacity};
    ghost use Rattle.relation_groups.specs.Reading.{Kept, AreInOrder};

    ghost Value = { Kept };

    ghost view = { λ groups. record {
      kings = groups.kings.items;
      classes = groups.classes.items;
      pairs = groups.pairs.items;
      spare = min (vec_capacity groups.kings - vec_len groups.kings) (vec_capacity groups.classes - vec_len groups.classes);
    } };

    ghost invariant = { λ groups. AreInOrder groups.kings.items groups.classes.items groups.pairs.items };
}

impl Groups {
    ghost use Rattle.relation_groups.specs.Kept.{Holds};

    /// No files. It takes no memory yet.
    pub fn new(alloc: Global) -> Groups
        ensures size { size_of result ≡ 0 }
        ensures relations { relations_in result ≡ at_first }
        ensures pairs { result.pairs ≡ [] }
    {
        Groups {
            alloc,
            kings: Vec::new(alloc),
            classes: Vec::new(alloc),
            pairs: Vec::new(alloc),
        }
    }

    /// Makes room for one more file.
    pub fn reserve_file(&mut self) -> Result<(), NoMemory>
        ensures size { size_of self.new ≡ size_of self.old }
        ensures relations { relations_in self.new ≡ relations_in self.old }
        ensures pairs { self.new.pairs ≡ self.old.pairs }
        ensures ok { OnOk result (1 ≤ self.new.spare) }
        ensures spare { self.old.spare ≤ self.new.spare }
    {
        self.kings.reserve(1)?;
        self.classes.reserve(1)?;
        Ok(())
    }

    /// Adds a file, which stands alone, in the room that was made.
    pub fn add_file(&mut self)
        requires spare { 1 ≤ self.old.spare }
        requires few { size_of self.old < MAX_FILES }
        ensures size { size_of self.new ≡ size_of self.old + 1 }
        ensures relations { relations_in self.new ≡ relations_in self.old }
        ensures pairs { self.new.pairs ≡ self.old.pairs }
        ensures spare { self.old.spare ≤ self.new.spare + 1 }
    {
        let file = self.kings.len() as u32;
        self.kings.push_reserved(file);
        self.classes.push_reserved(file);
    }

    /// The number of files.
    pub fn len(&self) -> u32
        ensures size { result ≡ size_of self.now }
        ensures few { result ≤ MAX_FILES }
    {
        self.kings.len() as u32
    }

    /// The king of a file's group.
    pub fn king_of(&self, file: FileNo) -> FileNo
        requires { file.0 < size_of self.now }
        ensures king { result.0 ≡ (relations_in self.now).king file.0 }
        ensures known { result.0 < size_of self.now }
    {
        FileNo(self.kings[file.0 as usize])
    }

    /// The least file of a file's class, which names the class.
    pub fn class_of(&self, file: FileNo) -> FileNo
        requires { file.0 < size_of self.now }
        ensures class { result.0 ≡ class_of (relations_in self.now) file.0 }
        ensures known { result.0 < size_of self.now }
    {
        FileNo(self.classes[file.0 as usize])
    }

    /// Whether the classes that these files are of are a not-related pair. It may look at every pair.
    pub fn is_not_related(&self, c: FileNo, d: FileNo) -> bool
        requires c_known { c.0 < size_of self.now }
        requires d_known { d.0 < size_of self.now }
        ensures { result ≡ (relations_in self.now).unrelated c.0 d.0 }
    {
        let of_c = self.classes[c.0 as usize];
        let of_d = self.classes[d.0 as usize];
        has_pair(self.pairs.as_slice(), of_c, of_d)
    }

    /// How a file stands among all files. It copies all lists, and may look at every pair for each file.
    #[tactic(auto, unfolding(crate::specs::Reading::size_of))]
    pub fn standing(&self, file: FileNo) -> Result<FileRelations, NoMemory>
        requires { file.0 < size_of self.now }
        ensures { IfOk result (λ found. found
            ≡ standing_of (size_of self.now) (relations_in self.now) file) }
    {
        self.draft()?.standing(self.alloc, file)
    }

    /// Plans what a decision of two files changes. It copies all lists, and changes nothing.
    pub fn plan_decide<L: Ledger>(
        &mut self,
        code: Code,
        a: FileNo,
        b: FileNo,
        steps: &mut Steps<L>,
    ) -> Result<GroupPlan, NoMemory>
        requires a_known { a.0 < size_of self.old }
        requires b_known { b.0 < size_of self.old }
        requires two { a.0 ≢ b.0 }
        ensures fits { IfOk result (λ plan. IsPlanFor plan self.new) }
        ensures after { IfOk result (λ plan. relations_after plan self.new
            ≡ by_code code a.0 b.0 (relations_in self.old)) }
        ensures moves { let R = relations_in self.old in IfOk result (λ plan. plan.moves
            ≡ moves (size_of self.old) R (by_code code a.0 b.0 R)) }
        ensures pairs { IfOk result (λ plan. length plan.after.pairs ≤ length self.old.pairs + 1) }
        ensures once { (relations_in self.old).unrelated a.0 b.0 ≡ true
            → IfOk result (λ plan. length plan.after.pairs ≤ length self.old.pairs) }
        ensures same { self.new ≡ self.old }
        ensures steps { steps.old ≤ steps.new }
    {
        let mut draft = self.draft()?;
        draft.decide(Decision { code, a, b })?;
        GroupPlan::of_draft(self.alloc, self, draft)
    }

    /// Plans to make the decisions of some files anew, from each of the files alone. It copies all lists,
    /// and changes nothing.
    pub fn plan_refold<L: Ledger>(
        &mut self,
        files: &FileList,
        decisions: &DecisionList,
        steps: &mut Steps<L>,
    ) -> Result<GroupPlan, NoMemory>
        requires known { All (λ f. f.0 < size_of self.old) files.now }
        requires few_files { length files.now ≤ MAX_FILES }
        requires few_decisions { length decisions.now ≤ MAX_DECISIONS }
        requires within { IsWithin (is_one_of files.now) decisions.now }
        requires two { AreOfTwo decisions.now }
        requires closed { IsSplitBy (is_one_of files.now) (relations_in self.old) }
        ensures fits { IfOk result (λ plan. IsPlanFor plan self.new) }
        ensures after { let these = is_one_of files.now in IfOk result (λ plan.
            relations_after plan self.new
            ≡ patched these (relations decisions.now) (relations_in self.old)) }
        ensures moves { let R = relations_in self.old in let these = is_one_of files.now in
            IfOk result (λ plan. plan.moves
            ≡ moves (size_of self.old) R (patched these (relations decisions.now) R)) }
        ensures pairs { IfOk result (λ plan. length plan.after.pairs
            ≤ length self.old.pairs + length decisions.now) }
        ensures same { self.new ≡ self.old }
        ensures steps { steps.old ≤ steps.new }
    {
        let mut draft = self.draft()?;
        draft.leave_all(files.as_slice());
        draft.decide_all(decisions.as_slice())?;
        GroupPlan::of_draft(self.alloc, self, draft)
    }

    /// Carries a plan out, which was made of these groups as they are. It takes no memory, and there may
    /// be no room for more files after it.
    pub fn commit(&mut self, plan: GroupPlan)
        requires { IsPlanFor plan self.old }
        ensures size { size_of self.new ≡ size_of self.old }
        ensures relations { relations_in self.new ≡ relations_after plan self.old }
        ensures pairs { self.new.pairs ≡ plan.after.pairs }
    {
        *self = plan.into_groups();
    }

    // The draft that begins here.
    fn draft(&self) -> Result<Draft, NoMemory>
        ensures held { IfOk result (λ G. Holds G (relations_in self.now)) }
        ensures files { IfOk result (λ G. G.files ≡ size_of self.now) }
        ensures label { IfOk result (λ G. G.next_label ≡ size_of self.now) }
        ensures pairs { IfOk result (λ G. G.pairs.items ≡ self.now.pairs) }
        ensures few { size_of self.now ≤ MAX_FILES }
    {
        Draft::copied(
            self.alloc,
            self.kings.as_slice(),
            self.classes.as_slice(),
            self.pairs.as_slice(),
        )
    }

    /// The groups of a draft, with each class named by its least file.
    pub(crate) fn of_draft(alloc: Global, draft: Draft) -> Result<Groups, NoMemory>
        requires few { draft.files ≤ MAX_FILES }
        requires held { (R : Relations) × Holds draft R }
        ensures size { IfOk result (λ G. size_of G ≡ draft.files) }
        ensures relations { (R : Relations) → Holds draft R
            → IfOk result (λ G. relations_in G ≡ R) }
        ensures pairs { IfOk result (λ G. length G.pairs ≤ length draft.pairs.items) }
    {
        let mut draft = draft;
        draft.name_classes(alloc)?;
        Ok(Groups {
            alloc,
            kings: draft.kings,
            classes: draft.labels,
            pairs: draft.pairs,
        })
    }

    /// The files that stand otherwise in other groups of as many files. It looks at all pairs of the one
    /// for each pair of the other.
    pub(crate) fn moves_to(&self, after: &Groups) -> Result<MoveList, NoMemory>
        requires { size_of after.now ≡ size_of self.now }
        ensures { IfOk result (λ list. list
            ≡ moves (size_of self.now) (relations_in self.now) (relations_in after.now)) }
    {
        let marks = self.changed_classes(after)?;
        let mut moves = MoveList::new(self.alloc);
        for file in 0..self.len() {
            if self.is_moved(after, marks.as_slice(), file) {
                moves.push(after.place_of(file))?;
            }
        }
        Ok(moves)
    }

    // By class name whether a class has other not-related pairs in other groups.
    fn changed_classes(&self, after: &Groups) -> Result<Vec<bool>, NoMemory>
        requires { size_of after.now ≡ size_of self.now }
        ensures len { IfOk result (λ marks. vec_len marks ≡ size_of self.now) }
        ensures marked { IfOk result (λ marks. Marks (size_of self.now) (relations_in self.now)
            (relations_in after.now) marks.items) }
    {
        let mut marks = vec![in self.alloc; false; self.kings.len()]?;
        mark_lacking(&mut marks, self.pairs.as_slice(), after.pairs.as_slice());
        mark_lacking(&mut marks, after.pairs.as_slice(), self.pairs.as_slice());
        Ok(marks)
    }

    fn is_moved(&self, after: &Groups, marks: &[bool], file: u32) -> bool
        requires known { file < size_of self.now }
        requires size { size_of after.now ≡ size_of self.now }
        requires len { length marks.now ≡ size_of self.now }
        requires marked { Marks (size_of self.now) (relations_in self.now) (relations_in after.now)
            marks.now }
        ensures { result
            ≡ is_moved (size_of self.now) (relations_in self.now) (relations_in after.now) file }
    {
        let file = FileNo(file);
        let class = self.class_of(file).0;
        self.king_of(file).0 != after.king_of(file).0
            || class != after.class_of(file).0
            || marks[class as usize]
    }

    fn place_of(&self, file: u32) -> Move
        requires { file < size_of self.now }
        ensures { result ≡ move_to (relations_in self.now) (record { 0 = file }) }
    {
        let file = FileNo(file);
        Move {
            file,
            king: self.king_of(file),
            class: self.class_of(file),
        }
    }

    fn are_one_group(&self, a: u32, b: u32) -> bool
        requires a_known { a < size_of self.now }
        requires b_known { b < size_of self.now }
        ensures { result ≡ of_one_group (relations_in self.now) a b }
    {
        self.king_of(FileNo(a)).0 == self.king_of(FileNo(b)).0
    }

    // Whether a file is the king of a group of the other's class.
    fn is_king_beside(&self, other: u32, file: u32) -> bool
        requires other_known { other < size_of self.now }
        requires known { file < size_of self.now }
        ensures { result ≡ is_king_beside (relations_in self.now) other file }
    {
        self.king_of(FileNo(file)).0 == file && self.are_one_class(other, file)
    }

    fn are_one_class(&self, a: u32, b: u32) -> bool
        requires a_known { a < size_of self.now }
        requires b_known { b < size_of self.now }
        ensures { result ≡ (relations_in self.now).alike a b }
    {
        self.classes[a as usize] == self.classes[b as usize]
    }

    // Whether a file names a class that isn't related to the other's.
    fn names_unrelated(&self, other: u32, file: u32) -> bool
        requires other_known { other < size_of self.now }
        requires known { file < size_of self.now }
        ensures { result ≡ names_unrelated (relations_in self.now) other file }
    {
        self.class_of(FileNo(file)).0 == file && self.is_not_related(FileNo(other), FileNo(file))
    }

    /// The least file after a place that is of the group of `king`. The place may be any number, or the
    /// front. It counts as one read, and may look at every file.
    pub fn member_after<L: Ledger>(
        &self,
        king: FileNo,
        after: Option<FileNo>,
        steps: &mut Steps<L>,
    ) -> Option<FileNo>
        requires { king.0 < size_of self.now }
        ensures found { let R = relations_in self.now in
            result ≡ next_of (size_of self.now) after (of_one_group R king.0) }
        ensures steps { steps.new ≡ steps.old + 1 }
    {
        steps.tick();
        for file in start_after(after)..self.len() {
            if self.are_one_group(king.0, file) {
                return Some(FileNo(file));
            }
        }
        None
    }

    /// The least king after a place that is of the class of `class`. The place may be any number, or the
    /// front. It counts as one read, and may look at every file.
    pub fn king_after<L: Ledger>(
        &self,
        class: FileNo,
        after: Option<FileNo>,
        steps: &mut Steps<L>,
    ) -> Option<FileNo>
        requires { class.0 < size_of self.now }
        ensures found { let R = relations_in self.now in
            result ≡ next_of (size_of self.now) after (is_king_beside R class.0) }
        ensures steps { steps.new ≡ steps.old + 1 }
    {
        steps.tick();
        for file in start_after(after)..self.len() {
            if self.is_king_beside(class.0, file) {
                return Some(FileNo(file));
            }
        }
        None
    }

    /// The least file after a place that names a class which is a not-related pair with the class of
    /// `class`. The place may be any number, or the front. It counts as one read, and may look at every
    /// pair for every file.
    pub fn not_related_after<L: Ledger>(
        &self,
        class: FileNo,
        after: Option<FileNo>,
        steps: &mut Steps<L>,
    ) -> Option<FileNo>
        requires { class.0 < size_of self.now }
        ensures found { let R = relations_in self.now in
            result ≡ next_of (size_of self.now) after (names_unrelated R class.0) }
        ensures steps { steps.new ≡ steps.old + 1 }
    {
        steps.tick();
        for file in start_after(after)..self.len() {
            if self.names_unrelated(class.0, file) {
                return Some(FileNo(file));
            }
        }
        None
    }
}

/// The first number that comes after a place, or the last of all numbers.
fn start_after(after: Option<FileNo>) -> u32
    ensures before { (g : ℕ) → g < result → is_past after g ≡ false }
    ensures past { (g : ℕ) → result ≤ g → g < u32.MAX → is_past after g ≡ true }
{
    match after {
        Some(file) => file.0.saturating_add(1),
        None => 0,
    }
}
