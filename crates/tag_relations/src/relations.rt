ghost use Rattle.std.specs.Prelude.{◌≡◌, ℕ, ◌+◌, ◌*◌, ◌<◌, ◌≤◌, [], ◌∷◌, ◌++◌, length, map, IfOk, OnOk};
ghost use Rattle.std.specs.Option.{option_map};
ghost use Rattle.tag_types.specs.declared.limits.TheConstants.{MAX_RELATIONS, MAX_SERVICES, MAX_TAGS};
ghost use Rattle.parent_closure.specs.Ancestors.{ancestors};
ghost use Rattle.parent_closure.specs.Kept.{stands_in};
ghost use Rattle.parent_closure.specs.LimitLaws.{AreBelow};
ghost use Rattle.sibling_chains.specs.Following.{good_of};
ghost use Rattle.sibling_chains.specs.Known.{ideal_in};
ghost use Rattle.sibling_chains.specs.Recorded.{pairs_of};
ghost use Rattle.tag_relations.specs.Related.{IsSame, relations_at};
ghost use Rattle.tag_relations.specs.Work.{cluster_work};

use media_types::{NoMemory, ServiceNo, Steps, TagNo};
use parent_closure::{Parents, TagList};
use sibling_chains::Siblings;
use std::alloc::Global;
use std::marker::Model;
use std::sync::ledger::Ledger;

/// The sibling pairs and the parent pairs of all services.
///
/// Room is made first, and then a change can't be refused.
#[derive(Drop)]
pub struct TagRelations {
    pub(crate) alloc: Global,
    pub(crate) siblings: Siblings,
    pub(crate) parents: Parents,
}

impl Model for TagRelations {
    ghost use Rattle.tag_relations.specs.Related.{AreTied, Related};

    ghost Value = { Related };

    ghost view = { λ it. record { siblings = it.siblings; parents = it.parents } };

    ghost invariant = { λ it. AreTied (record { siblings = it.siblings; parents = it.parents }) };
}

impl TagRelations {
    /// No services and no tags. It takes no memory yet.
    pub fn new(alloc: Global) -> TagRelations
        ensures sibling_rows { result.siblings.rows ≡ [] }
        ensures parent_rows { result.parents.rows ≡ [] }
        ensures sibling_orders { result.siblings.orders ≡ [] }
        ensures parent_orders { result.parents.orders ≡ [] }
    {
        TagRelations {
            alloc,
            siblings: Siblings::new(alloc),
            parents: Parents::new(alloc),
        }
    }

    /// Makes room for one more service.
    pub fn reserve_service(&mut self) -> Result<(), NoMemory>
        ensures same { IsSame self.new self.old }
        ensures siblings { OnOk result (1 ≤ self.new.siblings.service_room) }
        ensures parents { OnOk result (1 ≤ self.new.parents.service_room) }
    {
        self.siblings.reserve_service()?;
        self.parents.reserve_service()
    }

    /// Adds a service, which takes its own pairs alone, in the room that was made.
    pub fn add_service(&mut self)
        requires siblings { 1 ≤ self.old.siblings.service_room }
        requires parents { 1 ≤ self.old.parents.service_room }
        requires few { length self.old.siblings.orders < MAX_SERVICES }
        ensures sibling_rows { self.new.siblings.rows ≡ self.old.siblings.rows }
        ensures parent_rows { self.new.parents.rows ≡ self.old.parents.rows }
        ensures sibling_orders { self.new.siblings.orders
            ≡ self.old.siblings.orders ++ ((record { 0 = length self.old.siblings.orders }) ∷ []) ∷ [] }
        ensures parent_orders { self.new.parents.orders
            ≡ self.old.parents.orders ++ ((record { 0 = length self.old.parents.orders }) ∷ []) ∷ [] }
    {
        self.siblings.add_service();
        self.parents.add_service();
    }

    /// Adds tags until there are so many. A tag that comes has no pairs yet.
    pub fn grow(&mut self, tags: u32) -> Result<(), NoMemory>
        requires { tags ≤ MAX_TAGS }
        ensures sibling_rows { self.new.siblings.rows ≡ self.old.siblings.rows }
        ensures parent_rows { self.new.parents.rows ≡ self.old.parents.rows }
        ensures sibling_orders { self.new.siblings.orders ≡ self.old.siblings.orders }
        ensures parent_orders { self.new.parents.orders ≡ self.old.parents.orders }
        ensures enough { OnOk result (tags ≤ self.new.siblings.tags) }
    {
        grow_both(&mut self.siblings, &mut self.parents, tags)
    }

    /// How many tags there are. All pairs are of these.
    pub fn tags(&self) -> u32
        ensures tags { result ≡ self.now.siblings.tags }
        ensures few { result ≤ MAX_TAGS }
        ensures siblings { AreBelow self.now.siblings.tags self.now.siblings.rows }
        ensures parents { AreBelow self.now.siblings.tags self.now.parents.rows }
    {
        let _parents = self.parents.tags();
        self.siblings.tags()
    }

    /// How many sibling rows there are, removed ones among them.
    pub fn sibling_rows_len(&self) -> u32
        ensures rows { result ≡ length self.now.siblings.rows }
        ensures few { result ≤ MAX_RELATIONS }
    {
        self.siblings.rows_len()
    }

    /// How many parent rows there are, removed ones among them.
    pub fn parent_rows_len(&self) -> u32
        ensures rows { result ≡ length self.now.parents.rows }
        ensures few { result ≤ MAX_RELATIONS }
    {
        self.parents.rows_len()
    }

    /// The standing good tag of a bad one in a service. It counts as two reads at most.
    pub fn find<L: Ledger>(
        &self,
        service: ServiceNo,
        bad: TagNo,
        steps: &mut Steps<L>,
    ) -> Option<TagNo>
        ensures good { option_map (λ t. t.0) result ≡ good_of (pairs_of self.now.siblings.rows service) bad.0 }
        ensures steps { steps.new ≤ steps.old + 2 }
    {
        self.siblings.find(service, bad, steps)
    }

    /// Whether a parent pair stands. It reads the child's rows.
    pub fn stands<L: Ledger>(
        &self,
        service: ServiceNo,
        child: TagNo,
        parent: TagNo,
        steps: &mut Steps<L>,
    ) -> bool
        ensures stands { result ≡ stands_in self.now.parents.rows service.0 child.0 parent.0 }
        ensures reads { steps.new ≤ steps.old + 2 * cluster_work self.now.siblings.rows self.now.parents.rows self.now.siblings.tags child.0 child.0 }
    {
        self.parents.stands(service, child, parent, steps)
    }

    /// The ideal tag of a tag in a service. It takes no memory, and is one look.
    pub fn ideal(&self, service: ServiceNo, tag: TagNo) -> TagNo
        requires { service.0 < length self.now.siblings.orders }
        ensures { result.0 ≡ ideal_in self.now.siblings service.0 tag.0 }
    {
        self.siblings.ideal(service, tag)
    }

    /// The ancestors of a tag in a service among the tags below the end, ascending. It reads the tag's cluster alone.
    pub fn ancestors<L: Ledger>(
        &self,
        service: ServiceNo,
        tag: TagNo,
        end: u32,
        steps: &mut Steps<L>,
    ) -> Result<TagList, NoMemory>
        requires { service.0 < length self.now.siblings.orders }
        ensures told { IfOk result (λ list. map (λ t. t.0) list ≡ ancestors end (relations_at self.now service.0) tag.0) }
        ensures reads { steps.new ≤ steps.old + 4 * cluster_work self.now.siblings.rows self.now.parents.rows self.now.siblings.tags tag.0 tag.0 }
    {
        if tag.0 >= self.tags() {
            return Ok(TagList::new(self.alloc));
        }
        let tags = self.siblings.tags_of_two(tag, tag, steps)?;
        self.parents
            .ancestors(&self.siblings, service, tags.as_slice(), tag, end, steps)
    }
}

// Adds tags to both until there are so many.
fn grow_both(siblings: &mut Siblings, parents: &mut Parents, tags: u32) -> Result<(), NoMemory>
    requires few { tags ≤ MAX_TAGS }
    requires tags { siblings.old.tags ≡ parents.old.tags }
    ensures sibling_rows { siblings.new.rows ≡ siblings.old.rows }
    ensures ties { siblings.new.ties ≡ siblings.old.ties }
    ensures sibling_orders { siblings.new.orders ≡ siblings.old.orders }
    ensures parent_rows { parents.new.rows ≡ parents.old.rows }
    ensures parent_orders { parents.new.orders ≡ parents.old.orders }
    ensures same { siblings.new.tags ≡ parents.new.tags }
    ensures enough { OnOk result (tags ≤ siblings.new.tags) }
{
    while siblings.tags() < tags {
        siblings.reserve_tag()?;
        siblings.add_tag();
        parents.add_tag();
    }
    Ok(())
}
