//! Services, and the tags that are mapped to files.

ghost use Rattle.std.specs.Prelude.{◌≡◌, ◌<◌, ◌≤◌, ◌+◌, ◌||◌, true, false, nat_lt, IfOk, OnOk, is_some, length};
ghost use Rattle.std.specs.List.{list_all};
ghost use Rattle.media_base.specs.declared.change.Change.TheVariants as changes;
ghost use Rattle.media_base.specs.declared.command.Query.TheVariants as queries;
ghost use Rattle.tag_types.specs.declared.limits.TheConstants.{MAX_MAPPINGS};
ghost use Rattle.tag_store.specs.Numbering.{HasPlaceFor};
ghost use Rattle.library_machine.specs.Asking as machine;
ghost use Rattle.library_machine.specs.Needs.{has_file, has_service, has_tag, is_met, room_for_tag};
ghost use Rattle.library_machine.specs.Records.{Fits, Records};
ghost use Rattle.library_machine.specs.Tagging.{file_mappings, is_same, mapped, numbered, services_named};
ghost use Rattle.library_tables.specs.Counting.{mappings_reads};
ghost use Rattle.library_tables.specs.Preparing.{IsPrepared};
ghost use Rattle.library_tables.specs.Tables.{HasWords, marked_tree, records_of};
ghost use Rattle.library_tables.specs.Tags.{HasTagRoom, IsReady, LeadsMapping, LeadsOrders, LeadsService, with_text};

use crate::plan::{Prepared, TablesPlan};
use crate::tables::Tables;
use media_base::{
    Answer, FileMappings, FileNo, MAX_MAPPINGS, MAX_SERVICES, MAX_TAGS, MapState, Mapped, Mapping,
    NoMemory, Orders, ServiceNo, Steps, TagNo, TagText, TagTextList, Unmet,
};
use std::sync::ledger::Ledger;
use tag_relations::OrderPlan;

/// Orders of a service that are ready to be set.
#[derive(Drop)]
pub struct PlannedOrders {
    pub(crate) service: ServiceNo,
    pub(crate) orders: Orders,
    pub(crate) relations: OrderPlan,
}

/// A mapping that is ready to be set, or taken away.
#[derive(Drop)]
pub struct PlannedMapping {
    pub(crate) service: ServiceNo,
    pub(crate) tag: TagNo,
    /// The tag's text, where it is new.
    pub(crate) new_tag: Option<TagText>,
    pub(crate) file: FileNo,
    pub(crate) state: Option<MapState>,
}

impl Tables {
    pub(crate) fn has_service(&self, service: ServiceNo) -> bool
        ensures { result ≡ has_service (records_of self.now) service }
    {
        service.0 < self.services.len()
    }

    #[tactic(auto, unfolding(library_machine::specs::Changing::needs, library_machine::specs::Changing::is_idle, library_machine::specs::Effects::effect, library_machine::specs::Changing::answer_to))]
    pub(crate) fn plan_service(&mut self) -> Result<Prepared, NoMemory>
        ensures records { records_of self.new ≡ records_of self.old }
        ensures tree { marked_tree self.new ≡ marked_tree self.old }
        ensures prepared { IfOk result (IsPrepared changes.Service self.new) }
    {
        let count = self.services.len();
        if count >= MAX_SERVICES as u8 {
            return Ok(Unmet::FullServices.into());
        }
        self.relations.reserve_service()?;
        Ok(Prepared::Ready(TablesPlan::Service, Answer::Service(ServiceNo(count))))
    }

    #[tactic(auto, unfolding(library_machine::specs::Changing::needs, library_machine::specs::Changing::is_idle, library_machine::specs::Effects::effect, library_machine::specs::Changing::answer_to))]
    pub(crate) fn plan_orders<L: Ledger>(
        &mut self,
        service: ServiceNo,
        orders: &Orders,
        steps: &mut Steps<L>,
    ) -> Result<Prepared, NoMemory>
        ensures records { records_of self.new ≡ records_of self.old }
        ensures tree { marked_tree self.new ≡ marked_tree self.old }
        ensures prepared { IfOk result (IsPrepared (changes.Orders service orders.now) self.new) }
    {
        if !self.has_services(service, orders) {
            return Ok(Unmet::UnknownService.into());
        }
        let answer = Answer::Service(service);
        if *self.services.orders(service) == *orders {
            return Ok(Prepared::Idle(answer));
        }
        let relations = self.relations.plan_orders(service, orders, steps)?;
        if let Some(why) = self.over_orders(&relations, steps)? {
            return Ok(why.into());
        }
        let plan = PlannedOrders {
            service,
            orders: *orders,
            relations,
        };
        Ok(Prepared::Ready(TablesPlan::Orders(plan), answer))
    }

    // Whether the service is there, and all that the orders name.
    fn has_services(&self, service: ServiceNo, orders: &Orders) -> bool
        ensures { result ≡ list_all (has_service (records_of self.now)) (services_named service orders.now) }
    {
        self.has_service(service)
            && self.has_all_services(orders.siblings.as_slice())
            && self.has_all_services(orders.parents.as_slice())
    }

    fn has_all_services(&self, services: &[ServiceNo]) -> bool
        ensures { result ≡ list_all (has_service (records_of self.now)) services.now }
    {
        services.iter().all(|service| self.has_service(*service))
    }

    #[tactic(auto, unfolding(library_machine::specs::Changing::needs))]
    pub(crate) fn plan_mapping<L: Ledger>(
        &mut self,
        mapping: &Mapping,
        steps: &mut Steps<L>,
    ) -> Result<Prepared, NoMemory>
        ensures records { records_of self.new ≡ records_of self.old }
        ensures tree { marked_tree self.new ≡ marked_tree self.old }
        ensures prepared { IfOk result (IsPrepared (changes.Mapping mapping.now) self.new) }
        ensures reads { steps.new ≤ steps.old + 1 }
    {
        if !self.has_file(mapping.file) {
            return Ok(Unmet::UnknownFile.into());
        }
        if !self.has_service(mapping.service) {
            return Ok(Unmet::UnknownService.into());
        }
        let found = self.mapped(mapping, steps);
        if mapping.state.is_some() {
            self.plan_map(mapping, found)
        } else {
            self.plan_unmap(mapping, found)
        }
    }

    fn plan_map(&mut self, mapping: &Mapping, found: Option<MapState>) -> Result<Prepared, NoMemory>
        requires file { has_file (records_of self.old) mapping.now.file ≡ true }
        requires service { has_service (records_of self.old) mapping.now.service ≡ true }
        requires found { found ≡ mapped (records_of self.old) mapping.now.service mapping.now.tag mapping.now.file }
        requires state { is_some mapping.now.state ≡ true }
        ensures records { records_of self.new ≡ records_of self.old }
        ensures tree { marked_tree self.new ≡ marked_tree self.old }
        ensures prepared { IfOk result (IsPrepared (changes.Mapping mapping.now) self.new) }
    {
        if !self.has_room_for_tag(&mapping.tag) {
            return Ok(Unmet::FullTags.into());
        }
        if !self.has_room_for_mapping(found) {
            return Ok(Unmet::FullMappings.into());
        }
        let is_so = is_same(found, mapping.state);
        let answer = Answer::Mapped(Mapped {
            tag: self.numbered(&mapping.tag),
            changed: !is_so,
        });
        if is_so {
            return Ok(Prepared::Idle(answer));
        }
        let plan = self.ready_mapping(mapping)?;
        Ok(Prepared::Ready(TablesPlan::Mapping(plan), answer))
    }

    fn plan_unmap(
        &mut self,
        mapping: &Mapping,
        found: Option<MapState>,
    ) -> Result<Prepared, NoMemory>
        requires file { has_file (records_of self.old) mapping.now.file ≡ true }
        requires service { has_service (records_of self.old) mapping.now.service ≡ true }
        requires found { found ≡ mapped (records_of self.old) mapping.now.service mapping.now.tag mapping.now.file }
        requires state { is_some mapping.now.state ≡ false }
        ensures records { records_of self.new ≡ records_of self.old }
        ensures tree { marked_tree self.new ≡ marked_tree self.old }
        ensures prepared { IfOk result (IsPrepared (changes.Mapping mapping.now) self.new) }
    {
        if !self.has_tag(&mapping.tag) {
            return Ok(Unmet::UnknownTag.into());
        }
        let is_gone = is_same(found, mapping.state);
        let answer = Answer::Changed(!is_gone);
        if is_gone {
            return Ok(Prepared::Idle(answer));
        }
        let plan = self.ready_mapping(mapping)?;
        Ok(Prepared::Ready(TablesPlan::Mapping(plan), answer))
    }

    pub(crate) fn has_tag(&self, text: &TagText) -> bool
        ensures { result ≡ has_tag (records_of self.now) text.now }
    {
        self.tags.find(text).is_some()
    }

    fn has_room_for_tag(&self, text: &TagText) -> bool
        ensures { result ≡ is_met (records_of self.now) (room_for_tag text.now) }
    {
        self.has_tag(text) || self.tags.len() < MAX_TAGS
    }

    // Whether there is room for a mapping that is found so.
    fn has_room_for_mapping(&self, found: Option<MapState>) -> bool
        ensures { result ≡ (is_some found || nat_lt (length self.now.mappings.rows) MAX_MAPPINGS) }
    {
        found.is_some() || self.mappings.len() < MAX_MAPPINGS
    }

    // The number that the text has, or would have.
    fn numbered(&self, text: &TagText) -> TagNo
        ensures { result ≡ numbered (records_of self.now) text.now }
    {
        self.tags.number(text)
    }

    // How the tag is mapped to the file.
    fn mapped<L: Ledger>(&self, mapping: &Mapping, steps: &mut Steps<L>) -> Option<MapState>
        ensures state { result ≡ mapped (records_of self.now) mapping.now.service mapping.now.tag mapping.now.file }
        ensures reads { steps.new ≤ steps.old + 1 }
    {
        let tag = self.tags.find(&mapping.tag)?;
        self.mappings
            .state(mapping.service, tag, mapping.file, steps)
    }

    // Takes the memory of a mapping, and of its tag where that is new.
    fn ready_mapping(&mut self, mapping: &Mapping) -> Result<PlannedMapping, NoMemory>
        requires { HasPlaceFor mapping.now.tag self.old.tags.texts }
        ensures records { records_of self.new ≡ records_of self.old }
        ensures tree { marked_tree self.new ≡ marked_tree self.old }
        ensures fits { Fits (records_of self.new) }
        ensures ready { IfOk result (λ plan. IsReady plan mapping.now self.new) }
    {
        self.mappings.reserve()?;
        let tag = self.numbered(&mapping.tag);
        let new_tag = self.ready_tag(&mapping.tag)?;
        Ok(PlannedMapping {
            service: mapping.service,
            tag,
            new_tag,
            file: mapping.file,
            state: mapping.state,
        })
    }

    // Takes the memory of a tag, and gives it where it is new.
    fn ready_tag(&mut self, text: &TagText) -> Result<Option<TagText>, NoMemory>
        requires { HasPlaceFor text.now self.old.tags.texts }
        ensures same { self.new ≡ record self.old {
          tags = record {
            texts = self.old.tags.texts;
            spare = self.new.tags.spare;
          };
        } }
        ensures ready { IfOk result (λ new. HasTagRoom new text.now self.new) }
    {
        if self.has_tag(text) {
            return Ok(None);
        }
        self.tags.reserve(1)?;
        Ok(Some(text.copied(self.alloc)?))
    }

    pub(crate) fn commit_service(&mut self)
        requires { (after : Records) × LeadsService self.old after }
        ensures records { (after : Records) → LeadsService self.old after → records_of self.new ≡ after }
        ensures tree { marked_tree self.new ≡ marked_tree self.old }
        ensures words { HasWords self.new.tree.rows (records_of self.new) }
    {
        self.services.add();
        self.relations.add_service();
    }

    pub(crate) fn commit_orders(&mut self, plan: PlannedOrders)
        requires { (after : Records) × LeadsOrders plan self.old after }
        ensures records { (after : Records) → LeadsOrders plan self.old after → records_of self.new ≡ after }
        ensures tree { marked_tree self.new ≡ marked_tree self.old }
        ensures words { HasWords self.new.tree.rows (records_of self.new) }
    {
        self.services.set(plan.service, plan.orders);
        self.relations.commit_orders(plan.relations);
    }

    pub(crate) fn commit_mapping(&mut self, plan: PlannedMapping)
        requires { (after : Records) × LeadsMapping plan self.old after }
        ensures records { (after : Records) → LeadsMapping plan self.old after → records_of self.new ≡ after }
        ensures tree { marked_tree self.new ≡ marked_tree self.old }
        ensures words { HasWords self.new.tree.rows (records_of self.new) }
    {
        let PlannedMapping {
            service,
            tag,
            new_tag,
            file,
            state,
        } = plan;
        if let Some(text) = new_tag {
            let _number = self.tags.insert(text);
        }
        self.mappings.set(service, tag, file, state);
    }

    #[tactic(auto, unfolding(library_machine::specs::Asking::query_needs, library_machine::specs::Asking::answer))]
    pub(crate) fn tell_mappings<L: Ledger>(
        &self,
        service: ServiceNo,
        file: FileNo,
        steps: &mut Steps<L>,
    ) -> Result<Result<Answer, Unmet>, NoMemory>
        ensures answer { IfOk result (λ answer. answer ≡ machine.asked (records_of self.now) (queries.Mappings service file)) }
        ensures reads { steps.new ≤ steps.old + mappings_reads (records_of self.now) service file }
    {
        if !self.has_file(file) {
            return Ok(Err(Unmet::UnknownFile));
        }
        if !self.has_service(service) {
            return Ok(Err(Unmet::UnknownService));
        }
        let told = self.mappings_of(service, file, steps)?;
        Ok(Ok(Answer::Mappings(told)))
    }

    // The tags of the file, by the state of their mapping.
    fn mappings_of<L: Ledger>(
        &self,
        service: ServiceNo,
        file: FileNo,
        steps: &mut Steps<L>,
    ) -> Result<FileMappings, NoMemory>
        ensures told { IfOk result (λ told. told ≡ file_mappings (records_of self.now) service file) }
        ensures reads { steps.new ≤ steps.old + mappings_reads (records_of self.now) service file }
    {
        let mut told = FileMappings {
            current: TagTextList::new(self.alloc),
            pending: TagTextList::new(self.alloc),
            deleted: TagTextList::new(self.alloc),
        };
        let mut walk = self.mappings.walk_file(service, file, steps);
        while let Some((tag, state)) = walk.next(steps) {
            let text = self.tags.text(tag).copied(self.alloc)?;
            put_text(&mut told, state, text)?;
        }
        Ok(told)
    }
}

// Puts the text last among those whose mapping has this state.
fn put_text(told: &mut FileMappings, state: MapState, text: TagText) -> Result<(), NoMemory>
    ensures { OnOk result (told.new ≡ with_text told.old state text) }
{
    match state {
        MapState::Current => told.current.push(text),
        MapState::Pending => told.pending.push(text),
        MapState::Deleted => told.deleted.push(text),
    }
}

// Whether the two are the same state, or both none.
fn is_same(found: Option<MapState>, wanted: Option<MapState>) -> bool
    ensures { result ≡ is_same found wanted }
{
    match (found, wanted) {
        (Some(MapState::Current), Some(MapState::Current))
        | (Some(MapState::Pending), Some(MapState::Pending))
        | (Some(MapState::Deleted), Some(MapState::Deleted))
        | (None, None) => true,
        _ => false,
    }
}
