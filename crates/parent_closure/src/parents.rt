ghost use Rattle.std.specs.Prelude.{◌≡◌, ℕ, ◌+◌, ◌*◌, ◌<◌, ◌≤◌, [], ◌∷◌, ◌++◌, true, false, All, length, Some, IfOk, OnOk, slice_get, slice_set};
ghost use Rattle.tag_types.specs.declared.limits.TheConstants.{MAX_RELATIONS, MAX_SERVICES, MAX_TAGS};
ghost use Rattle.sibling_chains.specs.Recorded.{removed_at};
ghost use Rattle.parent_closure.specs.Kept.{IsFirstPlace, IsSame, first_place, is_pair, rows_of, stands_in};
ghost use Rattle.parent_closure.specs.Planning.{IsAdding, IsPlanFor, IsRemoving, after};

use crate::parent_plan::{Change, Ordered, ParentPlan, Removing};
use media_types::{NoMemory, ServiceNo, Steps, TagNo};
use sibling_chains::{Grouped, RelationRow};
use spare_tables::Rows;
use std::alloc::Global;
use std::marker::Model;
use std::sync::ledger::Ledger;
use tag_types::ServiceList;

/// The parent pairs of all services.
///
/// Room is made first, and then a change can't be refused.
#[derive(Drop)]
pub struct Parents {
    pub(crate) alloc: Global,
    pub(crate) rows: Rows<RelationRow>,
    /// The numbers of each child's rows, removed ones among them.
    pub(crate) children: Grouped,
    /// By service the services whose pairs it takes.
    pub(crate) orders: Vec<ServiceList>,
    tags: u32,
}

impl Model for Parents {
    ghost use Rattle.std.specs.Prelude.{◌-◌, min, vec_capacity, vec_len};
    ghost use Rattle.parent_closure.specs.Kept.{AreKept, Kept};

    ghost Value = { Kept };

    ghost view = { λ it. record {
      rows = it.rows.rows;
      orders = it.orders.items;
      tags = it.tags;
      service_room = vec_capacity it.orders - vec_len it.orders;
      row_room = min it.rows.spare it.children.spare;
    } };

    ghost invariant = { λ it. AreKept it.rows.rows it.children.labels it.tags };
}

impl Parents {
    /// No services and no tags. It takes no memory yet.
    pub fn new(alloc: Global) -> Parents
        ensures rows { result.rows ≡ [] }
        ensures orders { result.orders ≡ [] }
        ensures tags { result.tags ≡ 0 }
    {
        Parents {
            alloc,
            rows: Rows::new(alloc),
            children: Grouped::new(alloc),
            orders: Vec::new(alloc),
            tags: 0,
        }
    }

    /// Makes room for one more service.
    pub fn reserve_service(&mut self) -> Result<(), NoMemory>
        ensures same { self.new ≡ record self.old { service_room = self.new.service_room } }
        ensures ok { OnOk result (1 ≤ self.new.service_room) }
        ensures room { self.old.service_room ≤ self.new.service_room }
    {
        self.orders.reserve(1)?;
        Ok(())
    }

    /// Adds a service, which takes its own pairs alone, in the room that was made.
    pub fn add_service(&mut self)
        requires room { 1 ≤ self.old.service_room }
        requires few { length self.old.orders < MAX_SERVICES }
        ensures rows { self.new.rows ≡ self.old.rows }
        ensures orders { self.new.orders
            ≡ self.old.orders ++ ((record { 0 = length self.old.orders }) ∷ []) ∷ [] }
        ensures tags { self.new.tags ≡ self.old.tags }
        ensures row_room { self.new.row_room ≡ self.old.row_room }
        ensures room { self.old.service_room ≤ self.new.service_room + 1 }
    {
        let service = ServiceNo(self.orders.len() as u8);
        let mut own = ServiceList::new();
        own.push(service);
        self.orders.push_reserved(own);
    }

    /// Adds a tag, which has no pairs yet. It takes no memory.
    pub fn add_tag(&mut self)
        requires { self.old.tags < MAX_TAGS }
        ensures { self.new ≡ record self.old { tags = self.old.tags + 1 } }
    {
        self.tags += 1;
    }

    /// How many services there are.
    pub fn services(&self) -> usize
        ensures { result ≡ length self.now.orders }
    {
        self.orders.len()
    }

    /// How many tags there are.
    pub fn tags(&self) -> u32
        ensures tags { result ≡ self.now.tags }
        ensures few { result ≤ MAX_TAGS }
        ensures known { All (λ row. (row.first.0 < self.now.tags) × (row.second.0 < self.now.tags)) self.now.rows }
    {
        let _children = &self.children;
        self.tags
    }

    /// How many rows there are, removed ones among them.
    pub fn rows_len(&self) -> u32
        ensures rows { result ≡ length self.now.rows }
        ensures few { result ≤ MAX_RELATIONS }
    {
        let _children = &self.children;
        self.rows.len() as u32
    }

    /// The row of this number, in order of recording. It counts as one read.
    pub fn row<L: Ledger>(&self, at: u32, steps: &mut Steps<L>) -> RelationRow
        requires { at < length self.now.rows }
        ensures row { slice_get self.now.rows at ≡ Some result }
        ensures steps { steps.new ≡ steps.old + 1 }
    {
        *self.rows.get(u64::from(at), steps)
    }

    // The number of the first row that stands for a pair.
    fn place_of<L: Ledger>(
        &self,
        service: ServiceNo,
        child: TagNo,
        parent: TagNo,
        steps: &mut Steps<L>,
    ) -> Option<u32>
        ensures place { IsFirstPlace (is_pair service.0 child.0 parent.0) self.now.rows result }
        ensures reads { steps.new ≤ steps.old + (1 + 2 * length (rows_of self.now.rows child.0)) }
    {
        let mut from = 0;
        while let Some(number) = self.children.next(child.0, from, steps) {
            if is_pair(self.row(number, steps), service, child, parent) {
                return Some(number);
            }
            from = number + 1;
        }
        None
    }

    /// Whether a pair stands. It counts as one read, and two for each of the child's rows.
    pub fn stands<L: Ledger>(
        &self,
        service: ServiceNo,
        child: TagNo,
        parent: TagNo,
        steps: &mut Steps<L>,
    ) -> bool
        ensures stands { result ≡ stands_in self.now.rows service.0 child.0 parent.0 }
        ensures reads { steps.new ≤ steps.old + (1 + 2 * length (rows_of self.now.rows child.0)) }
    {
        self.place_of(service, child, parent, steps).is_some()
    }

    /// Plans to record a pair. It makes room, and changes nothing.
    #[tactic(auto, unfolding(crate::specs::Planning::after, crate::specs::Planning::IsPlanFor))]
    pub fn plan_add(
        &mut self,
        service: ServiceNo,
        child: TagNo,
        parent: TagNo,
    ) -> Result<ParentPlan, NoMemory>
        requires service { service.0 < length self.old.orders }
        requires child { child.0 < self.old.tags }
        requires parent { parent.0 < self.old.tags }
        ensures same { self.new ≡ record self.old { row_room = self.new.row_room } }
        ensures fits { IfOk result (λ plan. IsPlanFor plan self.new) }
        ensures after { IfOk result (λ plan. after plan self.new ≡ record self.new {
          rows = self.old.rows
              ++ (record { service = service; first = child; second = parent; standing = true }) ∷ [];
        }) }
        ensures room { self.old.row_room ≤ self.new.row_room }
    {
        self.rows.reserve(1)?;
        self.children.reserve()?;
        Ok(ParentPlan {
            change: Change::Add(RelationRow {
                service,
                first: child,
                second: parent,
                standing: true,
            }),
        })
    }

    /// Plans to remove a standing pair. It takes no memory, and changes nothing. It counts as two reads, and two
    /// for each of the child's rows.
    #[tactic(auto, unfolding(crate::specs::Planning::after, crate::specs::Planning::IsPlanFor))]
    pub fn plan_remove<L: Ledger>(
        &self,
        service: ServiceNo,
        child: TagNo,
        parent: TagNo,
        steps: &mut Steps<L>,
    ) -> ParentPlan
        requires { stands_in self.now.rows service.0 child.0 parent.0 ≡ true }
        ensures fits { IsPlanFor result self.now }
        ensures after { after result self.now ≡ record self.now {
          rows = removed_at (first_place (is_pair service.0 child.0 parent.0) self.now.rows) self.now.rows;
        } }
        ensures reads { steps.new ≤ steps.old + (2 + 2 * length (rows_of self.now.rows child.0)) }
    {
        let number = self.place_of(service, child, parent, steps).unwrap();
        let row = RelationRow {
            standing: false,
            ..self.row(number, steps)
        };
        ParentPlan {
            change: Change::Remove(Removing { number, row }),
        }
    }

    /// Plans that a service takes its pairs from other services, or in another order. It changes nothing.
    #[tactic(auto, unfolding(crate::specs::Planning::after, crate::specs::Planning::IsPlanFor))]
    pub fn plan_order(&self, service: ServiceNo, order: &ServiceList) -> ParentPlan
        requires { service.0 < length self.now.orders }
        ensures fits { IsPlanFor result self.now }
        ensures after { after result self.now
            ≡ record self.now { orders = slice_set self.now.orders service.0 order.now } }
    {
        ParentPlan {
            change: Change::Order(Ordered {
                service,
                order: *order,
            }),
        }
    }

    /// Carries a plan out, which was made of these parents as they are. It takes no memory, and there may be no
    /// room for more rows after it.
    #[tactic(auto, unfolding(crate::specs::Planning::after, crate::specs::Planning::IsPlanFor))]
    pub fn commit(&mut self, plan: ParentPlan)
        requires fits { IsPlanFor plan self.old }
        requires few { length (after plan self.old).rows ≤ MAX_RELATIONS }
        ensures after { IsSame self.new (after plan self.old) }
        ensures service_room { self.new.service_room ≡ self.old.service_room }
    {
        match plan.change {
            Change::Add(row) => self.add(row),
            Change::Remove(it) => self.remove(it),
            Change::Order(it) => self.order(it),
        }
    }

    fn add(&mut self, row: RelationRow)
        requires fits { IsAdding self.old row }
        requires few { length self.old.rows < MAX_RELATIONS }
        ensures rows { self.new.rows ≡ self.old.rows ++ row ∷ [] }
        ensures orders { self.new.orders ≡ self.old.orders }
        ensures tags { self.new.tags ≡ self.old.tags }
        ensures service_room { self.new.service_room ≡ self.old.service_room }
    {
        self.children.push(row.first.0);
        self.rows.push(row);
    }

    fn remove(&mut self, it: Removing)
        requires { IsRemoving self.old it }
        ensures { self.new ≡ record self.old { rows = removed_at it.number self.old.rows } }
    {
        self.rows.set(u64::from(it.number), it.row);
    }

    fn order(&mut self, it: Ordered)
        requires { it.service.0 < length self.old.orders }
        ensures { self.new ≡ record self.old { orders = slice_set self.old.orders it.service.0 it.order } }
    {
        self.orders[it.service.0 as usize] = it.order;
    }
}

// Whether a row stands for a pair.
fn is_pair(row: RelationRow, service: ServiceNo, child: TagNo, parent: TagNo) -> bool
    ensures { result ≡ is_pair service.0 child.0 parent.0 row }
{
    row.standing && row.service.0 == service.0 && row.first.0 == child.0 && row.second.0 == parent.0
}
