ghost use Rattle.std.specs.Prelude.{◌≡◌, ◌<◌, ◌≤◌, ◌↔◌, [], ◌∷◌, ◌++◌, length, IsTrue, Some, Contains, slice_get};
ghost use Rattle.tag_types.specs.declared.limits.TheConstants.{MAX_SERVICES};
ghost use Rattle.tag_types.specs.ServiceLists.{AreDistinct};

use crate::limits::MAX_SERVICES;
use media_types::ServiceNo;
use std::marker::Model;

/// Services in an order, none twice: at most `MAX_SERVICES`. It takes no memory.
#[derive(Clone, Copy, Debug)]
pub struct ServiceList {
    /// The services, and 0 in each slot that isn't used.
    slots: [ServiceNo; MAX_SERVICES],
    len: usize,
}

impl Model for ServiceList {
    ghost use Rattle.std.specs.Prelude.{List, ◌++◌, ◌-◌, length, take, replicate};
    ghost use Rattle.media_types.specs.declared.numbers.ServiceNo.{ServiceNo as Service};
    ghost use Rattle.tag_types.specs.declared.limits.TheConstants.{MAX_SERVICES};

    ghost Value = { List Service };

    ghost use Rattle.tag_types.specs.ServiceLists.{IsFilled};

    ghost view = { λ list. take list.len list.slots };

    ghost invariant = { λ list. IsFilled list.slots list.len };

    ghost inverse = { λ services. record {
      slots = services ++ replicate (MAX_SERVICES - length services) (record { 0 = 0 });
      len = length services;
    } };
}

impl ServiceList {
    /// No services.
    pub fn new() -> ServiceList
        ensures { result ≡ [] }
    {
        ServiceList {
            slots: [ServiceNo(0); MAX_SERVICES],
            len: 0,
        }
    }

    /// 0 to `MAX_SERVICES`.
    pub fn len(&self) -> usize
        ensures value { result ≡ length self.now }
        ensures few { length self.now ≤ MAX_SERVICES }
        ensures distinct { AreDistinct self.now }
    {
        self.len
    }

    pub fn is_empty(&self) -> bool
        ensures { IsTrue result ↔ (self.now ≡ []) }
    {
        self.len == 0
    }

    pub fn get(&self, at: usize) -> ServiceNo
        requires { at < length self.now }
        ensures { slice_get self.now at ≡ Some result }
    {
        self.slots[at]
    }

    /// All services, in order.
    pub fn as_slice(&self) -> &[ServiceNo]
        ensures { result.now ≡ self.now }
    {
        &self.slots[..self.len]
    }

    pub fn contains(&self, service: ServiceNo) -> bool
        ensures { IsTrue result ↔ Contains self.now service }
    {
        self.as_slice().contains(&service)
    }

    /// Puts a service last.
    pub fn push(&mut self, service: ServiceNo)
        requires room { length self.old < MAX_SERVICES }
        requires new { ¬ (Contains self.old service) }
        ensures { self.new ≡ self.old ++ service ∷ [] }
    {
        self.slots[self.len] = service;
        self.len += 1;
    }
}

impl PartialEq for ServiceList {
    ghost use Rattle.std.specs.Cmp.{partial_equiv_from_equiv};
    ghost use Rattle.tag_types.specs.Equality.{same_services, same_services-equiv};

    ghost eq = { same_services };

    ghost laws = { partial_equiv_from_equiv same_services-equiv };

    fn eq(&self, other: &ServiceList) -> bool
        ensures value { result ≡ same_services self.now other.now }
        ensures same { IsTrue result ↔ (self.now ≡ other.now) }
    {
        self.as_slice() == other.as_slice()
    }
}

impl Eq for ServiceList {
    ghost use Rattle.tag_types.specs.Equality.{same_services-equiv};

    ghost laws = { same_services-equiv };
}
