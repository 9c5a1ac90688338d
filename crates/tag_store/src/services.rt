ghost use Rattle.std.specs.Prelude.{◌≡◌, ◌<◌, ◌≤◌, [], ◌∷◌, ◌++◌, length, Some, slice_get, slice_set};
ghost use Rattle.tag_types.specs.declared.limits.TheConstants.{MAX_SERVICES};
ghost use Rattle.tag_store.specs.Serving.{first_services, next_orders};

use media_types::ServiceNo;
use std::marker::Model;
use tag_types::{MAX_SERVICES, Orders};

/// The tag services of a library, at most `MAX_SERVICES`, by number: whose pairs each takes, in which
/// order. Service 0 is there from the start. It takes no memory.
#[derive(Debug, Drop)]
pub struct Services {
    slots: [Orders; MAX_SERVICES],
    len: u8,
}

impl Model for Services {
    ghost use Rattle.std.specs.Prelude.{List, ◌≤◌, length, take};
    ghost use Rattle.tag_types.specs.declared.limits.TheConstants.{MAX_SERVICES};
    ghost use Rattle.tag_types.specs.declared.orders.Orders.{Orders as ServiceOrders};
    ghost use Rattle.tag_store.specs.Serving.{AreSlots};

    ghost Value = { List ServiceOrders };

    ghost view = { λ services. take services.len services.slots };

    ghost invariant = { λ services. AreSlots services.slots services.len };
}

impl Services {
    /// Service 0 alone, which takes its own pairs.
    pub fn new() -> Services
        ensures { result ≡ first_services }
    {
        Services {
            slots: [Orders::of_own(ServiceNo(0)); MAX_SERVICES],
            len: 1,
        }
    }

    /// The number of services, 1 to `MAX_SERVICES`.
    pub fn len(&self) -> u8
        ensures value { result ≡ length self.now }
        ensures few { result ≤ MAX_SERVICES }
    {
        self.len
    }

    /// Whose pairs a service takes.
    pub fn orders(&self, service: ServiceNo) -> &Orders
        requires { service.0 < length self.now }
        ensures { slice_get self.now service.0 ≡ Some result.now }
    {
        &self.slots[service.0 as usize]
    }

    /// Puts one more service last, which takes its own pairs alone.
    pub fn add(&mut self)
        requires { length self.old < MAX_SERVICES }
        ensures { self.new ≡ self.old ++ next_orders self.old ∷ [] }
    {
        self.slots[self.len as usize] = Orders::of_own(ServiceNo(self.len));
        self.len += 1;
    }

    /// Gives a service other orders.
    pub fn set(&mut self, service: ServiceNo, orders: Orders)
        requires { service.0 < length self.old }
        ensures { self.new ≡ slice_set self.old service.0 orders }
    {
        self.slots[service.0 as usize] = orders;
    }
}
