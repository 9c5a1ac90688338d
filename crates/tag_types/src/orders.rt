ghost use Rattle.std.specs.Prelude.{◌≡◌, ◌↔◌, ◌&&◌, [], ◌∷◌, IsTrue};

use crate::service_list::ServiceList;
use media_types::ServiceNo;

/// Whose sibling pairs and whose parent pairs a service takes, and in which order.
#[derive(Clone, Copy, Debug)]
pub struct Orders {
    pub siblings: ServiceList,
    pub parents: ServiceList,
}

impl Orders {
    /// What a new service opens with: it takes its own pairs alone.
    pub fn of_own(service: ServiceNo) -> Orders
        ensures siblings { result.siblings ≡ service ∷ [] }
        ensures parents { result.parents ≡ service ∷ [] }
    {
        let mut own = ServiceList::new();
        own.push(service);
        Orders {
            siblings: own,
            parents: own,
        }
    }
}

impl PartialEq for Orders {
    ghost use Rattle.std.specs.Cmp.{and_equiv, on_equiv, partial_equiv_from_equiv};
    ghost use Rattle.std.specs.Ordering.{eq_of_both, on};
    ghost use Rattle.tag_types.specs.Equality.{same_services, same_services-equiv};

    ghost eq = { eq_of_both (on (λ o. o.siblings) same_services) (on (λ o. o.parents) same_services) };

    ghost laws = { partial_equiv_from_equiv (and_equiv
        (on_equiv (λ o. o.siblings) same_services-equiv)
        (on_equiv (λ o. o.parents) same_services-equiv)) };

    fn eq(&self, other: &Orders) -> bool
        ensures value { result ≡ (same_services self.now.siblings other.now.siblings && same_services self.now.parents other.now.parents) }
        ensures same { IsTrue result ↔ (self.now ≡ other.now) }
    {
        self.siblings == other.siblings && self.parents == other.parents
    }
}

impl Eq for Orders {
    ghost use Rattle.std.specs.Cmp.{and_equiv, on_equiv};
    ghost use Rattle.tag_types.specs.Equality.{same_services-equiv};

    ghost laws = { and_equiv
        (on_equiv (λ o. o.siblings) same_services-equiv)
        (on_equiv (λ o. o.parents) same_services-equiv) };
}
