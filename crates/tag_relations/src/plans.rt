use media_types::ServiceNo;
use parent_closure::ParentPlan;
use sibling_chains::SiblingPlan;

/// A pair that is ready to be recorded or removed. Dropped, it changes nothing.
#[derive(Drop)]
pub struct RelationPlan {
    /// The tags of the clusters that it touches, ascending.
    pub(crate) touched: Vec<u32>,
    pub(crate) siblings: Option<SiblingPlan>,
    pub(crate) parents: Option<ParentPlan>,
}

/// Orders of a service that are ready to be set. Dropped, they change nothing.
#[derive(Drop)]
pub struct OrderPlan {
    pub(crate) service: ServiceNo,
    pub(crate) siblings: SiblingPlan,
    pub(crate) parents: ParentPlan,
}

impl OrderPlan {
    ghost use Rattle.std.specs.Prelude.{◌≡◌};

    /// The service whose orders are set.
    pub fn service(&self) -> ServiceNo
        ensures { result ≡ self.now.service }
    {
        self.service
    }
}
