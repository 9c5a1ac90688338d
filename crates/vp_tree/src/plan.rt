use crate::node::NodeView;
use media_types::{Hash64, HashNo};

/// A word that is to be inserted, for which the tree has made room. Dropping it changes nothing.
#[derive(Debug, Drop)]
pub struct InsertPlan {
    pub(crate) word: Hash64,
}

/// A branch that is to be built anew, and its nodes once it is. Dropping it changes nothing.
#[derive(Debug, Drop)]
pub struct BuildPlan {
    pub(crate) top: HashNo,
    pub(crate) nodes: Vec<(HashNo, NodeView)>,
}
