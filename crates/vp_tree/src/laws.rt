ghost use Rattle.std.specs.Prelude.{◌≡◌, List, [], ◌∷◌, ◌++◌, length, map};
ghost use Rattle.std.specs.List.{range_with_len};
ghost use Rattle.media_types.specs.declared.hash.Hash64.{Hash64};
ghost use Rattle.vp_tree.specs.declared.node.NodeView.{NodeView};
ghost use Rattle.vp_tree.specs.Building.{point_at, points};
ghost use Rattle.vp_tree.specs.Marking.{ArePlaced, IsGrown, MarkedTree};
ghost use Rattle.vp_tree.specs.Shape.{IsTree};

/// The branch at the root has all points, so that building it builds the whole tree. The call does nothing.
pub fn root_law()
    ensures { (ns : List NodeView) → IsTree ns → points ns 0 ≡ map (point_at ns) (range_with_len 0 (length ns)) }
{}

/// Placing words one after the other, told from the last one. The call does nothing.
pub fn placing_laws()
    ensures none { (tree : MarkedTree) → ArePlaced tree [] tree }
    ensures one_more { (old next new : MarkedTree) (words : List Hash64) (word : Hash64)
        → ArePlaced old words next → IsGrown next new word → ArePlaced old (words ++ word ∷ []) new }
{}
