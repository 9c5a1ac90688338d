ghost use Rattle.std.specs.Prelude.{◌≡◌, ◌≤◌, not, filter};
ghost use Rattle.vp_tree.specs.Building.{is_built};

use media_types::HashNo;
use spare_tables::KeySet;
use vp_tree::NodeView;

/// Takes the marks of these nodes away.
pub fn unmark(marks: &mut KeySet<u32>, nodes: &[(HashNo, NodeView)])
    ensures rows { marks.new.rows ≡ filter (λ m. not (is_built nodes.now m)) marks.old.rows }
    ensures spare { marks.old.spare ≤ marks.new.spare }
{
    if marks.len() == 0 {
        return;
    }
    for (number, _node) in nodes {
        marks.remove(number.0);
    }
}
