ghost use Rattle.std.specs.Prelude.{◌≡◌, ◌<◌, ◌↔◌, IsTrue, IfSome};
ghost use Rattle.relation_groups.specs.Reading.{relations_in, size_of};
ghost use Rattle.spare_tables.specs.Pairs.{IsBefore};
ghost use Rattle.potential_pairs.specs.Levels.{IsName};
ghost use Rattle.potential_pairs.specs.Naming.{name_of};
ghost use Rattle.potential_pairs.specs.Potential.{may_pair};

use media_types::FileNo;
use relation_groups::Groups;

/// Whether the one name comes before the other.
pub fn is_before(x: (u32, u32), y: (u32, u32)) -> bool
    ensures { IsTrue result ↔ IsBefore x y }
{
    x.0 < y.0 || (x.0 == y.0 && x.1 < y.1)
}

/// Whether the groups of two kings may be a potential pair of this name.
fn may_pair(groups: &Groups, j: FileNo, k: FileNo) -> bool
    requires j_known { j.0 < size_of groups.now }
    requires k_known { k.0 < size_of groups.now }
    ensures { result ≡ may_pair (relations_in groups.now) j.0 k.0 }
{
    j.0 < k.0
        && groups.king_of(j).0 == j.0
        && groups.king_of(k).0 == k.0
        && groups.class_of(j).0 != groups.class_of(k).0
        && !groups.is_not_related(j, k)
}

/// The name of the potential pair that two near files make of their groups, or none where these can't be
/// a pair.
pub fn name_of(groups: &Groups, f: FileNo, g: FileNo) -> Option<(u32, u32)>
    requires f_known { f.0 < size_of groups.now }
    requires g_known { g.0 < size_of groups.now }
    ensures name { result ≡ name_of (relations_in groups.now) f.0 g.0 }
    ensures known { IfSome result IsName }
{
    // A king is one of the files, of which there are few.
    let _files = groups.len();
    let j = groups.king_of(f);
    let k = groups.king_of(g);
    if j.0 < k.0 {
        may_pair(groups, j, k).then_some((j.0, k.0))
    } else {
        may_pair(groups, k, j).then_some((k.0, j.0))
    }
}
