ghost use Rattle.std.specs.Prelude.{◌≡◌, ◌≤◌, ◌+◌, length};
ghost use Rattle.display_cache.specs.Drafting.{with_value, with_values};

use crate::support::Support;
use spare_tables::{Key, KeyMap};

/// Sets the values of keys in the room that was made. A value of nothing has no row.
pub fn write_all<K: Key>(map: &mut KeyMap<K, Support>, changes: &[(K, Support)])
    requires { length changes.now ≤ map.old.spare }
    ensures { map.new.rows ≡ with_values K.cmp changes.now map.old.rows }
{
    for (key, value) in changes {
        write(map, *key, *value);
    }
}

// Sets the value of a key in the room that was made, or takes the row out.
fn write<K: Key>(map: &mut KeyMap<K, Support>, key: K, value: Support)
    requires { 1 ≤ map.old.spare }
    ensures rows { map.new.rows ≡ with_value K.cmp map.old.rows key value }
    ensures spare { map.old.spare ≤ map.new.spare + 1 }
{
    if value.is_nothing() {
        map.take(key);
    } else {
        map.insert(key, value);
    }
}
