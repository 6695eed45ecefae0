//! Copies of maps.
ghost use Rattle.std.specs.Prelude.{◌≡◌, IfOk};

use kapi_text::{Memory, TryCopy};
use std::alloc::Global;
use std::collections::BTreeMap;

/// An owned map with the same entries.
pub fn copy_map<K: Ord + TryCopy + Drop, V: TryCopy + Drop>(
    alloc: Global,
    map: &BTreeMap<K, V>,
) -> Result<BTreeMap<K, V>, Memory>
    ensures { IfOk result (λ m. m.entries ≡ map.now.entries) }
{
    let mut copied = BTreeMap::new(alloc);
    for (key, value) in map {
        drop(copied.insert(key.copy(alloc)?, value.copy(alloc)?)?);
    }
    Ok(copied)
}
