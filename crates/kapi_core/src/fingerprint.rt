//! Which watches a change may concern, by fingerprints of a resource and a namespace.
ghost use Rattle.std.specs.Prelude.{◌≡◌, ◌++◌, false, IfSome, OnOk};
ghost use Rattle.std.specs.List.{flat_map, fold, list_any};
ghost use Rattle.kapi_core.specs.Fingerprints.{fingerprint_of, fingerprints, fnv_step, is_of_policy};
ghost use Rattle.kapi_store.specs.Lent.{changes_of};

use kapi_store::{Changes, Key};
use kapi_text::Memory;
use kapi_watch::WatchScope;
use std::alloc::Global;

/// The basis of FNV-1a (<http://www.isthe.com/chongo/tech/comp/fnv/>).
const BASIS: u64 = 14_695_981_039_346_656_037;

/// Above this many changes every watch is woken.
const MANY: usize = 64;

fn continued(hash: u64, text: &str) -> u64
    ensures { result ≡ fold fnv_step hash text.now }
{
    let mut hash = hash;
    for byte in text.as_bytes() {
        hash = (hash ^ u64::from(*byte)).wrapping_mul(1_099_511_628_211);
    }
    hash
}

// The fingerprint of a resource in a namespace, or in all if the text is empty. Others may have the same.
fn fingerprint(group: &str, resource: &str, namespace: &str) -> u64
    ensures { result ≡ fingerprint_of group.now resource.now namespace.now }
{
    continued(continued(continued(BASIS, group), resource), namespace)
}

/// The fingerprint of a scope.
pub fn fingerprint_of_scope(scope: &WatchScope) -> u64
    ensures { result ≡ fingerprint_of scope.now.row.group scope.now.row.plural scope.now.namespace }
{
    fingerprint(
        scope.row.group.as_str(),
        scope.row.plural.as_str(),
        scope.namespace.as_str(),
    )
}

fn add_fingerprints(numbers: &mut Vec<u64>, key: &Key) -> Result<(), Memory>
    ensures { OnOk result (numbers.new.items ≡ numbers.old.items ++ fingerprints key.now) }
{
    let (group, resource) = (key.group.as_str(), key.resource.as_str());
    numbers.push(fingerprint(group, resource, key.namespace.as_str()))?;
    numbers.push(fingerprint(group, resource, ""))?;
    Ok(())
}

/// The fingerprints of the watches that some changes may concern. None if any watch may be concerned: if a role or a
/// binding is among them, by which rights may have gone, if they are many, and where there is no memory for the list.
pub fn fingerprints_of(alloc: Global, changes: &Changes<'_>) -> Option<Vec<u64>>
    ensures listed { IfSome result (λ v. v.items ≡ flat_map (λ c. fingerprints c.key) (changes_of changes.now)) }
    ensures others { IfSome result (λ v. list_any (λ c. is_of_policy c.key) (changes_of changes.now) ≡ false) }
{
    if changes.len() > MANY {
        return None;
    }
    let mut numbers = Vec::new(alloc);
    for index in 0..changes.len() {
        let key = &changes.get(index)?.key;
        if key.group.as_str() == "rbac.authorization.k8s.io" {
            return None;
        }
        match add_fingerprints(&mut numbers, key) {
            Ok(()) => {}
            Err(_refused) => return None,
        }
    }
    Some(numbers)
}
