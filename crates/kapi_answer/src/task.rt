use crate::query::Filter;
use kapi_model::{Identity, ResourceRow};

/// A resource request: the identity, the resource type, the namespace and the name of the path, the filter and the body.
#[derive(Clone, Copy)]
pub struct Task<'a> {
    pub identity: &'a Identity,
    pub row: &'a ResourceRow,
    /// Empty for a cluster-scoped resource type, and for a collection of all namespaces.
    pub namespace: &'a str,
    /// Empty for a collection.
    pub name: &'a str,
    /// Which objects of a collection are asked for.
    pub filter: &'a Filter,
    pub body: &'a [u8],
}
