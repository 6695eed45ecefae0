use kapi_text::{Text, TryCopy};
use std::alloc::{AllocError, Global};

/// What a request asks to do (Kubernetes, 'Authorization Overview', request attributes).
#[derive(Drop)]
pub enum Point {
    Resource(ResourcePoint),
    Url(UrlPoint),
}

/// A verb on a resource. The group is empty for the core group, the subresource and the name if there is none.
#[derive(Drop)]
pub struct ResourcePoint {
    pub verb: Text,
    pub group: Text,
    pub resource: Text,
    pub subresource: Text,
    pub name: Text,
}

/// A verb on a path that names no resource.
#[derive(Drop)]
pub struct UrlPoint {
    pub verb: Text,
    pub path: Text,
}

impl TryCopy for ResourcePoint {
    fn copy(&self, alloc: Global) -> Result<ResourcePoint, AllocError> {
        Ok(ResourcePoint {
            verb: self.verb.copy(alloc)?,
            group: self.group.copy(alloc)?,
            resource: self.resource.copy(alloc)?,
            subresource: self.subresource.copy(alloc)?,
            name: self.name.copy(alloc)?,
        })
    }
}

impl TryCopy for UrlPoint {
    fn copy(&self, alloc: Global) -> Result<UrlPoint, AllocError> {
        Ok(UrlPoint {
            verb: self.verb.copy(alloc)?,
            path: self.path.copy(alloc)?,
        })
    }
}

impl TryCopy for Point {
    fn copy(&self, alloc: Global) -> Result<Point, AllocError> {
        match self {
            Point::Resource(point) => Ok(Point::Resource(point.copy(alloc)?)),
            Point::Url(point) => Ok(Point::Url(point.copy(alloc)?)),
        }
    }
}
