ghost use Rattle.std.specs.Prelude.{IfOk};
ghost use Rattle.kapi_request_info.specs.Attributes.{info as info_of};
ghost use Rattle.kapi_request_info.specs.Given.{GivesInfo};
ghost use Rattle.kapi_request_info.specs.Slashes.{HasNoSlash};

use crate::path::ascii_segments;
use crate::query::{QueryPair, query_pairs};
use crate::resource::attributes_by;
use crate::target::split_target;
use kapi_http::Method;
use kapi_rules::Point;
use kapi_text::{Memory, Sequence, Text, TryCopy};
use std::alloc::{AllocError, AllocFailed, Global};
use thiserror::Error;

/// The attributes of a request, from its method and target (Kubernetes, 'Authorization Overview', request attributes).
#[derive(Drop)]
pub struct Attributes {
    /// The namespace, empty if the request is about none.
    pub namespace: Text,
    pub point: Point,
    /// The version, empty if the request is about no resource.
    pub version: Text,
    /// How many segments the path has from the resource on; 0 if the request is about no resource.
    pub parts: usize,
    /// All pairs of the query, decoded, in order.
    pub query: Sequence<QueryPair>,
}

impl TryCopy for Attributes {
    fn copy(&self, alloc: Global) -> Result<Attributes, AllocError> {
        Ok(Attributes {
            namespace: self.namespace.copy(alloc)?,
            point: self.point.copy(alloc)?,
            version: self.version.copy(alloc)?,
            parts: self.parts,
            query: self.query.copy(alloc)?,
        })
    }
}

/// Why a request has no attributes, in the order in which the faults are looked for.
#[derive(Clone, Copy, Debug, PartialEq, Eq, Error)]
pub enum InfoError {
    /// The target is no path of segments that name something (RFC 9112 section 3.2; RFC 3986 section 3.3).
    #[error("the target is no path")]
    BadPath,
    /// A `%` of the path has no two hexadecimal digits behind it, or a segment is no UTF-8 (RFC 3986 section 2.1).
    #[error("the path has a bad escape")]
    BadEscape,
    /// A collection is to be watched or not by a value that is no Boolean.
    #[error("a query value is no Boolean")]
    BadQuery,
    /// An allocation fails.
    #[error("out of memory")]
    Memory,
}

impl From<Memory> for InfoError {
    ghost use Rattle.std.specs.Prelude.{◌≡◌};
    ghost use Rattle.kapi_request_info.specs.declared.attributes.InfoError.TheVariants.{Memory as NoMemory};

    ghost from_gives = { λ _ e. e ≡ NoMemory };

    fn from(_error: Memory) -> InfoError {
        InfoError::Memory
    }
}

impl<T: Drop> From<AllocFailed<T>> for InfoError {
    ghost use Rattle.std.specs.Prelude.{◌≡◌};
    ghost use Rattle.kapi_request_info.specs.declared.attributes.InfoError.TheVariants.{Memory as NoMemory};

    ghost from_gives = { λ _ e. e ≡ NoMemory };

    fn from(_error: AllocFailed<T>) -> InfoError {
        InfoError::Memory
    }
}

/// The attributes of a request, or the first fault of its target. A resource and a subresource have no slash.
#[tactic(auto, using(crate::proofs::Queries::path_is_ascii), unfolding(crate::specs::Attributes::info))]
pub fn info(alloc: Global, method: Method, target: &str) -> Result<Attributes, InfoError>
    ensures exact { GivesInfo result (info_of method target.now) }
    ensures slashless { IfOk result (λ a. HasNoSlash a.point) }
{
    let (path, query) = split_target(target.as_bytes())?;
    let segments = ascii_segments(alloc, path)?;
    let query = query_pairs(alloc, query)?;
    attributes_by(alloc, method, path, segments.as_slice(), query)
}
