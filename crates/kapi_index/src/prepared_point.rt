//! Points with their words prepared.
ghost use Rattle.std.specs.Prelude.{◌≡◌};
ghost use Rattle.kapi_index.specs.Points.{point_of};

use crate::marks::{Joined, MarkedWord};
use kapi_rules::{Point, ResourcePoint, UrlPoint};
use std::marker::Model;

/// A request that is checked against rules. Contracts see it as its point.
#[derive(Drop)]
pub enum PreparedPoint<'a> {
    Resource(PreparedResource<'a>),
    Url(PreparedUrl<'a>),
}

/// A point of a resource, and its words. `own` is `RESOURCE/SUBRESOURCE`, and `any` is `*/SUBRESOURCE`.
#[derive(Drop)]
pub struct PreparedResource<'a> {
    point: &'a ResourcePoint,
    pub(crate) verb: MarkedWord<'a>,
    pub(crate) group: MarkedWord<'a>,
    pub(crate) resource: MarkedWord<'a>,
    pub(crate) own: Joined<'a>,
    pub(crate) any: Joined<'a>,
    pub(crate) name: MarkedWord<'a>,
}

impl<'a> Model for PreparedResource<'a> {
    ghost use Rattle.kapi_rules.specs.declared.point.ResourcePoint.{ResourcePoint};
    ghost use Rattle.kapi_index.specs.PreparedPoint.{IsAsked};

    ghost Value = { ResourcePoint };

    ghost view = { λ a. a.point.now };

    ghost invariant = { λ a. IsAsked a.point.now a.verb a.group a.resource a.own a.any a.name };
}

/// A point of a URL, and its verb.
#[derive(Drop)]
pub struct PreparedUrl<'a> {
    pub(crate) point: &'a UrlPoint,
    pub(crate) verb: MarkedWord<'a>,
}

impl<'a> Model for PreparedUrl<'a> {
    ghost use Rattle.std.specs.Prelude.{◌≡◌};
    ghost use Rattle.kapi_rules.specs.declared.point.UrlPoint.{UrlPoint};

    ghost Value = { UrlPoint };

    ghost view = { λ a. a.point.now };

    ghost invariant = { λ a. a.verb ≡ a.point.now.verb };
}

impl PreparedResource<'_> {
    ghost use Rattle.std.specs.Prelude.{◌≡◌, ◌==◌, length, not};

    /// Whether a subresource is asked for.
    pub(crate) fn has_subresource(&self) -> bool
        ensures { result ≡ not (length self.now.subresource == 0) }
    {
        !self.point.subresource.as_str().is_empty()
    }
}

fn ask_resource<'a>(point: &'a ResourcePoint) -> PreparedResource<'a>
    ensures { result ≡ point.now }
{
    PreparedResource {
        point,
        verb: MarkedWord::of(point.verb.as_str()),
        group: MarkedWord::of(point.group.as_str()),
        resource: MarkedWord::of(point.resource.as_str()),
        own: Joined::of(point.resource.as_str(), point.subresource.as_str()),
        any: Joined::of("*", point.subresource.as_str()),
        name: MarkedWord::of(point.name.as_str()),
    }
}

fn ask_url<'a>(point: &'a UrlPoint) -> PreparedUrl<'a>
    ensures { result ≡ point.now }
{
    PreparedUrl {
        point,
        verb: MarkedWord::of(point.verb.as_str()),
    }
}

/// Prepares a point. Allocates nothing.
pub fn ask<'a>(point: &'a Point) -> PreparedPoint<'a>
    ensures { point_of result ≡ point.now }
{
    match point {
        Point::Resource(point) => PreparedPoint::Resource(ask_resource(point)),
        Point::Url(point) => PreparedPoint::Url(ask_url(point)),
    }
}
