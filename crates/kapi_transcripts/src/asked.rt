//! The request on a line of a transcript.
ghost use Rattle.std.specs.Prelude.{◌≡◌, IfOk, option_map};
ghost use Rattle.kapi_transcripts.specs.Asked as asks;
ghost use Rattle.kapi_transcripts.specs.Asked.{attributes_of as attributes_of_line};

use crate::form::{Form, parse_form};
use crate::request::Request;
use kapi_http::Method;
use kapi_lines::as_text;
use kapi_request_info::{Attributes, InfoError, info};
use kapi_text::Memory;
use std::alloc::{AllocError, Global};

/// The method of this name; GET for any other than the five.
#[tactic(auto, unfolding(crate::specs::Asked::method_named))]
fn method_named(name: &[u8]) -> Method
    ensures { result ≡ asks.method_named name.now }
{
    if name == b"POST".as_slice() {
        Method::Post
    } else if name == b"PUT".as_slice() {
        Method::Put
    } else if name == b"PATCH".as_slice() {
        Method::Patch
    } else if name == b"DELETE".as_slice() {
        Method::Delete
    } else {
        Method::Get
    }
}

/// The attributes of a request; none if its target is none.
fn attributes_for(alloc: Global, request: &Request) -> Result<Option<Attributes>, Memory>
    ensures { IfOk result (λ o. o ≡ asks.attributes_for request.now) }
{
    let Some(target) = as_text(request.target.as_slice()) else {
        return Ok(None);
    };
    match info(alloc, method_named(request.method.as_slice()), target) {
        Ok(attributes) => Ok(Some(attributes)),
        Err(InfoError::Memory) => Err(AllocError),
        Err(_fault) => Ok(None),
    }
}

/// The attributes of the request on a line; none if the line is no request, or its target is none.
pub fn attributes_of(alloc: Global, line: &[u8]) -> Result<Option<Attributes>, Memory>
    ensures { IfOk result (λ o. o ≡ attributes_of_line line.now) }
{
    match parse_form(alloc, line)? {
        Form::Request(request) => attributes_for(alloc, &request),
        _ => Ok(None),
    }
}
