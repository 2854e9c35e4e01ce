//! From a message to its request, or to its refusal.
ghost use Rattle.std.specs.Prelude.{◌≡◌, ◌≤◌, length, IfOk};
ghost use Rattle.zot_model.specs.Fits.{Declines};
ghost use Rattle.zot_model.specs.Valid.{IsValid, body_limit};
ghost use Rattle.zot_route.specs.Calls.{CallOrRefusal};
ghost use Rattle.zot_route.specs.Routed.{IfRefused, IfRequest};
ghost use Rattle.zot_route.specs.Routes.{HidesAlike, Routes, RoutesPath, routed_as};
ghost use Rattle.zot_route.specs.Stops.{Gives};
ghost use Rattle.zot_route.specs.declared.routed.Routed.{Routed as ARouted};

use crate::lines::is_hop;
use crate::name::name;
use crate::parsed_head::ParsedHead;
use crate::path::Path;
use crate::reading::read_call;
use crate::routed::Routed;
use crate::stop::Stop;
use std::alloc::{AllocError, Global};
use zot_digest::Bytes;
use zot_model::{Call, Reply, Request};
use zot_names::RepoName;

/// What becomes of a message whose head and body are whole (OCI Distribution Specification, "Endpoints"): the request that it asks, or the refusal that comes first in this order: the path (404), the name (400), the method (405), digests, tags and queries (400 and 404), and the size of a manifest (413). The body isn't copied. It fails only where memory does.
pub fn route(alloc: Global, head: &ParsedHead, body: Vec<u8>) -> Result<Routed, AllocError>
    ensures outcome { IfOk result (Routes head.now body.items) }
    ensures only { (other : ARouted) → Routes head.now body.items other → IfOk result (λ routed. routed ≡ other) }

    // The request is valid where the body keeps its limit, and the refusal is one that a message may have.
    ensures valid { length body.items ≤ body_limit → IfOk result (λ routed. IfRequest routed IsValid) }
    ensures declines { IfOk result (λ routed. IfRefused routed Declines) }

    // On a repository, the call is one of HEAD just where the message's method is.
    ensures hides { IfOk result (λ routed. IfRequest routed (HidesAlike head.now)) }
{
    outcome(alloc, head, body)
}

// What becomes of the message.
fn outcome(alloc: Global, head: &ParsedHead, body: Vec<u8>) -> Result<Routed, AllocError>
    ensures { IfOk result (Routes head.now body.items) }
{
    let Some(segments) = head.target().segments(alloc)? else {
        return Ok(Routed::Refused(Reply::unsupported_path()));
    };
    match Path::read(segments.as_slice()) {
        Some(path) => route_path(alloc, &path, head, Bytes::new(body)),
        None => Ok(Routed::Refused(Reply::unsupported_path())),
    }
}

// What becomes of a message with that path.
fn route_path(
    alloc: Global,
    path: &Path,
    head: &ParsedHead,
    body: Bytes,
) -> Result<Routed, AllocError>
    ensures { IfOk result (RoutesPath path.now.0 path.now.1 path.now.2 head.now body) }
{
    let form = path.form();
    let Some(name) = name(alloc, form, path.name())? else {
        return Ok(Routed::Refused(Reply::name_invalid()));
    };
    let call = read_call(alloc, form, path.text(), head, body);
    routed(name, is_hop(head.fields()), call)
}

// The request with that name and call, or the refusal.
fn routed(name: Option<RepoName>, hop: bool, call: Result<Call, Stop>) -> Result<Routed, AllocError>
    ensures { IfOk result (λ routed. (given : CallOrRefusal) × Gives call given × (routed ≡ routed_as name hop given)) }
{
    match call {
        Ok(call) => Ok(Routed::Request(Request { name, call, hop })),
        Err(Stop::Refused(reply)) => Ok(Routed::Refused(reply)),
        Err(Stop::NoMemory) => Err(AllocError),
    }
}
