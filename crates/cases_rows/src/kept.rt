//! What rows have that are opened anew.
use crate::cluster::opened_over;
use crate::pushes::Plan;
use crate::table::reply_of;
use std::alloc::Global;
use zot_cases::Answer;
use zot_digest::digest_of;
use zot_media::Reference;
use zot_model::{Call, Reply, Request};
use zot_noting::NotingStore;
use zot_outside::Parts;
use zot_rows::Rows;

/// Opens rows over parts, which have to have all that the first requests of a plan stored, so many, and nothing that they deleted.
pub fn check_kept(answer: &mut Answer, plan: &Plan, parts: Parts<NotingStore>, count: usize) {
    let Some(mut rows) = opened_over(answer, parts, &plan.setup) else {
        return;
    };
    for (request, reply) in plan.requests.iter().zip(&plan.replies).take(count) {
        check_one(answer, &mut rows, request, reply);
    }
}

// The rows have what a request stored that was answered so, and nothing that it deleted.
fn check_one(answer: &mut Answer, rows: &mut Rows<NotingStore>, request: &Request, reply: &Reply) {
    match reply {
        Reply::BlobMade { digest } => check_look(
            answer,
            rows,
            request,
            reply,
            Call::GetBlob(*digest),
        ),
        Reply::ManifestMade { digest, .. } => {
            check_named(answer, rows, request, reply);
            let call = Call::GetManifest(Reference::Digest(*digest));
            check_look(answer, rows, request, reply, call);
        }
        Reply::Deleted => check_named(answer, rows, request, reply),
        _ => {}
    }
}

// The same of what the request names.
fn check_named(
    answer: &mut Answer,
    rows: &mut Rows<NotingStore>,
    request: &Request,
    reply: &Reply,
) {
    match named(answer.alloc(), &request.call) {
        Some(call) => check_look(answer, rows, request, reply, call),
        None => answer.fail("nothing to look at; "),
    }
}

// The GET of what a call names.
fn named(alloc: Global, call: &Call) -> Option<Call> {
    match call.copy(alloc).ok()? {
        Call::PutManifest { reference, .. } => Some(Call::GetManifest(reference)),
        Call::DeleteManifest(reference) => Some(Call::GetManifest(reference)),
        Call::DeleteBlob(digest) => Some(Call::GetBlob(digest)),
        _ => None,
    }
}

// A GET of the request's repository gives what was stored, or nothing where it was deleted.
fn check_look(
    answer: &mut Answer,
    rows: &mut Rows<NotingStore>,
    request: &Request,
    reply: &Reply,
    call: Call,
) {
    let name = match &request.name {
        Some(name) => name.copy(answer.alloc()).ok(),
        None => None,
    };
    let look = Request {
        name,
        call,
        hop: false,
    };
    let came = reply_of(answer, rows, &look, 0);
    answer.confirm(is_kept(reply, &came), "not kept; ");
}

// Whether a GET gives what was stored where it was answered so.
fn is_kept(reply: &Reply, came: &Reply) -> bool {
    match reply {
        Reply::BlobMade { digest } => match came {
            Reply::Blob {
                digest: found,
                bytes,
            } => found == digest && digest_of(bytes.as_slice()) == *digest,
            _ => false,
        },
        Reply::ManifestMade { digest, .. } => match came {
            Reply::Manifest {
                digest: found,
                bytes,
                ..
            } => found == digest && digest_of(bytes.as_slice()) == *digest,
            _ => false,
        },
        _ => *came == Reply::blob_unknown() || *came == Reply::manifest_unknown(),
    }
}
