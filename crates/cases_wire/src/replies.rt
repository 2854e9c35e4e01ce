//! Replies read and spelled.
ghost use Rattle.zot_model.specs.Fits.{Declines};

use crate::requests::received;
use zot_cases::{Answer, cut};
use zot_model::{Methods, Reply, Request, fits};
use zot_names::{TagList, UploadId};
use zot_reply::read_reply;
use zot_spell::{join_head, spell_head, spell_reply, split_reply};

/// `REQUEST ~ BYTES`: the reply to a request that bytes are, which is spelled as they are.
pub fn reply(answer: &mut Answer, given: &str) {
    let (message, text) = cut(given, " ~ ");
    let message = answer.read(message);
    let bytes = answer.read(text);
    let Some(request) = received(answer.alloc(), message.as_slice()) else {
        return answer.fail("no request");
    };
    match read_reply(answer.alloc(), &request, bytes.as_slice()) {
        Ok(reply) => {
            answer.show(&reply);
            let close = text.contains("Connection: close");
            let spelled = spell(answer, &request, &reply, request.call.is_head(), close);
            answer.confirm(spelled == bytes, "spelled otherwise");
        }
        Err(error) => answer.show(&error),
    }
}

/// `KIND ~ REQUEST`: the bytes of a reply that no bytes are read as, or of a refusal of a message that asks for nothing.
pub fn made(answer: &mut Answer, given: &str) {
    let (kind, message) = cut(given, " ~ ");
    match kind {
        "not_allowed" => decline(answer, &Reply::not_allowed(Methods::Upload)),
        "head_too_long" => decline(answer, &Reply::head_too_long()),
        "base_head" => make(answer, message, &Reply::Base, true),
        "begun" => {
            let (id, length, status) = (UploadId::new(1), 0, 202);
            make(
                answer,
                message,
                &Reply::Session { id, length, status },
                false,
            );
        }
        "last_page" => {
            let (tags, next, n) = (TagList::new(Vec::new(answer.alloc())), None, 7);
            make(answer, message, &Reply::Tags { tags, next, n }, false);
        }
        _ => answer.fail("no such reply"),
    }
}

// The bytes of a reply to a message.
fn make(answer: &mut Answer, message: &str, reply: &Reply, head: bool) {
    let message = answer.read(message);
    if let Some(request) = received(answer.alloc(), message.as_slice()) {
        let bytes = spell(answer, &request, reply, head, false);
        answer.write(bytes.as_slice());
    }
}

// The bytes of a refusal of a message that asks for nothing, before the connection closes.
fn decline(answer: &mut Answer, reply: &Reply)
    requires { Declines reply.now }
{
    match spell_reply(answer.alloc(), None, reply, false, true) {
        Ok(bytes) => answer.write(bytes.as_slice()),
        Err(_) => answer.fail("out of memory"),
    }
}

/// The bytes of a reply, which begin with its head.
pub fn spell(
    answer: &mut Answer,
    request: &Request,
    reply: &Reply,
    head: bool,
    close: bool,
) -> Vec<u8> {
    let alloc = answer.alloc();
    if !fits(request, reply) {
        answer.fail("a reply that doesn't fit");
        return Vec::new(alloc);
    }
    let front = spell_head(alloc, Some(request), reply, close);
    let front = answer.keep(front, Vec::new(alloc));
    let bytes = spell_reply(alloc, Some(request), reply, head, close);
    let bytes = answer.keep(bytes, Vec::new(alloc));
    answer.confirm(
        bytes.as_slice().starts_with(front.as_slice()),
        "another head",
    );
    bytes
}

/// The status and the number of fields of bytes taken apart, which are joined again.
pub fn split(answer: &mut Answer, given: &str) {
    let alloc = answer.alloc();
    let bytes = answer.read(given);
    let Some(split) = split_reply(alloc, bytes.as_slice()).unwrap_or(None) else {
        return answer.say("bad");
    };
    let joined = join_head(alloc, split.status, split.fields.as_slice());
    let mut joined = answer.keep(joined, Vec::new(alloc));
    answer.keep(joined.extend_from_slice(split.body), ());
    answer.confirm(joined == bytes, "joined otherwise");
    answer.show(&(split.status, split.fields.len()));
}
