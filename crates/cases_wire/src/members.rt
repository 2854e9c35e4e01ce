//! Members of a cluster, asked for what they own and for what they don't.
ghost use Rattle.std.specs.Prelude.{◌≡◌, ◌<◌, IfSome, length};
ghost use Rattle.zot_model.specs.Valid.{IsValid};

use crate::peers::peer_of;
use crate::replies::spell;
use crate::requests::received;
use std::alloc::Global;
use zot_cases::{Answer, cut};
use zot_fakes::{HandClock, SteadyStore};
use zot_member::{Member, answer_at};
use zot_model::{Reply, Request};
use zot_outside::OpenGate;
use zot_pool::MemoryUpstream;
use zot_proxy::MemoryPeer;
use zot_repo::RowConfig;
use zot_rows::Rows;
use zot_siphash::owner_of;
use zot_spell::split_reply;

/// The key of the clusters.
const KEY: [u8; 16] = [0; 16];

/// `MESSAGE; MESSAGE; ..`: the statuses of the replies to the requests of messages that come, one after another, to the member that doesn't own the repository. The owner of it in a second cluster, to which the same come, replies with the same bytes.
pub fn through(answer: &mut Answer, given: &str) {
    let alloc = answer.alloc();
    let (Some(mut foreign), Some(mut own)) = (cluster(alloc), cluster(alloc)) else {
        return answer.fail("no cluster");
    };
    for message in given.split("; ") {
        answer.begin();
        let message = answer.read(message);
        match received(alloc, message.as_slice()) {
            Some(request) => compare(answer, &mut foreign, &mut own, &request),
            None => answer.fail("no request"),
        }
    }
}

/// `PLACE MESSAGE; PLACE MESSAGE; ..`: the replies to the requests of messages that come, one after another, to the owner of the repository or to the other member.
pub fn members(answer: &mut Answer, given: &str) {
    let alloc = answer.alloc();
    let Some(mut rows) = cluster(alloc) else {
        return answer.fail("no cluster");
    };
    for step in given.split("; ") {
        answer.begin();
        let (place, message) = cut(step, " ");
        let message = answer.read(message);
        match received(alloc, message.as_slice()) {
            Some(request) => match ask(alloc, &mut rows, number_at(place, &request), &request) {
                Some(reply) => answer.show(&reply),
                None => answer.fail("no such member"),
            },
            None => answer.fail("no request"),
        }
    }
}

/// `PLACE NUMBERS ~ REPLIES ~ MESSAGE`: the replies to the request of a message that comes three times to the owner of the repository or to the other member, whose peers give these replies and fail the asks of these numbers; and how often they were asked.
pub fn asking(answer: &mut Answer, given: &str) {
    let alloc = answer.alloc();
    let (place, more) = cut(given, " ");
    let (numbers, more) = cut(more, " ~ ");
    let (replies, message) = cut(more, " ~ ");
    let message = answer.read(message);
    let Some(request) = received(alloc, message.as_slice()) else {
        return answer.fail("no request");
    };
    let (Ok(mut peer), Some(mut rows)) = (peer_of(answer, numbers, replies), cluster(alloc)) else {
        return answer.fail("out of memory");
    };
    let member = Member::new(config(), number_at(place, &request));
    for _ in 0..3 {
        answer.begin();
        let reply = ask_by(alloc, &member, &mut rows, &mut peer, &request);
        answer.show(&reply);
    }
    answer.begin();
    answer.tell(&peer.asked().len());
    see_asked(answer, &peer, &request);
}

// Each ask was one of the owner, for the same with its hop.
fn see_asked(answer: &mut Answer, peer: &MemoryPeer, request: &Request) {
    let owner = number_at("owner", request);
    for asked in peer.asked() {
        answer.confirm(asked.member == owner, "another member");
        answer.confirm(asked.request.hop, "asked without the hop");
        answer.confirm(asked.request.name == request.name, "another name");
        answer.confirm(asked.request.call == request.call, "another call");
    }
}

// The status of the reply through the member that doesn't own the repository, which has the bytes of the owner's in another cluster.
fn compare(
    answer: &mut Answer,
    foreign: &mut Rows<SteadyStore>,
    own: &mut Rows<SteadyStore>,
    request: &Request,
)
    requires { IsValid request.now }
{
    let alloc = answer.alloc();
    let through = ask(alloc, foreign, number_at("other", request), request);
    let direct = ask(alloc, own, number_at("owner", request), request);
    let (Some(through), Some(direct)) = (through, direct) else {
        return answer.fail("no such member");
    };
    let through = spell(answer, request, &through, request.call.is_head(), false);
    let direct = spell(answer, request, &direct, request.call.is_head(), false);
    answer.confirm(through == direct, "other bytes than the owner's; ");
    match split_reply(alloc, through.as_slice()) {
        Ok(Some(split)) => answer.tell(&split.status),
        _ => answer.fail("no reply"),
    }
}

// The reply of a member of the cluster, if it is one.
fn ask(alloc: Global, rows: &mut Rows<SteadyStore>, member: u32, request: &Request) -> Option<Reply>
    requires { IsValid request.now }
{
    if member >= rows.config().members {
        return None;
    }
    let mut scratch = SteadyStore::new(alloc);
    let mut upstream = MemoryUpstream::empty();
    let mut clock = HandClock::new(7);
    Some(answer_at(
        alloc,
        rows,
        &mut scratch,
        &mut upstream,
        &mut clock,
        &OpenGate,
        member,
        request,
    ))
}

// The reply of a member over these rows and with these peers.
fn ask_by(
    alloc: Global,
    member: &Member,
    rows: &mut Rows<SteadyStore>,
    peer: &mut MemoryPeer,
    request: &Request,
) -> Reply
    requires { IsValid request.now }
{
    let mut scratch = SteadyStore::new(alloc);
    let mut upstream = MemoryUpstream::empty();
    let mut clock = HandClock::new(7);
    member.answer(
        alloc,
        rows,
        peer,
        &mut scratch,
        &mut upstream,
        &mut clock,
        &OpenGate,
        request,
    )
}

// The number of the owner of the request's repository, or of the other member.
fn number_at(place: &str, request: &Request) -> u32
    ensures { result < 2 }
{
    let owns = place == "owner";
    match &request.name {
        Some(name) if (owner_of(&KEY, name.as_slice(), 2) == 1) == owns => 1,
        _ => 0,
    }
}

// The configuration of a cluster of two members.
fn config() -> RowConfig
    ensures { result.members ≡ 2 }
{
    RowConfig {
        members: 2,
        key: KEY,
    }
}

// The rows of a cluster of two members, with dedupe, over empty parts.
fn cluster(alloc: Global) -> Option<Rows<SteadyStore>> {
    let (Some(parts), Some(shards)) = (stores(alloc), stores(alloc)) else {
        return None;
    };
    Rows::open(alloc, config(), parts, shards, true, 0).ok()
}

// Sixteen empty stores.
fn stores(alloc: Global) -> Option<Vec<SteadyStore>>
    ensures { IfSome result (λ stores. length stores.items ≡ 16) }
{
    let mut stores = Vec::new(alloc);
    for _ in 0..16 {
        if stores.push(SteadyStore::new(alloc)).is_err() {
            return None;
        }
    }
    if stores.len() == 16 {
        Some(stores)
    } else {
        None
    }
}
