//! The calls on a table of repositories, and its answers.
ghost use Rattle.std.specs.Prelude.{◌≡◌};
ghost use Rattle.zot_model.specs.declared.row.RowCall.TheVariants as calls;
ghost use Rattle.zot_model.specs.declared.row.RowReply.TheVariants as answers;

use crate::reply::Reply;
use crate::request::Request;

/// A call on a table of repositories.
#[derive(Debug, Drop, PartialEq, Eq)]
pub enum RowCall {
    /// A request of a client.
    Ask(Request),
}

impl RowCall {
    /// The request of a client.
    pub fn request(&self) -> &Request
        ensures { self.now ≡ calls.Ask result.now }
    {
        match self {
            RowCall::Ask(request) => request,
        }
    }
}

/// What a table answers to a call.
#[derive(Debug, Drop, PartialEq, Eq)]
pub enum RowReply {
    /// The reply to a request.
    Reply(Reply),
}

impl RowReply {
    /// The reply to a request.
    pub fn into_reply(self) -> Reply
        ensures { self ≡ answers.Reply result }
    {
        match self {
            RowReply::Reply(reply) => reply,
        }
    }
}
