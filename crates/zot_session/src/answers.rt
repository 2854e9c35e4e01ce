//! What answers the requests of a connection.
ghost use Rattle.zot_model.specs.Fits.{Fits};
ghost use Rattle.zot_model.specs.Valid.{IsValid};

use std::alloc::Global;
use zot_model::{Reply, Request};

/// What answers requests, one after another.
pub trait Answers {
    ghost use Rattle.zot_model.specs.declared.reply.Reply.{Reply};
    ghost use Rattle.zot_model.specs.declared.request.Request.{Request};

    // From the old state a request may be answered so, and leads to the new state.
    ghost answers: { Self → Request → Reply → Self → Type 0 };

    /// The reply to a valid request, which fits it.
    fn answer(&mut self, alloc: Global, request: &Request) -> Reply
        requires { IsValid request.now }
        ensures meets { answers self.old request.now result self.new }
        ensures fits { Fits request.now result };
}
