//! What a member answers without asking another one.
ghost use Rattle.std.specs.Prelude.{◌≡◌, false};
ghost use Rattle.zot_member.specs.Answering.{AnswersAlone, AnswersIn};
ghost use Rattle.zot_member.specs.Places.{is_foreign, place_by};
ghost use Rattle.zot_model.specs.Fits.{Fits, IsFitting};
ghost use Rattle.zot_model.specs.History.{IsNamed};
ghost use Rattle.zot_model.specs.Valid.{IsValid};
ghost use Rattle.zot_model.specs.declared.row.RowCall.TheVariants.{Ask};
ghost use Rattle.zot_model.specs.declared.row.RowReply.TheVariants as answers;
ghost use Rattle.zot_outside.specs.Moments.{StaysAt};

use crate::member::Member;
use crate::place::Place;
use std::alloc::Global;
use zot_model::{Reply, Request};
use zot_outside::{Clock, Store};
use zot_rows::Rows;

impl Member {
    /// The reply to a valid request for which no other member is to be asked. On a repository that this member owns the row of its name answers, at the moment that the clock gives. A request that was handed on to a member that doesn't own the repository is HOP_REFUSED, and nothing changes; nor does it for the base route.
    pub fn answer_alone<S: Store, T: Clock>(
        &self,
        alloc: Global,
        rows: &mut Rows<S>,
        clock: &mut T,
        request: &Request,
    ) -> Reply
        requires valid { IsValid request.now }
        requires alone { is_foreign (place_by self.now.config self.now.number request.now) ≡ false }
        ensures answers { AnswersAlone (place_by self.now.config self.now.number request.now) rows.old (T.moment clock.old) request.now result rows.new }
        ensures config { rows.new.config ≡ rows.old.config }
        ensures fits { Fits request.now result }
        ensures clock { StaysAt (T.moment clock.old) (T.moment clock.new) }
    {
        match self.place(request) {
            Place::Base => Reply::Base,
            Place::Own => answer_in(alloc, rows, clock, request),
            Place::Refused => Reply::hop_refused(),
            Place::Foreign(_) => unreachable!(),
        }
    }
}

// The reply of the row of a request's repository, at the moment that the clock gives.
fn answer_in<S: Store, T: Clock>(
    alloc: Global,
    rows: &mut Rows<S>,
    clock: &mut T,
    request: &Request,
) -> Reply
    requires { IsNamed (Ask request.now) }
    ensures answers { AnswersIn rows.old (T.moment clock.old) request.now result rows.new }
    ensures fits { IsFitting (Ask request.now) (answers.Reply result) }
    ensures clock { StaysAt (T.moment clock.old) (T.moment clock.new) }
{
    let moment = clock.now();
    rows.reply_to(alloc, request, moment)
}
