//! What answers the requests of a connection at a member.
ghost use Rattle.std.specs.Prelude.{◌≡◌, ◌<◌, IfSome};
ghost use Rattle.zot_cluster.specs.Connections.{IsConducted, KeepsRows};
ghost use Rattle.zot_session.specs.Causes.{Causes};
ghost use Rattle.zot_session.specs.Ends.{EndsAs, HasFailed};
ghost use Rattle.zot_session.specs.Session.{Served};
ghost use Rattle.zot_session.specs.declared.end.End.TheVariants as ends;

use std::alloc::Global;
use zot_member::answer_at;
use zot_model::{Reply, Request};
use zot_outside::{Clock, Gate, Sink, Source, Store};
use zot_pool::Upstream;
use zot_rows::Rows;
use zot_session::{Answers, End, session};

/// Answers the requests of a connection at a member, by the rows of all, at the moments of a clock. It borrows all of these.
#[derive(Drop)]
pub struct MemberAnswers<'a, S: Store, U: Upstream, T: Clock, G: Gate> {
    pub(crate) rows: &'a mut Rows<S>,
    pub(crate) scratch: &'a mut S,
    pub(crate) upstream: &'a mut U,
    pub(crate) clock: &'a mut T,
    pub(crate) gate: &'a G,
    pub(crate) member: u32,
    ghost below: { member < rows.now.config.members },
}

impl<S: Store, U: Upstream, T: Clock, G: Gate> Answers for MemberAnswers<'_, S, U, T, G> {
    ghost use Rattle.std.specs.Prelude.{◌≡◌};
    ghost use Rattle.zot_cluster.specs.Connections.{AnswersAt};

    ghost answers = { λ old request reply new. AnswersAt (T.moment old.clock.now) (T.moment new.clock.now) old.member old.rows.now request reply new.rows.now
        × (new.member ≡ old.member) × (new.scratch.now ≡ old.scratch.now) × (new.upstream.now ≡ old.upstream.now)
        × (new.rows.ghost_name ≡ old.rows.ghost_name) × (new.scratch.ghost_name ≡ old.scratch.ghost_name) × (new.upstream.ghost_name ≡ old.upstream.ghost_name) × (new.clock.ghost_name ≡ old.clock.ghost_name) };

    fn answer(&mut self, alloc: Global, request: &Request) -> Reply {
        answer_at(
            alloc,
            self.rows,
            self.scratch,
            self.upstream,
            self.clock,
            self.gate,
            self.member,
            request,
        )
    }
}

impl<S: Store, U: Upstream, T: Clock, G: Gate> MemberAnswers<'_, S, U, T, G> {
    /// Serves a connection over what is borrowed.
    pub fn serve<C: Source, K: Sink>(&mut self, alloc: Global, source: &mut C, sink: &mut K) -> End
        ensures rows_named { self.new.rows.ghost_name ≡ self.old.rows.ghost_name }
        ensures scratch_named { self.new.scratch.ghost_name ≡ self.old.scratch.ghost_name }
        ensures upstream_named { self.new.upstream.ghost_name ≡ self.old.upstream.ghost_name }
        ensures clock_named { self.new.clock.ghost_name ≡ self.old.clock.ghost_name }
        ensures scratch { self.new.scratch.now ≡ self.old.scratch.now }
        ensures upstream { self.new.upstream.now ≡ self.old.upstream.now }
        ensures kept { KeepsRows (T.moment self.old.clock.now) (T.moment self.new.clock.now) self.old.rows.now self.new.rows.now }
        ensures served { Served (λ exchanges. IsConducted self.old.rows.now self.old.member (T.moment self.old.clock.now) (T.moment self.new.clock.now) exchanges self.new.rows.now) result (C.left source.old) (C.left source.new) (K.held sink.old) (K.held sink.new) }
        ensures of_bytes { ¬ HasFailed result → IfSome (C.left source.old) (λ bytes. EndsAs bytes result) }
        ensures causes { Causes (result ≡ ends.ReadFault) (result ≡ ends.WriteFault) (C.faults source.old) (C.faults source.new) (K.faults sink.old) (K.faults sink.new) }
    {
        session(alloc, self, source, sink)
    }
}
