//! A connection at a member of a cluster.
ghost use Rattle.std.specs.Prelude.{◌≡◌, ◌<◌, IfSome, length};
ghost use Rattle.zot_cluster.specs.Connections.{IsConducted};
ghost use Rattle.zot_session.specs.Causes.{Causes};
ghost use Rattle.zot_session.specs.Ends.{EndsAs, HasFailed};
ghost use Rattle.zot_session.specs.Session.{Served};
ghost use Rattle.zot_session.specs.declared.end.End.TheVariants as ends;

use crate::answering::MemberAnswers;
use crate::cluster::Cluster;
use std::alloc::Global;
use zot_outside::{Clock, Gate, Sink, Source, Store};
use zot_pool::Upstream;
use zot_rows::Rows;
use zot_session::End;

/// Serves a connection at the member with this number: each request is answered once and in order, by the row of its repository, whichever member that is of, as the plain registry does, or that memory ran out or the storage failed, at the moment that the clock gives for it. A reply from another member's row is equal to that row's up to its spelling, or memory ran out on the way there or back. It ends as `session` says. Where what the pool holds fits what the rows keep, it does so afterwards. The scratch store and the upstream stay as they are.
pub fn serve_connection<S: Store, U: Upstream, T: Clock, G: Gate, C: Source, K: Sink>(
    alloc: Global,
    cluster: &mut Cluster<S>,
    member: u32,
    scratch: &mut S,
    upstream: &mut U,
    clock: &mut T,
    gate: &G,
    source: &mut C,
    sink: &mut K,
) -> End
    requires member { member < length cluster.old.config.members }
    ensures served { Served (λ exchanges. IsConducted cluster.old.rows member (T.moment clock.old) (T.moment clock.new) exchanges cluster.new.rows) result (C.left source.old) (C.left source.new) (K.held sink.old) (K.held sink.new) }
    ensures of_bytes { ¬ HasFailed result → IfSome (C.left source.old) (λ bytes. EndsAs bytes result) }
    ensures causes { Causes (result ≡ ends.ReadFault) (result ≡ ends.WriteFault) (C.faults source.old) (C.faults source.new) (K.faults sink.old) (K.faults sink.new) }
    ensures config { cluster.new.config ≡ cluster.old.config }
    ensures scratch { scratch.new ≡ scratch.old }
    ensures upstream { upstream.new ≡ upstream.old }
{
    serve_rows(
        alloc,
        &mut cluster.rows,
        member,
        scratch,
        upstream,
        clock,
        gate,
        source,
        sink,
    )
}

/// Serves a connection at the member with this number, as `serve_connection` does, over the rows of all members.
pub fn serve_rows<'a, S: Store, U: Upstream, T: Clock, G: Gate, C: Source, K: Sink>(
    alloc: Global,
    rows: &'a mut Rows<S>,
    member: u32,
    scratch: &'a mut S,
    upstream: &'a mut U,
    clock: &'a mut T,
    gate: &'a G,
    source: &mut C,
    sink: &mut K,
) -> End
    requires member { member < rows.old.config.members }
    ensures served { Served (λ exchanges. IsConducted rows.old member (T.moment clock.old) (T.moment clock.new) exchanges rows.new) result (C.left source.old) (C.left source.new) (K.held sink.old) (K.held sink.new) }
    ensures of_bytes { ¬ HasFailed result → IfSome (C.left source.old) (λ bytes. EndsAs bytes result) }
    ensures causes { Causes (result ≡ ends.ReadFault) (result ≡ ends.WriteFault) (C.faults source.old) (C.faults source.new) (K.faults sink.old) (K.faults sink.new) }
    ensures config { rows.new.config ≡ rows.old.config }
    ensures scratch { scratch.new ≡ scratch.old }
    ensures upstream { upstream.new ≡ upstream.old }
{
    let mut answers = MemberAnswers {
        rows,
        scratch,
        upstream,
        clock,
        gate,
        member,
    };
    answers.serve(alloc, source, sink)
}
