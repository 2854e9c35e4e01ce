//! `pipe` over the configured storage.
ghost use Rattle.std.specs.Prelude.{◌≡◌, ◌∷◌, ◌<◌, ◌+◌, [], ℕ, List, IfOk, IfSome, OnErr, Ok, length};
ghost use Rattle.zot_cluster.specs.Connections.{IsConducted};
ghost use Rattle.zot_commands.specs.Storage.{EndsOver, IsOutOfRange, PipesAt, seen};
ghost use Rattle.zot_commands.specs.declared.pipe_ending.PipeEnding.TheVariants as endings;
ghost use Rattle.zot_contents.specs.Shards.{shards as shard_count};
ghost use Rattle.zot_host.specs.Causes.{HasHostCause, OnMissing};
ghost use Rattle.zot_host.specs.Configured.{Gives};
ghost use Rattle.zot_host.specs.Parts.{HandsOut, KeepsRoom};
ghost use Rattle.zot_outside.specs.Moments.{StaysAt};
ghost use Rattle.zot_rows.specs.Listing.{rows_of};
ghost use Rattle.zot_rows.specs.Rows.{AreAgreedIn, AreOpenedAt};
ghost use Rattle.zot_session.specs.Causes.{Causes, Counts};
ghost use Rattle.zot_session.specs.Ends.{EndsAs, HasFailed};
ghost use Rattle.zot_session.specs.Session.{Served};
ghost use Rattle.zot_session.specs.declared.end.End.TheVariants as ends;

use crate::pipe_ending::{PipeEnding, declined, unopened_ending};
use std::alloc::Global;
use zot_cluster::{Cluster, serve_connection};
use zot_config::Config;
use zot_host::{
    Host, HostResult, Unconfigured, configuration, keep_parts, scratch_part, take_parts,
};
use zot_outside::{Clock, Sink, Source, Store};
use zot_session::End;

/// Serves one connection from the input to the output, at the member with this number, over the storage of the configuration that the file of a path has. Whatever comes behind the opening, the storage is closed, and the host is given its parts back.
pub fn pipe_at<H: Host, C: Source, K: Sink>(
    alloc: Global,
    path: &str,
    member: u64,
    host: &mut H,
    input: &mut C,
    output: &mut K,
) -> PipeEnding
    ensures ends { PipesAt ⟦<H::S as Store>⟧ (H.files host.old) path.now member (H.moment host.old) (seen (H.parts host.old) (H.kept host.old) (C.left input.old) (K.held output.old))
        (seen (H.parts host.new) (H.kept host.new) (C.left input.new) (K.held output.new)) ((input.new ≡ input.old) × (output.new ≡ output.old)) result }
    ensures causes { Causes (result ≡ endings.Served ends.ReadFault) (result ≡ endings.Served ends.WriteFault) (C.faults input.old) (C.faults input.new) (K.faults output.old) (K.faults output.new) }
    ensures host { Counts (result ≡ endings.HostFault) (H.faults host.old) (H.faults host.new) }
    ensures files { H.files host.new ≡ H.files host.old }
{
    match configuration(alloc, host, path) {
        Ok(config) => pipe_member(alloc, config, member, host, input, output),
        Err(Unconfigured::Missing) => PipeEnding::Missing,
        Err(Unconfigured::Failed) => PipeEnding::HostFault,
        Err(Unconfigured::Wrong { field, found }) => PipeEnding::Wrong { field, found },
        Err(Unconfigured::NoMemory) => PipeEnding::NoMemory,
    }
}

// Serves the connection over the storage of a configuration, if this has a member with the number.
fn pipe_member<H: Host, C: Source, K: Sink>(
    alloc: Global,
    config: Config,
    member: u64,
    host: &mut H,
    input: &mut C,
    output: &mut K,
) -> PipeEnding
    ensures ends { (path : List ℕ) → Gives (H.files host.old) path (Ok config) → PipesAt ⟦<H::S as Store>⟧ (H.files host.old) path member (H.moment host.old) (seen (H.parts host.old) (H.kept host.old) (C.left input.old) (K.held output.old))
        (seen (H.parts host.new) (H.kept host.new) (C.left input.new) (K.held output.new)) ((input.new ≡ input.old) × (output.new ≡ output.old)) result }
    ensures causes { Causes (result ≡ endings.Served ends.ReadFault) (result ≡ endings.Served ends.WriteFault) (C.faults input.old) (C.faults input.new) (K.faults output.old) (K.faults output.new) }
    ensures host { Counts (result ≡ endings.HostFault) (H.faults host.old) (H.faults host.new) }
    ensures files { H.files host.new ≡ H.files host.old }
{
    if member < config.member_count() as u64 {
        pipe_parts(alloc, config, member as u32, host, input, output)
    } else {
        PipeEnding::OutOfRange
    }
}

// Serves the connection at a member of a configuration, over the parts of its storage.
fn pipe_parts<H: Host, C: Source, K: Sink>(
    alloc: Global,
    config: Config,
    member: u32,
    host: &mut H,
    input: &mut C,
    output: &mut K,
) -> PipeEnding
    requires member { member < length config.members }
    ensures ends { (path : List ℕ) → Gives (H.files host.old) path (Ok config) → PipesAt ⟦<H::S as Store>⟧ (H.files host.old) path member (H.moment host.old) (seen (H.parts host.old) (H.kept host.old) (C.left input.old) (K.held output.old))
        (seen (H.parts host.new) (H.kept host.new) (C.left input.new) (K.held output.new)) ((input.new ≡ input.old) × (output.new ≡ output.old)) result }
    ensures causes { Causes (result ≡ endings.Served ends.ReadFault) (result ≡ endings.Served ends.WriteFault) (C.faults input.old) (C.faults input.new) (K.faults output.old) (K.faults output.new) }
    ensures host { Counts (result ≡ endings.HostFault) (H.faults host.old) (H.faults host.new) }
    ensures files { H.files host.new ≡ H.files host.old }
{
    match take_parts(alloc, host, config.root(), config.member_count()) {
        Ok(parts) => {
            let mut clock = host.clock();
            let moment = clock.now();
            match Cluster::open(alloc, config, parts, moment) {
                Ok(cluster) => pipe_cluster(alloc, cluster, member, clock, host, input, output),
                Err(unopened) => unopened_ending(unopened.error),
            }
        }
        Err(error) => declined(error),
    }
}

// Serves the connection at a member of a cluster, closes it, and gives its parts back.
fn pipe_cluster<H: Host, C: Source, K: Sink>(
    alloc: Global,
    cluster: Cluster<H::S>,
    member: u32,
    clock: H::T,
    host: &mut H,
    input: &mut C,
    output: &mut K,
) -> PipeEnding
    requires member { member < length cluster.config.members }
    requires room { H.room host.old (rows_of (length cluster.config.members) + shard_count) }
    ensures ends { (moment : ℕ) → AreOpenedAt moment cluster.rows → AreAgreedIn cluster.rows → EndsOver moment cluster.rows member (H.T.moment clock) (seen (H.parts host.old) (H.kept host.old) (C.left input.old) (K.held output.old))
        (seen (H.parts host.new) (H.kept host.new) (C.left input.new) (K.held output.new)) ((input.new ≡ input.old) × (output.new ≡ output.old)) result }
    ensures causes { Causes (result ≡ endings.Served ends.ReadFault) (result ≡ endings.Served ends.WriteFault) (C.faults input.old) (C.faults input.new) (K.faults output.old) (K.faults output.new) }
    ensures host { Counts (result ≡ endings.HostFault) (H.faults host.old) (H.faults host.new) }
    ensures files { H.files host.new ≡ H.files host.old }
{
    let mut cluster = cluster;
    let mut clock = clock;
    let served = serve_lent(alloc, &mut cluster, member, &mut clock, host, input, output);
    let parts = cluster.close();
    keep_parts(host, parts);
    match served {
        Ok(end) => PipeEnding::Served(end),
        Err(error) => declined(error),
    }
}

// Serves the connection at a member of a cluster, with an upstream, a scratch store and a gate of the host.
fn serve_lent<H: Host, C: Source, K: Sink>(
    alloc: Global,
    cluster: &mut Cluster<H::S>,
    member: u32,
    clock: &mut H::T,
    host: &mut H,
    input: &mut C,
    output: &mut K,
) -> HostResult<End>
    requires member { member < length cluster.old.config.members }
    ensures cause { HasHostCause (H.faults host.old) (H.faults host.new) result }
    ensures missing { OnMissing result ⊥ }
    ensures served { IfOk result (λ end. Served (λ exchanges. IsConducted cluster.old.rows member (H.T.moment clock.old) (H.T.moment clock.new) exchanges cluster.new.rows) end (C.left input.old) (C.left input.new) (K.held output.old) (K.held output.new)) }
    ensures of_bytes { IfOk result (λ end. ¬ HasFailed end → IfSome (C.left input.old) (λ bytes. EndsAs bytes end)) }
    ensures causes { Causes (result ≡ Ok ends.ReadFault) (result ≡ Ok ends.WriteFault) (C.faults input.old) (C.faults input.new) (K.faults output.old) (K.faults output.new) }
    ensures lent { IfOk result (λ end. (scratch : H.S) × HandsOut (H.parts host.old) (scratch ∷ []) (H.parts host.new)) }
    ensures err { OnErr result ((cluster.new ≡ cluster.old) × (input.new ≡ input.old) × (output.new ≡ output.old)) }
    ensures config { cluster.new.config ≡ cluster.old.config }
    ensures files { H.files host.new ≡ H.files host.old }
    ensures kept { H.kept host.new ≡ H.kept host.old }
    ensures room { KeepsRoom (H.room host.old) (H.room host.new) }
{
    let mut upstream = host.upstream(alloc, cluster.config())?;
    let mut scratch = scratch_part(alloc, host, cluster.config().root(), 0)?;
    let gate = host.gate();
    Ok(serve_connection(
        alloc,
        cluster,
        member,
        &mut scratch,
        &mut upstream,
        clock,
        &gate,
        input,
        output,
    ))
}
