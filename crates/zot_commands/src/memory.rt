//! Rows in memory, and a connection over them.
ghost use Rattle.std.specs.Prelude.{◌≡◌, IfOk, IsSomeAnd, [], length};
ghost use Rattle.std.specs.FinMap as finite;
ghost use Rattle.std.specs.List.{All};
ghost use Rattle.zot_commands.specs.Memory.{Pipes, memory_config};
ghost use Rattle.zot_fakes.specs.Fakes.{steady_objects};
ghost use Rattle.zot_pool.specs.Pools.{AreDeduped, AreTightPool};
ghost use Rattle.zot_rows.specs.Histories.{EachRuns, empty_rows};
ghost use Rattle.zot_rows.specs.Rows.{AreAgreedIn, failed_in, pool_faults, states_of};
ghost use Rattle.zot_rows.specs.declared.rows_open_error.RowsOpenError.TheVariants as errors;
ghost use Rattle.zot_session.specs.Causes.{Causes};
ghost use Rattle.zot_session.specs.declared.end.End.TheVariants as ends;

use std::alloc::{AllocError, Global};
use zot_cluster::serve_rows;
use zot_contents::SHARDS;
use zot_fakes::SteadyStore;
use zot_host::Host;
use zot_outside::{OpenGate, Sink, Source};
use zot_pool::MemoryUpstream;
use zot_repo::RowConfig;
use zot_rows::{Rows, RowsOpenError};
use zot_session::End;

/// The rows of one member in memory, without a repository, whose pool makes links of equal bytes. It fails only where memory runs out.
pub fn memory_rows(alloc: Global) -> Result<Rows<SteadyStore>, AllocError>
    ensures config { IfOk result (λ rows. rows.config ≡ memory_config) }
    ensures agreed { IfOk result AreAgreedIn }
    ensures empty { IfOk result (λ rows. IsSomeAnd (states_of rows) (EachRuns empty_rows [])) }
    ensures failed { IfOk result (λ rows. All (λ count. count ≡ 0) (failed_in rows)) }
    ensures faults { IfOk result (λ rows. pool_faults rows ≡ 0) }
    ensures tight { IfOk result (λ rows. AreTightPool rows.pool.shards.items) }
    ensures dedupe { IfOk result (λ rows. AreDeduped rows.pool.shards.items) }
{
    let config = RowConfig {
        members: 1,
        key: [0; 16],
    };
    let parts = empty_stores(alloc, 8)?;
    let shards = empty_stores(alloc, SHARDS)?;
    match Rows::open(alloc, config, parts, shards, true, 0) {
        Ok(rows) => Ok(rows),
        Err(unopened) => Err(of_memory(unopened.error)),
    }
}

/// Serves one connection from the input to the output, over rows in memory without a repository, at the moments of the host's clock.
pub fn pipe_in_memory<H: Host, C: Source, K: Sink>(
    alloc: Global,
    host: &mut H,
    input: &mut C,
    output: &mut K,
) -> End
    ensures served { Pipes (H.moment host.old) result (C.left input.old) (C.left input.new) (K.held output.old) (K.held output.new) }
    ensures causes { Causes (result ≡ ends.ReadFault) (result ≡ ends.WriteFault) (C.faults input.old) (C.faults input.new) (K.faults output.old) (K.faults output.new) }
    ensures host { H.faults host.new ≡ H.faults host.old }
    ensures files { H.files host.new ≡ H.files host.old }
{
    match memory_rows(alloc) {
        Ok(rows) => {
            let mut rows = rows;
            let mut clock = host.clock();
            serve_rows(
                alloc,
                &mut rows,
                0,
                &mut SteadyStore::new(alloc),
                &mut MemoryUpstream::empty(),
                &mut clock,
                &OpenGate,
                input,
                output,
            )
        }
        Err(_) => End::NoMemory,
    }
}

// So many stores without objects.
fn empty_stores(alloc: Global, count: u32) -> Result<Vec<SteadyStore>, AllocError>
    ensures many { IfOk result (λ stores. length stores.items ≡ count) }
    ensures empty { IfOk result (λ stores. All (λ store. steady_objects store ≡ finite.empty) stores.items) }
{
    let mut stores = Vec::new(alloc);
    for _ in 0..count {
        stores.push(SteadyStore::new(alloc))?;
    }
    Ok(stores)
}

// The one error for which rows in memory aren't opened.
fn of_memory(error: RowsOpenError) -> AllocError
    requires { error ≡ errors.NoMemory }
{
    match error {
        RowsOpenError::NoMemory => AllocError,
        _ => unreachable!(),
    }
}
