//! The configuration in a file of a host.
ghost use Rattle.std.specs.Prelude.{◌≡◌};
ghost use Rattle.zot_host.specs.Configured.{CountsFaults, IsOf, StandsFor};
ghost use Rattle.zot_host.specs.Parts.{KeepsRoom};

use crate::host::Host;
use crate::host_error::HostError;
use crate::unconfigured::Unconfigured;
use std::alloc::Global;
use zot_config::{Config, ConfigError, read_config};

/// The configuration that the file of a path has: exactly the one that its bytes stand for, or their first wrong field. `Missing` comes exactly where the host tells that the file isn't there, `Failed` only where its count of faults rose.
pub fn configuration<H: Host>(
    alloc: Global,
    host: &mut H,
    path: &str,
) -> Result<Config, Unconfigured>
    ensures cause { CountsFaults result (H.faults host.old) (H.faults host.new) }
    ensures config { IsOf (H.files host.old) path.now result }
    ensures files { H.files host.new ≡ H.files host.old }
    ensures parts { H.parts host.new ≡ H.parts host.old }
    ensures kept { H.kept host.new ≡ H.kept host.old }
    ensures room { KeepsRoom (H.room host.old) (H.room host.new) }
    ensures moment { H.moment host.new ≡ H.moment host.old }
{
    match host.file(alloc, path) {
        Ok(bytes) => config_of(alloc, bytes.as_slice()),
        Err(HostError::Missing) => Err(Unconfigured::Missing),
        Err(HostError::Failed) => Err(Unconfigured::Failed),
        Err(HostError::NoMemory) => Err(Unconfigured::NoMemory),
    }
}

// The configuration that these bytes stand for.
fn config_of(alloc: Global, bytes: &[u8]) -> Result<Config, Unconfigured>
    ensures { StandsFor bytes.now result }
{
    match read_config(alloc, bytes) {
        Ok(config) => Ok(config),
        Err(ConfigError::Field { field, found }) => Err(Unconfigured::Wrong { field, found }),
        Err(ConfigError::NoMemory) => Err(Unconfigured::NoMemory),
    }
}
