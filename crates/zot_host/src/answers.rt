//! What the system's answers mean to a host.
ghost use Rattle.std.specs.Prelude.{◌≡◌, ◌≤◌, Err, IfErr, IfOk, Ok};
ghost use Rattle.std.specs.IoError.{error_kind};
ghost use Rattle.zot_host.specs.Causes.{Declines, HasHostCause};
ghost use Rattle.zot_host.specs.declared.host_error.HostError.TheVariants as errors;
ghost use Rattle.zot_outside.specs.Faults.{Rose};

use crate::host_error::{HostError, HostResult};
use std::io;
use zot_folder::{found, present};
use zot_outside::StoreError;

/// What the call for a file answers that the system read, or didn't: `Missing` for exactly the errors that say that there is no such file, `NoMemory` where memory ran out, and else a fault, which is counted.
pub fn answer<T>(faults: &mut u64, read: io::Result<T>) -> HostResult<T>
    ensures cause { HasHostCause faults.old faults.new result }
    ensures ok { IfOk result (λ x. read ≡ Ok x) }
    ensures whole { IfOk read (λ x. result ≡ Ok x) }
    ensures declined { IfErr read (λ error. Declines (error_kind error) result) }
{
    match found(faults, present(read)) {
        Ok(x) => Ok(x),
        Err(StoreError::Missing) => Err(HostError::Missing),
        Err(StoreError::Failed) => Err(HostError::Failed),
        Err(StoreError::NoMemory) => Err(HostError::NoMemory),
    }
}

/// Counts a fault. The count stops at its end.
pub fn fault(faults: &mut u64) -> HostError
    ensures answer { result ≡ errors.Failed }
    ensures later { faults.old ≤ faults.new }
    ensures rose { Rose faults.old faults.new }
{
    *faults = faults.saturating_add(1);
    HostError::Failed
}
