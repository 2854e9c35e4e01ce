//! Which errors of a socket that listens pass by themselves.
ghost use Rattle.std.specs.Prelude.{◌≡◌, true, false, IfErr, IfOk, None, Some};
ghost use Rattle.std.specs.IoError.{raw_os_error};
ghost use Rattle.zot_outside.specs.Passing.{is_passing};

use std::io;

/// The errors of accept(2) that are none of the socket's own, by their numbers on Linux, so that a later call may find a connection: it was interrupted, or nothing waits (4, 11); memory, descriptors or buffers ran out (12, 23, 24, 105); the connection broke before it was taken, or the network below it failed (the others).
const PASSING: [i32; 15] = [
    4, 11, 12, 23, 24, 64, 71, 92, 95, 100, 101, 103, 105, 112, 113,
];

/// The connection that was taken, or `None` if none was and the error passes. Every other error stays one.
pub fn unless_passing<T>(taken: io::Result<T>) -> io::Result<Option<T>>
    ensures taken { IfOk taken (λ x. result ≡ Ok (Some x)) }
    ensures passing { IfErr taken (λ error. is_passing (raw_os_error error) ≡ true → result ≡ Ok None) }
    ensures failed { IfErr taken (λ error. is_passing (raw_os_error error) ≡ false → result ≡ Err error) }
{
    match taken {
        Ok(taken) => Ok(Some(taken)),
        Err(error) if is_passing(error.raw_os_error()) => Ok(None),
        Err(error) => Err(error),
    }
}

// Whether there is an error number, and it is one of an error that passes.
fn is_passing(number: Option<i32>) -> bool
    ensures { result ≡ is_passing number }
{
    match number {
        Some(number) => PASSING.contains(&number),
        None => false,
    }
}
