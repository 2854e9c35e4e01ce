//! What the system's answers mean, and what a call of a store makes of them.
ghost use Rattle.std.specs.Prelude.{◌≡◌, ◌≤◌, ◌↔◌, ℕ, IfErr, IfOk, IfSome, IsTrue, MatchOption, None, Some};
ghost use Rattle.std.specs.IoError.{error_kind};
ghost use Rattle.zot_outside.specs.declared.stores.store_error.StoreError.TheVariants as errors;
ghost use Rattle.zot_folder.specs.Answers.{IsAbsent, RefusesAs};
ghost use Rattle.zot_outside.specs.Faults.{HasStoreCause, OnMissing, Rose};

use std::io;
use std::io::ErrorKind;
use zot_outside::{StoreError, StoreResult};

/// What was looked up, or `None` if there is nothing. Every other error stays one.
pub fn present<T>(found: io::Result<T>) -> io::Result<Option<T>>
    ensures found { IfOk found (λ x. result ≡ Ok (Some x)) }
    ensures absent { IfErr found (λ error. IsAbsent (error_kind error) → result ≡ Ok None) }
    ensures failed { IfErr found (λ error. ¬ IsAbsent (error_kind error) → result ≡ Err error) }
    ensures result { IfOk result (λ one. IfSome one (λ x. found ≡ Ok x)) }
{
    match found {
        Ok(found) => Ok(Some(found)),
        Err(error) if is_absent(error.kind()) => Ok(None),
        Err(error) => Err(error),
    }
}

// Whether a look-up failed because there is nothing: no such name, a file in a folder's place, or a name that no file can have.
fn is_absent(kind: ErrorKind) -> bool
    ensures { IsTrue result ↔ IsAbsent kind }
{
    matches!(
        kind,
        ErrorKind::NotFound | ErrorKind::NotADirectory | ErrorKind::InvalidFilename
    )
}

/// What a call answers that did its work or failed.
pub fn done<T>(faults: &mut u64, done: io::Result<T>) -> StoreResult<T>
    ensures cause { HasStoreCause faults.old faults.new result }
    ensures ok { IfOk result (λ x. done ≡ Ok x) }
    ensures whole { IfOk done (λ x. result ≡ Ok x) }
    ensures missing { OnMissing result ⊥ }
    ensures failed { IfErr done (λ error. RefusesAs (error_kind error) result) }
{
    match done {
        Ok(x) => Ok(x),
        Err(error) => Err(refuse(faults, error.kind())),
    }
}

/// What a call answers that found something, found nothing or failed.
pub fn found<T>(faults: &mut u64, found: io::Result<Option<T>>) -> StoreResult<T>
    ensures cause { HasStoreCause faults.old faults.new result }
    ensures ok { IfOk result (λ x. found ≡ Ok (Some x)) }
    ensures missing { OnMissing result (found ≡ Ok None) }
    ensures whole { IfOk found (λ one. MatchOption one (result ≡ Err errors.Missing) (λ x. result ≡ Ok x)) }
    ensures failed { IfErr found (λ error. RefusesAs (error_kind error) result) }
{
    match found {
        Ok(Some(x)) => Ok(x),
        Ok(None) => Err(StoreError::Missing),
        Err(error) => Err(refuse(faults, error.kind())),
    }
}

// What a call answers for an error of this kind: `NoMemory` where memory ran out, and else a fault.
fn refuse(faults: &mut u64, kind: ErrorKind) -> StoreError
    ensures cause { HasStoreCause {T = ℕ} faults.old faults.new (Err result) }
    ensures answer { RefusesAs {T = ℕ} kind (Err result) }
{
    match kind {
        ErrorKind::OutOfMemory => StoreError::NoMemory,
        _ => fault(faults),
    }
}

/// Counts a fault.
pub fn fault(faults: &mut u64) -> StoreError
    ensures answer { result ≡ errors.Failed }
    ensures later { faults.old ≤ faults.new }
    ensures rose { Rose faults.old faults.new }
{
    *faults = faults.saturating_add(1);
    StoreError::Failed
}
