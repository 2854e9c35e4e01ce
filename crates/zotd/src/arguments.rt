//! The program's arguments.
ghost use Rattle.std.specs.Prelude.{◌≡◌, IfOk};
ghost use Rattle.std.specs.Vec.Iter.{into_iter_items};

use std::alloc::{AllocError, Global};
use std::env::Args;
use std::{env, io};

/// The program's arguments, of which its name is the first. They are refused where memory runs out, or where one of them isn't UTF-8.
pub fn arguments(rt: &HostRuntime) -> io::Result<Vec<String>> {
    Ok(all_of(rt.alloc(), env::args(rt)?)?)
}

// All that are left of some arguments.
fn all_of(alloc: Global, args: Args) -> Result<Vec<String>, AllocError>
    ensures { IfOk result (λ all. all.items ≡ into_iter_items args) }
{
    let mut all = Vec::new(alloc);
    for word in args {
        all.push(word)?;
    }
    Ok(all)
}
