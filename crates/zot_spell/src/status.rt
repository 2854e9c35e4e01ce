//! Status lines.
ghost use Rattle.std.specs.Prelude.{◌≡◌, IfOk, string_bytes};
ghost use Rattle.http.specs.StatusCode.{IsStatusCode};
ghost use Rattle.zot_spell.specs.Fields.{reason, status_line};

use http::StatusCode;
use std::alloc::{AllocError, Global};

/// The status line of a status.
#[tactic(auto, unfolding(crate::specs::Fields::status_line, crate::specs::Fields::status_digits))]
pub fn status_line(alloc: Global, status: u16) -> Result<String, AllocError>
    requires { IsStatusCode status }
    ensures { IfOk result (λ line. string_bytes line ≡ status_line status) }
{
    let Ok(code) = StatusCode::from_u16(status) else {
        unreachable!()
    };
    ["HTTP/1.1 ", code.as_str(), " ", reason_of(&code), "\r\n"].concat(alloc)
}

// The reason of a status.
#[tactic(auto, unfolding(crate::specs::Fields::reason))]
fn reason_of(status: &StatusCode) -> &'static str
    ensures { result.now ≡ reason status.now }
{
    match status.canonical_reason() {
        Some(reason) => reason,
        None => "",
    }
}
