//! Empty lines.
ghost use Rattle.std.specs.Prelude.{◌≡◌};
ghost use Rattle.zot_session.specs.Messages.{is_blank};

/// Whether there is nothing but empty lines, of LF or CR LF.
pub fn is_blank(bytes: &[u8]) -> bool
    ensures { result ≡ is_blank bytes.now }
{
    let mut cr = false;
    for b in bytes {
        if *b == b'\n' {
            cr = false;
        } else if *b == b'\r' && !cr {
            cr = true;
        } else {
            return false;
        }
    }
    !cr
}
