//! What holds of every connection.
ghost use Rattle.std.specs.Prelude.{◌≡◌, ℕ, List, ◌++◌};
ghost use Rattle.std.specs.List.{AllByRecursion, AllZip, flat_map};
ghost use Rattle.zot_model.specs.declared.request.Request.{Request as ARequest};
ghost use Rattle.zot_session.specs.declared.end.End.{End};
ghost use Rattle.zot_session.specs.Ends.{EndsAs};
ghost use Rattle.zot_session.specs.Messages.{Message, Messages, RoutesTo};
ghost use Rattle.zot_spell.specs.Wire.{request_bytes};
ghost use Rattle.zot_delivery.specs.Delivery.{IsReadable};

/// The bytes of a connection give it at most one end.
pub fn end_is_one()
    ensures { (bytes : List ℕ) (one other : End) → EndsAs bytes one → EndsAs bytes other → one ≡ other }
{}

/// Valid requests that are spelled one after another, with heads that keep their limit, are as many messages at the front of whatever bytes they begin, and each message asks its request (RFC 9112, sections 2.1 and 9.3).
pub fn requests_are_read()
    ensures { (requests : List ARequest) (more : List ℕ) → AllByRecursion IsReadable requests
        → (messages : List Message) × Messages (flat_map request_bytes requests ++ more) messages more × AllZip RoutesTo messages requests }
{}
