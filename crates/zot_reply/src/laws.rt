//! Laws of replies and their bytes.
ghost use Rattle.std.specs.Prelude.{◌≡◌, Bool, Some};
ghost use Rattle.zot_model.specs.Calls.{is_head};
ghost use Rattle.zot_model.specs.Fits.{Fits};
ghost use Rattle.zot_model.specs.Values.{IsReal};
ghost use Rattle.zot_model.specs.declared.reply.Reply.{Reply};
ghost use Rattle.zot_model.specs.declared.request.Request.{Request};
ghost use Rattle.zot_spell.specs.Alike.{AreAlike};
ghost use Rattle.zot_spell.specs.Spelling.{reply_bytes};

/// The law that no other replies share a spelling: replies that may answer one request, and that have the same bytes to its method, each before the connection closes or goes on, are equal up to their spelling.
#[tactic(auto, using(crate::proofs::ReplyLemmas::alone))]
pub fn only_alike_replies()
    ensures { (request : Request) (a b : Reply) (close other : Bool) → Fits request a → Fits request b → IsReal a → IsReal b
        → reply_bytes (Some request) a (is_head request.call) close ≡ reply_bytes (Some request) b (is_head request.call) other
        → AreAlike (is_head request.call) a b }
{}

/// The law that a reply is equal to itself up to its spelling.
#[tactic(auto, using(crate::proofs::ReplyLemmas::alike_self))]
pub fn alike_itself()
    ensures { (head : Bool) (reply : Reply) → IsReal reply → AreAlike head reply reply }
{}
