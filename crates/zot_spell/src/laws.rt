//! Laws of the spelling of replies.
ghost use Rattle.std.specs.Prelude.{◌≡◌, ◌++◌, Bool, Option};
ghost use Rattle.zot_model.specs.declared.reply.Reply.{Reply};
ghost use Rattle.zot_model.specs.declared.request.Request.{Request};
ghost use Rattle.zot_spell.specs.Alike.{AreAlike};
ghost use Rattle.zot_spell.specs.Spelling.{reply_body, reply_bytes, reply_head, shown_body};

/// The law that replies which are equal up to their spelling have the same bytes, to each request and message, whether or not the connection closes.
pub fn alike_replies()
    ensures { (request : Option Request) (a b : Reply) (head close : Bool) → AreAlike head a b
        → reply_bytes request a head close ≡ reply_bytes request b head close }
{}

/// The law that the bytes of a reply are its head and then the bytes of its body that its method shows: those of a blob, all or, to HEAD, none.
pub fn reply_head_then_body()
    ensures { (request : Option Request) (reply : Reply) (head close : Bool)
        → reply_bytes request reply head close ≡ reply_head request reply close ++ shown_body head (reply_body request reply) }
{}
