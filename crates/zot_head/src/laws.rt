//! What holds of whatever stands at the front of a list of bytes.
ghost use Rattle.std.specs.Prelude.{◌≡◌, ◌≤◌, ℕ, List, ◌++◌, length, take, Some};
ghost use Rattle.httparse.specs.Grammar.{RequestHead, print_request, ReadsRequest};
ghost use Rattle.zot_head.specs.declared.head.Head.{Head};
ghost use Rattle.zot_head.specs.declared.chunk_error.ChunkError.TheVariants as errors;
ghost use Rattle.zot_head.specs.Chunked.{Whole, Broken, IsSent, chunked};
ghost use Rattle.zot_head.specs.Limits.{head_limit};
ghost use Rattle.zot_head.specs.Lines.{head_end, Ends, extent};
ghost use Rattle.zot_head.specs.Front.{Front, Message, IsFront, IsDecided, with_more, IsRestOf};

/// A whole message or a refusal stays what it is, whatever bytes come after.
pub fn front_stays()
    ensures { (limit : ℕ) (bytes more : List ℕ) (front : Front) → IsFront limit bytes front
        → IsDecided front → IsFront limit (bytes ++ more) (with_more more front) }
{}

/// A whole message takes at least one of the bytes, and at most all.
pub fn message_takes()
    ensures { (limit : ℕ) (bytes : List ℕ) (head : Head) (body rest : List ℕ)
        → IsFront limit bytes (Message head body rest) → IsRestOf bytes rest }
{}

/// At most one thing stands at the front.
pub fn front_is_one()
    ensures { (limit : ℕ) (bytes : List ℕ) (one other : Front) → IsFront limit bytes one
        → IsFront limit bytes other → one ≡ other }
{}

/// What is sent as a body in chunks is read as that body, whatever follows it (RFC 9112, section 7.1).
pub fn sent_is_read()
    ensures { (limit : ℕ) (text body rest : List ℕ) → IsSent text body → length body ≤ limit
        → chunked limit (text ++ rest) ≡ Whole body rest }
{}

/// Nothing else is read as a body in chunks, nor one of more bytes than the limit.
pub fn only_sent_is_read()
    ensures { (limit : ℕ) (bytes body rest : List ℕ) → chunked limit bytes ≡ Whole body rest
        → (text : List ℕ) × IsSent text body × (length body ≤ limit) × (bytes ≡ text ++ rest) }
{}

/// Bytes are never refused as a body in chunks because memory ran out: only calls answer that.
pub fn refused_for_its_bytes()
    ensures { (limit : ℕ) (bytes body : List ℕ)
        → chunked limit bytes ≡ Broken body errors.NoMemory → ⊥ }
{}

/// A request's head, as `httparse` reads it, ends where its lines say it does (RFC 9112, section 2.1).
pub fn head_ends_as_read()
    ensures { (bytes rest : List ℕ) (request : RequestHead) → ReadsRequest bytes request rest
        → length (print_request request) ≤ head_limit
        → extent head_end head_limit bytes ≡ Ends (length (print_request request)) }
{}

/// The bytes of a head, without those after it, end where it does.
pub fn head_ends_alone()
    ensures { (bytes : List ℕ) (n : ℕ) → extent head_end head_limit bytes ≡ Ends n
        → head_end (take n bytes) ≡ Some n }
{}
