//! What holds of the bytes of every request.
ghost use Rattle.std.specs.Prelude.{◌≡◌};
ghost use Rattle.zot_delivery.specs.Delivery.{IsDelivered};
ghost use Rattle.zot_model.specs.Values.{HasValues};
ghost use Rattle.zot_model.specs.Valid.{IsValid};
ghost use Rattle.zot_model.specs.declared.request.Request.{Request as ARequest};
ghost use Rattle.zot_spell.specs.Wire.{request_bytes};

/// The law that each valid request is read of its bytes, however long its head is (RFC 9112, sections 3 to 6; OCI Distribution Specification 1.1, "Endpoints").
pub fn request_is_read()
    ensures { (request : ARequest) → HasValues request → IsValid request → IsDelivered request }
{}

/// The law that two valid requests which have the same bytes are one request.
pub fn request_is_one()
    ensures { (request other : ARequest) → HasValues request → IsValid request → HasValues other → IsValid other
        → request_bytes request ≡ request_bytes other → request ≡ other }
{}
