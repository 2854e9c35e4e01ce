//! The methods of requests.
ghost use Rattle.std.specs.Prelude.{◌≡◌};
ghost use Rattle.zot_route.specs.Methods.{hides_body, method_of};

/// The method of a request (RFC 9110, section 9.3).
#[derive(Clone, Copy)]
pub enum Method {
    Get,
    Head,
    Put,
    Post,
    Patch,
    Delete,
    /// A method that no path has.
    Other,
}

impl Method {
    /// The method that a text is, compared as it stands (RFC 9110, section 9.1). Takes no memory.
    #[tactic(auto, unfolding(crate::specs::Methods::method_of))]
    pub fn read(text: &str) -> Method
        ensures { result ≡ method_of text.now }
    {
        if text == "GET" {
            Method::Get
        } else if text == "HEAD" {
            Method::Head
        } else if text == "PUT" {
            Method::Put
        } else if text == "POST" {
            Method::Post
        } else if text == "PATCH" {
            Method::Patch
        } else if text == "DELETE" {
            Method::Delete
        } else {
            Method::Other
        }
    }

    /// Whether the reply shows no body.
    pub fn hides_body(self) -> bool
        ensures { result ≡ hides_body self }
    {
        match self {
            Method::Head => true,
            Method::Get
            | Method::Put
            | Method::Post
            | Method::Patch
            | Method::Delete
            | Method::Other => false,
        }
    }
}
