//! The head of a message, with its method and its target parsed.
ghost use Rattle.std.specs.Prelude.{◌≡◌};
ghost use Rattle.zot_route.specs.Methods.{hides_body, method_of};

use crate::method::Method;
use crate::target::Target;
use std::marker::Model;
use zot_head::{Field, Head};

/// The head of a message, with its method and its target parsed. Contracts see the head.
#[derive(Drop)]
pub struct ParsedHead<'a> {
    head: &'a Head,
    method: Method,
    target: Target<'a>,
}

impl<'a> Model for ParsedHead<'a> {
    ghost use Rattle.std.specs.Prelude.{◌≡◌};
    ghost use Rattle.zot_head.specs.declared.head.Head.{Head};
    ghost use Rattle.zot_route.specs.Methods.{method_of};

    ghost Value = { Head };

    ghost view = { λ p. p.head.now };

    ghost invariant = { λ p. (p.method ≡ method_of p.head.now.method) × (p.target ≡ p.head.now.target) };
}

impl<'a> ParsedHead<'a> {
    /// The head, parsed. Takes no memory.
    pub fn new(head: &'a Head) -> Self
        ensures { result ≡ head.now }
    {
        ParsedHead {
            head,
            method: Method::read(head.method.as_str()),
            target: Target::read(head.target.as_str()),
        }
    }

    /// Whether the reply shows no body, since the method is HEAD. So it is with a refusal, too.
    pub fn hides_body(&self) -> bool
        ensures { result ≡ hides_body (method_of self.now.method) }
    {
        self.method.hides_body()
    }

    /// The method.
    pub(crate) fn method(&self) -> Method
        ensures { result ≡ method_of self.now.method }
    {
        self.method
    }

    /// The target.
    pub(crate) fn target(&self) -> &Target<'a>
        ensures { result.now ≡ self.now.target }
    {
        &self.target
    }

    /// The field lines.
    pub(crate) fn fields(&self) -> &'a [Field]
        ensures { result.now ≡ self.now.fields }
    {
        self.head.fields.as_slice()
    }
}
