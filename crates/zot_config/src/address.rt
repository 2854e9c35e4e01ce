//! Addresses of members.
ghost use Rattle.std.specs.Prelude.{◌≡◌, true};
ghost use Rattle.std.specs.Char.{is_ascii_digit};
ghost use Rattle.std.specs.List.{list_all};
ghost use Rattle.std.specs.Str.{bytes_eq};
ghost use Rattle.zot_config.specs.Address.{is_address as is_address_of, is_host as is_host_of, is_host_byte as is_host_byte_of, is_port as is_port_of, writes_port as writes_port_of};

use std::marker::Model;
use zot_digest::Words;

/// A member's address `host:port`. Contracts see the list of its bytes.
#[derive(Drop)]
pub struct Address {
    text: Words,
}

impl Model for Address {
    ghost use Rattle.std.specs.Prelude.{◌≡◌, ℕ, List, true};
    ghost use Rattle.zot_config.specs.Address.{is_address};

    ghost Value = { List ℕ };

    ghost view = { λ a. a.text };

    ghost invariant = { λ a. is_address a.text ≡ true };
}

impl Address {
    /// The address that a text is, which isn't copied. `is_address` tells whether it is one.
    pub fn new(text: Words) -> Self
        requires { is_address_of text ≡ true }
        ensures { result ≡ text }
    {
        Address { text }
    }

    /// The text of the address.
    pub fn as_str(&self) -> &str
        ensures value { result.now ≡ self.now }
        ensures address { is_address_of self.now ≡ true }
    {
        self.text.as_str()
    }

    /// Whether this is its text. Takes no memory.
    pub(crate) fn has_text(&self, text: &str) -> bool
        ensures { result ≡ bytes_eq text.now self.now }
    {
        text == self.text.as_str()
    }
}

/// Whether a text is an address: one or more ASCII letters, digits, `.` and `-`, then `:`, then 1 to 5 decimal digits of a number from 1 to 65,535. Takes no memory.
pub fn is_address(text: &str) -> bool
    ensures { result ≡ is_address_of text.now }
{
    let Some(parts) = text.split_once(':') else {
        return false;
    };
    is_host(parts.0) && is_port(parts.1)
}

// Whether a text may stand before the colon.
#[tactic(auto, unfolding(crate::specs::Address::is_host))]
fn is_host(host: &str) -> bool
    ensures { result ≡ is_host_of host.now }
{
    !host.is_empty() && are_host_bytes(host.as_bytes())
}

// Whether each byte may stand in a host.
fn are_host_bytes(bytes: &[u8]) -> bool
    ensures { result ≡ list_all is_host_byte_of bytes.now }
{
    bytes.iter().all(|byte| is_host_byte(*byte))
}

// Whether a byte may stand in a host.
fn is_host_byte(byte: u8) -> bool
    ensures { result ≡ is_host_byte_of byte }
{
    byte.is_ascii_alphanumeric() || byte == b'.' || byte == b'-'
}

// Whether a text may stand after the colon.
#[tactic(auto, unfolding(crate::specs::Address::is_port))]
fn is_port(port: &str) -> bool
    ensures { result ≡ is_port_of port.now }
{
    port.len() <= 5 && are_digits(port.as_bytes()) && writes_port(port)
}

// Whether each byte is a decimal digit.
fn are_digits(bytes: &[u8]) -> bool
    ensures { result ≡ list_all is_ascii_digit bytes.now }
{
    bytes.iter().all(|byte| byte.is_ascii_digit())
}

// Whether digits write the number of a port.
fn writes_port(digits: &str) -> bool
    requires { list_all is_ascii_digit digits.now ≡ true }
    ensures { result ≡ writes_port_of digits.now }
{
    match digits.parse::<u16>() {
        Ok(number) => number > 0,
        Err(_) => false,
    }
}
