//! Where connections come from.

mod accepted;
mod bind_error;
mod listener;
mod passing;
mod tcp_listeners;

pub use self::accepted::Accepted;
pub use self::bind_error::BindError;
pub use self::listener::Listener;
pub use self::tcp_listeners::TcpListeners;
