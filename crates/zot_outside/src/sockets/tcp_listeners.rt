//! The members' sockets.
ghost use Rattle.std.specs.Prelude.{◌≡◌, ◌<◌, ◌^◌, ◌+◌, IfOk, IfSome, IsErr, IsOkAnd, MatchOption, OnErr, length, vec_len};
ghost use Rattle.zot_outside.specs.Faults.{HasCause};
ghost use Rattle.zot_outside.specs.declared.sockets.accepted.Accepted.TheVariants.{Quiet};

use crate::failed::Failed;
use crate::sockets::passing::unless_passing;
use crate::sockets::{Accepted, BindError, Listener};
use crate::streams::{ReaderSource, WriterSink};
use std::alloc::{AllocError, Global};
use std::io::ErrorKind;
use std::net::{Net, TcpListener, TcpStream};
use std::time::Duration;
use std::{io, rt, thread};

/// How many milliseconds a look rests that found nothing, so that looking again doesn't take a whole processor.
const REST: u64 = 10;

/// The sockets at which the members listen. It counts each failed call. A connection that broke before it was taken, and a want of memory, descriptors or network that passes, is `Quiet`.
#[derive(Drop)]
pub struct TcpListeners<R> {
    rt: R,
    listeners: Vec<TcpListener>,
    first: usize,
    faults: u64,
    ghost numbered: { vec_len listeners < 2 ^ 32 },
}

// The two ends of a connection: one stream, held twice.
#[derive(Drop)]
struct Ends {
    reader: TcpStream,
    writer: TcpStream,
}

impl<R: Net<Listener = TcpListener, Stream = TcpStream> + Drop> TcpListeners<R> {
    /// Listens at the address of each member, in the order of their numbers.
    pub fn bind(rt: R, alloc: Global, addresses: &[String]) -> Result<TcpListeners<R>, BindError>
        requires { length addresses.now < 2 ^ 32 }
        ensures members { IfOk result (λ made. vec_len made.listeners ≡ length addresses.now) }
        ensures faults { IfOk result (λ made. made.faults ≡ 0) }
    {
        let mut listeners = Vec::new(alloc);
        for address in addresses {
            listeners
                .push(listen(&rt, address)?)
                .map_err(AllocError::from)?;
        }
        Ok(TcpListeners {
            rt,
            listeners,
            first: 0,
            faults: 0,
        })
    }
}

impl<R> TcpListeners<R> {
    ghost use Rattle.zot_outside.specs.Accepted.{IsStream};

    // What a call answers for what a look found: a connection, nothing or an error. The next look begins after the member of this connection.
    fn found(
        &mut self,
        looked: io::Result<Option<(u32, Ends)>>,
    ) -> Result<Accepted<ReaderSource<TcpStream>, WriterSink<TcpStream>>, Failed>
        ensures cause { HasCause self.old.faults self.new.faults result }
        ensures answer { IfOk looked (λ found. MatchOption found (result ≡ Ok Quiet) (λ one. IsOkAnd result (λ accepted. IsStream accepted one.0))) }
        ensures lost { OnErr looked (IsErr result) }
        ensures turn { IfOk looked (λ found. IfSome found (λ one. self.new.first ≡ one.0 + 1)) }
        ensures kept { vec_len self.new.listeners ≡ vec_len self.old.listeners }
    {
        match looked {
            Ok(Some((member, ends))) => {
                self.first = member as usize + 1;
                Ok(Accepted::Stream(
                    member,
                    ReaderSource::new(ends.reader),
                    WriterSink::new(ends.writer),
                ))
            }
            Ok(None) => Ok(Accepted::Quiet),
            Err(_) => {
                self.faults = self.faults.saturating_add(1);
                Err(Failed)
            }
        }
    }
}

// Listens at an address, without waiting for a connection.
fn listen<R: Net<Listener = TcpListener, Stream = TcpStream>>(
    rt: &R,
    address: &String,
) -> Result<TcpListener, BindError> {
    let listener = TcpListener::bind(rt, address.as_str()).map_err(refused)?;
    listener.set_nonblocking(true).map_err(refused)?;
    Ok(listener)
}

fn refused(error: io::Error) -> BindError {
    match error.kind() {
        ErrorKind::OutOfMemory => BindError::NoMemory,
        _ => BindError::Failed,
    }
}

impl<R: rt::Clock> Listener for TcpListeners<R> {
    type C = ReaderSource<TcpStream>;

    type K = WriterSink<TcpStream>;

    ghost members = { λ s. vec_len s.listeners };

    ghost faults = { λ s. s.faults };

    fn accept(&mut self) -> Result<Accepted<Self::C, Self::K>, Failed> {
        let looked = look(self.listeners.as_slice(), self.first);
        if let Ok(None) = &looked {
            thread::sleep(&self.rt, Duration::from_millis(REST));
        }
        self.found(looked)
    }
}

// Looks once at each socket for a connection that waits, from that of the member `first` on.
fn look(listeners: &[TcpListener], first: usize) -> io::Result<Option<(u32, Ends)>>
    requires { length listeners.now < 2 ^ 32 }
    ensures { IfOk result (λ found. IfSome found (λ one. one.0 < length listeners.now)) }
{
    let n = listeners.len();
    for step in 0..n {
        let member = (first % n + step) % n;
        if let Some(ends) = unless_passing(take(&listeners[member]))? {
            return Ok(Some((member as u32, ends)));
        }
    }
    Ok(None)
}

// The two ends of the connection that waits at a socket.
fn take(listener: &TcpListener) -> io::Result<Ends> {
    let (writer, _) = listener.accept()?;
    let reader = writer.try_clone()?;
    Ok(Ends { reader, writer })
}
