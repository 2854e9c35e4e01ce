//! The adapters over the real things: a large file, streams, the system's clock and sockets.
use std::alloc::Global;
use std::io::{Read, Write};
use std::net::{TcpListener, TcpStream};
use std::test::Fail;
use std::thread::Threads;
use std::{fs, thread};
use zot_fakes::{MemorySink, MemorySource, MemoryStore, SteadySource, SteadyStore};
use zot_folder::{Disk, FolderStore};
use zot_outside::{
    Accepted, BindError, Clock, Gate, Listener, OpenGate, Point, ReaderSource, Sink, Source, Store,
    StoreError, SystemClock, TcpListeners, WriterSink, has_bytes, read_whole,
};

/// A store over a new folder in the test's own folder.
fn fresh_folder(rt: HostRuntime, root: &str) -> Result<FolderStore<Disk<HostRuntime>>, Fail> {
    if fs::exists(&rt, root)? {
        fs::remove_dir_all(&rt, root)?;
    }
    Ok(FolderStore::new(rt, rt.alloc(), root)?)
}

/// How many pieces the large object has.
const PIECES: u8 = 80;

/// Makes an object of pieces of 65,536 bytes, each of its own number.
fn put_pieces<S: Store>(alloc: Global, store: &mut S, path: &str) -> Result<(), StoreError> {
    for number in 0..PIECES {
        let piece = vec![in alloc; number; 65_536]?;
        store.append(alloc, path, piece.as_slice())?;
    }
    Ok(())
}

/// Whether an object has these pieces, and nothing after them.
fn has_pieces<S: Store>(alloc: Global, store: &mut S, path: &str) -> Result<bool, StoreError> {
    let mut buf = vec![in alloc; 0; 65_536]?;
    let mut at = 0u64;
    for number in 0..PIECES {
        let n = store.read(alloc, path, at, buf.as_mut_slice())?;
        if n < buf.len() || buf.iter().any(|b| *b != number) {
            return Ok(false);
        }
        at = at.saturating_add(n as u64);
    }
    Ok(store.size(alloc, path)? == at && store.read(alloc, path, at, buf.as_mut_slice())? == 0)
}

#[test]
fn folder_of_a_large_object(rt: HostRuntime) -> Result<(), Fail> {
    let alloc = rt.alloc();
    let mut store = fresh_folder(rt, "folder_of_a_large_object")?;
    let mut other = FolderStore::new(rt, alloc, "folder_of_a_large_object")?;
    put_pieces(alloc, &mut store, "large/object")?;
    other.copy(alloc, "large/object", "large/copy")?;
    assert!(rt; has_pieces(alloc, &mut other, "large/object")?);
    assert!(rt; has_pieces(alloc, &mut store, "large/copy")?);
    let mut whole = read_whole(&mut store, alloc, "large/object")?;
    assert!(rt; has_bytes(&mut other, alloc, "large/copy", whole.as_slice())?);
    whole.push(0)?;
    assert!(rt; !has_bytes(&mut store, alloc, "large/copy", whole.as_slice())?);
    other.append(alloc, "large/copy", &[1])?;
    assert!(rt; !has_bytes(&mut store, alloc, "large/copy", whole.as_slice())?);
    fs::remove_dir_all(&rt, "folder_of_a_large_object")?;
    Ok(())
}

/// What two reads into three bytes and one more find in a file, which has five.
fn reads_of(rt: HostRuntime, file: &str) -> Result<(usize, usize, usize), Fail> {
    let mut source = ReaderSource::new(fs::open(&rt, file)?);
    let mut buf = [0u8; 3];
    let Ok(first) = source.read(&mut buf) else {
        return Err(Fail::from("the first read failed"));
    };
    if buf != *b"abc" {
        return Err(Fail::from("other bytes"));
    }
    let Ok(second) = source.read(&mut buf) else {
        return Err(Fail::from("the second read failed"));
    };
    let Ok(third) = source.read(&mut buf) else {
        return Err(Fail::from("the third read failed"));
    };
    Ok((first, second, third))
}

#[test]
fn streams(rt: HostRuntime) -> Result<(), Fail> {
    let mut sink = WriterSink::new(fs::create(&rt, "streams")?);
    assert!(rt; sink.write(b"abcde") == Ok(5) && sink.write(b"") == Ok(0));
    drop(sink);
    assert!(rt; reads_of(rt, "streams")? == (3, 2, 0));
    let mut unreadable = ReaderSource::new(fs::create(&rt, "streams")?);
    assert!(rt; unreadable.read(&mut [0u8; 3]).is_err());
    fs::remove_file(&rt, "streams")?;
    let mut input = ReaderSource::new(rt.stdin());
    let mut output = WriterSink::new(rt.stdout());
    assert!(rt; input.read(&mut []) == Ok(0) && output.write(b"") == Ok(0));
    Ok(())
}

#[test]
fn clock_and_gate(rt: HostRuntime) {
    let mut clock = SystemClock::new(rt);
    let moment = clock.now();
    assert!(rt; moment > 1_760_000_000 && clock.now() >= moment);
    OpenGate.pass(&Point::Request(1));
    OpenGate.pass(&Point::Fetch(2));
}

/// An address of the loopback whose port was free a moment ago.
fn free_address(rt: HostRuntime) -> Result<String, Fail> {
    let listener = TcpListener::bind(&rt, "127.0.0.1:0")?;
    let port = listener.local_addr()?.port();
    Ok(format!(in rt.alloc(); "127.0.0.1:{port}")?)
}

/// What connects to a listener.
type Ends = (u32, ReaderSource<TcpStream>, WriterSink<TcpStream>);

/// The next connection, which has come already.
fn connection(listeners: &mut TcpListeners<HostRuntime>) -> Result<Ends, Fail> {
    for _ in 0..100 {
        match listeners.accept() {
            Ok(Accepted::Stream(member, source, sink)) => return Ok((member, source, sink)),
            Ok(Accepted::Quiet) => {}
            Err(_) => return Err(Fail::from("the listener failed")),
        }
    }
    Err(Fail::from("no connection came"))
}

/// Connects to an address, and says by its number which member's connection it was, where what each side writes comes to the other, and its end too.
fn answering_member(
    rt: HostRuntime,
    listeners: &mut TcpListeners<HostRuntime>,
    address: &str,
) -> Result<Option<u32>, Fail> {
    let mut client = TcpStream::connect(&rt, address)?;
    let (member, mut source, mut sink) = connection(listeners)?;
    client.write_all(b"ask")?;
    let mut asked = [0u8; 8];
    let came = source.read(&mut asked) == Ok(3) && asked == *b"ask\0\0\0\0\0";
    let sent = sink.write(b"answer") == Ok(6);
    let mut answered = [0u8; 6];
    client.read_exact(&mut answered)?;
    drop(client);
    let ended = source.read(&mut asked) == Ok(0);
    let whole = came && sent && ended && answered == *b"answer";
    Ok(whole.then_some(member))
}

/// Listeners at these addresses.
fn bound(rt: HostRuntime, addresses: &[String]) -> Result<TcpListeners<HostRuntime>, BindError> {
    if addresses.len() < 9 {
        TcpListeners::bind(rt, rt.alloc(), addresses)
    } else {
        Err(BindError::NoMemory)
    }
}

#[test]
fn loopback(rt: HostRuntime) -> Result<(), Fail> {
    let mut addresses = Vec::new(rt.alloc());
    addresses.push(free_address(rt)?)?;
    addresses.push(free_address(rt)?)?;
    let mut listeners = bound(rt, addresses.as_slice())?;
    assert!(rt; matches!(listeners.accept(), Ok(Accepted::Quiet)));
    for member in [1, 0, 1] {
        let address = addresses.get(member).ok_or("a member")?;
        let answering = answering_member(rt, &mut listeners, address.as_str())?;
        assert_eq!(rt; answering, Some(member as u32));
    }
    assert!(rt; matches!(listeners.accept(), Ok(Accepted::Quiet)));
    assert!(rt; bound(rt, addresses.as_slice()).err() == Some(BindError::Failed));
    addresses.push(String::from_str(rt.alloc(), "nowhere")?)?;
    assert!(rt; bound(rt, &addresses[2..]).err() == Some(BindError::Failed));
    Ok(())
}

/// Whether a store that was moved into a thread takes an object there, and a whole read finds it here.
fn serves_a_thread<R: Threads, S: Store + Send + Drop + 'static>(
    rt: &R,
    alloc: Global,
    store: S,
) -> Result<bool, Fail> {
    let mut store = store;
    let thread = thread::spawn(rt, move || {
        let put = store.put(alloc, "a", b"abc").is_ok();
        (store, put)
    });
    let (mut store, put) = thread.map_err(|_| "no thread")?.join(rt);
    Ok(put && has_bytes(&mut store, alloc, "a", b"abc")?)
}

/// Whether a source that was moved into a thread gives three bytes there.
fn gives_a_thread<R: Threads, S: Source + Send + Drop + 'static>(
    rt: &R,
    source: S,
) -> Result<bool, Fail> {
    let mut source = source;
    let thread = thread::spawn(rt, move || source.read(&mut [0u8; 3]) == Ok(3));
    Ok(thread.map_err(|_| "no thread")?.join(rt))
}

/// Whether a sink that was moved into a thread takes three bytes there.
fn takes_of_a_thread<R: Threads, S: Sink + Send + Drop + 'static>(
    rt: &R,
    sink: S,
) -> Result<bool, Fail> {
    let mut sink = sink;
    let thread = thread::spawn(rt, move || sink.write(b"abc") == Ok(3));
    Ok(thread.map_err(|_| "no thread")?.join(rt))
}

#[test]
fn each_serves_a_thread(rt: HostRuntime) -> Result<(), Fail> {
    let alloc = rt.alloc();
    assert!(rt; serves_a_thread(&rt, alloc, fresh_folder(rt, "each_serves_a_thread")?)?);
    assert!(rt; serves_a_thread(&rt, alloc, SteadyStore::new(alloc))?);
    assert!(rt;
        serves_a_thread(
            &rt,
            alloc,
            MemoryStore::new(alloc, Vec::new(alloc), Vec::new(alloc))?
        )?
    );
    fs::remove_dir_all(&rt, "each_serves_a_thread")?;
    assert!(rt; takes_of_a_thread(&rt, WriterSink::new(fs::create(&rt, "thread")?))?);
    assert!(rt; takes_of_a_thread(&rt, MemorySink::new(alloc, Vec::new(alloc)))?);
    assert!(rt; gives_a_thread(&rt, ReaderSource::new(fs::open(&rt, "thread")?))?);
    fs::remove_file(&rt, "thread")?;
    let bytes = Vec::from_slice(alloc, b"abc")?;
    assert!(rt; gives_a_thread(&rt, SteadySource::new(bytes))?);
    let bytes = Vec::from_slice(alloc, b"abc")?;
    assert!(rt; gives_a_thread(&rt, MemorySource::new(bytes, 4, Vec::new(alloc)))?);
    Ok(())
}
