//! Connections over the same rows.
use std::alloc::Global;
use zot_cases::Answer;
use zot_cluster::serve_rows;
use zot_commands::memory_rows;
use zot_fakes::{HandClock, MemorySink, MemorySource, SteadyStore};
use zot_outside::{Clock, OpenGate};
use zot_pool::MemoryUpstream;
use zot_rows::Rows;
use zot_session::End;

/// A clock that counts how often it was asked.
#[derive(Drop)]
struct CountingClock {
    asked: u64,
}

impl Clock for CountingClock {
    ghost use Rattle.std.specs.Prelude.{None};

    ghost moment = { λ _. None };

    fn now(&mut self) -> u64 {
        self.asked = self.asked.saturating_add(1);
        self.asked
    }
}

/// `INPUT`: how often the clock is asked for the moment, and how the connection ends.
pub fn moments(answer: &mut Answer, given: &str) {
    let alloc = answer.alloc();
    let Ok(mut rows) = memory_rows(alloc) else {
        return answer.fail("out of memory");
    };
    let mut clock = CountingClock { asked: 0 };
    let mut source = MemorySource::new(answer.read(given), 64, Vec::new(alloc));
    let mut sink = MemorySink::new(alloc, Vec::new(alloc));
    let end = serve(alloc, &mut rows, &mut clock, &mut source, &mut sink);
    answer.show(&(clock.asked, end));
}

/// `INPUT & INPUT & ..`: the status of the first reply of each of these connections, one after another over the same rows.
pub fn connections(answer: &mut Answer, given: &str) {
    let alloc = answer.alloc();
    let Ok(mut rows) = memory_rows(alloc) else {
        return answer.fail("out of memory");
    };
    let mut clock = HandClock::new(7);
    for input in given.split(" & ") {
        let mut source = MemorySource::new(answer.read(input), 32, Vec::new(alloc));
        let mut sink = MemorySink::in_pieces(alloc, 32, Vec::new(alloc));
        serve(alloc, &mut rows, &mut clock, &mut source, &mut sink);
        answer.begin();
        answer.write(sink.written().get(..12).unwrap_or(b"no reply"));
    }
}

// How a connection at the one member of these rows ends.
fn serve<T: Clock>(
    alloc: Global,
    rows: &mut Rows<SteadyStore>,
    clock: &mut T,
    source: &mut MemorySource,
    sink: &mut MemorySink,
) -> End {
    let mut scratch = SteadyStore::new(alloc);
    let mut upstream = MemoryUpstream::empty();
    serve_rows(
        alloc,
        rows,
        0,
        &mut scratch,
        &mut upstream,
        clock,
        &OpenGate,
        source,
        sink,
    )
}
