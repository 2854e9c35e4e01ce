//! Where bytes come from and go to.

mod reader_source;
mod sink;
mod source;
mod writer_sink;

pub use self::reader_source::ReaderSource;
pub use self::sink::Sink;
pub use self::source::Source;
pub use self::writer_sink::WriterSink;
