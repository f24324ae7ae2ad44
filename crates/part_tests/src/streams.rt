//! Sources and sinks, by what no clause says: that the calls succeed where there is memory, and what std's readers and writers get.

use crate::expect::expect_same;
use fc_base::outcome::Failed;
use fc_io::mem_sink::MemSink;
use fc_io::mem_source::MemSource;
use fc_io::sink::Sink;
use fc_io::source::Source;
use fc_io::std_sink::StdSink;
use fc_io::std_source::StdSource;
use std::alloc::Global;
use std::io;
use std::io::Write;
use std::process::Abort;
use std::test::Fail;

/// A source of 1, 2 and 3 in pieces of two, whose second call fails.
fn assert_taken(rt: &impl Abort, source: &mut MemSource) {
    let mut out = [0; 8];
    expect_same(rt, &source.take(&mut out), &Ok(2), "take", 1);
    expect_same(rt, &source.take(&mut out), &Err(Failed), "take", 2);
    expect_same(rt, &source.take(&mut out), &Ok(1), "take", 3);
    expect_same(rt, &(out[0], out[1]), &(3, 2), "taken", 3);
    expect_same(rt, &source.take(&mut out), &Ok(0), "take", 4);
    expect_same(rt, &source.faults(), &1, "faults", 1);
}

#[test]
fn a_source_gives_its_bytes_in_pieces(rt: HostRuntime) -> Result<(), Fail> {
    let bytes = Vec::from_slice(rt.alloc(), &[1, 2, 3])?;
    let failing = Vec::from_slice(rt.alloc(), &[2])?;
    assert_taken(&rt, &mut MemSource::new(bytes, 2, failing));
    Ok(())
}

/// A sink whose second and fourth calls fail.
fn assert_put(rt: &impl Abort, sink: &mut MemSink) {
    expect_same(rt, &sink.put(b"ab"), &Ok(()), "put", 1);
    expect_same(rt, &sink.put(b"cdef"), &Err(Failed), "put", 2);
    assert!(rt; sink.bytes() == b"abcd".as_slice());
    assert!(rt; sink.sent().is_empty());
    expect_same(rt, &sink.flush(), &Ok(()), "flush", 1);
    assert!(rt; sink.sent() == b"abcd".as_slice());
    expect_same(rt, &sink.flush(), &Err(Failed), "flush", 2);
    expect_same(rt, &sink.faults(), &2, "faults", 2);
}

#[test]
fn a_sink_keeps_what_is_put(rt: HostRuntime) -> Result<(), Fail> {
    let failing = Vec::from_slice(rt.alloc(), &[2, 4])?;
    assert_put(&rt, &mut MemSink::new(rt.alloc(), failing));
    Ok(())
}

/// A source of `abc`, for two bytes at once.
fn assert_read<S: Source>(rt: &impl Abort, source: &mut S) {
    let mut out = [0; 2];
    expect_same(rt, &source.take(&mut out), &Ok(2), "take", 1);
    expect_same(rt, &out, &[97, 98], "taken", 1);
    expect_same(rt, &source.take(&mut out), &Ok(1), "take", 2);
    expect_same(rt, &source.take(&mut out), &Ok(0), "take", 3);
}

#[test]
fn a_reader_is_a_source(rt: HostRuntime) -> Result<(), Fail> {
    let mut source = StdSource::new(rt.alloc(), b"abc".as_slice())?;
    assert_read(&rt, &mut source);
    Ok(())
}

/// A writer that takes nothing.
#[derive(Drop)]
struct Stuck;

impl Write for Stuck {
    fn write(&mut self, _buf: &[u8]) -> io::Result<usize> {
        Ok(0)
    }

    fn flush(&mut self) -> io::Result<()> {
        Ok(())
    }
}

/// A sink over a writer that takes nothing: what fits its own memory waits there.
fn assert_stuck<K: Sink>(rt: &impl Abort, sink: &mut K, long: &[u8]) {
    expect_same(rt, &sink.put(b"waits"), &Ok(()), "put", 1);
    expect_same(rt, &sink.put(long), &Err(Failed), "put", 2);
    expect_same(rt, &sink.flush(), &Err(Failed), "flush", 1);
    expect_same(rt, &sink.faults(), &2, "faults", 2);
}

/// A sink over a writer that takes all.
fn assert_written<K: Sink>(rt: &impl Abort, sink: &mut K, long: &[u8]) {
    expect_same(rt, &sink.put(long), &Ok(()), "put", 1);
    expect_same(rt, &sink.flush(), &Ok(()), "flush", 1);
}

/// A writer that takes nothing, as a sink.
fn over_stuck(rt: &impl Abort, alloc: Global, long: &[u8]) -> Result<(), Fail> {
    let mut sink = StdSink::new(alloc, Stuck)?;
    assert_stuck(rt, &mut sink, long);
    Ok(())
}

/// A writer that takes all, as a sink.
fn over_list(rt: &impl Abort, alloc: Global, long: &[u8]) -> Result<(), Fail> {
    let mut sink = StdSink::new(alloc, Vec::new(alloc))?;
    assert_written(rt, &mut sink, long);
    Ok(())
}

#[test]
fn a_write_that_takes_nothing_is_a_fault(rt: HostRuntime) -> Result<(), Fail> {
    let alloc = rt.alloc();
    let long = vec![in alloc; 7; 70_000]?;
    over_stuck(&rt, alloc, &long)?;
    over_list(&rt, alloc, &long)
}
