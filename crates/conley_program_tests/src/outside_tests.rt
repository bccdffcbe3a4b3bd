use conley_outside::{
    Depot, Failed, FetchError, FileDepot, MemoryDepot, MemorySink, Sink, StreamSink,
};
use std::alloc::Global;
use std::fs;
use std::test::Fail;

fn fetch<D: Depot>(
    depot: &mut D,
    alloc: Global,
    name: &str,
    limit: usize,
    into: &mut Vec<u8>,
) -> Result<(), FetchError> {
    into.clear();
    depot.fetch(alloc, name, limit, into)
}

fn put<S: Sink>(sink: &mut S, piece: &[u8]) -> Result<usize, Failed> {
    sink.put(piece)
}

/// A limit, the answer, and the bytes that are fetched.
const FETCHES: [(usize, Result<(), FetchError>, &[u8]); 4] = [
    (5, Ok(()), b"three"),
    (4, Err(FetchError::TooLong), b"thre"),
    (5, Err(FetchError::Failed), b""),
    (5, Ok(()), b"three"),
];

#[test]
fn the_newer_bytes_are_fetched(rt: HostRuntime) -> Result<(), Fail> {
    let alloc = rt.alloc();
    let mut depot = MemoryDepot::new(alloc);
    let mut into = Vec::new(alloc);
    depot.add("a", b"one")?;
    depot.add("a", b"three")?;
    depot.fail_at(2);
    for (limit, answer, bytes) in &FETCHES {
        let found = fetch(&mut depot, alloc, "a", *limit, &mut into);
        assert!(rt; found == *answer && into.as_slice() == *bytes);
    }
    Ok(())
}

/// Pieces, and how many of their bytes are taken.
const PUTS: [(&[u8], Result<usize, Failed>); 5] = [
    (b"abcd", Ok(3)),
    (b"d", Err(Failed)),
    (b"def", Ok(2)),
    (b"", Ok(0)),
    (b"f", Err(Failed)),
];

#[test]
fn a_sink_takes_what_it_may(rt: HostRuntime) -> Result<(), Fail> {
    let mut sink = MemorySink::new(rt.alloc(), 5, 3, Some(1))?;
    for (piece, answer) in &PUTS {
        assert!(rt; put(&mut sink, piece) == *answer);
    }
    assert!(rt; sink.written() == b"abcde".as_slice());
    Ok(())
}

/// Names, limits, and what is fetched of a file of five bytes, of no file and of a folder.
const READS: [(&str, usize, Result<(), FetchError>, &[u8]); 4] = [
    (NAME, 5, Ok(()), b"12345"),
    (NAME, 4, Err(FetchError::TooLong), b"1234"),
    ("no_file_of_this_name", 5, Err(FetchError::Failed), b""),
    (".", 5, Err(FetchError::Failed), b""),
];

const NAME: &str = "a_file_of_five_bytes";

#[test]
fn files_of_the_system_are_fetched(rt: HostRuntime) -> Result<(), Fail> {
    let mut depot = FileDepot::new(&rt);
    let mut into = Vec::new(rt.alloc());
    fs::write(&rt, NAME, "12345")?;
    for (name, limit, answer, bytes) in &READS {
        let found = fetch(&mut depot, rt.alloc(), name, *limit, &mut into);
        assert!(rt; found == *answer && into.as_slice() == *bytes, "{name}");
    }
    fs::remove_file(&rt, NAME)?;
    Ok(())
}

#[test]
fn a_stream_gets_the_pieces(rt: HostRuntime) -> Result<(), Fail> {
    let mut stream = Vec::new(rt.alloc());
    let taken = {
        let mut sink = StreamSink::new(&mut stream);
        [
            put(&mut sink, b"ab"),
            put(&mut sink, b""),
            put(&mut sink, b"c"),
        ]
    };
    assert!(rt; taken == [Ok(2), Ok(0), Ok(1)] && stream.as_slice() == b"abc".as_slice());
    Ok(())
}

#[test]
fn a_stream_that_takes_nothing_fails(rt: HostRuntime) {
    let mut room = [0u8; 1];
    let mut sink = StreamSink::new(room.as_mut_slice());
    let taken = [put(&mut sink, b"ab"), put(&mut sink, b"b")];
    assert!(rt; taken == [Ok(1), Err(Failed)]);
}
