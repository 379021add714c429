//! Lists and buffers with ample memory, inputs and sinks in memory, and what the system's files and streams do.
use rv_io::{
    Boxed, Buf, Fail as Fault, FetchErr, File, Inputs, List, MemInputs, MemSink, Memory,
    RealInputs, RealSink, Sink, Text,
};
use std::alloc::Global;
use std::fs;
use std::test::Fail;

fn text(alloc: Global, bytes: &str) -> Result<Text, Memory> {
    Text::from_bytes(alloc, bytes.as_bytes())
}

/// Two files named `a`, of which the first counts.
fn two_files(alloc: Global, failing: &[u32]) -> Result<MemInputs, Memory> {
    let mut files = List::new(alloc);
    for bytes in ["first", "second"] {
        files.push(File {
            name: text(alloc, "a")?,
            bytes: text(alloc, bytes)?,
        })?;
    }
    let mut calls = List::new(alloc);
    for call in failing {
        calls.push(*call)?;
    }
    Ok(MemInputs::new(files, calls))
}

#[test]
fn a_buffer_and_a_list_grow(rt: HostRuntime) -> Result<(), Fail> {
    let mut buf = Buf::new(rt.alloc());
    buf.put(b"abc")?;
    buf.put(b"de")?;
    buf.truncate(4);
    assert_eq!(rt; buf.as_bytes(), b"abcd".as_slice());
    let mut list = List::new(rt.alloc());
    list.push(7)?;
    list.push(8)?;
    assert_eq!(rt; list.as_slice(), [7, 8].as_slice());
    assert_eq!(rt; *Boxed::new(rt.alloc(), 9)?.get(), 9);
    Ok(())
}

#[test]
fn files_in_memory_are_fetched_by_plan(rt: HostRuntime) -> Result<(), Fail> {
    let mut inputs = two_files(rt.alloc(), &[1])?;
    let mut into = Buf::new(rt.alloc());
    assert_eq!(rt; inputs.fetch("a", 3, &mut into), Ok(()));
    assert_eq!(rt; inputs.fetch("a", 9, &mut into), Err(FetchErr::Failed));
    assert_eq!(rt; inputs.fetch("a", 9, &mut into), Ok(()));
    assert_eq!(rt; inputs.fetch("b", 9, &mut into), Err(FetchErr::NoFile));
    assert_eq!(rt; into.as_bytes(), b"firfirst".as_slice());
    Ok(())
}

#[test]
fn a_sink_in_memory_takes_what_fits(rt: HostRuntime) -> Result<(), Fail> {
    let mut failing = List::new(rt.alloc());
    failing.push(Fault { call: 1, taken: 2 })?;
    let mut sink = MemSink::with_room(rt.alloc(), 6, failing)?;
    assert!(rt; sink.put(b"a").is_ok());
    assert!(rt; sink.put(b"").is_ok());
    assert!(rt; sink.put(b"bcd").is_err());
    assert!(rt; sink.put(b"efghi").is_err());
    assert_eq!(rt; sink.written(), b"abcefg".as_slice());
    Ok(())
}

#[test]
fn real_inputs_read_the_front_of_a_file(rt: HostRuntime) -> Result<(), Fail> {
    fs::write(&rt, "three", b"abc".as_slice())
        .ok()
        .ok_or("a file is written")?;
    let mut inputs = RealInputs::new(&rt);
    let mut into = Buf::new(rt.alloc());
    assert_eq!(rt; inputs.fetch("three", 2, &mut into), Ok(()));
    assert_eq!(rt; into.as_bytes(), b"ab".as_slice());
    assert_eq!(rt; inputs.fetch("three", 9, &mut into), Ok(()));
    assert_eq!(rt; into.as_bytes(), b"ababc".as_slice());
    assert_eq!(rt; inputs.fetch("four", 9, &mut into), Err(FetchErr::NoFile));
    assert_eq!(rt; inputs.fetch(".", 9, &mut into), Err(FetchErr::Failed));
    assert_eq!(rt; into.as_bytes(), b"ababc".as_slice());
    Ok(())
}

#[test]
fn a_real_sink_writes_and_fails_where_the_device_is_full(rt: HostRuntime) -> Result<(), Fail> {
    let file = fs::create(&rt, "out").ok().ok_or("a file is made")?;
    let mut sink = RealSink::new(file);
    assert!(rt; sink.put(b"ab").is_ok());
    assert!(rt; sink.put(b"").is_ok());
    let text = fs::read(&rt, "out").ok().ok_or("the file is read")?;
    assert_eq!(rt; text.as_slice(), b"ab".as_slice());
    let full = fs::create(&rt, "/dev/full")
        .ok()
        .ok_or("there is /dev/full")?;
    let mut sink = RealSink::new(full);
    assert!(rt; sink.put(b"ab").is_err());
    Ok(())
}
