//! Each call that takes memory, the forms in memory round their failing calls, and the adapters over the system.
use octo_outside::{
    Blob, CallList, Clock, Conn, Failed, FileSource, Got, MemoryClock, MemoryConn, MemorySink,
    MemorySource, ReadAll, Sink, Source, StdSink, SystemClock, WordList, calls_of, read_all,
    send_all, write_all,
};
use std::alloc::{AllocError, Global};
use std::test::Fail;

#[test]
fn ample_blob(rt: HostRuntime) -> Result<(), Fail> {
    let alloc = rt.alloc();
    let mut blob = Blob::from_slice(alloc, b"G28")?;
    blob.append(b"\n")?;
    assert_eq!(rt; blob.as_slice(), b"G28\n".as_slice());
    let owned = Blob::from_vec(Vec::from_slice(alloc, b"M105")?);
    assert_eq!(rt; owned.as_slice(), b"M105".as_slice());
    Ok(())
}

#[test]
fn ample_words(rt: HostRuntime) -> Result<(), Fail> {
    let mut words = WordList::new(rt.alloc());
    words.push("check")?;
    words.push("a.gcode")?;
    assert_eq!(rt; words.count(), 2);
    assert_eq!(rt; words.get(1), "a.gcode");
    Ok(())
}

#[test]
fn ample_source(rt: HostRuntime) -> Result<(), Fail> {
    let alloc = rt.alloc();
    let mut files = MemorySource::new(alloc, CallList::new(alloc));
    files.put("a.gcode", b"G28\n")?;
    files.put("a.gcode", b"G1 X10\n")?;
    match read_all(alloc, &mut files, "a.gcode", 7) {
        Ok(bytes) => assert_eq!(rt; bytes.len(), 7),
        Err(_) => panic!(rt; "not read"),
    }
    Ok(())
}

#[test]
fn ample_sink(rt: HostRuntime) -> Result<(), Fail> {
    let alloc = rt.alloc();
    let mut out = MemorySink::new(alloc, CallList::new(alloc));
    assert_eq!(rt; write_all(&mut out, b"done\n"), Ok(()));
    assert_eq!(rt; out.written().unwrap_or(&[]), b"done\n".as_slice());
    Ok(())
}

// A connection without input, on which a message was written.
fn written_conn(alloc: Global) -> Result<MemoryConn, Fail> {
    let none = CallList::new(alloc);
    let mut conn = MemoryConn::new(alloc, b"", none, CallList::new(alloc))?;
    match send_all(&mut conn, b"ok\n") {
        Ok(()) => Ok(conn),
        Err(_) => Err(Fail::from("failed")),
    }
}

#[test]
fn ample_conn(rt: HostRuntime) -> Result<(), Fail> {
    let conn = written_conn(rt.alloc())?;
    assert_eq!(rt; conn.written().unwrap_or(&[]), b"ok\n".as_slice());
    Ok(())
}

// A connection whose first call fails, and whose third and sixth find nothing yet.
fn scheduled(alloc: Global) -> Result<MemoryConn, AllocError> {
    let quiet_at = calls_of(alloc, &[3, 6])?;
    MemoryConn::new(alloc, b"G28\n", quiet_at, calls_of(alloc, &[1])?)
}

// The sixth would find nothing yet, were anything left.
#[test]
fn scheduled_reads(rt: HostRuntime) -> Result<(), Fail> {
    let mut conn = scheduled(rt.alloc())?;
    let mut into = [0; 3];
    let gots = [
        (Err(Failed), [0, 0, 0]),
        (Ok(Got::Bytes(3)), *b"G28"),
        (Ok(Got::Quiet), *b"G28"),
        (Ok(Got::Bytes(1)), *b"\n28"),
        (Ok(Got::Ended), *b"\n28"),
        (Ok(Got::Ended), *b"\n28"),
    ];
    for wanted in gots {
        let got = conn.read(&mut into);
        assert_eq!(rt; (got, into), wanted);
    }
    Ok(())
}

// A source with one file, these of whose calls fail.
fn source(alloc: Global, fail_at: &[u64]) -> Result<MemorySource, AllocError> {
    let mut files = MemorySource::new(alloc, calls_of(alloc, fail_at)?);
    files.put("a.gcode", b"G28\n")?;
    Ok(files)
}

// The second call, the first read, fails; then the limit and the name are at fault.
#[test]
fn failing_calls(rt: HostRuntime) -> Result<(), Fail> {
    let mut files = source(rt.alloc(), &[2])?;
    for (name, limit, fault) in [
        ("a.gcode", 7, ReadAll::Failed),
        ("a.gcode", 3, ReadAll::TooLong),
        ("b.gcode", 7, ReadAll::Failed),
    ] {
        let read = read_all(rt.alloc(), &mut files, name, limit);
        assert_eq!(rt; read.err(), Some(fault), "at {name}");
    }
    Ok(())
}

#[test]
fn absent_file(rt: HostRuntime) -> Result<(), Fail> {
    let mut files = source(rt.alloc(), &[])?;
    assert_eq!(rt; files.choose("a.gcode"), Ok(()));
    assert_eq!(rt; files.choose("b.gcode"), Err(Failed));
    let mut chunk = [0; 3];
    assert_eq!(rt; files.read(&mut chunk), Ok(0));
    Ok(())
}

#[test]
fn failing_write(rt: HostRuntime) -> Result<(), Fail> {
    let mut out = MemorySink::new(rt.alloc(), calls_of(rt.alloc(), &[1])?);
    assert_eq!(rt; out.write(b"done\n"), Err(Failed));
    assert_eq!(rt; out.write(b"done\n"), Ok(5));
    assert_eq!(rt; out.written().unwrap_or(&[]), b"done\n".as_slice());
    Ok(())
}

#[test]
fn clock_rests(rt: HostRuntime) {
    let mut clock = MemoryClock::new(5, 10);
    clock.rest();
    assert_eq!(rt; clock.now(), 15);
    let mut last = MemoryClock::new(u64::MAX - 1, 10);
    last.rest();
    assert_eq!(rt; last.now(), u64::MAX);
}

#[test]
fn system_clock(rt: HostRuntime) {
    let mut clock = SystemClock::new(rt);
    let first = clock.now();
    clock.rest();
    clock.rest();
    clock.rest();
    // Three rests of a millisecond, less one for the rounding.
    assert!(rt; clock.now() - first >= 2);
}

#[test]
fn standard_output(rt: HostRuntime) {
    let mut out = StdSink::new(rt);
    assert_eq!(rt; write_all(&mut out, b"a line of the test\n"), Ok(()));
}

// The first bytes of a file of the system, or the call that failed.
fn first_bytes(rt: HostRuntime, name: &str) -> Result<usize, &'static str> {
    let mut files = FileSource::new(rt);
    let mut into = [1; 4];
    let Ok(()) = files.choose(name) else {
        return Err("choose");
    };
    let Ok(n) = files.read(&mut into) else {
        return Err("read");
    };
    Ok(n)
}

#[test]
fn files_of_the_system(rt: HostRuntime) {
    for (name, want) in [
        ("/dev/zero", Ok(4)),
        ("/dev/null", Ok(0)),
        ("/", Err("read")),
        ("/absent/a.gcode", Err("choose")),
    ] {
        assert_eq!(rt; first_bytes(rt, name), want, "at {name}");
    }
}
