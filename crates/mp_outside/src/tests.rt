// What no clause says: that calls succeed where there is memory, and what the host does.
use super::*;
use std::alloc::{AllocError, Global};
use std::io::{ErrorKind, Write};
use std::{fs, io, process};

// Whether these bytes are held.
fn is_held(held: Option<&[u8]>, bytes: &[u8]) -> bool {
    match held {
        Some(held) => held == bytes,
        None => false,
    }
}

#[test]
fn files_in_memory_hold_what_they_are_given(rt: HostRuntime) {
    let mut files = MemFiles::new(rt.alloc());
    let mut buf = [0; 4];
    let missing = files.read_at("a", 0, &mut buf);
    files.put("a", b"sand").expect(&rt, "memory is left");
    files.append("a", b"y").expect(&rt, "memory is left");
    assert!(rt; is_held(files.get("a"), b"sandy"));
    let read = files.read_at("a", 2, &mut buf);
    assert!(rt; missing == Err(Failed) && read == Ok(3) && buf == *b"ndy\0");
    files.create("a").expect(&rt, "memory is left");
    assert!(rt; is_held(files.get("a"), b""));
}

// Makes a call of a kind, and says whether it succeeded.
fn makes(files: &mut MemFiles, kind: CallKind, name: &str) -> bool {
    match kind {
        CallKind::Read => files.read_at(name, 0, &mut [0; 4]).is_ok(),
        CallKind::Create => files.create(name).is_ok(),
        CallKind::Append => files.get(name).is_some() && files.append(name, b"xyz").is_ok(),
    }
}

#[test]
fn the_planned_call_fails_over_all_names(rt: HostRuntime) {
    for (kind, left) in [
        (CallKind::Read, b"".as_slice()),
        (CallKind::Create, b"".as_slice()),
        (CallKind::Append, b"xy".as_slice()),
    ] {
        let mut files = MemFiles::new(rt.alloc());
        files.put("a", b"").expect(&rt, "memory is left");
        files.put("b", b"").expect(&rt, "memory is left");
        files.fail(kind, 2, 2).expect(&rt, "memory is left");
        files.fail(kind, 2, 1).expect(&rt, "memory is left");
        let first = makes(&mut files, kind, "a");
        let second = makes(&mut files, kind, "b");
        let third = makes(&mut files, kind, "a");
        assert!(rt; first && !second && third && is_held(files.get("b"), left));
    }
}

#[test]
fn sinks_in_memory_take_what_they_are_given(rt: HostRuntime) {
    let mut sink = MemSink::new(rt.alloc());
    sink.fail(2, 9).expect(&rt, "memory is left");
    sink.write(b"sand").expect(&rt, "memory is left");
    let failed = sink.write(b"-");
    sink.write(b"y").expect(&rt, "memory is left");
    assert!(rt; failed == Err(OutFault::Failed) && sink.bytes() == b"sand-y".as_slice());
}

#[test]
fn a_sink_without_faults_takes_what_it_is_given(rt: HostRuntime) {
    let mut sink = NoFaultSink::new(rt.alloc());
    sink.write(b"sand").expect(&rt, "memory is left");
    assert!(rt; sink.bytes() == b"sand".as_slice());
}

#[test]
fn files_without_faults_hold_what_they_are_given(rt: HostRuntime) {
    let mut files = NoFaultFiles::new(rt.alloc());
    files.put("a", b"sand").expect(&rt, "memory is left");
    files.append("b", b"clay").expect(&rt, "memory is left");
    let read = files.read_at("b", 1, &mut [0; 4]);
    files.create("b").expect(&rt, "memory is left");
    assert!(rt; read == Ok(3) && is_held(files.get("a"), b"sand") && is_held(files.get("b"), b""));
}

// Reads a file of 200000 sevens up to a limit. The nth read fails.
fn read_sevens(alloc: Global, limit: u32, nth: u32) -> Result<Vec<u8>, OutFault> {
    let mut files = MemFiles::new(alloc);
    let sevens = vec![in alloc; 7; 200_000]?;
    files.put("sevens", &sevens)?;
    files.fail(CallKind::Read, nth, 0)?;
    read_to_limit(alloc, &mut files, "sevens", limit.min(1_000_000))
}

#[test]
fn a_file_is_read_whole_up_to_the_limit(rt: HostRuntime) {
    for (limit, count) in [(200_000, 200_000), (199_998, 199_999)] {
        let read = read_sevens(rt.alloc(), limit, 99).expect(&rt, "no read fails");
        let wanted = vec![in rt.alloc(); 7; count].expect(&rt, "memory is left");
        assert!(rt; read == wanted);
    }
    let failed = read_sevens(rt.alloc(), 200_000, 2).err();
    assert!(rt; failed == Some(OutFault::Failed));
}

// Files without an end, which add up what reads ask for.
#[derive(Drop)]
struct Endless {
    asked: usize,
}

impl Files for Endless {
    ghost use Rattle.std.specs.Prelude.{false, None};

    ghost seen = { λ _. record { tells = false; held = λ _. None; reads = λ _. 0; writes = λ _. 0 } };

    fn read_at(&mut self, _: &str, _: u64, buf: &mut [u8]) -> Result<usize, Failed> {
        self.asked = self.asked.saturating_add(buf.len());
        Ok(buf.len())
    }

    fn create(&mut self, _: &str) -> Result<(), OutFault> {
        Ok(())
    }

    fn append(&mut self, _: &str, _: &[u8]) -> Result<(), OutFault> {
        Ok(())
    }
}

#[test]
fn no_more_is_asked_for_than_the_limit_and_a_byte(rt: HostRuntime) {
    let mut files = Endless { asked: 0 };
    let got = read_to_limit(rt.alloc(), &mut files, "endless", 100_000).expect(
        &rt,
        "no read fails",
    );
    assert!(rt; got.len() == 100_001 && files.asked == 100_001);
}

// A name in the folder of the run that no other run has.
fn own_name(rt: &HostRuntime) -> Result<String, AllocError> {
    format!(in rt.alloc(); "mp_outside-{}", process::id(rt.process()))
}

// Whether a file is made, and whether a piece is added to it.
fn make_with(files: &mut HostFiles, name: &str, piece: &[u8]) -> [Result<(), OutFault>; 2] {
    [files.create(name), files.append(name, piece)]
}

#[test]
fn a_file_of_the_host_takes_pieces_and_is_read_at_a_place(rt: HostRuntime) {
    let name = own_name(&rt).expect(&rt, "memory is left");
    fs::write(&rt, &name, "old and longer").expect(&rt, "the folder can be written");
    let mut files = HostFiles::new(rt);
    let mut buf = *b"------";
    let made = make_with(&mut files, &name, b"sand");
    let added = files.append(&name, b"y");
    let read = files.read_at(&name, 2, &mut buf);
    fs::remove_file(&rt, &name).expect(&rt, "the file is there");
    assert!(rt; made == [Ok(()), Ok(())] && added == Ok(()));
    assert!(rt; read == Ok(3) && buf == *b"ndy---");
}

// Whether a file of the host has this text.
fn has_text(rt: &HostRuntime, name: &str, text: &str) -> bool {
    match fs::read_to_string(rt, name) {
        Ok(held) => held.as_str() == text,
        Err(_) => false,
    }
}

#[test]
fn no_piece_goes_into_another_file_of_the_name(rt: HostRuntime) {
    let name = own_name(&rt).expect(&rt, "memory is left");
    let mut files = HostFiles::new(rt);
    let made = files.create(&name);
    fs::remove_file(&rt, &name).expect(&rt, "the file is there");
    let removed = files.append(&name, b"x");
    fs::write(&rt, &name, "another").expect(&rt, "the folder can be written");
    let replaced = files.append(&name, b"x");
    let is_kept = has_text(&rt, &name, "another");
    fs::remove_file(&rt, &name).expect(&rt, "the file is there");
    assert!(rt;
        [made, removed, replaced] == [Ok(()), Err(OutFault::Failed), Err(OutFault::Failed)]
    );
    assert!(rt; is_kept);
}

#[test]
fn a_file_that_is_written_is_refused_to_others(rt: HostRuntime) {
    let name = own_name(&rt).expect(&rt, "memory is left");
    let mut first = HostFiles::new(rt);
    let mut second = HostFiles::new(rt);
    let made = make_with(&mut first, &name, b"sand");
    let refused = make_with(&mut second, &name, b"clay");
    let is_kept = has_text(&rt, &name, "sand");
    drop(first);
    let free = second.create(&name);
    fs::remove_file(&rt, &name).expect(&rt, "the file is there");
    assert!(rt; made == [Ok(()), Ok(())] && is_kept && free == Ok(()));
    assert!(rt; refused == [Err(OutFault::Failed), Err(OutFault::Failed)]);
}

#[test]
fn what_is_no_file_fails_on_the_host(rt: HostRuntime) {
    let mut files = HostFiles::new(rt);
    for name in [
        "/nowhere/at all",
        "/",
        "/dev/zero",
        "/dev/full",
        "/dev/null",
    ] {
        let read = files.read_at(name, 0, &mut [0; 4]);
        let made = make_with(&mut files, name, b"x");
        assert!(rt; read == Err(Failed) && made == [Err(OutFault::Failed), Err(OutFault::Failed)]);
    }
}

// A stream that takes two bytes at a time, is interrupted between, and at last takes no more.
#[derive(Drop)]
struct Narrow {
    room: u8,
    interrupted: bool,
    taken: Vec<u8>,
}

impl Write for Narrow {
    fn write(&mut self, buf: &[u8]) -> io::Result<usize> {
        self.interrupted = !self.interrupted;
        if self.interrupted {
            return Err(io::Error::from(ErrorKind::Interrupted));
        }
        let count = buf.len().min(2).min(self.room as usize);
        self.room -= count as u8;
        self.taken.extend_from_slice(&buf[..count])?;
        Ok(count)
    }

    fn flush(&mut self) -> io::Result<()> {
        Ok(())
    }
}

#[test]
fn a_stream_of_the_host_takes_the_whole_piece_or_fails(rt: HostRuntime) {
    let mut narrow = Narrow {
        room: 9,
        interrupted: false,
        taken: Vec::new(rt.alloc()),
    };
    let mut sink = HostSink::new(&mut narrow);
    let taken = [sink.write(b"sandy"), sink.write(b"clay"), sink.write(b"")];
    let refused = sink.write(b"x");
    drop(sink);
    assert!(rt; taken == [Ok(()), Ok(()), Ok(())] && refused == Err(OutFault::Failed));
    assert!(rt; narrow.taken.as_slice() == b"sandyclay".as_slice());
}
