// Lines in pieces of each size, readers and writers that are interrupted, fail, or take little.
use std::io;
use std::io::{Error, ErrorKind, Read, Write};
use std::process::Abort;
use std::test::Fail;
use stepper_streams::counted::Counted;
use stepper_streams::lines::{Lines, TakeFault};
use stepper_streams::outlet::Outlet;

/// Gives up to so many bytes in a call, and then fails or ends; each call is interrupted first, and so many times more.
#[derive(Drop)]
struct Drip<'a> {
    bytes: &'a [u8],
    most: usize,
    fails: bool,
    interruptions: u32,
    is_interrupted: bool,
}

fn dripping(bytes: &[u8], most: usize, fails: bool) -> Drip<'_> {
    Drip {
        bytes,
        most,
        fails,
        interruptions: 0,
        is_interrupted: false,
    }
}

impl Read for Drip<'_> {
    fn read(&mut self, buf: &mut [u8]) -> io::Result<usize> {
        self.is_interrupted = !self.is_interrupted;
        if self.is_interrupted || self.interruptions > 0 {
            self.interruptions = self.interruptions.saturating_sub(1);
            return Err(Error::from(ErrorKind::Interrupted));
        }
        if self.bytes.is_empty() && self.fails {
            return Err(Error::from(ErrorKind::Other));
        }
        let count = self.most.min(self.bytes.len()).min(buf.len());
        buf[..count].copy_from_slice(&self.bytes[..count]);
        self.bytes = &self.bytes[count..];
        Ok(count)
    }
}

fn text_of<'a>(rt: &impl Abort, bytes: &'a [u8]) -> &'a str {
    str::from_utf8(bytes).expect(rt, "no text")
}

/// Each line in brackets, a long one without its text, and how they ended.
fn lines_of(rt: &(impl Abort + AllocGlobal), input: Drip<'_>) -> String {
    let mut lines = Lines::new(rt.alloc(), input).expect(rt, "no memory");
    let mut told = String::new(rt.alloc());
    for _ in 0..10 {
        let piece = match lines.next_line() {
            Ok(Some(line)) if line.is_long => format!(in rt.alloc(); "long {} ", line.text.len()),
            Ok(Some(line)) => format!(in rt.alloc(); "[{}] ", text_of(rt, line.text.as_slice())),
            Ok(None) => format!(in rt.alloc(); "end {} ", lines.failures()),
            Err(TakeFault::Reader) => format!(in rt.alloc(); "failed {} ", lines.failures()),
            Err(TakeFault::Memory) => format!(in rt.alloc(); "memory "),
        };
        told.push_str(piece.expect(rt, "no memory").as_str())
            .expect(rt, "no memory");
        if told.as_str().contains("end") || told.as_str().contains("failed") {
            break;
        }
    }
    told
}

#[test]
fn lines_in_pieces_of_each_size(rt: HostRuntime) {
    let texts: [(&[u8], &str); 5] = [
        (
            b"one\r\n\ntwo\rthree\n\r\nlast\r",
            "[one] [] [two\rthree] [] [last\r] end 0 ",
        ),
        (b"one\n", "[one] end 0 "),
        (b"\n\n", "[] [] end 0 "),
        (b"\r", "[\r] end 0 "),
        (b"", "end 0 "),
    ];
    for (bytes, told) in texts {
        for most in [1, 2, 3, 5, 8, 100] {
            let lines = lines_of(&rt, dripping(bytes, most, false));
            assert_eq!(rt; lines.as_str(), told, "in pieces of {most}");
        }
    }
}

#[test]
fn a_read_fails_at_each_place(rt: HostRuntime) {
    let bytes: &[u8] = b"one\ntwo\r\n\nfour";
    // How many bytes are read before the failure, and what is told first.
    let told = [
        (0, "failed 1 "),
        (1, "failed 1 "),
        (2, "failed 1 "),
        (3, "failed 1 "),
        (4, "[one] failed 1 "),
        (5, "[one] failed 1 "),
        (6, "[one] failed 1 "),
        (7, "[one] failed 1 "),
        (8, "[one] failed 1 "),
        (9, "[one] [two] failed 1 "),
        (10, "[one] [two] [] failed 1 "),
        (11, "[one] [two] [] failed 1 "),
        (12, "[one] [two] [] failed 1 "),
        (13, "[one] [two] [] failed 1 "),
        (14, "[one] [two] [] failed 1 "),
    ];
    for (count, want) in told {
        for most in [1, 3, 100] {
            let lines = lines_of(&rt, dripping(&bytes[..count], most, true));
            assert_eq!(rt; lines.as_str(), want, "behind {count} bytes");
        }
    }
}

#[test]
fn a_line_may_be_just_so_long(rt: HostRuntime) -> Result<(), Fail> {
    let mut bytes = Vec::new(rt.alloc());
    bytes.resize(65_537, b'x')?;
    bytes.extend_from_slice(b"\nshort")?;
    for most in [1, 1_000, 100_000] {
        let long = lines_of(&rt, dripping(bytes.as_slice(), most, false));
        assert_eq!(rt; long.as_str(), "long 0 [short] end 0 ");
        let fits = lines_of(&rt, dripping(&bytes[1..], most, false));
        assert!(rt; fits.len() == 65_539 + 14);
    }
    bytes.resize(200_000, b'x')?;
    let last = lines_of(&rt, dripping(&bytes[1..], 8_191, false));
    assert!(rt; last.as_str().ends_with("x] long 0 end 0 "));
    Ok(())
}

#[test]
fn a_line_at_hand_needs_no_read(rt: HostRuntime) -> Result<(), Fail> {
    let mut lines = Lines::new(rt.alloc(), dripping(b"a\nb\nc", 4, false))?;
    assert!(rt; !lines.is_at_hand());
    for (text, at_hand) in [("a", true), ("b", false), ("c", true)] {
        let line = lines.next_line().ok().flatten().ok_or("no line")?;
        assert_eq!(rt; text_of(&rt, line.text.as_slice()), text);
        assert_eq!(rt; lines.is_at_hand(), at_hand, "behind {text}");
    }
    assert!(rt; matches!(lines.next_line(), Ok(None)));
    assert!(rt; matches!(lines.next_line(), Ok(None)));
    Ok(())
}

#[test]
fn a_read_is_made_again_a_thousand_times(rt: HostRuntime) -> Result<(), Fail> {
    let mut block = [0u8; 2];
    let mut patient = Counted::new(Drip {
        interruptions: 998,
        ..dripping(b"abc", 2, false)
    });
    assert_eq!(rt; patient.read(&mut block)?, 2);
    assert_eq!(rt; (patient.failures(), block), (0, [b'a', b'b']));
    assert_eq!(rt; patient.into_inner().bytes, b"c".as_slice());
    let mut given_up = Counted::new(Drip {
        interruptions: 1_000,
        ..dripping(b"abc", 2, false)
    });
    assert!(rt; given_up.read(&mut block).is_err());
    assert_eq!(rt; given_up.failures(), 1);
    Ok(())
}

/// Takes up to three bytes in a call, and so many bytes in all; every other call is interrupted.
#[derive(Drop)]
struct Tap {
    taken: Vec<u8>,
    most: usize,
    is_interrupted: bool,
    fails: bool,
    flushes: u32,
    is_clogged: bool,
}

impl Tap {
    fn interrupts(&mut self) -> bool {
        self.is_interrupted = !self.is_interrupted;
        self.is_interrupted
    }
}

impl Write for Tap {
    fn write(&mut self, bytes: &[u8]) -> io::Result<usize> {
        if self.interrupts() {
            return Err(Error::from(ErrorKind::Interrupted));
        }
        let room = self.most.saturating_sub(self.taken.len()).min(3);
        if room == 0 && self.fails {
            return Err(Error::from(ErrorKind::Other));
        }
        let count = room.min(bytes.len());
        self.taken.extend_from_slice(&bytes[..count])?;
        Ok(count)
    }

    fn flush(&mut self) -> io::Result<()> {
        if self.interrupts() {
            return Err(Error::from(ErrorKind::Interrupted));
        }
        if self.is_clogged {
            return Err(Error::from(ErrorKind::Other));
        }
        self.flushes = self.flushes.wrapping_add(1);
        Ok(())
    }
}

fn make_tap(rt: &impl AllocGlobal, most: usize, fails: bool) -> Tap {
    Tap {
        taken: Vec::new(rt.alloc()),
        most,
        is_interrupted: false,
        fails,
        flushes: 0,
        is_clogged: false,
    }
}

/// What went out of two replies, how it went, how many writes failed and how many flushes there were.
fn written(rt: &(impl Abort + AllocGlobal), output: Tap) -> String {
    let mut outlet = Outlet::new(rt.alloc(), output);
    outlet.give(b"ok e1 e1.m0\n");
    outlet.give(b"ok e2 value null\n");
    let sent = outlet.send().is_ok();
    // What did not go out is not kept for the next time.
    outlet.reopen();
    let again = outlet.send().is_ok();
    let failures = outlet.failures();
    let tap = outlet.into_writer();
    let text = text_of(rt, tap.taken.as_slice());
    let flushes = tap.flushes;
    format!(in rt.alloc(); "{text}|{sent} {again} {failures} {flushes}").expect(rt, "no memory")
}

#[test]
fn replies_in_parts(rt: HostRuntime) {
    let all = written(&rt, make_tap(&rt, 100, false));
    assert_eq!(rt;
        all.as_str(),
        "ok e1 e1.m0\nok e2 value null\n|true true 0 2"
    );
    for fails in [false, true] {
        let cut = written(&rt, make_tap(&rt, 20, fails));
        assert_eq!(rt; cut.as_str(), "ok e1 e1.m0\nok e2 va|false true 1 1");
        let none = written(&rt, make_tap(&rt, 0, fails));
        assert_eq!(rt; none.as_str(), "|false true 1 1");
    }
    let clogged = Tap {
        is_clogged: true,
        ..make_tap(&rt, 100, false)
    };
    let stuck = written(&rt, clogged);
    assert_eq!(rt;
        stuck.as_str(),
        "ok e1 e1.m0\nok e2 value null\n|false false 2 0"
    );
}

#[test]
fn many_bytes_do_not_wait(rt: HostRuntime) -> Result<(), Fail> {
    let mut bytes = Vec::new(rt.alloc());
    bytes.resize(65_535, b'x')?;
    let mut outlet = Outlet::new(rt.alloc(), make_tap(&rt, 100_000, true));
    outlet.give(bytes.as_slice());
    outlet.give(b"yes");
    outlet.give(b"no");
    assert!(rt; outlet.check().is_ok());
    assert_eq!(rt; outlet.into_writer().taken.len(), 65_538);
    bytes.push(b'x')?;
    let mut outlet = Outlet::new(rt.alloc(), make_tap(&rt, 20, true));
    outlet.give(bytes.as_slice());
    outlet.give(b"no");
    assert!(rt; outlet.check().is_err());
    assert_eq!(rt;
        (outlet.failures(), outlet.into_writer().taken.len()),
        (1, 20)
    );
    Ok(())
}

#[test]
fn failed_writes_are_counted(rt: HostRuntime) -> Result<(), Fail> {
    let mut counted = Counted::new(make_tap(&rt, 4, false));
    assert_eq!(rt; counted.write(b"")?, 0);
    assert_eq!(rt; counted.write(b"abcdef")?, 3);
    assert_eq!(rt; counted.write(b"def")?, 1);
    counted.flush()?;
    assert_eq!(rt; counted.failures(), 0);
    assert!(rt; counted.write(b"ef").is_err());
    assert_eq!(rt; counted.failures(), 1);
    assert_eq!(rt; counted.into_inner().taken.as_slice(), b"abcd".as_slice());
    Ok(())
}
