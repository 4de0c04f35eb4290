//! Reads and writes that fail. No clause says that the failure of a stream of std is reported, so a test checks that it
//! is.
use klp_program::{CATALOG, console};
use std::alloc::{AllocError, Global};
use std::io;
use std::io::{Read, Write};

/// A stream that fails. If `is_full`, each write accepts no byte, otherwise each write fails. Behind the lines, each
/// read gives an empty line if `is_endless`, otherwise it fails.
#[derive(Drop)]
struct Broken {
    lines: &'static [u8],
    is_endless: bool,
    is_full: bool,
}

impl Read for Broken {
    fn read(&mut self, buf: &mut [u8]) -> io::Result<usize> {
        if self.is_endless {
            return b"\n".as_slice().read(buf);
        }
        if self.lines.is_empty() {
            return Err(io::Error::from(io::ErrorKind::Other));
        }
        self.lines.read(buf)
    }
}

impl Write for Broken {
    fn write(&mut self, _buf: &[u8]) -> io::Result<usize> {
        if self.is_full {
            return Ok(0);
        }
        Err(io::Error::from(io::ErrorKind::Other))
    }

    fn flush(&mut self) -> io::Result<()> {
        Ok(())
    }
}

/// Returns a stream that gives these lines. All other reads and writes of it fail.
fn failing(lines: &'static [u8]) -> Broken {
    Broken {
        lines,
        is_endless: false,
        is_full: false,
    }
}

/// Whether the console ends with status 1, and writes exactly `printed` to `err`.
fn ends_with(alloc: Global, mut input: Broken, mut out: Broken, printed: &[u8]) -> bool {
    let mut err = Vec::new(alloc);
    let (status, ..) = console(alloc, CATALOG, &mut input, &mut out, &mut err);
    status == 1 && err.as_slice() == printed
}

/// The console's answer to `mark`, and to the next line, which is one byte too long. The long line has no line feed.
fn long_line(alloc: Global) -> Result<(u8, Vec<u8>, Vec<u8>), AllocError> {
    let mut input = b"mark\n".to_vec(alloc)?;
    input.extend_from_slice(&[b'x'; 257])?;
    let mut out = Vec::new(alloc);
    let mut err = Vec::new(alloc);
    let (status, ..) = console(alloc, CATALOG, &mut input.as_slice(), &mut out, &mut err);
    Ok((status, out, err))
}

#[test]
fn lines_before_one_that_is_too_long_are_answered(rt: HostRuntime) -> Result<(), AllocError> {
    let (status, out, err) = long_line(rt.alloc())?;
    let reported = out.as_slice() == b"0\n".as_slice()
        && err.as_slice() == b"klpsim: LineTooLong\n".as_slice();
    assert!(rt; status == 1 && reported);
    Ok(())
}

#[test]
fn streams_that_fail_or_never_end_are_reported(rt: HostRuntime) {
    let read = ends_with(rt.alloc(), failing(b""), failing(b""), b"klpsim: Read\n");
    let write = ends_with(
        rt.alloc(),
        failing(b"load p\n"),
        failing(b""),
        b"klpsim: Write\n",
    );
    let full = Broken {
        is_full: true,
        ..failing(b"")
    };
    let taken = ends_with(rt.alloc(), failing(b"load p\n"), full, b"klpsim: Write\n");
    let endless = Broken {
        is_endless: true,
        ..failing(b"")
    };
    // an empty line has no answer, so nothing is written that could fail
    let endless = ends_with(rt.alloc(), endless, failing(b""), b"klpsim: Read\n");
    assert!(rt; read && write && taken && endless);
}
