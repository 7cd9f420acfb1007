use crate::outputs::disk::{Disk, write_whole};
use crate::outputs::outgoing::Outgoing;
use crate::outputs::targets::Targets;
use std::alloc::AllocError;
use std::io;
use std::io::{ErrorKind, Write};

/// Holds back what it takes until it is flushed, a few bytes at a time, and is interrupted at every second write. It fails
/// once so many calls are done.
#[derive(Drop)]
struct Slow {
    held: Vec<u8>,
    flushed: usize,
    calls: u32,
    fails_after: u32,
}

impl Write for Slow {
    fn write(&mut self, buf: &[u8]) -> io::Result<usize> {
        self.calls = self.calls.saturating_add(1);
        if self.calls > self.fails_after {
            return Err(io::Error::from(ErrorKind::StorageFull));
        }
        if self.calls % 2 == 0 {
            return Err(io::Error::from(ErrorKind::Interrupted));
        }
        let most = buf.len().min(3);
        self.held.extend_from_slice(&buf[..most])?;
        Ok(most)
    }

    fn flush(&mut self) -> io::Result<()> {
        self.calls = self.calls.saturating_add(1);
        if self.calls > self.fails_after {
            return Err(io::Error::from(ErrorKind::StorageFull));
        }
        self.flushed = self.held.len();
        Ok(())
    }
}

// Three bytes go out with each of the calls 1, 3 and 5, and with the sixth they are flushed.
#[test]
fn a_fault_of_a_writer_is_told(rt: HostRuntime) {
    for fails_after in 0..8 {
        let mut slow = Slow {
            held: Vec::new(rt.alloc()),
            flushed: 0,
            calls: 0,
            fails_after,
        };
        let went = write_whole(&mut slow, b"123456789").map_err(|e| e.kind());
        if fails_after < 6 {
            assert_eq!(rt; went, Err(ErrorKind::StorageFull));
            assert_eq!(rt; slow.flushed, 0);
        } else {
            assert_eq!(rt; went, Ok(()));
            assert_eq!(rt; slow.held.as_slice(), b"123456789".as_slice());
            assert_eq!(rt; slow.flushed, 9);
        }
    }
}

// Lines of ten bytes: a part is the first 6,554 of them, which are 65,540 bytes.
#[test]
fn a_part_that_fails_is_told(rt: HostRuntime) -> Result<(), AllocError> {
    let mut slow = Slow {
        held: Vec::new(rt.alloc()),
        flushed: 0,
        calls: 0,
        fails_after: 100,
    };
    let mut told = Outgoing::new(rt.alloc());
    for _ in 0..6554 {
        assert!(rt; told.write_part(&mut slow).is_ok());
        assert!(rt; !told.went);
        told.text.push_str("123456789\n")?;
    }
    assert_eq!(rt; slow.calls, 0);
    let went = told.write_part(&mut slow).map_err(|e| e.kind());
    assert_eq!(rt; went, Err(ErrorKind::StorageFull));
    assert!(rt; told.went);
    assert_eq!(rt; slow.held.len(), 150);
    Ok(())
}
