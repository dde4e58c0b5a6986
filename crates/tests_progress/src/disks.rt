//! What is told of what is read of disks.
use model_disk::{Disk, DiskError, Fault, FaultDisk, MemDisk};
use progress::{MeteredDisk, ReadMeter};
use std::alloc::{AllocError, Global};
use std::io::{self, ErrorKind, Write};
use std::rc::Rc;
use std::test::Fail;

/// The bytes of a KiB.
const KIBIBYTE: usize = 1 << 10;

/// The bytes of a disk: 2 MiB.
const SIZE: usize = 2048 * KIBIBYTE;

/// Fails at no call.
const NEVER: Fault = Fault::At(u64::MAX);

/// A call on a disk, of so many KiB from its front on.
#[derive(Clone, Copy)]
enum Call {
    Read(usize),
    Write(usize),
    Flush,
}

/// Calls on two disks that count together, and what comes of them.
#[derive(Clone, Copy)]
struct Case {
    /// Each on the second disk, or else on the first.
    calls: &'static [(bool, Call)],
    /// How the first disk fails.
    fault: Fault,
    /// In KiB.
    interval: u64,
    /// `y` for each call that is answered, `n` for each that fails.
    answers: &'static str,
    told: &'static str,
}

const CASES: [Case; 9] = [
    // Less than an interval.
    Case {
        calls: &[(false, Call::Read(1023))],
        fault: NEVER,
        interval: 1024,
        answers: "y",
        told: "",
    },
    // Just an interval.
    Case {
        calls: &[(false, Call::Read(1024))],
        fault: NEVER,
        interval: 1024,
        answers: "y",
        told: "zpool: 1 MiB looked at\n",
    },
    // Both disks count together.
    Case {
        calls: &[
            (false, Call::Read(768)),
            (true, Call::Read(768)),
            (false, Call::Read(256)),
            (true, Call::Read(256)),
            (true, Call::Read(1024)),
        ],
        fault: NEVER,
        interval: 1024,
        answers: "yyyyy",
        told: "zpool: 1 MiB looked at\nzpool: 2 MiB looked at\nzpool: 3 MiB looked at\n",
    },
    // A read that fills two intervals tells one line.
    Case {
        calls: &[
            (false, Call::Read(512)),
            (true, Call::Read(2048)),
            (false, Call::Read(512)),
        ],
        fault: NEVER,
        interval: 1024,
        answers: "yyy",
        told: "zpool: 2 MiB looked at\nzpool: 3 MiB looked at\n",
    },
    // A longer interval.
    Case {
        calls: &[
            (false, Call::Read(2048)),
            (true, Call::Read(2048)),
            (false, Call::Read(2048)),
        ],
        fault: NEVER,
        interval: 3072,
        answers: "yyy",
        told: "zpool: 3 MiB looked at\nzpool: 6 MiB looked at\n",
    },
    // Writes and flushes are not counted.
    Case {
        calls: &[
            (false, Call::Write(2048)),
            (false, Call::Flush),
            (true, Call::Write(2048)),
            (false, Call::Read(1024)),
            (true, Call::Write(2048)),
        ],
        fault: NEVER,
        interval: 1024,
        answers: "yyyyy",
        told: "zpool: 1 MiB looked at\n",
    },
    // A read that fails is not counted, and fails.
    Case {
        calls: &[
            (false, Call::Read(512)),
            (false, Call::Read(512)),
            (false, Call::Read(256)),
            (true, Call::Read(256)),
            (true, Call::Read(512)),
        ],
        fault: Fault::Read(1),
        interval: 1024,
        answers: "ynyyy",
        told: "zpool: 1 MiB looked at\n",
    },
    // A disk that stopped fails all calls, and the other one goes on.
    Case {
        calls: &[
            (false, Call::Read(2048)),
            (false, Call::Write(1)),
            (false, Call::Flush),
            (true, Call::Read(1024)),
            (true, Call::Write(1)),
            (true, Call::Flush),
        ],
        fault: Fault::From(0),
        interval: 1024,
        answers: "nnnyyy",
        told: "zpool: 1 MiB looked at\n",
    },
    // An interval of no bytes: nothing is told.
    Case {
        calls: &[(false, Call::Read(2048)), (true, Call::Read(2048))],
        fault: NEVER,
        interval: 0,
        answers: "yy",
        told: "",
    },
];

/// A disk that counts there and fails so.
fn disk<E: Write + Drop>(
    alloc: Global,
    meter: &Rc<ReadMeter<E>>,
    fault: Fault,
) -> Result<MeteredDisk<FaultDisk<MemDisk>, E>, AllocError> {
    let inner = FaultDisk::new(MemDisk::new(alloc, SIZE)?, fault);
    Ok(MeteredDisk::new(inner, meter.clone()?))
}

/// Reads there; what passes the disk's end is not asked for.
fn read<D: Disk>(disk: &mut D, at: u64, buffer: &mut [u8]) -> Result<(), DiskError> {
    let size = disk.size();
    if at > size || buffer.len() as u64 > size - at {
        return Err(DiskError::Stopped);
    }
    disk.read(at, buffer)
}

/// Writes there, likewise.
fn write<D: Disk>(disk: &mut D, at: u64, bytes: &[u8]) -> Result<(), DiskError> {
    let size = disk.size();
    if at > size || bytes.len() as u64 > size - at {
        return Err(DiskError::Stopped);
    }
    disk.write_at(at, bytes)
}

/// Makes a call with the front of the buffer.
fn make<D: Disk>(disk: &mut D, call: Call, buffer: &mut [u8]) -> Result<(), DiskError> {
    match call {
        Call::Read(kibibytes) => {
            let length = buffer.len().min(kibibytes.saturating_mul(KIBIBYTE));
            read(disk, 0, &mut buffer[..length])
        }
        Call::Write(kibibytes) => {
            let length = buffer.len().min(kibibytes.saturating_mul(KIBIBYTE));
            write(disk, 0, &buffer[..length])
        }
        Call::Flush => disk.flush(),
    }
}

/// Which calls are answered, where lines go to this writer.
fn answers_of<E: Write + Drop>(alloc: Global, case: &Case, errors: E) -> Result<String, Fail> {
    let interval = case.interval.saturating_mul(KIBIBYTE as u64);
    let meter = ReadMeter::new(errors, "zpool", interval);
    let meter = Rc::new(alloc, meter)?;
    let mut first = disk(alloc, &meter, case.fault)?;
    let mut second = disk(alloc, &meter, NEVER)?;
    let mut buffer = vec![in alloc; 7u8; SIZE]?;
    let mut answers = String::new(alloc);
    for (is_second, call) in case.calls {
        let answer = if *is_second {
            make(&mut second, *call, buffer.as_mut_slice())
        } else {
            make(&mut first, *call, buffer.as_mut_slice())
        };
        answers.push_str(if answer.is_ok() { "y" } else { "n" })?;
    }
    Ok(answers)
}

#[test]
fn reads_are_told(rt: HostRuntime) -> Result<(), Fail> {
    let alloc = rt.alloc();
    for i in 0..CASES.len() {
        let case = &CASES[i];
        let mut told = Vec::new(alloc);
        let answers = answers_of(alloc, case, &mut told)?;
        let told = String::from_utf8(told)?;
        assert!(rt; answers.as_str() == case.answers, "{i}: {answers}");
        assert!(rt; told.as_str() == case.told, "{i}: {told}");
    }
    Ok(())
}

/// A writer that fails.
#[derive(Drop)]
struct Broken;

impl Write for Broken {
    fn write(&mut self, _: &[u8]) -> io::Result<usize> {
        Err(ErrorKind::BrokenPipe.into())
    }

    fn flush(&mut self) -> io::Result<()> {
        Ok(())
    }
}

#[test]
fn lines_that_cannot_be_written_fail_no_read(rt: HostRuntime) -> Result<(), Fail> {
    for i in 0..CASES.len() {
        let case = &CASES[i];
        let answers = answers_of(rt.alloc(), case, Broken)?;
        assert!(rt; answers.as_str() == case.answers, "{i}: {answers}");
    }
    Ok(())
}

/// Where so many bytes are written, and which byte; the writes overlap and touch both ends.
const WRITES: [(u64, usize, u8); 4] = [
    (0, 1000, 1),
    (500, 70_000, 2),
    (2_097_151, 1, 3),
    (1_048_000, 1_049_152, 4),
];

/// The bytes of a disk behind these writes, as it is read in pieces.
fn held<D: Disk>(alloc: Global, disk: &mut D) -> Result<Vec<u8>, Fail> {
    for (at, length, byte) in &WRITES {
        let bytes = vec![in alloc; *byte; *length]?;
        write(disk, *at, bytes.as_slice())?;
        disk.flush()?;
    }
    let mut all = Vec::new(alloc);
    let mut piece = [0u8; 4096];
    for i in 0..512u64 {
        read(disk, i * 4096, &mut piece)?;
        all.extend_from_slice(&piece)?;
    }
    Ok(all)
}

#[test]
fn a_metered_disk_is_the_disk_below(rt: HostRuntime) -> Result<(), Fail> {
    let alloc = rt.alloc();
    let mut plain = MemDisk::new(alloc, SIZE)?;
    let wanted = held(alloc, &mut plain)?;
    let mut told = Vec::new(alloc);
    let meter = Rc::new(alloc, ReadMeter::new(&mut told, "zfs", 1 << 20))?;
    let mut metered = MeteredDisk::new(MemDisk::new(alloc, SIZE)?, meter);
    let came = held(alloc, &mut metered)?;
    assert!(rt; metered.size() == plain.size(), "its size");
    let below = metered.into_inner();
    assert!(rt; came.as_slice() == wanted.as_slice(), "what is read");
    assert!(rt; below.bytes() == plain.bytes(), "what it holds");
    let told = String::from_utf8(told)?;
    let lines = "zfs: 1 MiB looked at\nzfs: 2 MiB looked at\n";
    assert!(rt; told.as_str() == lines, "{told}");
    Ok(())
}
