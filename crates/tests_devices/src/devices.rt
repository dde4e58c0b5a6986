//! Devices over the machine in memory, by lines and what they are answered.
use plain_machine::Machine;
use pool_model::{Action, Change, Name, Reply, Step};
use pool_steps::PoolSteps;
use std::alloc::{AllocError, Global};
use std::test::Fail;
use volume_device::Device;

/// How many bytes the volume `v` has, and the name that is opened; the lines, as `write OFFSET LENGTH BYTE TIMES` (once, where nothing
/// is said), `read OFFSET LENGTH` and `flush`; what each is answered; and the first 1,024 bytes of the volume in the next group, if it was committed.
struct Session {
    size: u64,
    name: &'static str,
    lines: &'static str,
    answers: &'static str,
    next: &'static str,
}

const MIB: u64 = 1 << 20;

const SESSIONS: [Session; 10] = [
    Session {
        size: 4096,
        name: "v",
        lines: "read 0 0;read 100 3;read 4095 1;read 4096 0;read 4096 1;flush",
        answers: ";3*0;1*0;;11 OutOfRange;ok",
        next: "17 GroupGone",
    },
    Session {
        size: 4096,
        name: "v",
        lines: "write 512 512 7;read 511 514;flush;read 511 514;write 1024 512 8;read 1000 48",
        answers: "ok;1*0 512*7 1*0;ok;1*0 512*7 1*0;ok;24*7 24*8",
        next: "512*0 512*7",
    },
    Session {
        size: 4096,
        name: "v",
        lines: "write 0 512 7;write 512 512 8;flush;flush",
        answers: "ok;ok;ok;ok",
        next: "512*7 512*8",
    },
    Session {
        size: 4096,
        name: "v",
        lines: "write 0 512 7;write 0 0 9;read 0 513",
        answers: "ok;ok;512*7 1*0",
        next: "17 GroupGone",
    },
    Session {
        size: 4096,
        name: "v",
        lines: "write 1 512 7;write 0 511 7;flush;write 0 512 7;flush;read 0 512",
        answers: "12 Misaligned;12 Misaligned;ok;ok;ok;512*7",
        next: "512*7 512*0",
    },
    Session {
        size: 2 * MIB,
        name: "v",
        lines: "write 2097152 512 7;write 1048064 1049600 7;read 1047552 1049600;flush",
        answers: "11 OutOfRange;11 OutOfRange;512*0 1048576*7 512*0;ok",
        next: "1024*0",
    },
    Session {
        size: 3 * MIB,
        name: "v",
        lines: "write 512 2097664 7;read 0 3145728;write 18446744073709551104 1024 7",
        answers: "ok;512*0 2097664*7 1047552*0;11 OutOfRange",
        next: "17 GroupGone",
    },
    Session {
        size: 4096,
        name: "w",
        lines: "read 0 0;read 0 512;write 0 512 7;write 0 0 7;flush",
        answers: "8 NoSuchName;8 NoSuchName;8 NoSuchName;ok;ok",
        next: "17 GroupGone",
    },
    Session {
        size: 4096,
        name: "v@s",
        lines: "read 4095 1;write 0 512 7;flush;read 0 513",
        answers: "1*0;8 NoSuchName;ok;513*0",
        next: "17 GroupGone",
    },
    // The first write past 32 MiB commits all of them.
    Session {
        size: MIB,
        name: "v",
        lines: "write 0 1048576 7 32;write 512 512 8;write 0 512 9;read 0 1024",
        answers: "ok;ok;ok;512*9 512*8",
        next: "512*7 512*8",
    },
];

fn name(alloc: Global, letters: &str) -> Result<Name, AllocError> {
    Ok(Name::new(Vec::from_slice(alloc, letters.as_bytes())?))
}

/// Makes a change as another writer than the device, and commits it.
fn make(machine: &mut Machine, change: Change, number: u64) {
    let action = Action {
        writer: 2,
        number,
        change,
    };
    machine.take_step(Step::Hold(2));
    machine.take_step(Step::Act(action));
    machine.take_step(Step::Release(2));
    machine.take_step(Step::Close);
    machine.take_step(Step::Quiesce);
    machine.take_step(Step::Plan { timestamp: 9 });
    machine.take_step(Step::Device);
}

/// A machine whose group 4 made the volume `v`, of so many zeros, and whose group 5 took its snapshot `v@s`.
fn machine(alloc: Global, size: u64) -> Result<Machine, AllocError> {
    let mut machine = Machine::create(alloc);
    let volume = Change::Create {
        name: name(alloc, "v")?,
        size,
        block_size: 512,
    };
    make(&mut machine, volume, 1);
    let snapshot = Change::Snapshot {
        volume: name(alloc, "v")?,
        part: name(alloc, "s")?,
    };
    make(&mut machine, snapshot, 2);
    Ok(machine)
}

/// Bytes as runs of the same byte: how many, and which.
fn runs(alloc: Global, bytes: &[u8]) -> Result<String, AllocError> {
    let mut text = String::new(alloc);
    for run in bytes.chunk_by(|a, b| a == b) {
        if !text.is_empty() {
            text.push(' ')?;
        }
        let byte = run.first().copied().unwrap_or(0);
        text.push_str(format!(in alloc; "{}*{byte}", run.len())?.as_str())?;
    }
    Ok(text)
}

fn answer(alloc: Global, device: &mut Device<Machine>, line: &str) -> Result<String, Fail> {
    let mut words = line.split(' ');
    let word = words.next().unwrap_or("");
    let mut numbers = [0, 0, 0, 1];
    for (number, word) in numbers.iter_mut().zip(words) {
        *number = word.parse::<u64>().unwrap_or(0);
    }
    let [offset, len, byte, times] = numbers;
    let refused = match word {
        "read" => match device.read(alloc, offset, len) {
            Ok(bytes) => return Ok(runs(alloc, &bytes)?),
            Err(cause) => Some(cause),
        },
        "write" => {
            let bytes = vec![in alloc; (byte % 256) as u8; len as usize]?;
            (0..times).find_map(|_| device.write(alloc, offset, &bytes).err())
        }
        _ => device.flush().err(),
    };
    Ok(match refused {
        Some(cause) => format!(in alloc; "{cause}")?,
        None => String::from_str(alloc, "ok")?,
    })
}

/// What the next group has, if it was committed.
fn next(alloc: Global, mut machine: Machine) -> Result<String, Fail> {
    let reply = machine.take_step(Step::ReadUnder {
        group: 6,
        name: name(alloc, "v")?,
        offset: 0,
        len: 1024,
    });
    Ok(match reply {
        Reply::Bytes(bytes) => runs(alloc, bytes.as_slice())?,
        Reply::Refused(cause) => format!(in alloc; "{cause}")?,
        _ => String::from_str(alloc, "another reply")?,
    })
}

#[test]
fn devices_answer(rt: HostRuntime) -> Result<(), Fail> {
    let alloc = rt.alloc();
    for session in &SESSIONS {
        let core = machine(alloc, session.size)?;
        let mut device = Device::new(core, name(alloc, session.name)?, 9);
        for (line, wanted) in session.lines.split(';').zip(session.answers.split(';')) {
            let text = answer(alloc, &mut device, line)?;
            assert!(rt; text.as_str() == wanted, "{line}: {text}");
        }
        let text = next(alloc, device.into_core())?;
        assert!(rt; text.as_str() == session.next, "{}: {text}", session.lines);
    }
    Ok(())
}
