//! Disks in memory, over a file and with faults, arrays of them, and disks in the order of a pool's
//! children, some of which are absent. The lines of `SETS` call `disk_set::DiskSet`.
use crate::disk_sets::{SETS, Sets};
use crate::lines::{Bench, Call, wrong_lines};
use model_disk::{Disk, DiskArray, DiskError, Fault, FaultDisk, FileDisk, MemDisk, Member};
use pool_members::{AllPresent, Arranged, Child, HandedIn, all_present, arrange};
use std::alloc::Global;
use std::test::Fail;
use std::{fs, mem};

const PATH: &str = "tests_disks.img";

/// `memory` makes disks, each of a size and with one byte all over, and `fault_at` and its like one disk
/// of 16 zeros whose calls fail by that fault. `write` and `read` have a disk and an offset, `flush` and
/// `size` a disk. `again` puts the disks into another array, `below` goes on with the disk below the
/// fault, and `last` takes the last disk out and gives what it holds.
const DISKS: &[(&str, &str)] = &[
    // A disk has its size, and keeps what is written and nothing else.
    (
        "memory 16 0; write 0 3 =616263; flush 0; read 0 2 4; size 0; last",
        "new; ok; ok; 00616263; 16 bytes; 00000061626300000000000000000000",
    ),
    // Disks in an array are kept apart.
    (
        "memory 16 0 16 0; write 1 13 =616263; flush 1; read 1 12 4; read 0 12 4",
        "new; ok; ok; 00616263; 00000000",
    ),
    // A disk that was used in an array holds the same in another.
    (
        "memory 16 0; write 0 13 =616263; flush 0; read 0 12 4; again; read 0 12 4",
        "new; ok; ok; 00616263; again; 00616263",
    ),
    // A disk that was added.
    ("memory 16 7; count; read 0 12 4", "new; 1 disks; 07070707"),
    // The second call fails.
    (
        "fault_at 1; write 0 3 =616263; flush 0;
            write 0 3 =616263; flush 0; read 0 2 4; write 0 3 =616263; flush 0; read 0 2 4;
            below; write 0 3 =616263; flush 0; read 0 2 4",
        "new; ok; stopped; ok; ok; 00616263; ok; ok; 00616263; below; ok; ok; 00616263",
    ),
    // All calls from the third on.
    (
        "fault_from 2; write 0 3 =616263; flush 0; read 0 2 4;
            write 0 3 =616263; write 0 3 =616263;
            below; write 0 3 =616263; flush 0; read 0 2 4",
        "new; ok; ok; stopped; stopped; stopped; below; ok; ok; 00616263",
    ),
    // The second write.
    (
        "fault_write 1; write 0 3 =616263; flush 0; read 0 2 4; write 0 3 =616263;
            write 0 3 =616263; flush 0; read 0 2 4;
            below; write 0 3 =616263; flush 0; read 0 2 4",
        "new; ok; ok; 00616263; stopped; ok; ok; 00616263; below; ok; ok; 00616263",
    ),
    // The second flush.
    (
        "fault_flush 1; write 0 3 =616263; flush 0; read 0 2 4; write 0 3 =616263; flush 0;
            write 0 3 =616263; flush 0; read 0 2 4;
            below; write 0 3 =616263; flush 0; read 0 2 4",
        "new; ok; ok; 00616263; ok; stopped; ok; ok; 00616263; below; ok; ok; 00616263",
    ),
    // The second read.
    (
        "fault_read 1; write 0 3 =616263; flush 0; read 0 2 4;
            write 0 3 =616263; flush 0; read 0 2 4; write 0 3 =616263; flush 0; read 0 2 4;
            below; write 0 3 =616263; flush 0; read 0 2 4",
        "new; ok; ok; 00616263; ok; ok; stopped; ok; ok; 00616263; below; ok; ok; 00616263",
    ),
];

/// `arrange` puts the disks in the order of children. It has the size of what stands for a disk that is
/// absent, and then of each child the place of its disk, or a hyphen. Which children are absent comes of
/// it, or why it is refused: the disks are as they come back then. `present` takes the disks as those of as
/// many children. `restore` gives all disks back in the order handed in, and `member` goes on with the disk
/// of the last child.
const MEMBERS: &[(&str, &str)] = &[
    // The last disk, none, and the first.
    (
        "memory 16 7 16 8 16 9; arrange 40 2 - 0; size 0; read 0 0 1; size 1; read 1 0 1; size 2;
            read 2 0 1; member; last",
        "new; [false, true, false]; 16 bytes; 09; 40 bytes; stopped; 16 bytes; 07;
            is absent: false; 07070707070707070707070707070707",
    ),
    // Calls on an absent disk fail, and no disk is in it.
    (
        "memory; arrange 8 -; write 0 0; flush 0; member; last",
        "new; [true]; stopped; stopped; is absent: true; none",
    ),
    // Each disk is named once.
    ("memory 16 7 16 8 16 9; arrange 8 1 - 1", "new; NotEachOnce"),
    ("memory 16 7 16 8 16 9; arrange 8 3", "new; NotEachOnce"),
    // The disks come back in the order in which they were handed in.
    (
        "memory 8 0 16 0 24 0; arrange 0 2 0 2; count; size 0; size 1; size 2",
        "new; NotEachOnce; 3 disks; 8 bytes; 16 bytes; 24 bytes",
    ),
    (
        "memory 8 0 16 0 24 0; arrange 0 1 3 0; count; size 0; size 1; size 2",
        "new; NotEachOnce; 3 disks; 8 bytes; 16 bytes; 24 bytes",
    ),
    // They are taken then, where each is named once: memory was not the cause.
    (
        "memory 16 7 16 8 16 9; arrange 0 1 1; arrange 40 2 - 0; size 0; read 0 0 1; size 1;
            read 1 0 1; size 2; read 2 0 1",
        "new; NotEachOnce; [false, true, false]; 16 bytes; 09; 40 bytes; stopped; 16 bytes; 07",
    ),
    // All of them come back as they are then, those that no child names too.
    (
        "memory 8 1 16 2 24 3; arrange 40 2 - 0; write 0 0 =ff; restore; count; size 0; size 1; size 2;
            read 0 0 2; read 1 0 2; read 2 0 2",
        "new; [false, true, false]; ok; restored; 3 disks; 8 bytes; 16 bytes; 24 bytes; 0101; 0202; ff03",
    ),
    (
        "memory 8 1 16 2; present; write 1 0 =ff; restore; count; size 0; read 0 0 2; read 1 0 2",
        "new; present; ok; restored; 2 disks; 8 bytes; 0101; ff02",
    ),
];

const NEW_FILE: &[(&str, &str)] = &[("write 0 3 =616263; flush 0; read 0 2 4", "ok; ok; 00616263")];

const SAME_FILE: &[(&str, &str)] = &[(
    "size 1; read 1 0 16",
    "16 bytes; 00000061626300000000000000000000",
)];

impl<D: Disk + Drop> Bench for DiskArray<D> {
    fn answer(&mut self, alloc: Global, call: &Call) -> Result<String, Fail> {
        let (which, at) = (call.number(0), call.number(1) as u64);
        if call.name == "count" || which >= self.len() {
            return Ok(format!(in alloc; "{} disks", self.len())?);
        }
        let size = self.size(which);
        let mut buffer = vec![in alloc; 9; call.number(2)]?;
        let longest = buffer.len().max(call.bytes.len()) as u64;
        if call.name == "size" || longest > size || at > size - longest {
            return Ok(format!(in alloc; "{size} bytes")?);
        }
        let ended = match call.name {
            "write" => self.write_at(which, at, &call.bytes),
            "flush" => self.flush(which),
            "read" => self.read(which, at, &mut buffer),
            _ => return Err(Fail::new(format_args!("no call {}", call.name))),
        };
        match ended {
            Ok(()) if buffer.is_empty() => Ok(format!(in alloc; "ok")?),
            Ok(()) => Ok(hex::encode(alloc, buffer.as_slice())?),
            Err(DiskError::Stopped) => Ok(format!(in alloc; "stopped")?),
            Err(DiskError::Io(_)) => Ok(format!(in alloc; "io")?),
        }
    }
}

#[derive(Drop)]
enum Disks {
    Memory(DiskArray<MemDisk>),
    Faulty(DiskArray<FaultDisk<MemDisk>>),
    Members(DiskArray<Member<MemDisk>>, HandedIn<MemDisk>),
}

/// The disks that a call makes.
fn new_disks(alloc: Global, call: &Call) -> Result<Disks, Fail> {
    let number = call.number(0) as u64;
    let fault = match call.name {
        "memory" => None,
        "fault_at" => Some(Fault::At(number)),
        "fault_from" => Some(Fault::From(number)),
        "fault_write" => Some(Fault::Write(number)),
        "fault_flush" => Some(Fault::Flush(number)),
        "fault_read" => Some(Fault::Read(number)),
        _ => return Err(Fail::new(format_args!("no call {}", call.name))),
    };
    if let Some(fault) = fault {
        let mut disks = DiskArray::new(Vec::new(alloc));
        disks.push(FaultDisk::new(MemDisk::new(alloc, 16)?, fault))?;
        return Ok(Disks::Faulty(disks));
    }
    let mut disks = DiskArray::new(Vec::new(alloc));
    for pair in call.numbers.chunks(2) {
        if let [size, byte] = pair {
            let bytes = vec![in alloc; u8::try_from(*byte)?; *size]?;
            disks.push(MemDisk::holding(bytes))?;
        }
    }
    Ok(Disks::Memory(disks))
}

/// The disks in the order of the children that a call tells.
fn in_order(alloc: Global, disks: Vec<MemDisk>, call: &Call) -> Result<(Disks, String), Fail> {
    let size = call.number(0) as u64;
    let mut children = Vec::new(alloc);
    for place in call.numbers.iter().skip(1) {
        let is_absent = *place == usize::MAX;
        let disk = if is_absent { None } else { Some(*place) };
        children.push(Child { disk, size })?;
    }
    match arrange(alloc, disks, &children) {
        Ok(Arranged { disks, out, handed }) => {
            let text = format!(in alloc; "{out:?}")?;
            Ok((Disks::Members(DiskArray::new(disks), handed), text))
        }
        Err((refusal, disks)) => {
            let text = format!(in alloc; "{refusal:?}")?;
            Ok((Disks::Memory(DiskArray::new(disks)), text))
        }
    }
}

impl Disks {
    /// The disks after a call that makes others of them.
    fn changed(self, alloc: Global, call: &Call) -> Result<(Disks, String), Fail> {
        let (disks, text) = match (self, call.name) {
            (Disks::Memory(array), "arrange") => {
                return in_order(alloc, array.into_disks(), call);
            }
            (Disks::Memory(array), "present") => {
                return match all_present(alloc, array.into_disks()) {
                    Ok(AllPresent { disks, handed }) => {
                        let members = Disks::Members(DiskArray::new(disks), handed);
                        Ok((members, "present".to_string(alloc)?))
                    }
                    Err(disks) => {
                        let memory = Disks::Memory(DiskArray::new(disks));
                        Ok((memory, "no memory".to_string(alloc)?))
                    }
                };
            }
            (Disks::Members(array, handed), "restore") => (
                handed.restore(array.into_disks()),
                "restored".to_string(alloc)?,
            ),
            (Disks::Memory(array), "again") => (array.into_disks(), "again".to_string(alloc)?),
            (Disks::Memory(array), "last") => {
                let mut disks = array.into_disks();
                match disks.pop() {
                    Some(disk) => (disks, hex::encode(alloc, disk.bytes())?),
                    None => (disks, "none".to_string(alloc)?),
                }
            }
            (Disks::Faulty(array), "below") => {
                let mut below = Vec::new(alloc);
                if let Some(disk) = array.into_disks().pop() {
                    disk.fails_as_told();
                    below.push(disk.into_inner())?;
                }
                (below, "below".to_string(alloc)?)
            }
            (Disks::Members(array, _), "member") => {
                let mut within = Vec::new(alloc);
                let Some(member) = array.into_disks().pop() else {
                    return Err(Fail::new("no member"));
                };
                let is_absent = member.is_absent();
                if let Some(disk) = member.into_disk() {
                    within.push(disk)?;
                }
                (within, format!(in alloc; "is absent: {is_absent}")?)
            }
            _ => return Ok((new_disks(alloc, call)?, "new".to_string(alloc)?)),
        };
        Ok((Disks::Memory(DiskArray::new(disks)), text))
    }
}

impl Bench for Disks {
    fn answer(&mut self, alloc: Global, call: &Call) -> Result<String, Fail> {
        if matches!(call.name, "count" | "size" | "write" | "flush" | "read") {
            return match self {
                Disks::Memory(array) => array.answer(alloc, call),
                Disks::Faulty(array) => array.answer(alloc, call),
                Disks::Members(array, _) => array.answer(alloc, call),
            };
        }
        let before = mem::replace(self, Disks::Memory(DiskArray::new(Vec::new(alloc))));
        let (after, text) = before.changed(alloc, call)?;
        *self = after;
        Ok(text)
    }
}

/// Besides, a disk over a file keeps its bytes, its file is not made twice, and a second disk over it has
/// them.
#[test]
fn disks_members_and_sets(rt: HostRuntime) -> Result<(), Fail> {
    let _ = fs::remove_file(&rt, PATH);
    let mut files = DiskArray::new(Vec::new(rt.alloc()));
    files.push(FileDisk::create(&rt, PATH, 16)?)?;
    let mut wrong = wrong_lines(&rt, rt.alloc(), &mut files, NEW_FILE)?;
    let stands = FileDisk::create(&rt, PATH, 16).is_err();
    files.push(FileDisk::open(&rt, PATH)?)?;
    wrong.push_str(wrong_lines(&rt, rt.alloc(), &mut files, SAME_FILE)?.as_str())?;
    fs::remove_file(&rt, PATH)?;
    let mut bench = Disks::Memory(DiskArray::new(Vec::new(rt.alloc())));
    wrong.push_str(wrong_lines(&rt, rt.alloc(), &mut bench, DISKS)?.as_str())?;
    wrong.push_str(wrong_lines(&rt, rt.alloc(), &mut bench, MEMBERS)?.as_str())?;
    wrong.push_str(wrong_lines(&rt, rt.alloc(), &mut Sets(None), SETS)?.as_str())?;
    assert!(rt; stands, "the file is there");
    assert!(rt; wrong.is_empty(), "{wrong}");
    Ok(())
}
