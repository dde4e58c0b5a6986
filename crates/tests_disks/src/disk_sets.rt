//! Sets of disks of which one fails, and what is left of a plan without it.
use crate::lines::{Bench, Call};
use crate::spans::{missed, span};
use disk_set::{Behind, DiskSet, SlotWrite};
use model_disk::{DiskArray, Fault, FaultDisk, MemDisk};
use std::alloc::Global;
use std::collections::VecDeque;
use std::test::Fail;

/// `set` makes a set of two disks of 16 bytes, of which the second fails each call. `write` writes
/// the last three bytes of a disk, `enter` has a group, `absent` a disk that is
/// missing too, and `read` reads the disks of the set, which it takes apart. `missed` has a disk and the first and last group that it
/// missed, and `lacks` a group: it adds the disks that missed it to disk 9. `back` has what `missed` has, and `look` reads the last four
/// bytes of a disk, out or not.
pub(crate) const SETS: &[(&str, &str)] = &[
    // A disk that fails is out.
    (
        "set; out 0; out 1; since 0; since 1; group; due;
            enter 7; write 0; write 1; flush 0; flush 1; enter 4;
            out 0; out 1; since 0; since 1; group; due; read 0 12 4",
        "new; false; false; None; None; group 0; 0 due;
            group 7; ok; 1 is out; ok; 1 is out; group 4;
            false; true; None; Some(4); group 4; 0 due; 00616263",
    ),
    // Disks that are out are absent.
    (
        "set; enter 7; write 0; write 1; flush 0; flush 1; enter 4; absent 5",
        "new; group 7; ok; 1 is out; ok; 1 is out; group 4; [1, 5]",
    ),
    // A disk lacks the groups that it missed, and no others; what is said of it takes the place of what was.
    (
        "set; lacks 5; missed 1 5 6; lacks 4; lacks 5; lacks 6; lacks 7; missed 0 7 7; lacks 6; lacks 7",
        "new; [9]; marked; [9]; [9, 1]; [9, 1]; [9]; marked; [9]; [9, 0]",
    ),
    // A disk comes back, and lacks what it missed, whatever it lacked before.
    (
        "set; enter 7; flush 1; out 1; missed 1 2 3; back 1 7 8; out 1; since 1; absent 5; lacks 3; lacks 6;
            lacks 7; lacks 8; lacks 9; back 0 3 3; lacks 3; lacks 7; flush 1; out 1; since 1",
        "new; group 7; 1 is out; true; marked; back; false; None; [5]; [9]; [9];
            [9, 1]; [9, 1]; [9]; back; [9, 0]; [9, 1]; 1 is out; true; Some(7)",
    ),
    // Of a disk that is out bytes are read too.
    (
        "set; write 0; flush 1; look 0; look 1; out 1; due",
        "new; ok; 1 is out; 00616263; failed; true; 0 due",
    ),
    // A plan goes on without a disk: with the flushes of blocks on both disks, and the slot and the flush
    // behind it on the other.
    (
        "plan_without 0",
        "is done: false, 2 flushes, 1 slots, 1 flushes, next disk 1 label 3",
    ),
];

pub(crate) type Disk = FaultDisk<MemDisk>;

#[derive(Drop)]
pub(crate) struct Sets(pub(crate) Option<DiskSet<Disk>>);

/// What is due behind a plan's blocks on two disks, once it goes on without one.
fn plan_without(alloc: Global, disk: usize) -> Result<String, Fail> {
    let mut behind = Behind {
        flushes: VecDeque::new(alloc),
        slots: VecDeque::new(alloc),
        slot_flushes: VecDeque::new(alloc),
    };
    for disk in 0..2 {
        behind.flushes.push_back(disk)?;
        behind.slots.push_back(SlotWrite { disk, label: 3 })?;
        behind.slot_flushes.push_back(disk)?;
    }
    behind.leave_out(disk);
    let done = behind.is_done();
    let (flushes, slots, last) = (
        behind.flushes.len(),
        behind.slots.len(),
        behind.slot_flushes.len(),
    );
    let Some(slot) = behind.slots.pop_front() else {
        return Ok(format!(in alloc; "is done: {done}, no slot")?);
    };
    let (disk, label) = (slot.disk, slot.label);
    Ok(format!(in alloc;
        "is done: {done}, {flushes} flushes, {slots} slots, {last} flushes, next disk {disk} label {label}"
    )?)
}

/// Two disks of 16 bytes, of which the second fails each call.
fn two_disks(alloc: Global) -> Result<DiskSet<Disk>, Fail> {
    let mut disks = DiskArray::new(Vec::new(alloc));
    disks.push(FaultDisk::new(MemDisk::new(alloc, 16)?, Fault::At(u64::MAX)))?;
    disks.push(FaultDisk::new(MemDisk::new(alloc, 16)?, Fault::From(0)))?;
    let out = vec![in alloc; false; disks.len()]?;
    Ok(DiskSet::new(alloc, disks, out)?)
}

/// What a set says of itself.
fn said(set: &DiskSet<Disk>, alloc: Global, call: &Call) -> Result<String, Fail> {
    let disk = call.number(0);
    let text = match call.name {
        "due" => format!(in alloc; "{} due", set.due_count()),
        "out" => format!(in alloc; "{}", set.is_out(disk)),
        "since" => format!(in alloc; "{:?}", set.out_since(disk)),
        "absent" => format!(in alloc; "{:?}", set.absent(alloc, &call.numbers)?),
        "group" => format!(in alloc; "group {}", set.group()),
        "lacks" => {
            let mut absent = vec![in alloc; 9]?;
            set.add_stale(disk as u64, &mut absent)?;
            format!(in alloc; "{absent:?}")
        }
        _ => return Err(Fail::new(format_args!("no call {}", call.name))),
    };
    Ok(text?)
}

/// What a change of what is known of the disks is told as, or nothing where the call is another one.
fn marked(
    set: &mut DiskSet<Disk>,
    alloc: Global,
    call: &Call,
) -> Result<Option<&'static str>, Fail> {
    let disk = call.number(0);
    match call.name {
        "missed" => {
            set.mark_stale(missed(alloc, call)?);
            Ok(Some("marked"))
        }
        "back" if disk < set.len() => {
            set.bring_back(disk, Some(span(call)))?;
            Ok(Some("back"))
        }
        _ => Ok(None),
    }
}

/// What comes of a call on a disk, or nothing where it is another one.
fn on_disk(set: &mut DiskSet<Disk>, alloc: Global, call: &Call) -> Result<Option<String>, Fail> {
    let disk = call.number(0);
    if disk >= set.len() || set.size(disk) != 16 {
        return Ok(None);
    }
    let ended = match call.name {
        "look" => {
            let mut bytes = [0; 4];
            return match set.read_at(disk, 12, &mut bytes) {
                Ok(()) => Ok(Some(hex::encode(alloc, &bytes)?)),
                Err(_) => Ok(Some(format!(in alloc; "failed")?)),
            };
        }
        "flush" => set.flush(disk),
        "write" => set.write_at(disk, 13, b"abc"),
        _ => return Ok(None),
    };
    match ended {
        Ok(()) => Ok(Some(format!(in alloc; "ok")?)),
        Err(failed) => Ok(Some(format!(in alloc; "{} is out", failed.disk)?)),
    }
}

impl Bench for Sets {
    fn answer(&mut self, alloc: Global, call: &Call) -> Result<String, Fail> {
        match call.name {
            "plan_without" => return plan_without(alloc, call.number(0)),
            "set" => {
                self.0 = Some(two_disks(alloc)?);
                return Ok(format!(in alloc; "new")?);
            }
            "read" => {
                return match self.0.take() {
                    Some(set) => set.into_array().answer(alloc, call),
                    None => Err(Fail::new("no set")),
                };
            }
            _ => {}
        }
        let Some(set) = &mut self.0 else {
            return Err(Fail::new("no set"));
        };
        if call.name == "enter" {
            set.enter(call.number(0) as u64);
            return Ok(format!(in alloc; "group {}", set.group())?);
        }
        if let Some(text) = marked(set, alloc, call)? {
            return Ok(text.to_string(alloc)?);
        }
        match on_disk(set, alloc, call)? {
            Some(text) => Ok(text),
            None => said(set, alloc, call),
        }
    }
}
