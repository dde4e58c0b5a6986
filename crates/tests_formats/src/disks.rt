//! Calls on the labels and slots of three disks, one after the other.
ghost use Rattle.std.specs.Prelude.{◌≡◌, ◌<◌, ◌≤◌, ◌+◌, Bool, List, length, IfOk, OnOk};
ghost use Rattle.pool_slots.specs.Slots.{HaveLabels};
ghost use Rattle.pool_slots.specs.Surveys.{IsWholeOf};
ghost use Rattle.uberblock_ring.specs.Uberblock.{Fits};
ghost use Rattle.vdev_label.specs.Area.{HasRoom};
ghost use Rattle.vdev_label.specs.Pairs.{InRange, label_pairs};
ghost use Rattle.vdev_label.specs.Plain.{label_view};

use crate::lists::label_text;
use crate::slots::{named, uberblock_text};
use crate::spelling::{Step, parse, spelled};
use model_disk::{DiskArray, DiskError, Fault, FaultDisk, MemDisk};
use pool_export::export_labels;
use pool_format::{PoolIdentity, are_blank, write_labels};
use pool_labels::{choose, scan};
use pool_slots::{Refusal, Survey, claim, survey, survey_present};
use std::alloc::Global;
use std::fmt::Display;
use std::test::Fail;
use uberblock_ring::{Uberblock, highest, read_slots, rewound, write_slot};
use vdev_label::{AREA_LEN, Config, Label, decode_area, label_offset, read_label, write_label};
use words::seal;

type Disks = DiskArray<FaultDisk<MemDisk>>;

const NEVER: Fault = Fault::At(u64::MAX);

/// Three disks and steps on them, with what each step answers. A line begins with the size of a disk in MiB, 1 or 8, and
/// which call of the last one fails: `write 5` is the write with the number 5, `from 20` each call from number 20 on.
///
/// - `put 0 4: WORDS` writes the area of a label that the words spell to the labels from 0 up to 4, of all twelve.
/// - `slot 0 3 NAME 1` writes the slot of that uberblock under claim 1 to label 3 of the first disk.
/// - `write 0 3` writes a label there as `vdev_label` does; `format` labels all three as those of a new pool.
/// - `commit OUT NAME 1` commits an uberblock: its slot in all labels of the disks in use. OUT has an `x` for each disk
///   that is out.
/// - `open OUT 1` and `present 1` open the disks, one group back: what is claimed is answered, and which disks are out.
/// - `survey OUT 1` and `surveyed 1` answer the highest uberblock, the taken one and that under the next claim; `claim OUT 1`
///   then also what is claimed.
/// - `scan 1` answers the disk of each child, the place of the label that is taken, and the taken uberblock and the highest.
/// - `export OUT NAME 3` puts labels away and answers which disks are out then, and `blank` answers whether there is none.
/// - `label 0 3` shows a label, `front 0 17` four bytes from a place on, and `slots 0 1` how many slots a disk has, which
///   is the highest, and the uberblocks of that and of the group before.
pub(crate) const CASES: &[(&str, &str)] = &[
    // What was committed is opened under the next claim.
    (
        "1 never 0; put 0 12: LABEL; commit -xx first 1; open -xx 0",
        "done; done; first/2 out [false, true, true]; ",
    ),
    (
        "1 never 0; put 0 12: LABEL; commit -xx first 1; open x-x 0",
        "done; done; no disk has an uberblock; ",
    ),
    // An open goes back, and never below what was claimed.
    (
        "1 never 0; put 0 12: LABEL; commit --- first 1; commit --- second 1; open --- 0; open --- 1",
        "done; done; done; second/2 out [false, false, false]; no disk has an uberblock; ",
    ),
    (
        "1 never 0; put 0 12: LABEL; commit --- first 1; commit --- second 1; open --- 1; open --- 1",
        "done; done; done; first/2 out [false, false, false]; no disk has an uberblock; ",
    ),
    (
        "1 never 0; put 0 12: LABEL; commit --- first 1; commit --- second 1; open --- 2",
        "done; done; done; no disk has an uberblock; ",
    ),
    // A claim is above one that a single label shows.
    (
        "1 never 0; put 0 12: LABEL; put 11 12: LABEL 27:09; commit --- first 1; open --- 0; open --- 0",
        "done; done; done; first/10 out [false, false, false]; first/11 out [false, false, false]; ",
    ),
    (
        "1 never 0; put 0 12: LABEL; put 1 2: LABEL 27:00; commit --- first 1; open --- 0; open --- 0",
        "done; done; done; first/2 out [false, false, false]; first/3 out [false, false, false]; ",
    ),
    // A claim that stopped once it had written a disk's claim label is taken again only without that disk.
    (
        "1 never 0; put 0 12: LABEL; put 0 1: LABEL 27:02; commit --- first 1; open x-- 0; open --- 0",
        "done; done; done; first/2 out [true, false, false]; first/3 out [false, false, false]; ",
    ),
    (
        "1 never 0; put 0 12: LABEL; put 0 1: LABEL 27:02; commit --- first 1; open --- 0; open --- 0",
        "done; done; done; first/3 out [false, false, false]; first/4 out [false, false, false]; ",
    ),
    // A disk without a slot is claimed like the others: each of its labels has the slot then, under the claim.
    (
        "1 never 0; put 0 12: LABEL; commit -x- first 1; front 1 135336; open --- 0; front 1 135336; \
        front 1 397480; front 1 659624; front 1 921768",
        "done; done; 00000000; first/2 out [false, false, false]; 02000000; 02000000; 02000000; 02000000; ",
    ),
    (
        "1 never 0; put 0 12: LABEL; open --- 0; present 0",
        "done; no disk has an uberblock; no disk has an uberblock; ",
    ),
    // A disk whose labels have another configuration takes over that of the others, with its own guid.
    (
        "1 never 0; put 0 12: LABEL; put 4 8: LABEL 47:66 259:01; commit --- first 1; open --- 0; label 1 0; \
        label 1 1; label 1 2; label 1 3; label 0 1",
        "done; done; done; first/2 out [false, false, false]; \
        pool true 2 102 1 100 4: 100 1 7168 12 1 [101, 102, 103]; \
        pool true 2 102 1 100 4: 100 1 7168 12 1 [101, 102, 103]; \
        pool true 2 102 1 100 4: 100 1 7168 12 1 [101, 102, 103]; \
        pool true 2 102 1 100 4: 100 1 7168 12 1 [101, 102, 103]; \
        pool true 2 101 1 100 4: 100 1 7168 12 1 [101, 102, 103]; ",
    ),
    // No disk shows the configuration that the uberblock names.
    (
        "1 never 0; put 0 12: LABEL 259:01; commit --- first 1; open --- 0",
        "done; done; no label has the configuration; ",
    ),
    // A disk without a label is not opened.
    (
        "1 never 0; put 0 12: LABEL; put 4 8: LABEL 27:00; commit --- first 1; open --- 0",
        "done; done; done; no label has the configuration; ",
    ),
    // A survey tells the highest, what is taken and what is claimed; then the claim claims that.
    (
        "1 never 0; put 0 12: LABEL; commit --- first 1; commit --- second 1; claim --- 0",
        "done; done; done; second/1 second/1 second/2 second/2 out [false, false, false]; ",
    ),
    (
        "1 never 0; put 0 12: LABEL; commit --- first 1; commit --- second 1; claim --- 1",
        "done; done; done; second/1 first/1 first/2 first/2 out [false, false, false]; ",
    ),
    (
        "1 never 0; put 0 12: LABEL; commit --- first 1; commit --- second 1; claim --- 2",
        "done; done; done; no disk has an uberblock; ",
    ),
    // Which disks are out behind an open that goes on without those that cannot be read; the others are claimed.
    (
        "1 never 0; put 0 12: LABEL; put 11 12: LABEL 27:09; commit --- first 1; present 0; label 0 3; \
        slots 0 0; label 1 3; slots 1 0; label 2 3; slots 2 0",
        "done; done; done; first/10 out [false, false, false]; \
        pool true 10 101 1 100 4: 100 1 7168 12 1 [101, 102, 103]; 512 Some(388) first/10 first/10; \
        pool true 10 101 1 100 4: 100 1 7168 12 1 [101, 102, 103]; 512 Some(388) first/10 first/10; \
        pool true 10 101 1 100 4: 100 1 7168 12 1 [101, 102, 103]; 512 Some(388) first/10 first/10; ",
    ),
    // A disk of which a read of the first slot, or of the last label, fails is not written.
    (
        "1 read 0; put 0 12: LABEL; put 11 12: LABEL 27:09; commit --- first 1; present 0; label 0 3; \
        slots 0 0; label 1 3; slots 1 0; label 2 3; slots 2 0",
        "done; done; done; first/2 out [false, false, true]; \
        pool true 2 101 1 100 4: 100 1 7168 12 1 [101, 102, 103]; 512 Some(388) first/2 first/2; \
        pool true 2 101 1 100 4: 100 1 7168 12 1 [101, 102, 103]; 512 Some(388) first/2 first/2; \
        pool true 9 101 1 100 2: 100 1 7168 12 1 [101, 102, 103]; 512 Some(388) first/1 first/1; ",
    ),
    (
        "1 read 515; put 0 12: LABEL; put 11 12: LABEL 27:09; commit --- first 1; present 0; label 0 3; \
        slots 0 0; label 1 3; slots 1 0; label 2 3; slots 2 0",
        "done; done; done; first/2 out [false, false, true]; \
        pool true 2 101 1 100 4: 100 1 7168 12 1 [101, 102, 103]; 512 Some(388) first/2 first/2; \
        pool true 2 101 1 100 4: 100 1 7168 12 1 [101, 102, 103]; 512 Some(388) first/2 first/2; \
        pool true 9 101 1 100 2: 100 1 7168 12 1 [101, 102, 103]; 512 Some(388) first/1 first/1; ",
    ),
    // A survey names the disk that it cannot read. Nothing fails in the next one, unless the disk stops for good.
    (
        "1 read 513; put 0 12: LABEL; put 11 12: LABEL 27:09; commit --- first 1; survey --- 0; \
        surveyed 0",
        "done; done; done; disk 2 failed; first/1 first/1 first/10 out [false, false, false]; ",
    ),
    (
        "1 from 20; put 0 12: LABEL; put 11 12: LABEL 27:09; commit --- first 1; survey --- 0; surveyed 0",
        "done; done; done; disk 2 failed; first/1 first/1 first/2 out [false, false, true]; ",
    ),
    // Blank disks are labeled.
    (
        "8 never 0; blank; format; blank; label 0 0; label 1 2; label 2 3",
        "true; done; false; pool true 1 101 1 100 2: 100 1 7168 12 1 [101, 102, 103]; \
        pool true 1 102 1 100 2: 100 1 7168 12 1 [101, 102, 103]; \
        pool true 1 103 1 100 2: 100 1 7168 12 1 [101, 102, 103]; ",
    ),
    // A disk is named whose third label cannot be read, whose second cannot be written, or that cannot be flushed.
    ("8 read 2; blank; format", "disk 2 failed; done; "),
    ("8 write 1; blank; format", "true; disk 2 failed; "),
    ("8 flush 0; blank; format", "true; disk 2 failed; "),
    // Labels of disks in use are put away.
    (
        "8 never 0; format; export -x- first 3; label 0 0; label 0 3; label 1 1; label 2 2",
        "done; done out [false, true, false]; pool false 3 101 1 100 4: 100 1 7168 12 1 [101, 102, 103]; \
        pool false 3 101 1 100 4: 100 1 7168 12 1 [101, 102, 103]; \
        pool true 1 102 1 100 2: 100 1 7168 12 1 [101, 102, 103]; \
        pool false 3 103 1 100 4: 100 1 7168 12 1 [101, 102, 103]; ",
    ),
    // A disk goes out whose second odd label cannot be written, or which cannot be flushed then. Its even labels are not
    // written, as they wait until odd ones are flushed, and the other disk is put away.
    (
        "8 write 5; format; export -x- first 3; label 0 0; label 0 3; label 1 1; label 2 2; label 2 1",
        "done; done out [false, true, true]; pool false 3 101 1 100 4: 100 1 7168 12 1 [101, 102, 103]; \
        pool false 3 101 1 100 4: 100 1 7168 12 1 [101, 102, 103]; \
        pool true 1 102 1 100 2: 100 1 7168 12 1 [101, 102, 103]; \
        pool true 1 103 1 100 2: 100 1 7168 12 1 [101, 102, 103]; \
        pool false 3 103 1 100 4: 100 1 7168 12 1 [101, 102, 103]; ",
    ),
    (
        "8 flush 1; format; export -x- first 3; label 0 0; label 0 3; label 1 1; label 2 2; label 2 1",
        "done; done out [false, true, true]; pool false 3 101 1 100 4: 100 1 7168 12 1 [101, 102, 103]; \
        pool false 3 101 1 100 4: 100 1 7168 12 1 [101, 102, 103]; \
        pool true 1 102 1 100 2: 100 1 7168 12 1 [101, 102, 103]; \
        pool true 1 103 1 100 2: 100 1 7168 12 1 [101, 102, 103]; \
        pool false 3 103 1 100 4: 100 1 7168 12 1 [101, 102, 103]; ",
    ),
    // So does one whose second even label cannot be written.
    (
        "8 write 7; format; export -x- first 3; label 0 0; label 0 3; label 1 1; label 2 2; label 2 0",
        "done; done out [false, true, true]; pool false 3 101 1 100 4: 100 1 7168 12 1 [101, 102, 103]; \
        pool false 3 101 1 100 4: 100 1 7168 12 1 [101, 102, 103]; \
        pool true 1 102 1 100 2: 100 1 7168 12 1 [101, 102, 103]; \
        pool true 1 103 1 100 2: 100 1 7168 12 1 [101, 102, 103]; \
        pool false 3 103 1 100 4: 100 1 7168 12 1 [101, 102, 103]; ",
    ),
    // All labels are read before any is written: one cannot be read, or none has the configuration.
    (
        "8 read 3; format; export -x- first 3; label 0 0; label 0 3; label 1 1; label 2 2; label 2 1",
        "done; done out [false, true, true]; pool false 3 101 1 100 4: 100 1 7168 12 1 [101, 102, 103]; \
        pool false 3 101 1 100 4: 100 1 7168 12 1 [101, 102, 103]; \
        pool true 1 102 1 100 2: 100 1 7168 12 1 [101, 102, 103]; \
        pool true 1 103 1 100 2: 100 1 7168 12 1 [101, 102, 103]; \
        pool true 1 103 1 100 2: 100 1 7168 12 1 [101, 102, 103]; ",
    ),
    (
        "8 never 0; format; export -x- plain 3; label 0 0; label 0 3; label 1 1; label 2 2",
        "done; disk 0 has no label out [false, true, false]; pool true 1 101 1 100 2: 100 1 7168 12 1 [101, 102, 103]; \
        pool true 1 101 1 100 2: 100 1 7168 12 1 [101, 102, 103]; \
        pool true 1 102 1 100 2: 100 1 7168 12 1 [101, 102, 103]; \
        pool true 1 103 1 100 2: 100 1 7168 12 1 [101, 102, 103]; ",
    ),
    // No disk is left: none was in use, or the only one cannot be flushed.
    (
        "8 never 0; format; export xxx first 3; label 2 1",
        "done; no disk is left out [true, true, true]; pool true 1 103 1 100 2: 100 1 7168 12 1 [101, 102, 103]; ",
    ),
    (
        "8 flush 1; format; export xx- first 3; label 2 1; label 2 2",
        "done; no disk is left out [true, true, true]; pool false 3 103 1 100 4: 100 1 7168 12 1 [101, 102, 103]; \
        pool true 1 103 1 100 2: 100 1 7168 12 1 [101, 102, 103]; ",
    ),
    // The disks of a pool in another order: the disk of each child, and the label that is taken, of all twelve.
    (
        "8 never 0; put 0 4: LABEL 47:67; put 4 8: LABEL 47:65; put 8 12: LABEL 47:66; slot 0 0 whole 1; \
        scan 0",
        "done; done; done; done; [[Some(1), Some(2), Some(0)]] 0 whole/1 whole/1; ",
    ),
    // One is left out, one cannot be read, and one has a later label.
    (
        "8 never 0; put 0 4: LABEL 47:67; put 8 12: LABEL 47:66; slot 0 0 whole 1; scan 0",
        "done; done; done; [[None, Some(2), Some(0)]] 0 whole/1 whole/1; ",
    ),
    (
        "8 read 2; put 0 4: LABEL 47:67; put 4 8: LABEL 47:65; put 8 12: LABEL 47:66; slot 0 0 whole 1; \
        scan 0",
        "done; done; done; done; [[Some(1), None, Some(0)]] 0 whole/1 whole/1; ",
    ),
    (
        "8 never 0; put 0 4: LABEL 47:67; put 4 8: LABEL 47:65; put 8 12: LABEL 47:66 163:09; \
        slot 0 0 whole 1; scan 0",
        "done; done; done; done; [[Some(1), Some(2), Some(0)]] 8 whole/1 whole/1; ",
    ),
    // Blank disks, also one with a broken list behind them.
    (
        "8 never 0; slot 0 0 whole 1; scan 0",
        "done; bad label: tail; ",
    ),
    (
        "8 never 0; put 8 12: LABEL 47:65 3:08; slot 0 0 whole 1; scan 0",
        "done; done; bad label: tail; ",
    ),
    // Two pools, and one guid twice, which come before an empty ring.
    (
        "8 never 0; put 0 4: LABEL 47:67; put 4 8: LABEL 47:65; put 8 12: LABEL 47:66 95:02; scan 0",
        "done; done; done; the disks are not those of one pool; ",
    ),
    (
        "8 never 0; put 0 4: LABEL 47:67; put 4 8: LABEL 47:65; put 8 12: LABEL 47:65; scan 0",
        "done; done; done; the disks are not those of one pool; ",
    ),
    // No uberblock, or one with the last claim, or none to go back to.
    (
        "8 never 0; put 0 4: LABEL 47:67; put 4 8: LABEL 47:65; put 8 12: LABEL 47:66; scan 0",
        "done; done; done; no uberblock; ",
    ),
    (
        "8 never 0; put 0 4: LABEL 47:67; put 4 8: LABEL 47:65; put 8 12: LABEL 47:66; \
        slot 0 0 whole 4611686018427387904; scan 0",
        "done; done; done; done; no uberblock; ",
    ),
    (
        "8 never 0; put 0 4: LABEL 47:67; put 4 8: LABEL 47:65; put 8 12: LABEL 47:66; slot 0 0 whole 1; \
        scan 1",
        "done; done; done; done; no uberblock; ",
    ),
    // An uberblock of another configuration, or of another sum of guids.
    (
        "8 never 0; put 0 4: LABEL 47:67; put 4 8: LABEL 47:65; put 8 12: LABEL 47:66; \
        slot 0 0 odd-config 1; scan 0",
        "done; done; done; done; bad configuration; ",
    ),
    (
        "8 never 0; put 0 4: LABEL 47:67; put 4 8: LABEL 47:65; put 8 12: LABEL 47:66; \
        slot 0 0 odd-sum 1; scan 0",
        "done; done; done; done; bad configuration; ",
    ),
    (
        "8 never 0; put 0 4: LABEL 47:67; put 8 12: LABEL 47:66 259:01; slot 0 0 odd-config 1; scan 0",
        "done; done; done; bad configuration; ",
    ),
    // Two disks of three are left out.
    (
        "8 never 0; put 0 4: LABEL 47:67; slot 0 0 whole 1; scan 0",
        "done; done; too many disks are missing; ",
    ),
    // A disk keeps four labels: the last one is written, which begins with a list of nine pairs.
    (
        "8 never 0; write 0 3; label 0 2; label 0 3; front 0 8142848",
        "done; bad label: tail; pool true 1 101 1 100 2: 100 1 7168 12 1 [101, 102, 103]; 00000009; ",
    ),
    // Slots of a disk: the fourth label has the group of the first, and the second the next.
    (
        "1 never 0; slot 0 3 plain 1; slot 0 1 next 1; slots 0 1",
        "done; done; 512 Some(133) next/1 plain/1; ",
    ),
];

/// Adds an empty disk of this size with this fault.
fn add_disk(alloc: Global, disks: &mut Disks, size: usize, fault: Fault) -> Result<(), Fail>
    requires size { 1_048_576 ≤ size }
    requires labels { HaveLabels disks.old.starts }
    ensures count { OnOk result (length disks.new.starts ≡ length disks.old.starts + 1) }
    ensures labels { OnOk result (HaveLabels disks.new.starts) }
{
    let disk = FaultDisk::new(MemDisk::new(alloc, size)?, fault);
    disks.push(disk)?;
    Ok(())
}

/// Three empty disks, the last one with a fault.
fn empty_disks(alloc: Global, head: &str) -> Result<Disks, Fail>
    ensures count { IfOk result (λ disks. length disks.starts ≡ 3) }
    ensures labels { IfOk result (λ disks. HaveLabels disks.starts) }
{
    let head = parse(head);
    let size = if head.verb == "8" {
        0x80_0000
    } else {
        0x10_0000
    };
    let number = head.numbers[0];
    let fault = match head.name {
        "read" => Fault::Read(number),
        "write" => Fault::Write(number),
        "flush" => Fault::Flush(number),
        "from" => Fault::From(number),
        _ => NEVER,
    };
    let mut disks = DiskArray::new(Vec::new(alloc));
    add_disk(alloc, &mut disks, size, NEVER)?;
    add_disk(alloc, &mut disks, size, NEVER)?;
    add_disk(alloc, &mut disks, size, fault)?;
    Ok(disks)
}

/// Writes the area that words spell to labels of the disks.
fn put(alloc: Global, disks: &mut Disks, step: &Step<'_>, words: &str) -> Result<String, Fail>
    requires count { length disks.old.starts ≡ 3 }
    requires labels { HaveLabels disks.old.starts }
    ensures starts { disks.new.starts ≡ disks.old.starts }
{
    let mut area = spelled(alloc, words)?;
    area.resize(AREA_LEN, 0)?;
    seal(&mut area);
    for place in step.numbers[0]..step.numbers[1].min(12) {
        let which = (place / 4) as usize;
        let at = label_offset(disks.size(which), place % 4) + 0x4000;
        disks.write_at(which, at, &area)?;
    }
    Ok(String::from_str(alloc, "done")?)
}

/// The label that words spell.
fn label_of(alloc: Global, words: &str) -> Result<Label, Fail>
    ensures room { IfOk result (λ label. HasRoom (label_pairs (label_view label))) }
    ensures in_range { IfOk result (λ label. InRange (label_view label)) }
{
    let mut area = spelled(alloc, words)?;
    area.resize(AREA_LEN, 0)?;
    seal(&mut area);
    Ok(decode_area(alloc, &area)?)
}

/// Writes the slot of an uberblock to all labels of the disks in use, and flushes them.
fn commit(disks: &mut Disks, out: &[bool], uberblock: &Uberblock) -> Result<(), DiskError>
    requires count { length disks.old.starts ≡ 3 }
    requires labels { HaveLabels disks.old.starts }
    requires fits { Fits uberblock.now }
    ensures starts { disks.new.starts ≡ disks.old.starts }
{
    for place in 0..12u64 {
        let which = (place / 4) as usize;
        if out.get(which) != Some(&true) {
            write_slot(disks, which, place % 4, uberblock)?;
        }
    }
    for which in 0..disks.len() {
        if out.get(which) != Some(&true) {
            disks.flush(which)?;
        }
    }
    Ok(())
}

/// What an open claims; or of a survey the highest uberblock, the one that is taken and that under the next claim, and what the
/// claim of it answers. How many of these there are stands behind them.
fn claims(
    disks: &mut Disks,
    out: &[bool],
    survey: &Survey,
    verb: &str,
) -> Result<([Uberblock; 4], usize), Refusal>
    requires out { length out.now ≡ length disks.old.starts }
    requires labels { HaveLabels disks.old.starts }
    requires whole { IsWholeOf out.now disks.old.starts survey.now }
    ensures starts { disks.new.starts ≡ disks.old.starts }
{
    let claimed = survey.claimed();
    if verb == "survey" || verb == "surveyed" {
        return Ok(([survey.highest(), survey.taken(), claimed, claimed], 3));
    }
    let answer = claim(survey, disks, out)?;
    if verb == "claim" {
        return Ok(([survey.highest(), survey.taken(), claimed, answer], 4));
    }
    Ok(([answer; 4], 1))
}

/// Surveys the disks, without those that can't be read where the verb says so, and claims what is found where it says so.
fn found(
    alloc: Global,
    disks: &mut Disks,
    step: &Step<'_>,
    out: &mut Vec<bool>,
) -> Result<([Uberblock; 4], usize), Refusal>
    requires count { length disks.old.starts ≡ 3 }
    requires labels { HaveLabels disks.old.starts }
    requires out { length out.old.items ≡ 3 }
    ensures starts { disks.new.starts ≡ disks.old.starts }
{
    let rewind = step.numbers[0].min(2);
    if step.verb == "present" || step.verb == "surveyed" {
        let survey = survey_present(alloc, disks, out, rewind)?;
        return claims(disks, out, &survey, step.verb);
    }
    let survey = survey(alloc, disks, out, rewind)?;
    claims(disks, out, &survey, step.verb)
}

/// What an open or a survey answers, and which disks are out then.
fn told(alloc: Global, disks: &mut Disks, step: &Step<'_>) -> Result<String, Fail>
    requires count { length disks.old.starts ≡ 3 }
    requires labels { HaveLabels disks.old.starts }
    ensures starts { disks.new.starts ≡ disks.old.starts }
{
    let mut out = Vec::from_slice(alloc, &step.out)?;
    let (uberblocks, count) = match found(alloc, disks, step, &mut out) {
        Ok(found) => found,
        Err(refusal) => return Ok(format!(in alloc; "{refusal}")?),
    };
    let mut text = String::new(alloc);
    for uberblock in uberblocks.iter().take(count) {
        write!(text, "{} ", uberblock_text(alloc, Some(uberblock))?)?;
    }
    write!(text, "out {out:?}")?;
    Ok(text)
}

/// The disk of each child, the place of the label that is taken among those that were read, and the uberblock that is
/// taken and the highest.
fn scanned(alloc: Global, disks: &mut Disks, rewind: u64) -> Result<String, Fail>
    requires count { length disks.old.starts ≡ 3 }
    requires labels { HaveLabels disks.old.starts }
    ensures starts { disks.new.starts ≡ disks.old.starts }
{
    let found = scan(alloc, disks)?;
    let choice = match choose(alloc, &found, rewind) {
        Ok(choice) => choice,
        Err(refusal) => return Ok(format!(in alloc; "{refusal}")?),
    };
    let taken = uberblock_text(alloc, Some(&choice.taken))?;
    let highest = uberblock_text(alloc, Some(&choice.highest))?;
    Ok(format!(in alloc; "{:?} {} {taken} {highest}", choice.members, choice.source)?)
}

/// What a label of a disk shows, or four bytes; or how many slots it has, which is the highest, its uberblock, and the one that
/// is so many groups before.
fn shown(alloc: Global, disks: &mut Disks, step: &Step<'_>) -> Result<String, Fail>
    requires count { length disks.old.starts ≡ 3 }
    requires labels { HaveLabels disks.old.starts }
    ensures starts { disks.new.starts ≡ disks.old.starts }
{
    let which = step.numbers[0].min(2) as usize;
    let number = step.numbers[1];
    if step.verb == "label" {
        return match read_label(alloc, disks, which, number.min(3)) {
            Ok(label) => label_text(alloc, &label),
            Err(refusal) => Ok(format!(in alloc; "{refusal}")?),
        };
    }
    if step.verb == "front" {
        let mut front = [0; 4];
        let size = disks.size(which);
        if size >= 4 && number <= size - 4 {
            disks.read(which, number, &mut front)?;
        }
        return Ok(hex::encode(alloc, front.as_slice())?);
    }
    let slots = read_slots(alloc, disks, which)?;
    let place = highest(&slots);
    let top = match place {
        Some(place) => slots.get(place).copied().flatten(),
        None => None,
    };
    let before = match &top {
        Some(top) => rewound(&slots, top, number),
        None => None,
    };
    let top = uberblock_text(alloc, top.as_ref())?;
    let before = uberblock_text(alloc, before.as_ref())?;
    Ok(format!(in alloc; "{} {place:?} {top} {before}", slots.len())?)
}

/// What a call answers that answers nothing.
fn done<E: Display + Drop>(alloc: Global, answer: Result<(), E>) -> Result<String, Fail> {
    match answer {
        Ok(()) => Ok(String::from_str(alloc, "done")?),
        Err(refusal) => Ok(format!(in alloc; "{refusal}")?),
    }
}

/// What a call answers that commits an uberblock, or writes its slot, or puts labels away.
fn written(alloc: Global, disks: &mut Disks, step: &Step<'_>) -> Result<String, Fail>
    requires count { length disks.old.starts ≡ 3 }
    requires labels { HaveLabels disks.old.starts }
    ensures starts { disks.new.starts ≡ disks.old.starts }
{
    let [first, second, third] = step.numbers;
    if step.verb == "slot" {
        let uberblock = named(step.name, third);
        let answer = write_slot(disks, first.min(2) as usize, second.min(3), &uberblock);
        return done(alloc, answer);
    }
    let uberblock = named(step.name, first);
    match step.verb {
        "commit" => done(alloc, commit(disks, &step.out, &uberblock)),
        _ => {
            let mut out = Vec::from_slice(alloc, &step.out)?;
            let answer = export_labels(alloc, disks, &mut out, &uberblock);
            Ok(format!(in alloc; "{} out {out:?}", done(alloc, answer)?)?)
        }
    }
}

/// Writes a label of the first disk, or labels all as those of its pool, if it has three.
fn labeled(alloc: Global, disks: &mut Disks, step: &Step<'_>) -> Result<String, Fail>
    requires count { length disks.old.starts ≡ 3 }
    requires labels { HaveLabels disks.old.starts }
    ensures starts { disks.new.starts ≡ disks.old.starts }
{
    let label = label_of(alloc, "LABEL")?;
    if step.verb == "write" {
        let which = step.numbers[0].min(2) as usize;
        let number = step.numbers[1].min(3);
        return done(alloc, write_label(alloc, disks, which, number, &label));
    }
    let [vdev] = label.config.vdevs.as_slice() else {
        return Ok(String::new(alloc));
    };
    if vdev.children.len() != 3 || !label.config.is_allowed(alloc, label.pool_guid)? {
        return Ok(String::new(alloc));
    }
    let Label {
        name,
        pool_guid,
        claim,
        group,
        config,
        ..
    } = label;
    let pool = PoolIdentity {
        name,
        guid: pool_guid,
    };
    done(
        alloc,
        write_labels(alloc, disks, pool, config, claim, group),
    )
}

fn answer(alloc: Global, disks: &mut Disks, line: &str) -> Result<String, Fail>
    requires count { length disks.old.starts ≡ 3 }
    requires labels { HaveLabels disks.old.starts }
    ensures starts { disks.new.starts ≡ disks.old.starts }
{
    let (head, words) = line.split_once(": ").unwrap_or((line, ""));
    let step = parse(head);
    match step.verb {
        "put" => put(alloc, disks, &step, words),
        "slot" | "commit" | "export" => written(alloc, disks, &step),
        "write" | "format" => labeled(alloc, disks, &step),
        "open" | "present" | "survey" | "surveyed" | "claim" => told(alloc, disks, &step),
        "scan" => scanned(alloc, disks, step.numbers[0]),
        "label" | "slots" | "front" => shown(alloc, disks, &step),
        _ => match are_blank(alloc, disks) {
            Ok(are_blank) => Ok(format!(in alloc; "{are_blank}")?),
            Err(refusal) => Ok(format!(in alloc; "{refusal}")?),
        },
    }
}

/// What the steps answer, one after the other.
pub(crate) fn played(alloc: Global, line: &str) -> Result<String, Fail> {
    let (head, steps) = line.split_once("; ").unwrap_or((line, ""));
    let mut text = String::new(alloc);
    let mut disks = empty_disks(alloc, head)?;
    for step in steps.split("; ") {
        let answer = answer(alloc, &mut disks, step)?;
        write!(text, "{answer}; ")?;
    }
    Ok(text)
}

#[test]
fn disks_answer(rt: HostRuntime) -> Result<(), Fail> {
    for (line, wanted) in CASES {
        let text = played(rt.alloc(), line)?;
        assert!(rt; text.as_str() == *wanted, "{line}: {text}");
    }
    Ok(())
}
