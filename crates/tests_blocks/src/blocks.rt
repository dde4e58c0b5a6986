//! Stores of blocks by pointer.
use crate::block_cases::{MADE, MAPS, OPENED, RELEASED, STORED};
use crate::extents::{EXTENTS, Extents};
use block_pointer::{Block, Copies, Property};
use block_store::{
    Asked, BlockStore, CopyCount, NewBlock, Refusal, VdevConfig, VdevShape, sectors_for_blocks,
};
use model_disk::{Fault, FaultDisk, MemDisk};
use raidz_io::Vdev;
use raidz_map::Geometry;
use space_map::append_update;
use std::alloc::Global;
use std::sync::atomic::{AtomicU64, Ordering};
use std::test::Fail;
use std::thread::Threads;
use tests_disks::lines::{Bench, Call, play, wrong_lines};
use tests_disks::pattern::Pattern;
use tests_disks::spans::{missed, span};
use worker_items::Gate;

type TestDisk = FaultDisk<MemDisk>;

type TestStore = BlockStore<TestDisk>;

/// The smallest disk.
const SMALL_DISK: usize = 0x800000;

/// A block that was planned.
#[derive(Clone, Copy, Drop)]
struct Known {
    block: Block,
    seed: u8,
    sectors: u32,
}

/// How often workers passed it.
#[derive(Drop)]
struct Passed {
    times: AtomicU64,
}

impl Gate for Passed {
    fn pass(&self, _worker: usize, _item: usize) {
        let _ = self.times.fetch_add(1, Ordering::SeqCst);
    }
}

/// A store with the blocks that were planned, and another one.
#[derive(Drop)]
struct Blocks {
    store: Option<TestStore>,
    other: Option<TestStore>,
    known: Vec<Known>,
}

/// Disks of these sizes, the second with this fault.
fn disks(alloc: Global, sizes: &[usize], fault: Fault) -> Result<Vec<TestDisk>, Fail> {
    let mut disks = Vec::new(alloc);
    for (which, size) in sizes.iter().enumerate() {
        let fault = if which == 1 {
            fault
        } else {
            Fault::At(u64::MAX)
        };
        disks.push(FaultDisk::new(MemDisk::new(alloc, *size)?, fault))?;
    }
    Ok(disks)
}

type Made = (Option<TestStore>, String);

/// A store over the array of another one, with these disks out.
fn opened(alloc: Global, store: TestStore, geometry: Geometry, call: &Call) -> Result<Made, Fail> {
    let child_sectors = match sectors_for_blocks(SMALL_DISK as u64) {
        Some(sectors) => sectors,
        None => 0,
    };
    let shape = VdevShape {
        vdev: Vdev { geometry, first: 0 },
        child_sectors,
        metaslab_shift: 12,
        meta_slabs: 1,
    };
    let marks = [
        call.number(0) == 1,
        call.number(1) == 1,
        call.number(2) == 1,
    ];
    let out = marks.get(..call.numbers.len()).unwrap_or(&marks);
    match BlockStore::opened(alloc, store.into_array(), &[shape], out) {
        Ok(store) => Ok((Some(store), format!(in alloc; "new")?)),
        Err((refusal, disks)) => {
            Ok((
                None,
                format!(in alloc; "{refusal:?} {} disks", disks.len())?,
            ))
        }
    }
}

/// What comes of a new store over disks.
fn built(alloc: Global, disks: Vec<TestDisk>, vdevs: &[VdevConfig]) -> Result<Made, Fail> {
    let text = format!(in alloc; "new")?;
    match BlockStore::new(alloc, disks, vdevs) {
        Ok(store) => Ok((Some(store), text)),
        Err(refusal) => Ok((None, format!(in alloc; "{refusal:?}")?)),
    }
}

/// So many vdevs of two disks each, of these sizes.
fn pairs(alloc: Global, call: &Call) -> Result<Made, Fail> {
    let pair = VdevConfig {
        geometry: Geometry::new(2, 1, 9)?,
        metaslab_shift: call.number(1).min(64) as u32,
        meta_slabs: 1,
    };
    let vdevs = vec![in alloc; pair; call.number(0)]?;
    let sizes = call.numbers.get(2..).unwrap_or(&[]);
    let disks = disks(alloc, sizes, Fault::At(u64::MAX))?;
    built(alloc, disks, &vdevs)
}

/// A vdev of small disks, the second with a fault where the call names a write.
fn small(alloc: Global, call: &Call, vdev: VdevConfig) -> Result<Made, Fail> {
    let fault = match call.numbers.first() {
        Some(write) => Fault::Write(*write as u64),
        None => Fault::At(u64::MAX),
    };
    let small_disks = [SMALL_DISK; 4];
    let children = vdev.geometry.children as usize;
    let sizes = small_disks.get(..children).unwrap_or(&[]);
    let disks = disks(alloc, sizes, fault)?;
    built(alloc, disks, &[vdev])
}

/// The store that a call makes, by that which was there.
fn made(alloc: Global, call: &Call, before: Option<TestStore>) -> Result<Made, Fail> {
    let (children, parity) = match call.name {
        "vdevs" => return pairs(alloc, call),
        "double" => (4, 2),
        _ => (3, 1),
    };
    let vdev = VdevConfig {
        geometry: Geometry::new(children, parity, 9)?,
        metaslab_shift: 12,
        meta_slabs: 1,
    };
    match (call.name, before) {
        ("small" | "beside" | "double", _) => small(alloc, call, vdev),
        ("over", Some(store)) => built(alloc, store.into_disks(), &[vdev]),
        ("opened", Some(store)) => opened(alloc, store, vdev.geometry, call),
        ("disks", Some(store)) => {
            let count = store.into_disks().len();
            Ok((None, format!(in alloc; "{count} disks")?))
        }
        _ => Err(Fail::new("no store")),
    }
}

/// A block's pointer and what is asked of it, or one of them as it differs from what was written. In
/// place of all copies there is the first one then, elsewhere.
fn forged(known: Known, name: &str) -> Option<(Block, Asked)> {
    let mut block = known.block;
    let mut asked = Asked {
        property: block.property,
        birth: block.birth,
    };
    let (Copies::One(first) | Copies::Two(first, _) | Copies::Three(first, _, _)) = block.copies;
    let mut place = first;
    match name {
        "read" => {}
        "earlier" => asked.birth = block.birth.saturating_sub(1),
        "larger" => asked.property.sectors = known.sectors.saturating_add(1),
        "higher" => asked.property.level = 1,
        "digest" => block.checksum = [0; 32],
        "other_vdev" => place.vdev = 1,
        "behind_all" => place.offset = 5 * 4096,
        "across" => place.offset = 4096 - 1,
        "in_meta" => place.offset = 4 * 4096,
        "wide" => place.allocated = place.allocated.saturating_add(1),
        "take_far" => place.offset = 1 << 40,
        _ => return None,
    }
    if place != first {
        block.copies = Copies::One(place);
    }
    Some((block, asked))
}

/// What comes of a read.
fn read(
    store: &mut TestStore,
    known: &[Known],
    alloc: Global,
    call: &Call,
) -> Result<String, Fail> {
    let Some(known) = known.get(call.number(0)) else {
        return Err(Fail::new("no such block"));
    };
    let Some((block, asked)) = forged(*known, call.name) else {
        return Err(Fail::new(format_args!("no call {}", call.name)));
    };
    let missing = call.numbers.get(1..).unwrap_or(&[]);
    let (seed, len) = (known.seed, known.sectors.min(256) as usize * 512);
    let wanted = Pattern {
        seed,
        ..Pattern::BLOCK
    }
    .bytes(alloc, len)?;
    match store.read(alloc, &block, asked, missing) {
        Ok(bytes) if bytes == wanted => Ok(format!(in alloc; "right")?),
        Ok(_) => Ok(format!(in alloc; "wrong")?),
        Err(refusal) => Ok(format!(in alloc; "{refusal:?}")?),
    }
}

/// By how many bytes the maps grow with the plan and as these blocks are given back, and in how many
/// metaslabs that is refused.
fn maps(store: &TestStore, alloc: Global, gone: &[Block]) -> Result<(usize, usize), Refusal> {
    let mut out = Vec::new(alloc);
    let mut refused = 0usize;
    for metaslab in 0..1024usize {
        if store.has_metaslab(0, metaslab) {
            let before = store.unused_before(0, metaslab)?;
            match store.unused_after(0, metaslab, gone) {
                Ok(after) if before.sectors() == after.sectors() => {
                    append_update(&mut out, &before, &after)?;
                }
                Ok(_) | Err(Refusal::BadPointer) => refused = refused.saturating_add(1),
                Err(refusal) => return Err(refusal),
            }
        }
    }
    Ok((out.len(), refused))
}

/// Loads the maps of one store in another: in how many metaslabs they leave other sectors unused before,
/// and how many maps are refused.
fn load(store: &mut TestStore, from: &TestStore) -> Result<(usize, usize), Refusal> {
    let mut differ = 0usize;
    let mut refused = 0usize;
    for metaslab in 0..1024usize {
        if from.has_metaslab(0, metaslab) && store.has_metaslab(0, metaslab) {
            let set = from.unused_after(0, metaslab, &[])?;
            let before = store.unused_after(0, metaslab, &[])?;
            if set.runs() != before.runs() {
                differ = differ.saturating_add(1);
            }
            if !store.load_map(0, metaslab, set) {
                refused = refused.saturating_add(1);
            }
        }
    }
    Ok((differ, refused))
}

/// What a store says of itself and of the blocks that were planned.
fn said(store: &TestStore, known: &[Known], alloc: Global, call: &Call) -> Result<String, Fail> {
    let (first, second) = (call.number(0), call.number(1));
    let (one, other) = (known.get(first), known.get(second));
    let text = match call.name {
        "due" => format!(in alloc; "{} due", store.due_count()),
        "out" => format!(in alloc; "{}", store.is_out(first)),
        "since" => format!(in alloc; "{:?}", store.out_since(first)),
        "size" if first < store.disk_count() => {
            format!(in alloc; "{} bytes", store.disk_size(first))
        }
        "size" => format!(in alloc; "none"),
        "two_vdevs" => match one {
            Some(
                Known {
                    block: Block {
                        copies: Copies::Two(first, second),
                        ..
                    },
                    ..
                },
            ) => { format!(in alloc; "{}", first.vdev != second.vdev) }
            _ => format!(in alloc; "no two copies"),
        },
        "same_place" => match (one, other) {
            (Some(one), Some(other)) => {
                format!(in alloc; "{}", one.block.copies == other.block.copies)
            }
            _ => format!(in alloc; "no two blocks"),
        },
        "shape" if store.vdev_count() > 0 => {
            let shape = store.shape(0);
            let (vdevs, disks) = (store.vdev_count(), store.disk_count());
            let (sectors, metaslabs) = (shape.child_sectors, shape.metaslabs());
            format!(in alloc; "{vdevs} vdevs {disks} disks {sectors} sectors {metaslabs} metaslabs")
        }
        _ => return Err(Fail::new(format_args!("no call {}", call.name))),
    };
    Ok(text?)
}

/// The blocks that a call names, by pointers as they were written or far behind the disks' ends.
fn chosen(known: &[Known], alloc: Global, call: &Call) -> Result<Vec<Block>, Fail> {
    let name = if call.name == "take_far" {
        "take_far"
    } else {
        "read"
    };
    let mut blocks = Vec::new(alloc);
    for which in &call.numbers {
        if let Some(known) = known.get(*which)
            && let Some((block, _)) = forged(*known, name)
        {
            blocks.push(block)?;
        }
    }
    Ok(blocks)
}

/// What comes of a call that changes what is planned, where it names these blocks.
fn planned(
    store: &mut TestStore,
    known: &mut Vec<Known>,
    alloc: Global,
    call: &Call,
    blocks: &[Block],
) -> Result<(), Refusal> {
    let group = call.number(0) as u64;
    match call.name {
        "begin" => return Ok(store.begin_plan(group)?),
        "take" | "take_far" => return store.take_in(blocks),
        "release" => {
            return store.release(blocks.get(..1).unwrap_or(&[]), call.number(1) as u64);
        }
        "drop" => store.drop_plan(group),
        "finish" => store.finish_plan(),
        _ => {
            let seed = (call.number(0) % 256) as u8;
            let sectors = call.number(1).clamp(1, 256);
            let bytes = Pattern {
                seed,
                ..Pattern::BLOCK
            }
            .bytes(alloc, sectors * 512)?;
            let copies = match call.number(2) {
                1 => CopyCount::One,
                2 => CopyCount::Two,
                _ => CopyCount::Three,
            };
            let sectors = sectors as u32;
            let property = Property {
                level: 0,
                object_type: 19,
                sectors,
            };
            let birth = call.number(3).max(1) as u64;
            let new = NewBlock {
                property,
                birth,
                fill: 1,
            };
            let block = store.plan_write(alloc, bytes.as_slice(), new, copies)?;
            known.push(Known {
                block,
                seed,
                sectors,
            })?;
        }
    }
    Ok(())
}

/// What comes of a disk that leaves or comes back, and of the first bytes of one, out or not.
fn moved(store: &mut TestStore, alloc: Global, call: &Call) -> Result<String, Fail> {
    let disk = call.number(0);
    if disk >= store.disk_count() || store.disk_size(disk) < 4 {
        return Ok(format!(in alloc; "no disk")?);
    }
    match call.name {
        "leave" => store.put_out(disk),
        "back" => store.bring_back(disk, Some(span(call)))?,
        _ => {
            let mut bytes = [0; 4];
            return match store.read_aside(disk, 0, &mut bytes) {
                Ok(()) => Ok(hex::encode(alloc, &bytes)?),
                Err(_) => Ok(format!(in alloc; "failed")?),
            };
        }
    }
    Ok(format!(in alloc; "done")?)
}

/// What comes of a call on a store that is there.
fn called(
    store: &mut TestStore,
    known: &mut Vec<Known>,
    alloc: Global,
    call: &Call,
) -> Result<String, Fail> {
    let blocks = chosen(known, alloc, call)?;
    let disk = call.number(0);
    let refusal = match call.name {
        "plan" | "begin" | "drop" | "finish" | "take" | "take_far" | "release" => {
            match planned(store, known, alloc, call, &blocks) {
                Ok(()) => return Ok(format!(in alloc; "ok")?),
                Err(refusal) => refusal,
            }
        }
        "write" => {
            let mut failed = 0usize;
            for _ in 0..store.due_count() {
                if store.due_count() > 0 && store.write_next().is_err() {
                    failed = failed.saturating_add(1);
                }
            }
            return Ok(format!(in alloc; "{failed} failed")?);
        }
        "flush" if disk < store.disk_count() && store.flush(disk).is_ok() => {
            return Ok(format!(in alloc; "ok")?);
        }
        "maps" => match maps(store, alloc, &blocks) {
            Ok((bytes, refused)) => {
                return Ok(format!(in alloc; "{bytes} bytes {refused} refused")?);
            }
            Err(refusal) => refusal,
        },
        "due" | "out" | "since" | "size" | "two_vdevs" | "same_place" | "shape" => {
            return said(store, known, alloc, call);
        }
        _ => return read(store, known, alloc, call),
    };
    Ok(format!(in alloc; "{refusal:?}")?)
}

/// On how many disks two stores have other bytes.
fn differing(one: TestStore, other: TestStore) -> usize {
    let mut differ = 0usize;
    for (one, other) in one.into_disks().into_iter().zip(other.into_disks()) {
        if one.into_inner().bytes() != other.into_inner().bytes() {
            differ = differ.saturating_add(1);
        }
    }
    differ
}

/// What comes of a call that only a store which is there takes.
fn taken(blocks: &mut Blocks, alloc: Global, call: &Call) -> Result<String, Fail> {
    let Some(store) = &mut blocks.store else {
        return Err(Fail::new("no store"));
    };
    match (call.name, &blocks.other) {
        ("missed", _) => {
            store.mark_stale(missed(alloc, call)?);
            Ok(format!(in alloc; "marked")?)
        }
        ("enter", _) => {
            store.enter(call.number(0) as u64);
            Ok(format!(in alloc; "entered")?)
        }
        ("leave" | "back" | "look", _) => moved(store, alloc, call),
        ("load", Some(other)) => {
            let (differ, refused) = load(store, other)?;
            Ok(format!(in alloc; "{differ} differ {refused} refused")?)
        }
        _ => called(store, &mut blocks.known, alloc, call),
    }
}

impl Bench for Blocks {
    fn answer(&mut self, alloc: Global, call: &Call) -> Result<String, Fail> {
        if call.name == "alike"
            && let (Some(one), Some(other)) = (self.store.take(), self.other.take())
        {
            let differ = differing(one, other);
            return Ok(format!(in alloc; "{differ} differ")?);
        }
        if matches!(call.name, "small" | "vdevs" | "beside" | "double") {
            self.other = self.store.take();
            self.known.clear();
        }
        if matches!(
            call.name,
            "small" | "vdevs" | "beside" | "double" | "over" | "opened" | "disks"
        ) {
            let (store, text) = made(alloc, call, self.store.take())?;
            self.store = store;
            return Ok(text);
        }
        taken(self, alloc, call)
    }
}

fn no_blocks(alloc: Global) -> Blocks {
    Blocks {
        store: None,
        other: None,
        known: Vec::new(alloc),
    }
}

#[test]
fn extents_are_written_and_read(rt: HostRuntime) -> Result<(), Fail> {
    let wrong = wrong_lines(&rt, rt.alloc(), &mut Extents, EXTENTS)?;
    assert!(rt; wrong.is_empty(), "{wrong}");
    Ok(())
}

#[test]
fn blocks_are_stored_and_opened(rt: HostRuntime) -> Result<(), Fail> {
    let mut wrong = wrong_lines(&rt, rt.alloc(), &mut no_blocks(rt.alloc()), STORED)?;
    let others = wrong_lines(&rt, rt.alloc(), &mut no_blocks(rt.alloc()), OPENED)?;
    wrong.push_str(others.as_str())?;
    assert!(rt; wrong.is_empty(), "{wrong}");
    Ok(())
}

#[test]
fn blocks_are_given_back(rt: HostRuntime) -> Result<(), Fail> {
    let mut wrong = wrong_lines(&rt, rt.alloc(), &mut no_blocks(rt.alloc()), RELEASED)?;
    let others = wrong_lines(&rt, rt.alloc(), &mut no_blocks(rt.alloc()), MAPS)?;
    wrong.push_str(others.as_str())?;
    assert!(rt; wrong.is_empty(), "{wrong}");
    Ok(())
}

/// How often the gate is passed, as so many workers make the parity of what is due, or none but this thread.
fn times_passed<R: Threads + Sync>(
    rt: &R,
    alloc: Global,
    blocks: &mut Blocks,
    workers: usize,
) -> Result<u64, Fail> {
    let gate = Passed {
        times: AtomicU64::new(0),
    };
    if let Some(store) = &mut blocks.store {
        if workers > 0 {
            store.make_due(rt, alloc, &gate, workers)?;
        } else {
            store.make_due_here();
        }
        store.make_due(rt, alloc, &gate, 1)?;
    }
    Ok(gate.times.swap(0, Ordering::SeqCst))
}

/// A plan whose parity is made as it is written leaves the same disks as one whose parity is made before, and each extent is
/// passed once.
#[test]
fn parity_is_made_before(rt: HostRuntime) -> Result<(), Fail> {
    let mut wrong = String::new(rt.alloc());
    let mut blocks = no_blocks(rt.alloc());
    for (line, workers, extents, wanted) in MADE {
        let _ = play(rt.alloc(), &mut blocks, line)?;
        let passed = times_passed(&rt, rt.alloc(), &mut blocks, *workers)?;
        let came = play(rt.alloc(), &mut blocks, "write; alike")?;
        if passed != *extents || came.as_str() != *wanted {
            wrong.push_str(format!(in rt.alloc(); "{workers} {passed} {came}\n")?.as_str())?;
        }
    }
    assert!(rt; wrong.is_empty(), "{wrong}");
    Ok(())
}
