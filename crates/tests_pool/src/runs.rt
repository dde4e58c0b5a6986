//! Whole runs of a core, and the uberblock slots that its disks have behind them.
use crate::making::disks;
use crate::playing::step_in;
use crate::test_disk::TestDisk;
use block_store::VdevConfig;
use model_disk::DiskArray;
use pool_core::Core;
use pool_model::Refusal;
use raidz_map::Geometry;
use std::alloc::Global;
use std::cell::Cell;
use std::rc::Rc;
use std::test::Fail;
use uberblock_ring::read_slots;

/// The bytes of a disk's four labels.
const LABELS_LEN: u64 = 1_048_576;

/// Writer 1 makes the volume v, and its group is closed, quiesced and planned.
const STEPS: [&str; 6] = [
    "hold 1",
    "create 1 1 v 1024 512",
    "release 1",
    "close",
    "quiesced",
    "plan",
];

/// The steps of a device that write the first root and an empty volume over three disks with one parity, those of the flush and
/// the slots, one that ends the commit, and one more. Of the volume the dnodes and the set have two copies of three columns: 12
/// columns. Of the meta object set all has three copies: the directory, the configuration, stale spans, the table of space maps, two
/// space maps, since the volume's copies lie in two metaslabs, a dead list, the dnodes and the set of three columns, and a record,
/// which is one sector, of two: 87. A step writes four.
const DEVICES: usize = 25 + 4 + 2;

const REPLIES: &str =
    "[Held(4), Receipt(4), Released, Closed(4), Quiesced(4), Planned(4), Moved(Blocks), Moved(Blocks), \
    Moved(Blocks), Moved(Blocks), Moved(Blocks), Moved(Blocks), Moved(Blocks), Moved(Blocks), \
    Moved(Blocks), Moved(Blocks), Moved(Blocks), Moved(Blocks), Moved(Blocks), Moved(Blocks), \
    Moved(Blocks), Moved(Blocks), Moved(Blocks), Moved(Blocks), Moved(Blocks), Moved(Blocks), \
    Moved(Blocks), Moved(Blocks), Moved(Blocks), Moved(Blocks), Moved(Blocks), Moved(BlocksFlush), \
    Moved(Slots), Moved(Slots), Moved(Slots), Committed(4), Refused(NotNow)]";

/// How many disks there are for a vdev of three, and of which size, where no pool is made of them.
const OTHER_DISKS: [(u32, u64); 3] = [(2, 0x800000), (4, 0x800000), (3, 0x7fffff)];

/// A pool of one vdev of three disks with one parity, over so many disks of a size.
fn made(alloc: Global, count: u32, bytes: u64) -> Result<Result<Core<TestDisk>, Refusal>, Fail> {
    let vdev = VdevConfig {
        geometry: Geometry::new(3, 1, 9)?,
        metaslab_shift: 12,
        meta_slabs: 1,
    };
    let reads = Rc::new(alloc, Cell::new(0u64))?;
    let disks = disks(alloc, "", count, bytes, &reads)?;
    Ok(Core::create(alloc, disks, &[vdev]))
}

/// The replies of a pool to a run of all steps, and its disks then.
fn run(alloc: Global) -> Result<(String, DiskArray<TestDisk>), Fail> {
    let mut steps = Vec::new(alloc);
    for number in 0..STEPS.len() + DEVICES {
        let line = STEPS.get(number).copied().unwrap_or("device");
        let (step, _) = step_in(alloc, line)?;
        steps.push(step)?;
    }
    let mut core = made(alloc, 3, 0x800000)??;
    let mut replies = Vec::new(alloc);
    pool_core::run(&mut core, steps, &mut replies)?;
    let text = format!(in alloc; "{replies:?}")?;
    Ok((text, DiskArray::new(core.into_disks())))
}

/// How many slots of a disk show group 4 in its place, and how many show anything. An uberblock is known by its group, its claim,
/// the sum of guids, and its root's birth; the guids of a vdev with three disks are 100 to 103.
fn counts(
    alloc: Global,
    disks: &mut DiskArray<TestDisk>,
    which: usize,
) -> Result<(u32, u32), Fail> {
    let mut counts: (u32, u32) = (0, 0);
    if which >= disks.len() || disks.size(which) < LABELS_LEN {
        return Ok(counts);
    }
    for (number, slot) in read_slots(alloc, disks, which)?.iter().enumerate() {
        if let Some(it) = slot {
            counts.1 = counts.1.saturating_add(1);
            let told = (it.group, it.claim, it.guid_sum, it.root.birth);
            if number % 128 == 4 && told == (4, 1, 406, 4) {
                counts.0 = counts.0.saturating_add(1);
            }
        }
    }
    Ok(counts)
}

#[test]
fn a_run_shows_its_uberblock_in_each_label(rt: HostRuntime) -> Result<(), Fail> {
    for &(count, bytes) in &OTHER_DISKS {
        let refusal = made(rt.alloc(), count, bytes)?.err();
        assert!(rt; refusal == Some(Refusal::BadConfig), "{count} of {bytes}");
    }
    let (replies, mut disks) = run(rt.alloc())?;
    assert!(rt; replies.as_str() == REPLIES, "{replies}");
    for which in 0..3 {
        assert!(rt; counts(rt.alloc(), &mut disks, which)? == (4, 4));
    }
    Ok(())
}
