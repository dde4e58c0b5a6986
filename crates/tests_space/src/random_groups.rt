//! Groups that overwrite random blocks of volumes in a store that has room for little more, between snapshots, clones, destroys and opens.
use crate::lines::Call;
use crate::stores::{DISK_BYTES, Store, opened_again, store_over, store_plan};
use crate::walked::{places_of, sectors_if_right, sectors_of};
use block_pointer::Block;
use block_store::Refusal;
use dataset_snapshots::{FirstRoot, KeptDirectory, NextGroup, NextRoot, after_group, first_group};
use model_disk::MemDisk;
use pool_model::{Action, Bytes, Change, Item, Name, Write};
use std::alloc::{AllocError, Global};
use std::process::Abort;
use std::test::Fail;
use txg_pipeline::Pipeline;
use vdev_label::Config;
use volume_rules::part;

/// The volumes, the last of which is a clone: the name of each, and how many blocks it has.
///
/// Those of the first two take 48 sectors with parity, 2,592 in all, and what leads to the blocks of each volume takes 200: so 2,992 of the
/// 8,192 sectors before the meta region hold what a root leads to. A group writes to at most two volumes, and takes 592 at most.
/// As it is planned, what two groups before it gave back can't be used yet, and what it replaces itself is in use still: so there
/// are up to 4,768 in use then. Each of two snapshots of the smaller volume keeps up to 672 more, and 200 that lead to them, and so
/// does a clone of the first: so there are up to 7,384 in use while they are there, 90 of 100.
const VOLUMES: [(&str, u64); 3] = [("v", 14), ("w", 40), ("u", 14)];

/// The group that makes the two volumes, and the one that writes them whole.
const MADE: &str = "create 14: v; create 40: w";

const WRITTEN: &str = "write 0 14 0: v; write 0 40 0: w";

/// How many bytes a block of them has.
const BLOCK_BYTES: u64 = 16384;

/// So many blocks a write overwrites at most.
const MOST_BLOCKS: u64 = 2;

/// After so many groups names come and go as before.
const ROUND: u64 = 800;

/// What groups of a round make and destroy: snapshots of the smaller volume, a clone of the first of them, and the larger volume once
/// more. The first snapshot goes before the second now, and then behind it.
const CHANGES: &[(u64, &str)] = &[
    (50, "snapshot: v a"),
    (100, "snapshot: v b"),
    (CLONED, "clone: v@a u"),
    (CLONE_GONE, "destroy: u"),
    (300, "destroy: v@a"),
    (350, "destroy: v@b"),
    (380, "destroy: w; create 40: w"),
    (450, "snapshot: v a"),
    (500, "snapshot: v b"),
    (HALF_ROUND + CLONED, "clone: v@a u"),
    (HALF_ROUND + CLONE_GONE, "destroy: u"),
    (700, "destroy: v@b"),
    (750, "destroy: v@a"),
    (780, "destroy: w; create 40: w"),
];

/// The groups of each half of a round that make and destroy the clone.
const CLONED: u64 = 150;

const CLONE_GONE: u64 = 250;

const HALF_ROUND: u64 = 400;

/// What a call asks for. `write` has a first block, how many there are and what each byte of them is, and the name of a volume;
/// `create` has how many blocks a volume has, and its name; `snapshot` a volume's and the part behind it, `clone` a snapshot's and
/// the clone's, and `destroy` a name.
fn item_of(alloc: Global, number: u64, text: &str) -> Result<Item, Fail> {
    let call = Call::parse(alloc, text)?;
    let (first, second) = call.names.split_once(" ").unwrap_or((call.names, ""));
    let name = Name::new(Vec::from_slice(alloc, first.as_bytes())?);
    let second = Name::new(Vec::from_slice(alloc, second.as_bytes())?);
    let change = match (call.name, call.numbers.as_slice()) {
        ("write", [first, count, value]) => {
            let len = count.saturating_mul(BLOCK_BYTES) as usize;
            let value = (*value % 256) as u8;
            return Ok(Item::Write(Write {
                writer: 1,
                number,
                volume: name,
                offset: first.saturating_mul(BLOCK_BYTES),
                bytes: Bytes::new(vec![in alloc; value; len]?),
            }));
        }
        ("create", [blocks]) => Change::Create {
            name,
            size: blocks.saturating_mul(BLOCK_BYTES),
            block_size: BLOCK_BYTES,
        },
        ("snapshot", []) => Change::Snapshot {
            volume: name,
            part: second,
        },
        ("clone", []) => Change::Clone {
            snapshot: name,
            name: second,
        },
        ("destroy", []) => Change::Destroy { name },
        _ => return Err(Fail::new(format_args!("no call {}", call.name))),
    };
    Ok(Item::Action(Action {
        writer: 1,
        number,
        change,
    }))
}

/// The open group that has accepted what the calls of a line ask for.
fn group_of(alloc: Global, line: &str) -> Result<Pipeline, Fail> {
    let mut pipeline = Pipeline::new(alloc, 3);
    pipeline.hold(1)?;
    let mut number = 1u64;
    for text in line.split(';') {
        pipeline.accept(item_of(alloc, number, text)?)?;
        number = number.saturating_add(1);
    }
    Ok(pipeline)
}

/// Numbers that look random, and are the same each time.
#[derive(Drop)]
struct Numbers {
    state: u64,
}

impl Numbers {
    /// The next one below that count.
    fn below(&mut self, count: u64) -> u64 {
        let factor = 6364136223846793005u64;
        self.state = self
            .state
            .wrapping_mul(factor)
            .wrapping_add(1442695040888963407);
        (self.state >> 33) % count.max(1)
    }
}

/// Overwrites random blocks of a random volume, in a group.
fn random_write(alloc: Global, numbers: &mut Numbers, group: u64) -> Result<String, AllocError> {
    let at = group % HALF_ROUND;
    let volumes = if CLONED < at && at < CLONE_GONE { 3 } else { 2 };
    let (name, blocks) = match numbers.below(volumes) {
        0 => VOLUMES[0],
        1 => VOLUMES[1],
        _ => VOLUMES[2],
    };
    let first = numbers.below(blocks);
    let count = numbers.below(MOST_BLOCKS).saturating_add(1);
    let count = count.min(blocks.saturating_sub(first));
    format!(in alloc; "write {first} {count} {}: {name}", group % 256)
}

/// A group that makes two random writes, and what there is to be made in it.
fn random_group(alloc: Global, numbers: &mut Numbers, group: u64) -> Result<Pipeline, Fail> {
    let mut line = random_write(alloc, numbers, group)?;
    line.push_str("; ")?;
    line.push_str(random_write(alloc, numbers, group)?.as_str())?;
    for (at, changes) in CHANGES {
        if *at == group % ROUND {
            line.push_str("; ")?;
            line.push_str(changes)?;
        }
    }
    group_of(alloc, line.as_str())
}

/// The first root of a pool with the volumes.
fn made(store: &mut Store, alloc: Global) -> Result<FirstRoot, Fail> {
    let config = Config {
        vdevs: Vec::new(alloc),
    };
    let pipeline = group_of(alloc, MADE)?;
    store.drop_plan(1);
    let items = pipeline.open_items();
    let parted = part(alloc, items.actions())?;
    let next = NextGroup {
        number: 1,
        spans: None,
    };
    let first = first_group(store, alloc, &config, &next, &parted, items)?;
    store_plan(store);
    Ok(first)
}

/// The root behind another one, after what a group has accepted, once what it replaces is given back, and all is stored.
fn next(
    root: &Block,
    store: &mut Store,
    alloc: Global,
    directory: &KeptDirectory,
    pipeline: &Pipeline,
) -> Result<NextRoot, Refusal> {
    let group = root.birth.saturating_add(1);
    let items = pipeline.open_items();
    let parted = part(alloc, items.actions())?;
    store.begin_plan(group)?;
    let next = NextGroup {
        number: group,
        spans: None,
    };
    let after = after_group(root, store, alloc, &next, directory, &parted, items)?;
    store.release(&after.replaced, group)?;
    store_plan(store);
    Ok(after)
}

/// The root behind the first one, with all blocks of the volumes.
fn written(store: &mut Store, alloc: Global) -> Result<NextRoot, Fail> {
    let pipeline = group_of(alloc, WRITTEN)?;
    let first = made(store, alloc)?;
    Ok(next(&first.root, store, alloc, &first.directory, &pipeline)?)
}

/// What is in use before the meta region as groups are planned: how many sectors each of the last three groups gave back, since the store
/// was opened, and how many were in use at most.
#[derive(Clone, Copy)]
struct InUse {
    given_back: [u64; 3],
    most: u64,
}

impl InUse {
    /// The next group gives so many back, and its root leads to blocks of so many.
    fn note(&mut self, given_back: u64, reached: u64) {
        let [_, first, second] = self.given_back;
        self.given_back = [first, second, given_back];
        let given_back = first.saturating_add(second).saturating_add(given_back);
        self.most = self.most.max(reached.saturating_add(given_back));
    }
}

/// After how many of so many random groups the space maps are right; the last root is that of the last group then.
fn count_right(
    last: &mut NextRoot,
    store: &mut Store,
    alloc: Global,
    numbers: &mut Numbers,
    in_use: &mut InUse,
) -> Result<u64, Fail> {
    let mut count = 0u64;
    for _ in 0..BETWEEN_OPENS {
        let group = last.root.birth.saturating_add(1);
        *last = next(
            &last.root,
            store,
            alloc,
            &last.directory,
            &random_group(alloc, numbers, group)?,
        )?;
        let given_back = sectors_of(&places_of(&last.replaced, alloc)?);
        if let Some(reached) = sectors_if_right(&last.root, store, alloc)? {
            in_use.note(given_back, reached);
            count = count.saturating_add(1);
        }
    }
    Ok(count)
}

/// The same of all groups in a new store, and how many sectors were in use at most. The store is opened again now and then, from its disks
/// and the last root alone.
fn counted(alloc: Global, seed: u64) -> Result<(u64, u64), Fail> {
    let mut numbers = Numbers { state: seed };
    let mut in_use = InUse {
        given_back: [0; 3],
        most: 0,
    };
    let mut store = store_over(alloc, MemDisk::several(alloc, 3, DISK_BYTES)?)?;
    let mut last = written(&mut store, alloc)?;
    let mut count = 0u64;
    for _ in 0..OPENS {
        let right = count_right(&mut last, &mut store, alloc, &mut numbers, &mut in_use)?;
        count = count.saturating_add(right);
        let opened = opened_again(store, alloc, &last.root)?;
        store = opened.store;
        last.directory = opened.directory;
        in_use.given_back = [0; 3];
    }
    Ok((count, in_use.most))
}

/// How many groups there are in a row: five rows have 10,000.
const GROUPS: u64 = BETWEEN_OPENS * OPENS;

/// After so many groups the store is opened again.
const BETWEEN_OPENS: u64 = 125;

const OPENS: u64 = 16;

/// In each row so many sectors are in use at least once: 85 of 100.
const NEARLY_ALL: u64 = 7000;

fn follow<R: Abort>(rt: &R, alloc: Global, seed: u64) -> Result<(), Fail> {
    let (count, most) = counted(alloc, seed)?;
    assert!(rt; count == GROUPS && NEARLY_ALL <= most, "{count}, {most}");
    Ok(())
}

#[test]
fn a_row_of_groups_has_the_space_maps_of_the_walk(rt: HostRuntime) -> Result<(), Fail> {
    follow(&rt, rt.alloc(), 1)
}

#[test]
fn a_second_row_of_groups_has_them(rt: HostRuntime) -> Result<(), Fail> {
    follow(&rt, rt.alloc(), 2)
}

#[test]
fn a_third_row_of_groups_has_them(rt: HostRuntime) -> Result<(), Fail> {
    follow(&rt, rt.alloc(), 3)
}

#[test]
fn a_fourth_row_of_groups_has_them(rt: HostRuntime) -> Result<(), Fail> {
    follow(&rt, rt.alloc(), 4)
}

#[test]
fn a_fifth_row_of_groups_has_them(rt: HostRuntime) -> Result<(), Fail> {
    follow(&rt, rt.alloc(), 5)
}
