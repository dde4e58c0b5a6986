//! Records and dead lists that groups change: one by one, in chains of a volume, its snapshots and a clone, as they are destroyed, and
//! by a group's actions and writes.
ghost use Rattle.std.specs.Prelude.{All, IfOk};
ghost use Rattle.dnode.specs.ObjectSet.{FitsObjectSet};
ghost use Rattle.dataset_groups.specs.Writing.{FitsHead};

use crate::cases::{DATASETS, NO_MORE, wrong_of};
use crate::forms::Forms;
use crate::lines::Call;
use crate::objects::{EMPTY, Objects, Store, new_store, store_plan};
use crate::samples::{born_in, record_of};
use crate::texts::{births, record_text};
use block_pointer::Block;
use block_store::Refusal;
use dataset_chains::{NewNumbers, RewrittenHead, clone, create, overwrite, snapshot};
use dataset_changes::DatasetChanges;
use dataset_destroys::{destroy, destroy_head};
use dataset_groups::{BlockWrite, GroupDatasets, WrittenHead};
use dnode::{ObjectSet, ObjectSetKind};
use meta_objset::{DatasetRecord, Directory};
use objset::plan_set;
use pool_model::{Action, Change, Name};
use std::alloc::{AllocError, Global};
use std::mem;
use std::test::Fail;
use volume::VolumeSet;

/// A meta object set with no object: its blocks lie in the meta region.
const META: ObjectSet = ObjectSet {
    kind: ObjectSetKind::Meta,
    ..EMPTY
};

/// The numbers of objects are below this one.
const NUMBERS_END: u64 = 1 << 40;

/// A set, and what a group makes of its datasets. `new` makes a new store, and `meta` one for a meta object set, with so many metaslabs of the meta region. `begin` has nothing be made yet, of a set whose blocks were born in this group or before, and `commit`
/// stores what was made. `put` makes a record whose object set is that of no object, and `alter` has the record of one object be that of another,
/// made in another group. `list`, `add`, `move` and `free` are of dead lists: `add` has the group that a block was born in.
/// `overwrite` has a head's number, the group of its object set, and those of two blocks that left it. What comes of a call are the blocks that it frees.
#[derive(Drop)]
pub(crate) struct Datasets {
    objects: Objects,
    datasets: GroupDatasets,
    freed: Vec<Block>,
}

/// A volume that has written blocks.
fn head_of(alloc: Global, call: &Call, object_set: Block) -> Result<Vec<WrittenHead>, AllocError>
    ensures { IfOk result (λ heads. All FitsHead heads.items) }
{
    let byte = call.bytes.first().copied().unwrap_or(0);
    let write = BlockWrite {
        id: call.number(2).min(1),
        bytes: vec![in alloc; byte; 512]?,
    };
    let head = WrittenHead {
        number: call.number(1),
        volume: VolumeSet::new(1024, 512, object_set),
        blocks: Vec::from_array(alloc, [write])?,
    };
    Ok(Vec::from_array(alloc, [head])?)
}

/// Changes a record or a dead list.
fn change(
    changes: &mut DatasetChanges,
    store: &mut Store,
    alloc: Global,
    call: &Call,
) -> Result<(), Refusal> {
    let (first, second) = (call.object(0), call.object(1));
    match (call.verb, call.kind) {
        ("put", _) => {
            store.drop_plan(1);
            let object_set = plan_set(&EMPTY, store, alloc, 1)?;
            changes.make_record(first, &record_of(call, object_set))?;
        }
        ("alter", _) => {
            let found = changes.record(store, alloc, first)?;
            let record = DatasetRecord {
                created: call.number(2),
                ..found
            };
            if first == second {
                changes.change_record(first, &record)?;
            } else {
                changes.make_record(second, &record)?;
            }
        }
        ("list", _) => changes.make_list(alloc, first)?,
        ("add", _) => {
            let block = born_in(call.number(1).max(1));
            return changes.add_to_list(store, alloc, first, &[block]);
        }
        ("move", _) => {
            let list = changes.take_list(store, alloc, first)?;
            changes.put_list(second, list)?;
        }
        ("free", "list") => return changes.free_list(first),
        _ => changes.free_record(first)?,
    }
    Ok(())
}

/// Makes a volume, a snapshot or a clone, overwrites a head, or destroys a dataset.
fn chain(
    changes: &mut DatasetChanges,
    store: &mut Store,
    alloc: Global,
    call: &Call,
    group: u64,
    freed: &mut Vec<Block>,
) -> Result<(), Refusal> {
    let (number, mut left) = (call.object(0), 0);
    let numbers = NewNumbers {
        dataset: call.object(1),
        dead_list: call.object(2),
    };
    match call.verb {
        "create" => Ok(create(changes, alloc, number, &record_of(call, born_in(1)))?),
        "snapshot" => snapshot(changes, store, alloc, number, numbers, group),
        "clone" => clone(changes, store, alloc, number, numbers, group),
        "overwrite" => {
            let (first, second) = (call.number(2).max(1), call.number(3).max(1));
            let head = RewrittenHead {
                number,
                object_set: born_in(call.number(1).max(1)),
                left: Vec::from_array(alloc, [born_in(first), born_in(second)])?,
            };
            overwrite(changes, store, alloc, &head, freed)
        }
        "destroy" => destroy(changes, store, alloc, number, group, &mut left, freed),
        _ => destroy_head(changes, store, alloc, number, group, &mut left, freed),
    }
}

/// Makes a volume `v`, or writes to one.
fn act(
    datasets: &mut GroupDatasets,
    store: &mut Store,
    alloc: Global,
    call: &Call,
    freed: &mut Vec<Block>,
) -> Result<(), Refusal> {
    let group = call.number(0).max(1);
    if call.verb == "write" {
        let found = datasets.changes.record(store, alloc, call.number(1))?;
        let heads = head_of(alloc, call, found.object_set)?;
        return datasets.write_all(store, alloc, group, heads, freed);
    }
    if datasets.next <= 4 || datasets.bounds.end > NUMBERS_END {
        return Err(Refusal::BadConfig);
    }
    let actions = [Action {
        writer: 1,
        number: 1,
        change: Change::Create {
            name: Name::new(vec![in alloc; b'v'; 1]?),
            size: call.number(1),
            block_size: call.number(2),
        },
    }];
    datasets.act_all(store, alloc, group, &actions)
}

/// What stands in a record as the group leaves it so far.
fn record_now(
    changes: &mut DatasetChanges,
    store: &mut Store,
    alloc: Global,
    number: u64,
) -> Result<String, Fail> {
    match changes.record(store, alloc, number) {
        Ok(record) => Ok(record_text(alloc, &record)?),
        Err(refusal) => Ok(format!(in alloc; "{refusal:?}")?),
    }
}

/// Which blocks were freed, or why nothing was done.
fn outcome(alloc: Global, done: Result<(), Refusal>, freed: &[Block]) -> Result<String, Fail> {
    match done {
        Ok(()) if freed.is_empty() => Ok(format!(in alloc; "ok")?),
        Ok(()) => Ok(births(alloc, freed)?),
        Err(refusal) => Ok(format!(in alloc; "{refusal:?}")?),
    }
}

impl Datasets {
    /// Over a new store with so many metaslabs of the meta region, and nothing in it.
    pub(crate) fn new(alloc: Global, meta_slabs: u64, set: ObjectSet) -> Result<Datasets, Refusal>
        requires { FitsObjectSet set }
    {
        let store = new_store(alloc, meta_slabs)?;
        Ok(Datasets {
            objects: Objects {
                forms: Forms::new(alloc),
                store,
                gone: Vec::new(alloc),
                set,
                group: 1,
            },
            datasets: GroupDatasets::new(alloc, set, 0, Directory::new(alloc)),
            freed: Vec::new(alloc),
        })
    }

    /// The same in place of what was there.
    fn renew(&mut self, alloc: Global, meta_slabs: u64, set: ObjectSet) -> Result<(), Refusal>
        requires { FitsObjectSet set }
    {
        *self = Datasets::new(alloc, meta_slabs, set)?;
        Ok(())
    }

    /// Stores what was made, as one group.
    fn commit(&mut self, alloc: Global) -> Result<(), Refusal> {
        let next = DatasetChanges::new(alloc, self.objects.set, self.objects.group);
        let made = mem::replace(&mut self.datasets.changes, next).into_changes(alloc)?;
        self.objects.store_changes(alloc, &made)
    }

    pub(crate) fn answer(&mut self, alloc: Global, call: &Call) -> Result<String, Fail> {
        let (number, group) = (call.number(0), self.objects.group);
        self.freed.clear();
        let done = match call.verb {
            "new" => self.renew(alloc, 1, EMPTY),
            "meta" => self.renew(alloc, number.clamp(1, 12), META),
            "begin" => {
                let names = Directory::new(alloc);
                self.datasets = GroupDatasets::new(alloc, self.objects.set, number, names);
                Ok(())
            }
            "commit" => self.commit(alloc),
            "store" => {
                store_plan(&mut self.objects.store);
                Ok(())
            }
            "put" | "alter" | "list" | "add" | "move" | "free" => {
                change(
                    &mut self.datasets.changes,
                    &mut self.objects.store,
                    alloc,
                    call,
                )
            }
            "create" | "snapshot" | "clone" | "overwrite" | "destroy" | "destroy_head" => {
                let (changes, store) = (&mut self.datasets.changes, &mut self.objects.store);
                chain(changes, store, alloc, call, group, &mut self.freed)
            }
            "act" | "write" => {
                let (datasets, store) = (&mut self.datasets, &mut self.objects.store);
                act(datasets, store, alloc, call, &mut self.freed)
            }
            "record" => {
                let (changes, store) = (&mut self.datasets.changes, &mut self.objects.store);
                return record_now(changes, store, alloc, number);
            }
            "names" => {
                let (names, next) = (self.datasets.directory.rows().len(), self.datasets.next);
                return Ok(format!(in alloc; "{names} names next {next}")?);
            }
            _ => return self.objects.map_answer(alloc, call),
        };
        outcome(alloc, done, &self.freed)
    }
}

#[test]
fn groups_leave_what_they_made(rt: HostRuntime) -> Result<(), Fail> {
    let wrong = wrong_of(&rt, rt.alloc(), [DATASETS, NO_MORE])?;
    assert!(rt; wrong.is_empty(), "{wrong}");
    Ok(())
}
