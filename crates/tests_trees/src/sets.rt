//! Sets of objects.
ghost use Rattle.std.specs.Prelude.{◌<◌, IfOk};
ghost use Rattle.dnode.specs.ObjectSet.{FitsObjectSet};

use crate::lines::{Bench, Call, wrong_lines};
use crate::nodes::{EMPTY, carried, dnodes_text, node_writes, put, spoiled};
use crate::objects::{blocks_of, change, change_of};
use crate::set_cases::{DNODES, OBJECTS};
use crate::stores::{Store, blocks_text, new_store, store_plan};
use block_pointer::Block;
use dnode::{ObjectSet, ObjectSetKind};
use dnode_tree::free_blocks;
use objset::{Refusal, SetCopies, SetRewrite, plan_set, read_set, walk, walk_within, walk_younger};
use std::alloc::Global;
use std::test::Fail;

/// A set by the group that made it and the bytes of its block.
#[derive(Clone, Copy)]
struct KeptSet {
    group: u64,
    bytes: [u8; 1024],
}

#[derive(Drop)]
struct Sets {
    store: Store,
    kept: Vec<KeptSet>,
    found: Vec<Block>,
    missing: Vec<usize>,
}

/// A set and the group that made it.
fn set_at(kept: &[KeptSet], number: u64) -> Result<(ObjectSet, u64), Fail>
    ensures { IfOk result (λ found. FitsObjectSet found.0) }
{
    if let Some(it) = kept.get(number as usize)
        && let Ok(set) = ObjectSet::decode(&it.bytes)
    {
        return Ok((set, it.group));
    }
    Err(Fail::new("no such set"))
}

/// The type of a set's block that a group plans, and whether it is read as the set by parents of these groups.
fn block_read(
    set: &ObjectSet,
    store: &mut Store,
    alloc: Global,
    birth: u64,
    parents: &[usize],
) -> Result<String, Fail>
    requires set { FitsObjectSet set.now }
    requires born { 0 < birth }
{
    store.drop_plan(birth);
    let block = plan_set(set, store, alloc, birth)?;
    store_plan(store);
    let mut text = format!(in alloc; "type {}", block.property.object_type)?;
    for parent in parents {
        let word = match read_set(store, alloc, &block, *parent as u64, &[]) {
            Ok(found) if found == *set => format!(in alloc; ", the same")?,
            Ok(_) => format!(in alloc; ", other")?,
            Err(refusal) => format!(in alloc; ", {refusal:?}")?,
        };
        text.push_str(word.as_str())?;
    }
    Ok(text)
}

impl Sets {
    /// Keeps a set that a group made, and tells what it is.
    fn keep(
        &mut self,
        alloc: Global,
        group: u64,
        done: Result<SetRewrite, Refusal>,
    ) -> Result<String, Fail>
        requires { IfOk done (λ done. FitsObjectSet done.set) }
    {
        let SetRewrite { set, replaced } = match done {
            Ok(done) => done,
            Err(refusal) => return Ok(format!(in alloc; "{refusal:?}")?),
        };
        let bytes = set.encode();
        self.kept.push(KeptSet { group, bytes })?;
        self.found = replaced;
        let kind = match set.kind {
            ObjectSetKind::Meta => "meta",
            ObjectSetKind::Volume => "volume",
        };
        let (objects, highest, gone) = (set.objects, set.dnodes.highest, self.found.len());
        Ok(format!(in alloc; "{kind} of {objects} to {highest}, {gone} gave way")?)
    }

    /// The set without objects of a kind: how many copies its blocks have.
    fn begin(&mut self, alloc: Global, kind: ObjectSetKind) -> Result<String, Fail> {
        let bytes = ObjectSet { kind, ..EMPTY }.encode();
        self.kept.push(KeptSet { group: 0, bytes })?;
        let copies = SetCopies::of_kind(kind);
        let (data, other) = (copies.data.count(), copies.other.count());
        Ok(format!(in alloc; "{data} and {other} copies")?)
    }

    /// Makes one change or two of a set.
    fn change(&mut self, alloc: Global, call: &Call, set: &ObjectSet) -> Result<String, Fail>
        requires { FitsObjectSet set.now }
    {
        let group = call.number(1).max(1);
        let before = if call.numbers.len() > 2 {
            call.number(2)
        } else {
            group
        };
        let (first, second) = call.list.split_once(",").unwrap_or((call.list, ""));
        let first = change_of(alloc, first)?;
        let done = if second.is_empty() {
            change(set, &mut self.store, alloc, &[first], before, group)
        } else {
            let second = change_of(alloc, second)?;
            if first.number >= second.number {
                return Err(Fail::new("these changes are not in order"));
            }
            change(set, &mut self.store, alloc, &[first, second], before, group)
        };
        self.keep(alloc, group, done)
    }

    /// Makes a set by dnodes that are written, carried from another set or spoiled.
    fn put(
        &mut self,
        alloc: Global,
        call: &Call,
        set: &ObjectSet,
        birth: u64,
    ) -> Result<String, Fail>
        requires { FitsObjectSet set.now }
    {
        let store = &mut self.store;
        let (number, group) = (call.number(1), call.number(1).max(1));
        let (done, group) = match call.name {
            "carry" => (Ok(carried(set, store, alloc, number, birth)?), 1),
            "spoil" => (Ok(spoiled(store, alloc, number, call.number(2))?), 1),
            _ => {
                let writes = node_writes(alloc, call.numbers.get(2..).unwrap_or(&[]))?;
                (put(set, store, alloc, &writes, group), group)
            }
        };
        self.keep(alloc, group, done)
    }

    /// The blocks that are found of a set, which a group made.
    fn found(
        &mut self,
        alloc: Global,
        call: &Call,
        set: &ObjectSet,
        group: u64,
    ) -> Result<String, Fail>
        requires { FitsObjectSet set.now }
    {
        let mut left = call.number(1);
        let store = &mut self.store;
        let blocks = match call.name {
            "freed" => {
                let (other, later) = set_at(&self.kept, left)?;
                let birth = group.max(later);
                free_blocks(&set.dnodes, &other.dnodes, store, alloc, birth, &[])
            }
            "within" => walk_within(set, store, alloc, group, &mut left, &[]),
            "younger" => walk_younger(set, store, alloc, group, call.number(2), &mut left, &[]),
            _ => walk(set, store, alloc, left, group, &[]),
        };
        blocks_text(alloc, call, blocks, left, &mut self.found)
    }
}

impl Bench for Sets {
    fn new(alloc: Global) -> Result<Sets, Fail> {
        let (kept, found, missing) = (Vec::new(alloc), Vec::new(alloc), Vec::new(alloc));
        let store = new_store(alloc, 0x80_0000)?;
        Ok(Sets {
            store,
            kept,
            found,
            missing,
        })
    }

    fn answer(&mut self, alloc: Global, call: &Call) -> Result<String, Fail> {
        match call.name {
            "meta" => return self.begin(alloc, ObjectSetKind::Meta),
            "volume" => return self.begin(alloc, ObjectSetKind::Volume),
            "without" => {
                self.missing = call.numbers.clone()?;
                return Ok(format!(in alloc; "so")?);
            }
            _ => {}
        }
        let (set, group) = set_at(&self.kept, call.number(0))?;
        let numbers = call.numbers.get(1..).unwrap_or(&[]);
        match call.name {
            "dnodes" | "carry" | "spoil" => self.put(alloc, call, &set, group),
            "change" => self.change(alloc, call, &set),
            "read" => dnodes_text(&set, &mut self.store, alloc, numbers, group, &self.missing),
            "get" | "several" => {
                blocks_of(&set, &mut self.store, alloc, call, group, &self.missing)
            }
            "block" => {
                let parents = numbers.get(1..).unwrap_or(&[]);
                block_read(&set, &mut self.store, alloc, call.number(1).max(1), parents)
            }
            "freed" | "walk" | "within" | "younger" => self.found(alloc, call, &set, group),
            _ => Err(Fail::new(format_args!("no call {}", call.name))),
        }
    }
}

#[test]
fn dnodes_and_objects_are_as_they_were_written(rt: HostRuntime) -> Result<(), Fail> {
    let mut wrong = wrong_lines::<Sets, HostRuntime>(&rt, rt.alloc(), DNODES)?;
    wrong.push_str(wrong_lines::<Sets, HostRuntime>(&rt, rt.alloc(), OBJECTS)?.as_str())?;
    assert!(rt; wrong.is_empty(), "{wrong}");
    Ok(())
}
