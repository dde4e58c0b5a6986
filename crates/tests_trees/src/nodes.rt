//! Dnodes by number.
ghost use Rattle.std.specs.Prelude.{◌≡◌, ◌<◌, IfOk};
ghost use Rattle.dnode.specs.Dnode.{FitsDnode};
ghost use Rattle.dnode.specs.ObjectSet.{FitsObjectSet};
ghost use Rattle.objset.specs.NodeWrites.{AreNodeWrites};

use crate::stores::{COPIES, Store, block_of, store_plan};
use block_pointer::BlockPtr;
use dnode::{Dnode, ObjectNode, ObjectSet, ObjectSetKind};
use objset::{NodeWrite, Refusal, SetRewrite, get_node, put_many};
use std::alloc::Global;
use std::test::Fail;

/// A set with no object.
pub(crate) const EMPTY: ObjectSet = ObjectSet {
    dnodes: ObjectNode {
        object_type: 10,
        data_sectors: 32,
        highest: 0,
        pointer: BlockPtr::Hole,
    },
    kind: ObjectSetKind::Volume,
    objects: 1,
};

/// One past the greatest number of a dnode.
pub(crate) const NUMBERS_END: u64 = 1 << 40;

/// An object of holes with data blocks of so many sectors, and a free dnode where they have none.
fn dnode_of(sectors: usize) -> Dnode
    ensures { FitsDnode result }
{
    if sectors == 0 {
        return Dnode::Free;
    }
    Dnode::Object(ObjectNode {
        object_type: 23,
        data_sectors: sectors.min(256) as u32,
        highest: 9,
        pointer: BlockPtr::Hole,
    })
}

/// Writes of dnodes by pairs of numbers: that of the dnode, and how many sectors its data blocks have.
pub(crate) fn node_writes(alloc: Global, numbers: &[usize]) -> Result<Vec<NodeWrite>, Fail>
    ensures { IfOk result (λ writes. AreNodeWrites writes.items) }
{
    let mut writes = Vec::new(alloc);
    let mut next = 1;
    for pair in numbers.chunks(2) {
        let [number, sectors] = pair else {
            return Err(Fail::new("a number has no sectors"));
        };
        let number = *number as u64;
        if number < next || number >= NUMBERS_END {
            return Err(Fail::new("no such dnode"));
        }
        let node = dnode_of(*sectors);
        writes.push(NodeWrite { number, node })?;
        next = number + 1;
    }
    Ok(writes)
}

/// The set with these dnodes, once they are stored.
pub(crate) fn put(
    set: &ObjectSet,
    store: &mut Store,
    alloc: Global,
    writes: &[NodeWrite],
    birth: u64,
) -> Result<SetRewrite, Refusal>
    requires set { FitsObjectSet set.now }
    requires writes { AreNodeWrites writes.now }
    requires born { 0 < birth }
    ensures { IfOk result (λ done. FitsObjectSet done.set) }
{
    store.drop_plan(birth);
    let done = put_many(set, store, alloc, writes, birth, COPIES, &[])?;
    store_plan(store);
    Ok(done)
}

/// An empty set that gets a dnode of another one, which was born in the group `birth`, in group 1.
pub(crate) fn carried(
    set: &ObjectSet,
    store: &mut Store,
    alloc: Global,
    number: u64,
    birth: u64,
) -> Result<SetRewrite, Fail>
    requires { FitsObjectSet set.now }
    ensures { IfOk result (λ done. FitsObjectSet done.set) }
{
    if number == 0 || number >= NUMBERS_END {
        return Err(Fail::new("no such dnode"));
    }
    let node = get_node(set, store, alloc, number, birth, &[])?.dnode;
    Ok(put(&EMPTY, store, alloc, &[NodeWrite { number, node }], 1)?)
}

/// A meta set of so many dnodes, whose first or second block of dnodes has ones alone, of group 1.
pub(crate) fn spoiled(
    store: &mut Store,
    alloc: Global,
    id: u64,
    objects: u64,
) -> Result<SetRewrite, Fail>
    ensures { IfOk result (λ done. FitsObjectSet done.set) }
{
    let writes = block_of(alloc, id.min(1), 1, 32)?;
    store.drop_plan(1);
    let done = dnode_tree::put_many(&EMPTY.dnodes, store, alloc, &writes, 1, COPIES, &[])?;
    store_plan(store);
    if objects == 0 || objects > 32 * (done.node.highest + 1) {
        return Err(Fail::new("no such set"));
    }
    Ok(SetRewrite {
        set: ObjectSet {
            dnodes: done.node,
            kind: ObjectSetKind::Meta,
            objects,
        },
        replaced: done.replaced,
    })
}

/// The sectors of the data blocks of objects, by their numbers.
pub(crate) fn dnodes_text(
    set: &ObjectSet,
    store: &mut Store,
    alloc: Global,
    numbers: &[usize],
    birth: u64,
    missing: &[usize],
) -> Result<String, Fail>
    requires { FitsObjectSet set.now }
{
    let mut text = String::new(alloc);
    for number in numbers {
        let found = get_node(set, store, alloc, *number as u64, birth, missing);
        let word = match found.map(|found| found.dnode) {
            Ok(Dnode::Free) => format!(in alloc; "free ")?,
            Ok(Dnode::Object(node))
                if node.object_type == 23 && node.highest == 9 && node.pointer == BlockPtr::Hole =>
                { format!(in alloc; "{} ", node.data_sectors)? }
            Ok(_) => format!(in alloc; "other ")?,
            Err(refusal) => format!(in alloc; "{refusal:?} ")?,
        };
        text.push_str(word.as_str())?;
    }
    Ok(text)
}
