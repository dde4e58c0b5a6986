//! Objects of a set.
ghost use Rattle.std.specs.Prelude.{◌*◌, ◌^◌, ◌<◌, All, AllPairs, IfOk};
ghost use Rattle.dnode.specs.ObjectSet.{FitsObjectSet};
ghost use Rattle.objset.specs.Changes.{IsGoodChange};

use crate::lines::Call;
use crate::nodes::NUMBERS_END;
use crate::stores::{Store, block_of, block_text, store_plan};
use dnode::ObjectSet;
use objset::{Change, ObjectChange, Refusal, SetRewrite, get, get_many};
use std::alloc::Global;
use std::test::Fail;

/// One past the greatest id of a block.
const IDS_END: u64 = 1 << 35;

/// A change of an object by a block: the object's number, the block's id, the byte that it has alone, and how many sectors.
pub(crate) fn change_of(alloc: Global, text: &str) -> Result<ObjectChange, Fail>
    ensures some { IfOk result (λ made. 0 < made.number) }
    ensures number { IfOk result (λ made. made.number < 32 * 128 ^ 5) }
    ensures good { IfOk result (λ made. IsGoodChange made.change) }
{
    let call = Call::parse(alloc, text)?;
    let (number, id) = (call.number(0), call.number(1));
    if number == 0 || number >= NUMBERS_END || id >= IDS_END {
        return Err(Fail::new("no such block"));
    }
    let data_sectors = call.number(3).clamp(1, 256) as u32;
    let writes = block_of(alloc, id, (call.number(2) % 256) as u8, data_sectors)?;
    let change = match call.name {
        "create" => Change::Create {
            object_type: 23,
            data_sectors,
            writes,
        },
        "put" => Change::Put { writes },
        "replace" => Change::Replace { writes },
        "free" => Change::Free,
        _ => return Err(Fail::new(format_args!("no change {}", call.name))),
    };
    Ok(ObjectChange { number, change })
}

/// The set with these changes, once they are stored. Its blocks were born in the group `before` or before it.
pub(crate) fn change(
    set: &ObjectSet,
    store: &mut Store,
    alloc: Global,
    changes: &[ObjectChange],
    before: u64,
    birth: u64,
) -> Result<SetRewrite, Refusal>
    requires set { FitsObjectSet set.now }
    requires numbers { All (λ change. (0 < change.number) × (change.number < 32 * 128 ^ 5))
        changes.now }
    requires order { AllPairs (λ change later. change.number < later.number) changes.now }
    requires good { All (λ change. IsGoodChange change.change) changes.now }
    requires born { 0 < birth }
    ensures { IfOk result (λ done. FitsObjectSet done.set) }
{
    store.drop_plan(birth);
    let done = objset::change(set, store, alloc, changes, before, birth, &[])?;
    store_plan(store);
    Ok(done)
}

/// What blocks of an object are, by the object's number and their ids, or four of them that are read at once.
pub(crate) fn blocks_of(
    set: &ObjectSet,
    store: &mut Store,
    alloc: Global,
    call: &Call,
    birth: u64,
    missing: &[usize],
) -> Result<String, Fail>
    requires { FitsObjectSet set.now }
{
    let number = call.number(1);
    let mut text = String::new(alloc);
    if call.name == "several" {
        let ids = [0, 2, 200, 201];
        for block in get_many(set, store, alloc, number, &ids, birth, missing)? {
            text.push_str(block_text(alloc, &Ok(block))?.as_str())?;
            text.push_str(" ")?;
        }
    } else {
        for id in call.numbers.get(2..).unwrap_or(&[]) {
            let block = get(set, store, alloc, number, *id as u64, birth, missing);
            text.push_str(block_text(alloc, &block)?.as_str())?;
            text.push_str(" ")?;
        }
    }
    Ok(text)
}
