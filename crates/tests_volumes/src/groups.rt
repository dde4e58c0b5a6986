//! What groups accept, and the roots that are planned after them.
ghost use Rattle.std.specs.Prelude.{◌<◌, ◌^◌, length, IfOk, IfSome};

use crate::lines::Call;
use crate::stores::{Store, store_plan};
use block_pointer::Block;
use dataset_snapshots::{
    FirstRoot, KeptDirectory, NextGroup, NextRoot, Refusal, after_group, first_group,
};
use meta_objset::{StaleSpan, StaleSpans};
use pool_model::{Action, Bytes, Change, Item, Name, Write};
use std::alloc::Global;
use std::test::Fail;
use txg_pipeline::Pipeline;
use vdev_label::Config;
use volume_rules::part;

/// What a call asks for, by the writer's next number. `write` has where its bytes begin, how many they are and what each is; `create` has
/// a size in bytes, and the volume has blocks of 512; `snapshot` has a volume and the part behind it, and `destroy` a name. `many` makes a
/// volume whose name is two letters, in the order of the numbers: it has a size behind how many there are.
fn item_of(alloc: Global, number: u64, call: &Call) -> Result<Item, Fail> {
    let (first, second) = call.names.split_once(" ").unwrap_or((call.names, ""));
    let (high, low) = ((number / 26 % 26) as u8, (number % 26) as u8);
    let letters = [b'a'.wrapping_add(high), b'a'.wrapping_add(low)];
    let bytes = match call.name {
        "many" => letters.as_slice(),
        _ => first.as_bytes(),
    };
    let name = Name::new(Vec::from_slice(alloc, bytes)?);
    let part = Name::new(Vec::from_slice(alloc, second.as_bytes())?);
    let change = match (call.name, call.numbers.as_slice()) {
        ("write", [offset, len, value]) => {
            let value = (*value % 256) as u8;
            return Ok(Item::Write(Write {
                writer: 1,
                number,
                volume: name,
                offset: *offset,
                bytes: Bytes::new(vec![in alloc; value; *len as usize]?),
            }));
        }
        ("create" | "many", [.., size]) => Change::Create {
            name,
            size: *size,
            block_size: 512,
        },
        ("snapshot", []) => Change::Snapshot { volume: name, part },
        ("destroy", []) => Change::Destroy { name },
        _ => return Err(Fail::new(format_args!("no call {}", call.name))),
    };
    Ok(Item::Action(Action {
        writer: 1,
        number,
        change,
    }))
}

/// Has the open group accept what a call asks for, `many` as often as it says.
pub(crate) fn accept(pipeline: &mut Pipeline, alloc: Global, call: &Call) -> Result<(), Fail> {
    if pipeline.hold_of(1).is_none() {
        pipeline.hold(1)?;
    }
    let count = match call.name {
        "many" => call.number(0),
        _ => 1,
    };
    for _ in 0..count {
        let number = pipeline.expected(1);
        let item = item_of(alloc, number, call)?;
        pipeline.accept(item)?;
    }
    Ok(())
}

/// The span of the disk that a call has, and its first and last group.
pub(crate) fn one_span(alloc: Global, disk: u64, from: u64, to: u64) -> Result<StaleSpans, Fail>
    ensures { IfOk result (λ spans. length spans < 2 ^ 40) }
{
    let mut spans = StaleSpans::new(alloc);
    if from <= to {
        spans.set(StaleSpan { disk, from, to })?;
    }
    if spans.rows().len() > 1 {
        return Ok(StaleSpans::new(alloc));
    }
    Ok(spans)
}

/// The first root of a pool, born in group 1, after what a group has accepted, once it is stored.
pub(crate) fn first_root(
    store: &mut Store,
    alloc: Global,
    group: &Pipeline,
) -> Result<NextRoot, Fail> {
    let config = Config {
        vdevs: Vec::new(alloc),
    };
    store.drop_plan(1);
    let items = group.open_items();
    let parted = part(alloc, items.actions())?;
    let next = NextGroup {
        number: 1,
        spans: None,
    };
    let first = first_group(store, alloc, &config, &next, &parted, items);
    store_plan(store);
    let FirstRoot { root, directory } = first?;
    let replaced = Vec::new(alloc);
    Ok(NextRoot {
        root,
        replaced,
        directory,
    })
}

/// The root after what a group has accepted, by a directory of the root before, and with these stale spans, if any, once it is stored.
pub(crate) fn planned(
    root: &Block,
    store: &mut Store,
    alloc: Global,
    group: &Pipeline,
    directory: &KeptDirectory,
    spans: Option<StaleSpans>,
) -> Result<NextRoot, Refusal>
    requires { IfSome spans (λ spans. length spans < 2 ^ 40) }
{
    let number = root.birth.saturating_add(1);
    let next = NextGroup { number, spans };
    store.drop_plan(number);
    let items = group.open_items();
    let parted = part(alloc, items.actions())?;
    let after = after_group(root, store, alloc, &next, directory, &parted, items);
    store_plan(store);
    after
}
