//! From a label to the area of its list.
ghost use Rattle.std.specs.Prelude.{◌≡◌, ◌≤◌, ℕ, List, [], length, map, codes, IfOk, OnOk, string_bytes};
ghost use Rattle.nvlist.specs.Find.{with_pair};
ghost use Rattle.nvlist.specs.Grammar.{IsNameBehind};
ghost use Rattle.nvlist.specs.Plain.{PlainList, last_name, no_pairs};
ghost use Rattle.nvlist.specs.View.{list_view, lists_view, value_view, lists_of as plain_lists};
ghost use Rattle.vdev_label.specs.Area.{HasRoom, area_of};
ghost use Rattle.vdev_label.specs.Pairs.{numbered, child_pairs, vdev_pairs, tree_pairs, label_pairs, state_number};
ghost use Rattle.vdev_label.specs.Plain.{vdev_view, config_view, label_view};

use crate::label::{Config, Label, SECTOR_SHIFT, State, Vdev};
use crate::place::AREA_LEN;
use nvlist::{NvList, Value};
use std::alloc::{AllocError, Global};
use words::seal;

/// Adds a pair at the end.
fn add(pairs: &mut NvList, name: &str, value: Value) -> Result<(), AllocError>
    requires { IsNameBehind (last_name (list_view pairs.old)) name.now }
    ensures { OnOk result (list_view pairs.new
        ≡ with_pair (list_view pairs.old) name.now (value_view value)) }
{
    match pairs.push(name, value) {
        Ok(()) => Ok(()),
        Err(_) => Err(AllocError),
    }
}

#[tactic(auto, using(crate::proofs::Adding::adding))]
fn child_list(alloc: Global, id: u64, guid: u64) -> Result<NvList, AllocError>
    ensures { IfOk result (λ pairs. list_view pairs ≡ child_pairs id guid) }
{
    let mut pairs = NvList::new(alloc);
    add(&mut pairs, "guid", Value::Number(guid))?;
    add(&mut pairs, "id", Value::Number(id))?;
    Ok(pairs)
}

fn children_lists(alloc: Global, children: &[u64]) -> Result<Vec<NvList>, AllocError>
    ensures { IfOk result (λ found. lists_view found.items
        ≡ plain_lists (numbered child_pairs 0 children.now)) }
{
    let mut found = Vec::new(alloc);
    for id in 0..children.len() {
        found.push(child_list(alloc, id as u64, children[id])?)?;
    }
    Ok(found)
}

#[tactic(auto, using(crate::proofs::Adding::adding_vdev))]
fn vdev_list(alloc: Global, id: u64, vdev: &Vdev) -> Result<NvList, AllocError>
    ensures { IfOk result (λ pairs. list_view pairs ≡ vdev_pairs id (vdev_view vdev.now)) }
{
    let children = children_lists(alloc, &vdev.children)?;
    let kind = String::from_str(alloc, "raidz")?;
    let mut pairs = NvList::new(alloc);
    add(&mut pairs, "ashift", Value::Number(SECTOR_SHIFT))?;
    add(&mut pairs, "asize", Value::Number(vdev.child_sectors))?;
    add(&mut pairs, "children", Value::Lists(children))?;
    add(&mut pairs, "guid", Value::Number(vdev.guid))?;
    add(&mut pairs, "id", Value::Number(id))?;
    add(&mut pairs, "meta_slabs", Value::Number(vdev.meta_slabs))?;
    add(&mut pairs, "ms_shift", Value::Number(vdev.slab_shift))?;
    add(&mut pairs, "nparity", Value::Number(vdev.parity))?;
    add(&mut pairs, "type", Value::Text(kind))?;
    Ok(pairs)
}

fn vdevs_lists(alloc: Global, vdevs: &[Vdev]) -> Result<Vec<NvList>, AllocError>
    ensures { IfOk result (λ found. lists_view found.items
        ≡ plain_lists (numbered vdev_pairs 0 (map vdev_view vdevs.now))) }
{
    let mut found = Vec::new(alloc);
    for id in 0..vdevs.len() {
        found.push(vdev_list(alloc, id as u64, &vdevs[id])?)?;
    }
    Ok(found)
}

#[tactic(auto, using(crate::proofs::Adding::adding_tree))]
pub(crate) fn tree_list(alloc: Global, config: &Config) -> Result<NvList, AllocError>
    ensures { IfOk result (λ pairs. list_view pairs ≡ tree_pairs (config_view config.now)) }
{
    let vdevs = vdevs_lists(alloc, &config.vdevs)?;
    let mut pairs = NvList::new(alloc);
    add(&mut pairs, "children", Value::Lists(vdevs))?;
    Ok(pairs)
}

fn state_value(state: State) -> u64
    ensures { result ≡ state_number state }
{
    match state {
        State::Active => 0,
        State::Exported => 1,
    }
}

#[tactic(auto, using(crate::proofs::Adding::adding_label))]
fn label_list(alloc: Global, label: &Label) -> Result<NvList, AllocError>
    ensures { IfOk result (λ pairs. list_view pairs ≡ label_pairs (label_view label.now)) }
{
    let name = String::from_str(alloc, label.name.as_str())?;
    let tree = tree_list(alloc, &label.config)?;
    let mut pairs = NvList::new(alloc);
    add(&mut pairs, "claim", Value::Number(label.claim))?;
    add(&mut pairs, "guid", Value::Number(label.guid))?;
    add(&mut pairs, "name", Value::Text(name))?;
    add(&mut pairs, "pool_guid", Value::Number(label.pool_guid))?;
    add(&mut pairs, "state", Value::Number(state_value(label.state)))?;
    add(&mut pairs, "top_guid", Value::Number(label.top_guid))?;
    add(&mut pairs, "txg", Value::Number(label.group))?;
    add(&mut pairs, "vdev_tree", Value::List(tree))?;
    add(&mut pairs, "version", Value::Number(1))?;
    Ok(pairs)
}

/// The area of a label's list.
pub fn encode_area(alloc: Global, label: &Label) -> Result<Vec<u8>, AllocError>
    requires { HasRoom (label_pairs (label_view label.now)) }
    ensures { IfOk result (λ area. area.items ≡ area_of (label_view label.now)) }
{
    let list = label_list(alloc, label)?;
    let mut area = Vec::with_capacity(alloc, AREA_LEN)?;
    nvlist::encode(alloc, &list, &mut area)?;
    area.resize(AREA_LEN, 0)?;
    seal(&mut area);
    Ok(area)
}
