//! From pairs to a label.
ghost use Rattle.std.specs.Prelude.{◌≡◌, ◌≢◌, ℕ, List, [], map, codes, IfOk, IfErr, IsTrue, Some, string_bytes};
ghost use Rattle.std.specs.List.{list_all};
ghost use Rattle.nvlist.specs.Find.{find};
ghost use Rattle.nvlist.specs.Plain.{number, text, list, lists, pair_count};
ghost use Rattle.vdev_label.specs.declared.label.State.{State};
ghost use Rattle.nvlist.specs.Grammar.{FitsBehind, FitsLists};
ghost use Rattle.nvlist.specs.View.{list_view, lists_view, lists_of as plain_lists};
ghost use Rattle.vdev_label.specs.Pairs.{numbered, child_pairs, vdev_pairs, tree_pairs, label_pairs, is_letter, is_name_byte, is_name, state_number, InRange};
ghost use Rattle.vdev_label.specs.Plain.{PlainVdev, PlainLabel, vdev_view, config_view, label_view};
ghost use Rattle.vdev_label.specs.Refuses.{Refuses};

use crate::label::{Config, Label, SECTOR_SHIFT, State, Vdev};
use crate::pairs::{
    BAD_PAIRS, count_of, has_number, has_text, list_of, lists_of, number_of, text_of,
};
use crate::refusal::Refusal;
use nvlist::NvList;
use std::alloc::Global;

/// A disk of a vdev.
#[tactic(auto, using(crate::proofs::Children::no_child_guid, crate::proofs::Children::is_child))]
fn child_of(id: u64, pairs: &NvList) -> Result<u64, Refusal>
    requires { FitsBehind [] (list_view pairs.now) }
    ensures found { IfOk result (λ guid. list_view pairs.now ≡ child_pairs id guid) }
    ensures bad { IfErr result (λ refusal. Refuses refusal ((guid : ℕ)
        → list_view pairs.now ≢ child_pairs id guid)) }
{
    let guid = number_of(pairs, "guid")?;
    let own = number_of(pairs, "id")?;
    if own != id || pairs.len() != 2 {
        return Err(BAD_PAIRS);
    }
    Ok(guid)
}

fn children_of(alloc: Global, lists: &[NvList]) -> Result<Vec<u64>, Refusal>
    requires { FitsLists (lists_view lists.now) }
    ensures found { IfOk result (λ guids. lists_view lists.now
        ≡ plain_lists (numbered child_pairs 0 guids.items)) }
    ensures bad { IfErr result (λ refusal. Refuses refusal ((guids : List ℕ)
        → lists_view lists.now ≢ plain_lists (numbered child_pairs 0 guids))) }
{
    let mut guids = Vec::new(alloc);
    for id in 0..lists.len() {
        guids.push(child_of(id as u64, &lists[id])?)?;
    }
    Ok(guids)
}

/// Whether there are as many pairs as a vdev has, and those that each vdev of its number has. Its
/// sectors have 512 bytes, so its shift is 9.
fn is_raidz(id: u64, pairs: &NvList) -> bool
    ensures shift { IsTrue result → find (codes "ashift") (list_view pairs.now) ≡ Some (number 9) }
    ensures own { IsTrue result → find (codes "id") (list_view pairs.now) ≡ Some (number id) }
    ensures kind { IsTrue result
        → find (codes "type") (list_view pairs.now) ≡ Some (text (codes "raidz")) }
    ensures count { IsTrue result → pair_count (list_view pairs.now) ≡ 9 }
    ensures is { (v : PlainVdev) → list_view pairs.now ≡ vdev_pairs id v → IsTrue result }
{
    pairs.len() == 9
        && has_number(pairs, "ashift", SECTOR_SHIFT)
        && has_number(pairs, "id", id)
        && has_text(pairs, "type", "raidz")
}

/// The disks of a vdev.
#[tactic(auto, using(crate::proofs::Vdevs::disks_causes))]
fn disks_of(alloc: Global, pairs: &NvList) -> Result<Vec<u64>, Refusal>
    requires { FitsBehind [] (list_view pairs.now) }
    ensures found { IfOk result (λ guids. find (codes "children") (list_view pairs.now)
        ≡ Some (lists (plain_lists (numbered child_pairs 0 guids.items)))) }
    ensures bad { IfErr result (λ refusal. Refuses refusal ((guids : List ℕ)
        → find (codes "children") (list_view pairs.now)
        ≢ Some (lists (plain_lists (numbered child_pairs 0 guids))))) }
{
    children_of(alloc, lists_of(pairs, "children")?)
}

/// A vdev, by its number in the pool.
#[tactic(auto, using(crate::proofs::Vdevs::vdev_causes))]
fn vdev_of(alloc: Global, id: u64, pairs: &NvList) -> Result<Vdev, Refusal>
    requires { FitsBehind [] (list_view pairs.now) }
    ensures found { IfOk result (λ v. list_view pairs.now ≡ vdev_pairs id (vdev_view v)) }
    ensures bad { IfErr result (λ refusal. Refuses refusal ((v : PlainVdev)
        → list_view pairs.now ≢ vdev_pairs id v)) }
{
    if !is_raidz(id, pairs) {
        return Err(BAD_PAIRS);
    }
    Ok(Vdev {
        guid: number_of(pairs, "guid")?,
        parity: number_of(pairs, "nparity")?,
        child_sectors: number_of(pairs, "asize")?,
        slab_shift: number_of(pairs, "ms_shift")?,
        meta_slabs: number_of(pairs, "meta_slabs")?,
        children: disks_of(alloc, pairs)?,
    })
}

fn vdevs_of(alloc: Global, lists: &[NvList]) -> Result<Vec<Vdev>, Refusal>
    requires { FitsLists (lists_view lists.now) }
    ensures found { IfOk result (λ vdevs. lists_view lists.now
        ≡ plain_lists (numbered vdev_pairs 0 (map vdev_view vdevs.items))) }
    ensures bad { IfErr result (λ refusal. Refuses refusal ((vdevs : List PlainVdev)
        → lists_view lists.now ≢ plain_lists (numbered vdev_pairs 0 vdevs))) }
{
    let mut vdevs = Vec::new(alloc);
    for id in 0..lists.len() {
        vdevs.push(vdev_of(alloc, id as u64, &lists[id])?)?;
    }
    Ok(vdevs)
}

/// A configuration, by its vdevs.
#[tactic(auto, using(crate::proofs::Vdevs::tree_causes))]
pub(crate) fn config_of(alloc: Global, pairs: &NvList) -> Result<Config, Refusal>
    requires { FitsBehind [] (list_view pairs.now) }
    ensures found { IfOk result (λ config. list_view pairs.now ≡ tree_pairs (config_view config)) }
    ensures bad { IfErr result (λ refusal. Refuses refusal ((vdevs : List PlainVdev)
        → list_view pairs.now ≢ tree_pairs vdevs)) }
{
    if pairs.len() != 1 {
        return Err(BAD_PAIRS);
    }
    Ok(Config {
        vdevs: vdevs_of(alloc, lists_of(pairs, "children")?)?,
    })
}

/// Whether the bytes are a pool's name.
fn is_pool_name(bytes: &[u8]) -> bool
    ensures { result ≡ is_name bytes.now }
{
    match bytes.split_first() {
        Some((first, others)) => is_letter(*first) && are_name_bytes(others) && others.len() <= 26,
        None => false,
    }
}

fn are_name_bytes(bytes: &[u8]) -> bool
    ensures { result ≡ list_all is_name_byte bytes.now }
{
    bytes.iter().all(|b| is_name_byte(*b))
}

fn is_letter(b: u8) -> bool
    ensures { result ≡ is_letter b }
{
    b'a' <= b && b <= b'z'
}

fn is_name_byte(b: u8) -> bool
    ensures { result ≡ is_name_byte b }
{
    is_letter(b) || (b'0' <= b && b <= b'9') || b == b'.' || b == b'_' || b == b'-'
}

fn state_of(pairs: &NvList) -> Result<State, Refusal>
    ensures found { IfOk result (λ state. find (codes "state") (list_view pairs.now)
        ≡ Some (number (state_number state))) }
    ensures bad { IfErr result (λ refusal. Refuses refusal ((state : State)
        → find (codes "state") (list_view pairs.now) ≢ Some (number (state_number state)))) }
{
    match number_of(pairs, "state")? {
        0 => Ok(State::Active),
        1 => Ok(State::Exported),
        _ => Err(BAD_PAIRS),
    }
}

/// The name of the pool.
fn pool_name_of(alloc: Global, pairs: &NvList) -> Result<String, Refusal>
    ensures found { IfOk result (λ name. find (codes "name") (list_view pairs.now)
        ≡ Some (text (string_bytes name))) }
    ensures name { IfOk result (λ name. IsTrue (is_name (string_bytes name))) }
    ensures bad { IfErr result (λ refusal. Refuses refusal ((t : List ℕ) → IsTrue (is_name t)
        → find (codes "name") (list_view pairs.now) ≢ Some (text t))) }
{
    let name = text_of(pairs, "name")?;
    if !is_pool_name(name.as_bytes()) {
        return Err(BAD_PAIRS);
    }
    Ok(String::from_str(alloc, name)?)
}

/// The configuration of a label.
#[tactic(auto, using(crate::proofs::Labels::tree_causes))]
fn tree_of(alloc: Global, pairs: &NvList) -> Result<Config, Refusal>
    requires { FitsBehind [] (list_view pairs.now) }
    ensures found { IfOk result (λ config. find (codes "vdev_tree") (list_view pairs.now)
        ≡ Some (list (tree_pairs (config_view config)))) }
    ensures bad { IfErr result (λ refusal. Refuses refusal ((vdevs : List PlainVdev)
        → find (codes "vdev_tree") (list_view pairs.now) ≢ Some (list (tree_pairs vdevs)))) }
{
    config_of(alloc, list_of(pairs, "vdev_tree")?)
}

/// A label. Its version is 1.
#[tactic(auto, using(crate::proofs::Labels::label_causes))]
pub(crate) fn label_of(alloc: Global, pairs: &NvList) -> Result<Label, Refusal>
    requires { FitsBehind [] (list_view pairs.now) }
    ensures found { IfOk result (λ label. list_view pairs.now ≡ label_pairs (label_view label)) }
    ensures in_range { IfOk result (λ label. InRange (label_view label)) }
    ensures bad { IfErr result (λ refusal. Refuses refusal ((label : PlainLabel) → InRange label
        → list_view pairs.now ≢ label_pairs label)) }
{
    if pairs.len() != 9 || !has_number(pairs, "version", 1) {
        return Err(BAD_PAIRS);
    }
    Ok(Label {
        claim: count_of(pairs, "claim")?,
        guid: number_of(pairs, "guid")?,
        pool_guid: number_of(pairs, "pool_guid")?,
        state: state_of(pairs)?,
        top_guid: number_of(pairs, "top_guid")?,
        group: count_of(pairs, "txg")?,
        name: pool_name_of(alloc, pairs)?,
        config: tree_of(alloc, pairs)?,
    })
}
