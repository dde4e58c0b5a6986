//! A configuration by itself: its bytes, their digest, and the sum of its guids.
ghost use Rattle.std.specs.Prelude.{◌≡◌, ◌+◌, ◌%◌, ◌^◌, ℕ, List, ◌∷◌, IfOk, IfErr};
ghost use Rattle.std.specs.List.{sum};
ghost use Rattle.sha2.specs.Sha256.{sha256};
ghost use Rattle.nvlist.specs.Grammar.{Fits, Spells};
ghost use Rattle.nvlist.specs.Plain.{PlainList};
ghost use Rattle.nvlist.specs.View.{list_view};
ghost use Rattle.vdev_label.specs.Config.{config_bytes, FitsConfig, SpellsConfig, FindsConfig, IsConfigCause, guid_sum};
ghost use Rattle.vdev_label.specs.Finds.{FindsList};
ghost use Rattle.vdev_label.specs.Plain.{PlainVdev, config_view};
ghost use Rattle.vdev_label.specs.Refuses.{RefusesList};

use crate::encoding::tree_list;
use crate::label::{Config, Vdev};
use crate::reading::config_of;
use crate::refusal::{Breach, Refusal};
use nvlist::NvList;
use sha2::{Digest, Sha256};
use std::alloc::{AllocError, Global};

/// The list that the bytes spell, all of them.
fn whole_list(alloc: Global, bytes: &[u8]) -> Result<NvList, Refusal>
    ensures found { IfOk result (λ list. Spells bytes.now (list_view list)) }
    ensures only { (l : PlainList) → Spells bytes.now l → FindsList result l }
    ensures bad { IfErr result (λ refusal. RefusesList refusal ((l : PlainList)
        → ¬ Spells bytes.now l)) }
{
    let (list, len) = match nvlist::decode(alloc, bytes) {
        Ok(found) => found,
        Err(nvlist::Refusal::NoMemory) => return Err(Refusal::NoMemory),
        Err(nvlist::Refusal::BadLabel) => return Err(Refusal::BadLabel(Breach::List)),
    };
    if len != bytes.len() {
        return Err(Refusal::BadLabel(Breach::List));
    }
    Ok(list)
}

impl Config {
    /// The one encoding of a configuration, as the list of a label's `vdev_tree` has it.
    pub fn encode(&self, alloc: Global) -> Result<Vec<u8>, AllocError>
        requires { FitsConfig (config_view self.now) }
        ensures { IfOk result (λ bytes. bytes.items ≡ config_bytes (config_view self.now)) }
    {
        let list = tree_list(alloc, self)?;
        let mut bytes = Vec::new(alloc);
        nvlist::encode(alloc, &list, &mut bytes)?;
        Ok(bytes)
    }

    /// The configuration that the bytes encode. What its values are is not judged here.
    pub fn decode(alloc: Global, bytes: &[u8]) -> Result<Config, Refusal>
        ensures found { IfOk result (λ config. SpellsConfig bytes.now (config_view config)) }
        ensures only { (vdevs : List PlainVdev) → SpellsConfig bytes.now vdevs
            → FindsConfig result vdevs }
        ensures cause { IfErr result (IsConfigCause bytes.now) }
    {
        let list = whole_list(alloc, bytes)?;
        config_of(alloc, &list)
    }

    /// The configuration digest: the SHA-256 (FIPS 180-4) of its encoding.
    pub fn digest(&self, alloc: Global) -> Result<[u8; 32], AllocError>
        requires { FitsConfig (config_view self.now) }
        ensures { IfOk result (λ digest. digest ≡ sha256 (config_bytes (config_view self.now))) }
    {
        let bytes = self.encode(alloc)?;
        let mut hasher = Sha256::new();
        hasher.update(&bytes);
        Ok(hasher.finalize())
    }
}

/// The sum of a vdev's guid and those of its disks, in 64 bits.
fn vdev_sum(vdev: &Vdev) -> u64
    ensures { result ≡ sum (vdev.now.guid ∷ vdev.now.children.items) % 2 ^ 64 }
{
    let mut sum = vdev.guid;
    for i in 0..vdev.children.len() {
        sum = sum.wrapping_add(vdev.children[i]);
    }
    sum
}

impl Config {
    /// The guid sum that an uberblock has: that of the guids of all vdevs and disks, in 64 bits.
    pub fn guid_sum(&self) -> u64
        ensures { result ≡ guid_sum (config_view self.now) }
    {
        let mut sum: u64 = 0;
        for i in 0..self.vdevs.len() {
            sum = sum.wrapping_add(vdev_sum(&self.vdevs[i]));
        }
        sum
    }
}
