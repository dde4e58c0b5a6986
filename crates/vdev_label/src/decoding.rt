//! From the area of a label's list to the label.
ghost use Rattle.std.specs.Prelude.{◌≡◌, ◌≢◌, ◌≤◌, ℕ, ◌-◌, ◌++◌, List, length, IfOk, IfErr};
ghost use Rattle.nvlist.specs.Plain.{PlainList};
ghost use Rattle.nvlist.specs.View.{list_view};
ghost use Rattle.words.specs.Seal.{sealed};
ghost use Rattle.vdev_label.specs.Area.{front_of, HasRoom, Spells, IsCause, Finds};
ghost use Rattle.vdev_label.specs.Plain.{PlainLabel, label_view};
ghost use Rattle.vdev_label.specs.Finds.{FindsList};
ghost use Rattle.vdev_label.specs.Refuses.{RefusesList};

use crate::label::Label;
use crate::place::AREA_LEN;
use crate::reading::label_of;
use crate::refusal::{Breach, Refusal};
use nvlist::NvList;
use std::alloc::Global;
use words::{SealFault, check_seal, is_zero};

/// The list in front of an area, with only zeros behind it.
fn front_list(alloc: Global, front: &[u8]) -> Result<NvList, Refusal>
    requires { length front.now ≡ 114_648 }
    ensures room { IfOk result (λ list. HasRoom (list_view list)) }
    ensures found { IfOk result (λ list. front.now ≡ front_of (list_view list)) }
    ensures only { (l : PlainList) → HasRoom l → front.now ≡ front_of l → FindsList result l }
    ensures bad { IfErr result (λ refusal. RefusesList refusal ((l : PlainList) → HasRoom l
        → front.now ≢ front_of l)) }
{
    let (list, len) = match nvlist::decode(alloc, front) {
        Ok(found) => found,
        Err(nvlist::Refusal::NoMemory) => return Err(Refusal::NoMemory),
        Err(nvlist::Refusal::BadLabel) => return Err(Refusal::BadLabel(Breach::List)),
    };
    if !is_zero(&front[len..]) {
        return Err(Refusal::BadLabel(Breach::List));
    }
    Ok(list)
}

/// The label of an area. Where several things are wrong with it, the breach is the first of the
/// seal's word, the digest, the list and the pairs.
pub fn decode_area(alloc: Global, area: &[u8]) -> Result<Label, Refusal>
    requires { length area.now ≡ AREA_LEN }
    ensures found { IfOk result (λ label. Spells area.now (label_view label)) }
    ensures only { (label : PlainLabel) → Spells area.now label → Finds result label }
    ensures cause { IfErr result (λ refusal. IsCause area.now refusal) }
{
    let front = match check_seal(area) {
        Ok(front) => front,
        Err(SealFault::Word) => return Err(Refusal::BadLabel(Breach::Tail)),
        Err(SealFault::Digest) => return Err(Refusal::BadLabel(Breach::Digest)),
    };
    let list = front_list(alloc, front)?;
    label_of(alloc, &list)
}
