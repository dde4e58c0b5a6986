//! Disks that are all there, as members.
ghost use Rattle.std.specs.Prelude.{◌≡◌, Some, IfOk, IfErr, length, map};
ghost use Rattle.model_disk.specs.Member.{start_of, calls_of, disk_of};
ghost use Rattle.pool_members.specs.HandedIn.{own_places};

use crate::handed_in::{HandedIn, Place, Rooms, room_for};
use model_disk::{Disk, Member};
use std::alloc::Global;

/// Disks as members, in the order in which they were handed in.
#[derive(Drop)]
pub struct AllPresent<D: Disk + Drop> {
    pub disks: Vec<Member<D>>,
    pub handed: HandedIn<D>,
}

/// The disks as members, in this order. With no memory for them they come back.
pub fn all_present<D: Disk + Drop>(alloc: Global, disks: Vec<D>) -> Result<AllPresent<D>, Vec<D>>
    ensures disks { IfOk result (λ all. map disk_of all.disks.items ≡ map Some disks.items) }
    ensures starts { IfOk result (λ all. map (start_of D.Disk) all.disks.items
        ≡ map D.start disks.items) }
    ensures calls { IfOk result (λ all. map (calls_of D.Disk) all.disks.items
        ≡ map D.calls disks.items) }
    ensures handed { IfOk result (λ all. all.handed ≡ own_places (length disks.items)) }
    ensures back { IfErr result (λ back. back ≡ disks) }
{
    let Ok(rooms) = room_for(alloc, disks.len()) else {
        return Err(disks);
    };
    let Ok(mut members) = Vec::with_capacity(alloc, disks.len()) else {
        return Err(disks);
    };
    let Rooms {
        mut places,
        disks: room,
    } = rooms;
    for (place, disk) in disks.into_iter().enumerate() {
        members.push_reserved(Member::present(disk));
        places.push_reserved(Place::OfChild(place));
    }
    Ok(AllPresent {
        disks: members,
        handed: HandedIn::new(places, room),
    })
}
