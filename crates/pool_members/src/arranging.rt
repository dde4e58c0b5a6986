//! The order of a pool's children.
ghost use Rattle.std.specs.Prelude.{◌≡◌, ◌≤◌, ◌<◌, ℕ, [], Err, None, Some, IfOk, IfErr, OnOk, length, map, replicate, is_none, slice_set, vec_capacity};
ghost use Rattle.model_disk.specs.Member.{start_of, calls_of, disk_of};
ghost use Rattle.model_disk.specs.declared.member.Member.{Member as MemberOf};
ghost use Rattle.pool_members.specs.Arranged.{AreArranged, AreEachOnce, disk_for};
ghost use Rattle.pool_members.specs.HandedIn.{AreHandedIn, place_of_disk};
ghost use Rattle.pool_members.specs.Namers.{AreNamers};
ghost use Rattle.pool_members.specs.declared.refusal.Refusal.TheVariants.{NotEachOnce};

use crate::handed_in::{HandedIn, Place, Rooms, room_for};
use crate::refusal::Refusal;
use model_disk::{Disk, Member};
use std::alloc::{AllocError, Global};

/// A child of a pool, as the disks are put in order.
#[derive(Clone, Copy, PartialEq, Eq)]
pub struct Child {
    /// The place at which its disk was handed in, if it was.
    pub disk: Option<usize>,
    /// How many bytes what stands for it has while it is absent.
    pub size: u64,
}

/// The disks of a pool's children, in order, and which of them are absent.
#[derive(Drop)]
pub struct Arranged<D: Disk + Drop> {
    pub disks: Vec<Member<D>>,
    pub out: Vec<bool>,
    /// Where each disk is that was handed in, so that all of them come back.
    pub handed: HandedIn<D>,
}

/// What stands for each child's disk while it is absent, for all children.
fn stand_ins<D: Disk + Drop>(
    alloc: Global,
    children: &[Child],
) -> Result<Vec<Member<D>>, AllocError>
    ensures disks { IfOk result (λ members. map disk_of members.items
        ≡ map (λ _. None) children.now) }
    ensures starts { IfOk result (λ members. map (start_of D.Disk) members.items
        ≡ map (λ child. replicate child.size 0) children.now) }
    ensures calls { IfOk result (λ members. map (calls_of D.Disk) members.items
        ≡ map (λ _. []) children.now) }
{
    let mut members = Vec::with_capacity(alloc, children.len())?;
    for child in children {
        members.push(Member::absent(child.size))?;
    }
    Ok(members)
}

/// Which children name no disk.
fn marks(alloc: Global, children: &[Child]) -> Result<Vec<bool>, AllocError>
    ensures { IfOk result (λ out. out.items
        ≡ map (λ child. is_none child.disk) children.now) }
{
    children
        .iter()
        .map(|child| child.disk.is_none())
        .collect(alloc)
}

/// Finds of each of so many places the child that names it.
fn find_namers(
    alloc: Global,
    count: usize,
    children: &[Child],
) -> Result<Vec<Option<usize>>, Refusal>
    ensures named { IfOk result (λ namers. AreNamers count children.now namers.items) }
    ensures once { OnOk result (AreEachOnce count children.now) }
    ensures refused { result ≡ Err NotEachOnce → ¬ AreEachOnce count children.now }
{
    let mut namers = vec![in alloc; None; count]?;
    for (index, child) in children.iter().enumerate() {
        if let Some(place) = child.disk {
            if place >= count || namers[place].is_some() {
                return Err(Refusal::NotEachOnce);
            }
            namers[place] = Some(index);
        }
    }
    Ok(namers)
}

/// All that needs memory, as it is made before a disk is moved.
#[derive(Drop)]
struct Plan<D: Disk + Drop> {
    /// What stands for each child's disk while it is absent, for all children.
    members: Vec<Member<D>>,
    /// Which children name no disk.
    out: Vec<bool>,
    /// Of each place, the child that names it.
    namers: Vec<Option<usize>>,
    rooms: Rooms<D>,
}

/// Makes the plan for so many disks.
fn prepare<D: Disk + Drop>(
    alloc: Global,
    count: usize,
    children: &[Child],
) -> Result<Plan<D>, Refusal>
    ensures disks { IfOk result (λ plan. map disk_of plan.members.items
        ≡ map (λ _. None) children.now) }
    ensures starts { IfOk result (λ plan. map (start_of D.Disk) plan.members.items
        ≡ map (λ child. replicate child.size 0) children.now) }
    ensures calls { IfOk result (λ plan. map (calls_of D.Disk) plan.members.items
        ≡ map (λ _. []) children.now) }
    ensures out { IfOk result (λ plan. plan.out.items
        ≡ map (λ child. is_none child.disk) children.now) }
    ensures named { IfOk result (λ plan. AreNamers count children.now plan.namers.items) }
    ensures no_places { IfOk result (λ plan. plan.rooms.places.items ≡ []) }
    ensures no_disks { IfOk result (λ plan. plan.rooms.disks.items ≡ []) }
    ensures enough_places { IfOk result (λ plan. count ≤ vec_capacity plan.rooms.places) }
    ensures enough_disks { IfOk result (λ plan. count ≤ vec_capacity plan.rooms.disks) }
    ensures once { OnOk result (AreEachOnce count children.now) }
    ensures refused { result ≡ Err NotEachOnce → ¬ AreEachOnce count children.now }
{
    Ok(Plan {
        members: stand_ins(alloc, children)?,
        out: marks(alloc, children)?,
        namers: find_namers(alloc, count, children)?,
        rooms: room_for(alloc, count)?,
    })
}

/// Where a disk is. Where a child names it, it takes its place among the children's.
fn put<D: Disk + Drop>(members: &mut Vec<Member<D>>, namer: Option<usize>, disk: D) -> Place<D>
    requires { (child : ℕ) → namer ≡ Some child → child < length members.old.items }
    ensures place { result ≡ place_of_disk namer disk }
    ensures unnamed { namer ≡ None → members.new.items ≡ members.old.items }
    ensures named { (child : ℕ) → namer ≡ Some child → (member : MemberOf D)
        × (members.new.items ≡ slice_set members.old.items child member)
        × (disk_of member ≡ Some disk)
        × (start_of D.Disk member ≡ D.start disk) × (calls_of D.Disk member ≡ D.calls disk) }
{
    match namer {
        Some(child) => {
            members[child] = Member::present(disk);
            Place::OfChild(child)
        }
        None => Place::Unnamed(disk),
    }
}

/// Puts disks in the order of a pool's children: the disk that the child names, by the place at which it was handed in,
/// and what stands for one that is absent. A disk that no child names is kept as it is. After an error the disks come back as they
/// were handed in, in that order.
pub fn arrange<D: Disk + Drop>(
    alloc: Global,
    disks: Vec<D>,
    children: &[Child],
) -> Result<Arranged<D>, (Refusal, Vec<D>)>
    ensures disks { IfOk result (λ arranged. map disk_of arranged.disks.items
        ≡ map (disk_for disks.items) children.now) }
    ensures arranged { IfOk result (λ arranged. AreArranged
        (map D.start disks.items) (map D.calls disks.items) children.now
        (map (start_of D.Disk) arranged.disks.items)
        (map (calls_of D.Disk) arranged.disks.items) arranged.out.items) }
    ensures handed { IfOk result (λ arranged.
        AreHandedIn disks.items children.now arranged.handed) }
    ensures once { OnOk result (AreEachOnce (length disks.items) children.now) }
    ensures refused { IfErr result (λ failed. failed.0 ≡ NotEachOnce
        → ¬ AreEachOnce (length disks.items) children.now) }
    ensures back { IfErr result (λ failed. failed.1 ≡ disks) }
{
    let Plan {
        mut members,
        out,
        namers,
        rooms,
    } = match prepare(alloc, disks.len(), children) {
        Ok(plan) => plan,
        Err(refusal) => return Err((refusal, disks)),
    };
    let Rooms {
        mut places,
        disks: room,
    } = rooms;
    for (place, disk) in disks.into_iter().enumerate() {
        let here = put(&mut members, namers[place], disk);
        places.push_reserved(here);
    }
    Ok(Arranged {
        disks: members,
        out,
        handed: HandedIn::new(places, room),
    })
}
