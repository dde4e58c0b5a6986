//! Where the disks are that were handed in, so that they come back in that order.
ghost use Rattle.std.specs.Prelude.{◌≡◌, ◌≢◌, ◌≤◌, ℕ, [], length, slice_get, vec_capacity, Some, IfOk};
ghost use Rattle.pool_members.specs.HandedIn.{AreEachOfOne, child_in, disk_back, disks_back};

use model_disk::{Disk, Member};
use std::alloc::{AllocError, Global};
use std::collections::VecDeque;
use std::marker::Model;
use std::mem;

/// Where a disk is that was handed in.
#[derive(Drop)]
pub enum Place<D: Disk + Drop> {
    /// It is that of the child of this number.
    OfChild(usize),
    /// No child names it: it is here, as it was handed in.
    Unnamed(D),
}

/// Where the disks are that were handed in, in that order, with room for all of them.
#[derive(Drop)]
pub struct HandedIn<D: Disk + Drop> {
    places: Vec<Place<D>>,
    room: Vec<D>,
}

impl<D: Disk + Drop> Model for HandedIn<D> {
    ghost use Rattle.std.specs.Prelude.{◌≡◌, ◌≤◌, List, [], length, vec_capacity};
    ghost use Rattle.pool_members.specs.HandedIn.{AreEachOfOne};
    ghost use Rattle.pool_members.specs.declared.handed_in.Place.{Place};

    ghost Value = { List (Place D) };

    ghost view = { λ h. h.places.items };

    ghost invariant = { λ h. (h.room.items ≡ [])
        × (length h.places.items ≤ vec_capacity h.room) × AreEachOfOne h.places.items };
}

/// Room for as many places and disks.
#[derive(Drop)]
pub(crate) struct Rooms<D: Disk + Drop> {
    pub(crate) places: Vec<Place<D>>,
    pub(crate) disks: Vec<D>,
}

pub(crate) fn room_for<D: Disk + Drop>(alloc: Global, count: usize) -> Result<Rooms<D>, AllocError>
    ensures places { IfOk result (λ rooms. rooms.places.items ≡ []) }
    ensures disks { IfOk result (λ rooms. rooms.disks.items ≡ []) }
    ensures enough_places { IfOk result (λ rooms. count ≤ vec_capacity rooms.places) }
    ensures enough_disks { IfOk result (λ rooms. count ≤ vec_capacity rooms.disks) }
{
    Ok(Rooms {
        places: Vec::with_capacity(alloc, count)?,
        disks: Vec::with_capacity(alloc, count)?,
    })
}

/// Takes the disk of that place: a child's from among the children's.
fn take_disk<D: Disk + Drop>(members: &mut Vec<Member<D>>, place: Place<D>) -> Option<D>
    ensures disk { result ≡ disk_back members.old.items place }
    ensures others { (child : ℕ) → child_in place ≢ Some child
        → slice_get members.new.items child ≡ slice_get members.old.items child }
{
    match place {
        Place::OfChild(child) => {
            if child >= members.len() {
                return None;
            }
            let member = mem::replace(&mut members[child], Member::absent(0));
            member.into_disk()
        }
        Place::Unnamed(disk) => Some(disk),
    }
}

impl<D: Disk + Drop> HandedIn<D> {
    /// Of places and room for as many disks.
    pub(crate) fn new(places: Vec<Place<D>>, room: Vec<D>) -> HandedIn<D>
        requires room { room.items ≡ [] }
        requires enough { length places.items ≤ vec_capacity room }
        requires once { AreEachOfOne places.items }
        ensures { result ≡ places.items }
    {
        HandedIn { places, room }
    }

    /// The disks in the order in which they were handed in, each as it is now, where these are the children's. A disk that no child
    /// names is as it was handed in.
    pub fn restore(self, members: Vec<Member<D>>) -> Vec<D>
        ensures { result.items ≡ disks_back members.items self }
    {
        let HandedIn { places, room } = self;
        let mut members = members;
        let mut disks = room;
        let mut left = VecDeque::from_vec(places);
        'restoring: while let Some(place) = left.pop_front() {
            if let Some(disk) = take_disk(&mut members, place) {
                disks.push_reserved(disk);
            }
        }
        disks
    }
}
