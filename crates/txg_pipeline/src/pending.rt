//! What a group has accepted.
ghost use Rattle.std.specs.Prelude.{◌≡◌, ◌↔◌, ◌++◌, [], ◌∷◌, IsTrue, OnOk, OnErr};
ghost use Rattle.pool_model.specs.Pools.{no_items};
ghost use Rattle.pool_model.specs.Flow.{added};
ghost use Rattle.txg_pipeline.specs.Positions.{AreOf, AreTouching, Indexes};

use crate::places::PlaceIndex;
use pool_model::{Action, Item, Name, Write};
use std::alloc::{AllocError, Global};
use std::marker::Model;

/// The items of a group, each kind in the order accepted.
#[derive(Drop)]
pub struct Pending {
    writes: Vec<Write>,
    actions: Vec<Action>,
    places: PlaceIndex,
}

impl Model for Pending {
    ghost use Rattle.pool_model.specs.Pools.{Entry};

    ghost Value = { Entry };

    ghost use Rattle.txg_pipeline.specs.Positions.{Indexes};

    ghost view = { λ p. record { writes = p.writes.items; actions = p.actions.items } };

    ghost invariant = { λ p. Indexes p.places p.writes.items };
}

impl Pending {
    pub(crate) fn new(alloc: Global) -> Pending
        ensures { result ≡ no_items }
    {
        Pending {
            writes: Vec::new(alloc),
            actions: Vec::new(alloc),
            places: PlaceIndex::new(alloc),
        }
    }

    /// The item joins its kind, at the end. No other item is looked at.
    pub(crate) fn add(&mut self, alloc: Global, item: Item) -> Result<(), AllocError>
        ensures ok { OnOk result (self.new ≡ added self.old item) }
        ensures err { OnErr result (self.new ≡ self.old) }
    {
        match item {
            Item::Write(write) => add_write(alloc, &mut self.writes, &mut self.places, write),
            Item::Action(action) => Ok(self.actions.push(action)?),
        }
    }

    pub fn writes(&self) -> &[Write]
        ensures { result.now ≡ self.now.writes }
    {
        self.writes.as_slice()
    }

    pub fn actions(&self) -> &[Action]
        ensures { result.now ≡ self.now.actions }
    {
        self.actions.as_slice()
    }

    /// The positions, among all writes, of those to the volume of that name, ascending.
    pub fn places_of(&self, name: &Name) -> &[usize]
        ensures { AreOf name.now self.now.writes result.now }
    {
        self.places.of(name)
    }

    /// The positions, among all writes, of those to the volume of that name that have a byte in a piece, ascending.
    /// A piece is `PIECE_BYTES` long, and its number is the offset of its first byte divided by that.
    pub fn places_at(&self, name: &Name, piece: u64) -> &[usize]
        ensures { AreTouching name.now piece self.now.writes result.now }
    {
        self.places.at(name, piece)
    }

    pub fn is_empty(&self) -> bool
        ensures { IsTrue result ↔ (self.now ≡ no_items) }
    {
        self.writes.is_empty() && self.actions.is_empty()
    }
}

// The write joins the others, and the index tells of it.
fn add_write(
    alloc: Global,
    writes: &mut Vec<Write>,
    places: &mut PlaceIndex,
    write: Write,
) -> Result<(), AllocError>
    ensures ok { OnOk result (writes.new.items ≡ writes.old.items ++ write ∷ []) }
    ensures err { OnErr result (writes.new.items ≡ writes.old.items) }
    ensures indexed { Indexes places.old writes.old.items → Indexes places.new writes.new.items }
{
    writes.try_reserve(1)?;
    places.add(alloc, &write, writes.len())?;
    let _ = writes.push(write);
    Ok(())
}
