//! The names of a pool.
ghost use Rattle.std.specs.Prelude.{◌≡◌, ◌↔◌, ℕ, List, None, Some, OnOk, IfOk, cond, fold};
ghost use Rattle.std.specs.BTreeMap.{IsOrdered, get_by};
ghost use Rattle.std.specs.Cmp.Lexicographic.{slice_cmp};
ghost use Rattle.std.specs.Ordering.{nat_cmp};
ghost use Rattle.pool_model.specs.Names.{same, volume_part};
ghost use Rattle.volume_rules.specs.Index.{origin_by};
ghost use Rattle.volume_rules.specs.Shapes.{rows_in};

use crate::causes::{Dependents, against_change};
use crate::shape::{NamedShape, VolumeEntry, VolumeShape};
use pool_model::{Action, Change, Name, Refusal, VolumeKind};
use std::alloc::{AllocError, Global};
use std::collections::{BTreeMap, HashMap};
use txg_pipeline::Pending;

/// A name that a change makes, and what stands there.
#[derive(Drop)]
pub struct NewName {
    pub name: Name,
    pub entry: VolumeEntry,
}

/// What a change does to the names of a pool.
#[derive(Drop)]
pub enum NameChange {
    Nothing,
    Added(NewName),
    Removed(Name),
}

/// For each name of a pool, the shape of the volume, and of a clone the name of its snapshot.
///
/// A name is added in two calls, so that what is accepted is also known: first `reserve`, which may fail, and then, once
/// the group has accepted the change, `make`, which takes no memory.
#[derive(Drop)]
pub struct NameIndex {
    entries: HashMap<Vec<u8>, VolumeEntry>,
}

impl NameIndex {
    ghost use Rattle.pool_model.specs.declared.item.Change.{Change as ChangeValue};
    ghost use Rattle.pool_model.specs.declared.volume.PlainVolume.{PlainVolume};
    ghost use Rattle.pool_model.specs.Refusals.{change_refusal};
    ghost use Rattle.pool_model.specs.Pools.{PlainPool, no_volumes, volume_at, with_volume, without, applied, changed, has_snapshots, has_clones};
    ghost use Rattle.volume_rules.specs.Shapes.{rows_of, shape_at};
    ghost use Rattle.pool_model.specs.declared.item.Change.TheVariants.{Destroy};
    ghost use Rattle.volume_rules.specs.Index.{HasRoom, IsNameChange, IsNameOf, Knows, MakesShape, dependents_of, with_origin};

    /// The index of a pool with no volume.
    pub fn new(alloc: Global) -> NameIndex
        ensures { Knows result no_volumes }
    {
        NameIndex {
            entries: HashMap::new(alloc),
        }
    }

    /// The shape of the volume of that name.
    pub fn find(&self, name: &Name) -> Option<VolumeShape>
        ensures { (pool : PlainPool) → Knows self.now pool → result ≡ shape_at name.now pool }
    {
        let entry = self.entries.get(name.as_slice())?;
        Some(entry.shape)
    }

    /// The names, in the order of their bytes, and what stands there.
    pub fn rows(&self, alloc: Global) -> Result<Vec<NamedShape>, AllocError>
        ensures { IfOk result (λ rows. (pool : PlainPool) → Knows self.now pool →
            rows.items ≡ rows_of pool) }
    {
        let shapes = self.in_order(alloc)?;
        let rows = into_rows(alloc, shapes)?;
        Ok(rows)
    }

    /// The shapes by name, in the order of the names' bytes.
    fn in_order(&self, alloc: Global) -> Result<BTreeMap<Vec<u8>, VolumeShape>, AllocError>
        ensures { IfOk result (λ shapes. (pool : PlainPool) → Knows self.now pool →
            (name : List ℕ) → get_by (λ key. slice_cmp nat_cmp name key.items) shapes
            ≡ shape_at name pool) }
    {
        let mut shapes = BTreeMap::new(alloc);
        for (key, entry) in self.entries.iter() {
            put_shape(alloc, &mut shapes, key.as_slice(), entry.shape)?;
        }
        Ok(shapes)
    }

    /// Whether snapshots of the volume of that name are there. It looks through all names.
    fn has_snapshots(&self, name: &Name) -> bool
        ensures { (pool : PlainPool) → Knows self.now pool → result ≡ has_snapshots name.now pool }
    {
        self.entries.iter().any(|(key, entry)| {
            entry.shape.kind.is_snapshot() && is_part_of_volume(name, key.as_slice())
        })
    }

    /// Whether clones of the snapshot of that name are there. It looks through all names.
    fn has_clones(&self, name: &Name) -> bool
        ensures { (pool : PlainPool) → Knows self.now pool → result ≡ has_clones name.now pool }
    {
        self.entries
            .iter()
            .any(|(_, entry)| entry.is_clone_of(name))
    }

    /// What hinders a change, if it is a destroy.
    fn dependents(&self, change: &Change) -> Dependents
        ensures { (pool : PlainPool) → Knows self.now pool →
            result ≡ dependents_of change.now pool }
    {
        match change {
            Change::Destroy { name } => Dependents {
                snapshots: self.has_snapshots(name),
                clones: self.has_clones(name),
            },
            _ => Dependents {
                snapshots: false,
                clones: false,
            },
        }
    }

    /// The same names once more.
    pub fn copied(&self) -> Result<NameIndex, AllocError>
        ensures { IfOk result (λ copy. (pool : PlainPool) → Knows self.now pool ↔ Knows copy pool) }
    {
        Ok(NameIndex {
            entries: self.entries.clone()?,
        })
    }

    /// Makes room for one name more.
    pub fn reserve(&mut self) -> Result<(), AllocError>
        ensures room { OnOk result (HasRoom self.new) }
        ensures same { (pool : PlainPool) → Knows self.old pool ↔ Knows self.new pool }
    {
        self.entries.try_reserve(1)
    }

    /// Adds the name of a new volume, for which there is room.
    pub fn add(&mut self, new: NewName)
        requires { HasRoom self.old }
        ensures { (pool : PlainPool) (volume : PlainVolume) → Knows self.old pool →
            volume_at new.name pool ≡ None → IsNameOf new volume →
            Knows self.new (with_volume volume pool) }
    {
        let _ = self.entries.insert(new.name.into_vec(), new.entry);
    }

    /// Takes a name away.
    pub fn remove(&mut self, name: &Name)
        ensures { (pool : PlainPool) → Knows self.old pool → Knows self.new (without name.now pool) }
    {
        let _ = self.entries.remove(name.as_slice());
    }

    /// The volume of that name, if there is one, is a clone of this snapshot.
    pub fn set_origin(&mut self, name: &Name, origin: Name)
        ensures { (pool : PlainPool) → Knows self.old pool →
            Knows self.new (with_origin name.now origin pool) }
    {
        if let Some(entry) = self.entries.get_mut(name.as_slice()) {
            entry.origin = Some(origin);
        }
    }

    /// Does what a change does to the names. For a new name there is room.
    pub fn make(&mut self, change: NameChange)
        requires { HasRoom self.old }
        ensures { (group : ℕ) (pool : PlainPool) (by : ChangeValue) → Knows self.old pool →
            IsNameChange group pool by change → Knows self.new (changed group pool by) }
    {
        match change {
            NameChange::Nothing => {}
            NameChange::Added(new) => self.add(new),
            NameChange::Removed(name) => self.remove(&name),
        }
    }

    /// What a change does to the names in this group. A change that would be refused may do nothing: where its name is there already,
    /// where there is no volume that a snapshot could be taken of, or no snapshot that a clone could be made of; and what has
    /// snapshots or clones is not destroyed.
    pub fn change_by(
        &self,
        alloc: Global,
        group: u64,
        change: &Change,
    ) -> Result<NameChange, AllocError>
        ensures { IfOk result (λ made. (pool : PlainPool) → Knows self.now pool →
            IsNameChange group pool change.now made) }
    {
        if let Change::Destroy { name } = change {
            return self.removed_by(alloc, name);
        }
        let name = change.name(alloc)?;
        if self.find(&name).is_some() {
            return Ok(NameChange::Nothing);
        }
        let Some(shape) = self.shape_by(group, change) else {
            return Ok(NameChange::Nothing);
        };
        let origin = origin_by(alloc, change)?;
        let entry = VolumeEntry { shape, origin };
        Ok(NameChange::Added(NewName { name, entry }))
    }

    /// What a destroy of that name does to the names.
    fn removed_by(&self, alloc: Global, name: &Name) -> Result<NameChange, AllocError>
        ensures { IfOk result (λ made. (group : ℕ) (pool : PlainPool) → Knows self.now pool →
            IsNameChange group pool (Destroy name.now) made) }
    {
        if self.has_snapshots(name) || self.has_clones(name) {
            return Ok(NameChange::Nothing);
        }
        Ok(NameChange::Removed(name.copied(alloc)?))
    }

    /// The shape of what a change would make in this group.
    fn shape_by(&self, group: u64, change: &Change) -> Option<VolumeShape>
        ensures { (pool : PlainPool) → Knows self.now pool →
            MakesShape group pool change.now result }
    {
        match change {
            Change::Create {
                size,
                block_size,
                ..
            } => Some(VolumeShape {
                size: *size,
                block_size: *block_size,
                group,
                kind: VolumeKind::Volume,
            }),
            Change::Snapshot { volume, .. } => {
                let found = self.find(volume)?;
                if found.kind.is_snapshot() {
                    return None;
                }
                Some(VolumeShape {
                    group,
                    kind: VolumeKind::Snapshot,
                    ..found
                })
            }
            Change::Clone { snapshot, .. } => {
                let found = self.find(snapshot)?;
                if !found.kind.is_snapshot() {
                    return None;
                }
                Some(VolumeShape {
                    group,
                    kind: VolumeKind::Volume,
                    ..found
                })
            }
            Change::Destroy { .. } => None,
        }
    }

    /// Why a change is refused.
    pub fn against(&self, alloc: Global, change: &Change) -> Result<Option<Refusal>, AllocError>
        ensures { IfOk result (λ cause. (pool : PlainPool) → Knows self.now pool →
            cause ≡ change_refusal change.now pool) }
    {
        let name = change.name(alloc)?;
        let volume = self.find(change.volume());
        Ok(against_change(change, volume, self.find(&name), self.dependents(change)))
    }

    /// The index after the items of a group. This one stays as it is.
    pub fn after_group(
        &self,
        alloc: Global,
        group: u64,
        items: &Pending,
    ) -> Result<NameIndex, AllocError>
        ensures { IfOk result (λ after. (pool : PlainPool) → Knows self.now pool
            → Knows after (applied group pool items.now)) }
    {
        let mut after = self.copied()?;
        after.make_all(alloc, group, items.actions())?;
        Ok(after)
    }

    /// Does what these actions do to the names.
    fn make_all(&mut self, alloc: Global, group: u64, actions: &[Action]) -> Result<(), AllocError>
        ensures { OnOk result ((pool : PlainPool) → Knows self.old pool
            → Knows self.new (fold (λ p a. changed group p a.change) pool actions.now)) }
    {
        for action in actions {
            self.make_one(alloc, group, &action.change)?;
        }
        Ok(())
    }

    /// Does what a change does to the names.
    fn make_one(&mut self, alloc: Global, group: u64, change: &Change) -> Result<(), AllocError>
        ensures { OnOk result ((pool : PlainPool) → Knows self.old pool
            → Knows self.new (changed group pool change.now)) }
    {
        let made = self.change_by(alloc, group, change)?;
        self.reserve()?;
        self.make(made);
        Ok(())
    }
}

/// Puts the shape of what has this name.
fn put_shape(
    alloc: Global,
    shapes: &mut BTreeMap<Vec<u8>, VolumeShape>,
    name: &[u8],
    shape: VolumeShape,
) -> Result<(), AllocError>
    ensures { OnOk result ((other : List ℕ) →
        get_by (λ key. slice_cmp nat_cmp other key.items) shapes.new
        ≡ cond (same name.now other) (Some shape)
        (get_by (λ key. slice_cmp nat_cmp other key.items) shapes.old)) }
{
    let key = Vec::from_slice(alloc, name)?;
    shapes.insert(key, shape)?;
    Ok(())
}

/// The entries as rows.
fn into_rows(
    alloc: Global,
    shapes: BTreeMap<Vec<u8>, VolumeShape>,
) -> Result<Vec<NamedShape>, AllocError>
    ensures ordered { IsOrdered (λ x y. slice_cmp nat_cmp x.items y.items) shapes }
    ensures are { IfOk result (λ rows. rows.items ≡ rows_in shapes.entries) }
{
    let mut rows = Vec::with_capacity(alloc, shapes.len())?;
    let mut rest = shapes;
    while let Some((key, shape)) = rest.pop_first() {
        let name = Name::new(key);
        rows.push(NamedShape { name, shape })?;
    }
    Ok(rows)
}

/// Of a clone that a change makes the name of its snapshot.
fn origin_by(alloc: Global, change: &Change) -> Result<Option<Name>, AllocError>
    ensures { IfOk result (λ origin. origin ≡ origin_by change.now) }
{
    match change {
        Change::Clone { snapshot, .. } => Ok(Some(snapshot.copied(alloc)?)),
        _ => Ok(None),
    }
}

/// Whether what has this name is, if it is a snapshot, one of the volume of that name.
pub fn is_part_of_volume(volume: &Name, name: &[u8]) -> bool
    ensures { result ≡ same (volume_part name.now) volume.now }
{
    let end = name.iter().position(|c| *c == b'@').unwrap_or(name.len());
    &name[..end] == volume.as_slice()
}
