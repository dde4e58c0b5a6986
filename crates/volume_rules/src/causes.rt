//! Why a step is refused, as far as the shapes of the volumes tell.
ghost use Rattle.std.specs.Prelude.{◌≡◌, ◌↔◌, ◌==◌, ◌∷◌, [], IsTrue, Option, is_some, length, not};
ghost use Rattle.std.specs.List.{list_all, position};
ghost use Rattle.std.specs.Option.{option_map};
ghost use Rattle.pool_model.specs.declared.volume.PlainVolume.{PlainVolume};
ghost use Rattle.pool_model.specs.declared.volume.VolumeKind.TheVariants.{Snapshot};
ghost use Rattle.pool_model.specs.Names.{is_name_letter, is_name, is_name_for, is_whole_name, is_block_size, name_of, volume_of};
ghost use Rattle.pool_model.specs.Pools.{PlainPool};
ghost use Rattle.pool_model.specs.Refusals.{first_cause, is_aligned, is_in_range, is_snapshot_there, is_volume, place_refusal, change_refusal, read_refusal};
ghost use Rattle.volume_rules.specs.GoodChanges.{is_good_size, is_good_change, MakesGoodVolumes};
ghost use Rattle.volume_rules.specs.Index.{dependents_of};
ghost use Rattle.volume_rules.specs.Shapes.{shape_of, shape_at};

use crate::shape::VolumeShape;
use pool_model::{Change, Name, Refusal, Write};
use txg_pipeline::Pending;

/// The most bytes that one write or read may have: 1 MiB.
const MOST_BYTES: u64 = 1 << 20;

/// The most bytes that a volume may have: 1 TiB.
const LARGEST_VOLUME: u64 = 1 << 40;

fn is_letter_of_name(c: u8) -> bool
    ensures { result ≡ is_name_letter c }
{
    c.is_ascii_lowercase() || c.is_ascii_digit() || c == b'.' || c == b'_' || c == b'-'
}

fn are_letters_of_name(letters: &[u8]) -> bool
    ensures { result ≡ list_all is_name_letter letters.now }
{
    letters.iter().all(|c| is_letter_of_name(*c))
}

/// Whether a volume, or the part of a snapshot's name, may have this name.
pub fn is_good_name(name: &Name) -> bool
    ensures { result ≡ is_name name.now }
{
    are_good_letters(name.as_slice())
}

fn are_good_letters(letters: &[u8]) -> bool
    ensures { result ≡ is_name letters.now }
{
    match letters {
        [] => false,
        [first, rest @ ..] => {
            first.is_ascii_lowercase() && rest.len() <= 26 && are_letters_of_name(rest)
        }
    }
}

fn is_size_of_block(size: u64) -> bool
    ensures { result ≡ is_block_size size }
{
    matches!(
        size,
        512 | 1024 | 2048 | 4096 | 8192 | 16384 | 32768 | 65536 | 131072
    )
}

/// Whether a volume may have this size and this block size, in bytes.
pub fn is_good_shape(size: u64, block_size: u64) -> bool
    ensures { result ≡ is_good_size size block_size }
{
    is_size_of_block(block_size)
        && size % block_size == 0
        && block_size <= size
        && size <= LARGEST_VOLUME
}

/// Whether a volume may be made so, with such a name and of such a size or of such a snapshot, or a snapshot be taken so; and whether
/// what is destroyed may have such a name.
pub fn is_good_change(change: &Change) -> bool
    ensures { result ≡ is_good_change change.now }
{
    match change {
        Change::Create {
            name,
            size,
            block_size,
        } => is_good_name(name) && is_good_shape(*size, *block_size),
        Change::Snapshot { volume, part } => is_good_name(volume) && is_good_name(part),
        Change::Clone { snapshot, name } => is_good_name_of_snapshot(snapshot)
            && is_good_name(name),
        Change::Destroy { name } => is_good_whole_name(name),
    }
}

/// Whether it may be the name of a volume, or the whole name of a snapshot.
fn is_good_whole_name(name: &Name) -> bool
    ensures { result ≡ is_whole_name name.now }
{
    let letters = name.as_slice();
    match first_at_sign(letters) {
        Some(end) => are_good_letters(&letters[..end]) && are_good_letters(&letters[end + 1..]),
        None => are_good_letters(letters),
    }
}

/// Whether a snapshot may have this name: before the first '@' it has a name that a volume may have.
fn is_good_name_of_snapshot(name: &Name) -> bool
    ensures { result ≡ is_name_for Snapshot name.now }
{
    let letters = name.as_slice();
    match first_at_sign(letters) {
        Some(end) => are_good_letters(&letters[..end]),
        None => false,
    }
}

fn first_at_sign(letters: &[u8]) -> Option<usize>
    ensures { result ≡ position (λ c. c == 64) letters.now }
{
    letters.iter().position(|c| *c == b'@')
}

/// Whether each change of a group is a good one.
pub fn makes_good_volumes(items: &Pending) -> bool
    ensures { IsTrue result ↔ MakesGoodVolumes items.now }
{
    items
        .actions()
        .iter()
        .all(|action| is_good_change(&action.change))
}

fn is_in_sectors(offset: u64, len: u64) -> bool
    ensures { result ≡ is_aligned offset len }
{
    offset % 512 == 0 && len % 512 == 0 && len != 0
}

fn is_within(offset: u64, len: u64, size: u64) -> bool
    ensures { (volume : PlainVolume) → size ≡ length volume.bytes →
        result ≡ is_in_range offset len volume }
{
    len <= size && offset <= size - len && len <= MOST_BYTES
}

/// Why a write under a hold of this group is refused, by the shape of the volume that has its name.
pub fn against_write(write: &Write, group: u64, found: Option<VolumeShape>) -> Option<Refusal>
    ensures { (volume : Option PlainVolume) → found ≡ option_map shape_of volume →
        result ≡ place_refusal write.now group volume }
{
    let Some(volume) = found else {
        return Some(Refusal::NoSuchName);
    };
    if volume.kind.is_snapshot() {
        return Some(Refusal::NoSuchName);
    }
    if group <= volume.group {
        return Some(Refusal::NotYet);
    }
    let len = write.bytes.len() as u64;
    if !is_in_sectors(write.offset, len) {
        return Some(Refusal::Misaligned);
    }
    if !is_within(write.offset, len, volume.size) {
        return Some(Refusal::OutOfRange);
    }
    None
}

/// What hinders a destroy: whether snapshots of a volume are there, and whether clones of a snapshot are.
#[derive(Clone, Copy, PartialEq, Eq, Drop)]
pub struct Dependents {
    pub snapshots: bool,
    pub clones: bool,
}

/// Why a change is refused, by the shape of the volume that it is of and of the one that has the name that it makes, and by what hinders a
/// destroy.
pub fn against_change(
    change: &Change,
    volume: Option<VolumeShape>,
    found: Option<VolumeShape>,
    dependents: Dependents,
) -> Option<Refusal>
    ensures { (pool : PlainPool) → volume ≡ shape_at (volume_of change.now) pool →
        found ≡ shape_at (name_of change.now) pool → dependents ≡ dependents_of change.now pool →
        result ≡ change_refusal change.now pool }
{
    match change {
        Change::Create {
            name,
            size,
            block_size,
        } => {
            if !is_good_name(name) {
                return Some(Refusal::BadName);
            }
            if found.is_some() {
                return Some(Refusal::Exists);
            }
            if !is_size_of_block(*block_size) || *size % *block_size != 0 {
                return Some(Refusal::Misaligned);
            }
            if *size < *block_size || LARGEST_VOLUME < *size {
                return Some(Refusal::OutOfRange);
            }
            None
        }
        Change::Snapshot { part, .. } => against_new_name(part, is_volume(volume), found),
        Change::Clone { name, .. } => against_new_name(name, is_snapshot(volume), found),
        Change::Destroy { name } => against_destroy(name, volume.is_some(), dependents),
    }
}

/// Why a destroy is refused: by the name that is given, by whether it is there, and by what hinders it.
fn against_destroy(name: &Name, is_there: bool, dependents: Dependents) -> Option<Refusal>
    ensures { result ≡ first_cause ((not (is_whole_name name.now), Refusal.BadName)
        ∷ (not is_there, Refusal.NoSuchName) ∷ (dependents.snapshots, Refusal.HasSnapshots)
        ∷ (dependents.clones, Refusal.HasClones) ∷ []) }
{
    if !is_good_whole_name(name) {
        return Some(Refusal::BadName);
    }
    if !is_there {
        return Some(Refusal::NoSuchName);
    }
    if dependents.snapshots {
        return Some(Refusal::HasSnapshots);
    }
    if dependents.clones {
        return Some(Refusal::HasClones);
    }
    None
}

/// Why a snapshot or a clone is refused: by the name that is given, by whether what it is of is there, and by what has its name.
fn against_new_name(name: &Name, is_there: bool, found: Option<VolumeShape>) -> Option<Refusal>
    ensures { (volume : Option PlainVolume) → found ≡ option_map shape_of volume →
        result ≡ first_cause ((not (is_name name.now), Refusal.BadName)
        ∷ (not is_there, Refusal.NoSuchName) ∷ (is_some volume, Refusal.Exists) ∷ []) }
{
    if !is_good_name(name) {
        return Some(Refusal::BadName);
    }
    if !is_there {
        return Some(Refusal::NoSuchName);
    }
    if found.is_some() {
        return Some(Refusal::Exists);
    }
    None
}

/// Whether it is the shape of a volume, and of no snapshot.
fn is_volume(found: Option<VolumeShape>) -> bool
    ensures { (volume : Option PlainVolume) → found ≡ option_map shape_of volume →
        result ≡ is_volume volume }
{
    match found {
        Some(shape) => !shape.kind.is_snapshot(),
        None => false,
    }
}

/// Whether it is the shape of a snapshot.
fn is_snapshot(found: Option<VolumeShape>) -> bool
    ensures { (volume : Option PlainVolume) → found ≡ option_map shape_of volume →
        result ≡ is_snapshot_there volume }
{
    match found {
        Some(shape) => shape.kind.is_snapshot(),
        None => false,
    }
}

/// Why a read is refused, by the shape of the volume that has its name.
pub fn against_read(offset: u64, len: u64, found: Option<VolumeShape>) -> Option<Refusal>
    ensures { (volume : Option PlainVolume) → found ≡ option_map shape_of volume →
        result ≡ read_refusal offset len volume }
{
    let Some(volume) = found else {
        return Some(Refusal::NoSuchName);
    };
    if !is_within(offset, len, volume.size) {
        return Some(Refusal::OutOfRange);
    }
    None
}
