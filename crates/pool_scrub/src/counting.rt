//! Which disks are looked at, and which have every block again.
ghost use Rattle.std.specs.Prelude.{◌≡◌, Contains, IfOk, true};
ghost use Rattle.block_store.specs.Store.{outs_from};
ghost use Rattle.pool_scrub.specs.Counting.{AreWhole, IsClean};

use scrub_resilver::Finding;
use std::alloc::{AllocError, Global};

/// The numbers of the disks that are out.
pub(crate) fn missing_of(alloc: Global, out: &[bool]) -> Result<Vec<usize>, AllocError>
    ensures { IfOk result (λ missing. missing.items ≡ outs_from 0 out.now) }
{
    let mut missing = Vec::new(alloc);
    for disk in 0..out.len() {
        if out[disk] {
            missing.push(disk)?;
        }
    }
    Ok(missing)
}

/// Whether nothing was found of a disk.
fn is_clean(disk: usize, left: &[Finding]) -> bool
    ensures yes { result ≡ true → IsClean left.now disk }
    ensures no { IsClean left.now disk → result ≡ true }
{
    for at in 0..left.len() {
        if left[at].disk == disk {
            return false;
        }
    }
    true
}

/// Whether the disk's flush didn't fail.
fn is_flushed(disk: usize, unflushed: &[usize]) -> bool
    ensures yes { result ≡ true → ¬ Contains unflushed.now disk }
    ensures no { ¬ Contains unflushed.now disk → result ≡ true }
{
    !unflushed.contains(&disk)
}

/// Of each disk, whether it is there, nothing is left to be mended of it, and its flush didn't fail.
pub(crate) fn whole_of(
    alloc: Global,
    out: &[bool],
    left: &[Finding],
    unflushed: &[usize],
) -> Result<Vec<bool>, AllocError>
    ensures { IfOk result (λ whole. AreWhole out.now left.now unflushed.now whole.items) }
{
    let mut whole = Vec::new(alloc);
    for disk in 0..out.len() {
        whole.push(!out[disk] && is_clean(disk, left) && is_flushed(disk, unflushed))?;
    }
    Ok(whole)
}
