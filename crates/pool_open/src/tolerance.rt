//! Whether a pool bears that disks are out, and how large it is.
ghost use Rattle.std.specs.List.{list_any};
ghost use Rattle.std.specs.Prelude.{◌≡◌, ◌+◌, ◌-◌, ◌^◌, min};
ghost use Rattle.block_store.specs.Store.{is_out};
ghost use Rattle.pool_model.specs.View.{is_tolerable, lost_in};
ghost use Rattle.pool_open.specs.Words.{sectors_in, vdevs_in};

use block_store::VdevShape;
use raidz_io::Vdev;

/// Whether so many disks behind a first one a disk is out. One that isn't there is not.
fn is_out(out: &[bool], first: usize, child: u32) -> bool
    ensures { result ≡ is_out out.now (first + child) }
{
    let disk = first.saturating_add(child as usize);
    disk < out.len() && out[disk]
}

/// How many disks of a vdev are out.
fn count_out(out: &[bool], vdev: Vdev) -> u32
    ensures { result ≡ lost_in (is_out out.now) vdev.first vdev.geometry.children }
{
    let mut count = 0;
    for child in 0..vdev.geometry.children {
        if is_out(out, vdev.first, child) {
            count += 1;
        }
    }
    count
}

/// Whether of no vdev more disks are out than it has parities.
pub(crate) fn are_tolerable(shapes: &[VdevShape], out: &[bool]) -> bool
    ensures { result ≡ is_tolerable (vdevs_in shapes.now) (is_out out.now) }
{
    for index in 0..shapes.len() {
        let vdev = shapes[index].vdev;
        if count_out(out, vdev) > vdev.geometry.parity {
            return false;
        }
    }
    true
}

/// Whether some disk is out.
pub(crate) fn is_any_out(out: &[bool]) -> bool
    ensures { result ≡ list_any (λ is. is) out.now }
{
    out.iter().any(|is| *is)
}

/// How many sectors the vdevs have, or the greatest number where they have more.
pub(crate) fn count_sectors(shapes: &[VdevShape]) -> u64
    ensures { result ≡ min (sectors_in shapes.now) (2 ^ 64 - 1) }
{
    let mut count: u64 = 0;
    for index in 0..shapes.len() {
        let shape = shapes[index];
        let children = u64::from(shape.vdev.geometry.children);
        count = count.saturating_add(shape.child_sectors.saturating_mul(children));
    }
    count
}
