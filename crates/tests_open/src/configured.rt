//! What a configuration makes of vdevs and of the disks that were found.
use crate::lines::Call;
use pool_open::{children_of, shapes_of};
use std::alloc::{AllocError, Global};
use std::test::Fail;
use vdev_label::{Config, Vdev};

/// `vdev` has a guid, parities, the sectors on each disk, the shift of the metaslabs, and the guids of its disks; `found` has, for a vdev
/// each, which disk was found of each of its children. There come of it, of each vdev, its first disk, its children and parities, its
/// sectors on each, and the shift of its metaslabs; and of each child the disk that was found, if one was, and its size.
const VDEVS: &[(&str, &str)] = &[
    // Three disks with one parity, and behind them five with two. Of the first vdev the second disk was not found, and of the other
    // only the last. A disk of the first vdev takes 8 MiB, and one of the second 512 KiB more.
    (
        "vdev 100 1 7168 12 101 102 103; vdev 200 2 8192 13 201 202 203 204 205;
            found 1 - 0; found - - - - 2",
        "0 3 1 7168 12; 3 5 2 8192 13;
            Some(1) 8388608; None 8388608; Some(0) 8388608; None 8912896;
            None 8912896; None 8912896; None 8912896; Some(2) 8912896;",
    ),
];

/// The disks that were found, by these numbers: the greatest number of all stands for none.
fn found(alloc: Global, numbers: &[u64]) -> Result<Vec<Option<usize>>, AllocError> {
    let mut disks = Vec::new(alloc);
    'numbers: for number in numbers {
        disks.push(match *number {
            u64::MAX => None,
            disk => Some(disk as usize),
        })?;
    }
    Ok(disks)
}

/// The first disk of each vdev, its children and parities, its sectors on each, and the shift of its metaslabs.
fn shapes(alloc: Global, config: &Config) -> Result<String, Fail> {
    if !config.is_allowed(alloc, 1)? {
        return Err(Fail::new("no pool may have this"));
    }
    let mut text = String::new(alloc);
    'rows: for shape in &shapes_of(alloc, config)? {
        let (first, geometry) = (shape.vdev.first, shape.vdev.geometry);
        let (children, parity) = (geometry.children, geometry.parity);
        let (sectors, shift) = (shape.child_sectors, shape.metaslab_shift);
        write!(text, "{first} {children} {parity} {sectors} {shift}; ")?;
    }
    Ok(text)
}

/// The disk that was found of each child, if one was, and its size.
fn children(
    alloc: Global,
    config: &Config,
    members: &[Vec<Option<usize>>],
) -> Result<String, Fail> {
    if members.len() != config.vdevs.len() || !config.is_allowed(alloc, 1)? {
        return Err(Fail::new("no pool may have this"));
    }
    let mut text = String::new(alloc);
    'rows: for child in &children_of(alloc, config, members)? {
        let (disk, size) = (child.disk, child.size);
        write!(text, "{disk:?} {size}; ")?;
    }
    Ok(text)
}

/// What comes of a line of vdevs, and of their disks that were found.
fn laid_out(alloc: Global, line: &str) -> Result<String, Fail> {
    let vdevs = Vec::new(alloc);
    let mut config = Config { vdevs };
    let mut members = Vec::new(alloc);
    'calls: for text in line.split(';') {
        let call = Call::parse(alloc, text)?;
        match (call.name, call.numbers.as_slice()) {
            ("vdev", [guid, parity, child_sectors, slab_shift, disks @ ..]) => {
                config.vdevs.push(Vdev {
                    guid: *guid,
                    parity: *parity,
                    child_sectors: *child_sectors,
                    slab_shift: *slab_shift,
                    meta_slabs: 1,
                    children: Vec::from_slice(alloc, disks)?,
                })?;
            }
            ("found", numbers) => members.push(found(alloc, numbers)?)?,
            _ => return Err(Fail::new(format_args!("no call {}", call.name))),
        }
    }
    let mut text = shapes(alloc, &config)?;
    text.push_str(children(alloc, &config, &members)?.as_str())?;
    Ok(text)
}

/// Vdevs take the disks in order, and children have the disks that were found.
#[test]
fn vdevs_and_children_take_the_disks_in_order(rt: HostRuntime) -> Result<(), Fail> {
    'rows: for (line, wanted) in VDEVS {
        let came = laid_out(rt.alloc(), line)?;
        let is_right = came.split_whitespace().eq(wanted.split_whitespace());
        assert!(rt; is_right, "{line} -> {came}");
    }
    Ok(())
}
