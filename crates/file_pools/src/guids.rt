//! Guids from a seed.
ghost use Rattle.std.specs.Prelude.{◌≡◌, IfOk};
ghost use Rattle.file_pools.specs.Guids.{child_guids, guid_of};

use byteorder::{ByteOrder, LittleEndian};
use sha2::{Digest, Sha256};
use std::alloc::{AllocError, Global};

/// The guid of that number: 0 is the pool's, 1 the vdev's, and from 2 on they are the disks', in order. It is the first 8 bytes, little-endian,
/// of the SHA-256 of the text `SEED/NUMBER` (this project's profile).
pub(crate) fn guid(alloc: Global, seed: u64, number: u64) -> Result<u64, AllocError>
    ensures { IfOk result (λ guid. guid ≡ guid_of seed number) }
{
    let text = format!(in alloc; "{seed}/{number}")?;
    let digest = Sha256::digest(text.as_str().as_bytes());
    Ok(LittleEndian::read_u64(&digest[..8]))
}

/// The guids of so many disks.
pub(crate) fn child_guids(alloc: Global, seed: u64, count: u32) -> Result<Vec<u64>, AllocError>
    ensures { IfOk result (λ guids. guids.items ≡ child_guids seed count) }
{
    let mut guids = Vec::new(alloc);
    for child in 0..count {
        guids.push(guid(alloc, seed, u64::from(child) + 2)?)?;
    }
    Ok(guids)
}
