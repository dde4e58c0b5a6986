//! Bytes that are told by their places.
ghost use Rattle.std.specs.Prelude.{◌≡◌, IfOk, vec_len};

use std::alloc::{AllocError, Global};

/// How bytes follow one another: the places times a stride, over a divisor and modulo a number, and the
/// bits of a seed changed.
#[derive(Clone, Copy)]
pub struct Pattern {
    pub stride: usize,
    pub divisor: usize,
    pub modulus: usize,
    pub seed: u8,
}

impl Pattern {
    /// The bytes of a block.
    pub const BLOCK: Pattern = Pattern {
        stride: 1,
        divisor: 1,
        modulus: 251,
        seed: 0,
    };

    pub fn bytes(self, alloc: Global, len: usize) -> Result<Vec<u8>, AllocError>
        ensures { IfOk result (λ bytes. vec_len bytes ≡ len) }
    {
        let mut bytes = Vec::new(alloc);
        for place in 0..len {
            let value = place.wrapping_mul(self.stride) / self.divisor.max(1);
            bytes.push((value % self.modulus.clamp(1, 256)) as u8 ^ self.seed)?;
        }
        Ok(bytes)
    }
}
