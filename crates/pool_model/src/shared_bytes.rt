//! Bytes that steps and replies carry, which a contract sees as a list.
ghost use Rattle.std.specs.Prelude.{◌≡◌, ◌==◌, length, IfOk, IfErr};
ghost use Rattle.std.specs.Arc.{arc_value};
ghost use Rattle.pool_model.specs.Held.{bytes_of};

use std::alloc::{AllocError, Global};
use std::marker::Model;
use std::sync::Arc;
use std::{fmt, mem};

/// Bytes that are never changed once they are here. Whoever asks for a handle of their own shares them.
#[derive(Drop)]
pub struct Bytes {
    held: Held,
}

/// How bytes are held: alone, or counted by who has them.
#[derive(Drop)]
enum Held {
    Own(Vec<u8>),
    Shared(Arc<Vec<u8>, Global>),
}

impl Model for Bytes {
    ghost use Rattle.std.specs.Prelude.{ℕ, List};

    ghost Value = { List ℕ };

    ghost use Rattle.pool_model.specs.Held.{bytes_of};

    ghost view = { λ b. bytes_of b.held };
}

impl Bytes {
    pub fn new(bytes: Vec<u8>) -> Bytes
        ensures { result ≡ bytes.items }
    {
        Bytes {
            held: Held::Own(bytes),
        }
    }

    /// The bytes, given back: a copy of them where others have them too.
    pub fn into_vec(self, alloc: Global) -> Result<Vec<u8>, AllocError>
        ensures { IfOk result (λ bytes. bytes.items ≡ self) }
    {
        match self.held {
            Held::Own(bytes) => Ok(bytes),
            Held::Shared(shared) => match Arc::try_unwrap(shared) {
                Ok(bytes) => Ok(bytes),
                Err(shared) => Vec::from_slice(alloc, shared.as_slice()),
            },
        }
    }

    pub fn len(&self) -> usize
        ensures { result ≡ length self.now }
    {
        self.as_slice().len()
    }

    pub fn is_empty(&self) -> bool
        ensures { result ≡ (length self.now == 0) }
    {
        self.as_slice().is_empty()
    }

    pub fn as_slice(&self) -> &[u8]
        ensures { result.now ≡ self.now }
    {
        match &self.held {
            Held::Own(bytes) => bytes.as_slice(),
            Held::Shared(shared) => shared.as_slice(),
        }
    }

    /// A second handle on the same bytes, of which none is copied. It needs a few bytes the first time. Where there is no memory,
    /// these bytes are as they were.
    pub fn share(&mut self, alloc: Global) -> Result<Bytes, AllocError>
        ensures alike { IfOk result (λ other. other ≡ self.old) }
        ensures same { self.new ≡ self.old }
    {
        let held = mem::replace(&mut self.held, Held::Own(Vec::new(alloc)));
        match counted(alloc, held) {
            Ok(shared) => {
                let other = Arc::try_clone(&shared);
                self.held = Held::Shared(shared);
                Ok(Bytes {
                    held: Held::Shared(other?),
                })
            }
            Err(held) => {
                self.held = held;
                Err(AllocError)
            }
        }
    }
}

impl fmt::Debug for Bytes {
    fn fmt<W: fmt::Write>(&self, f: &mut fmt::Formatter<W>) -> fmt::Result {
        f.debug_struct("Bytes")
            .field("bytes", &self.as_slice())
            .finish()
    }
}

/// The same bytes, counted by who has them; or as they were held, where there is no memory for the count.
fn counted(alloc: Global, held: Held) -> Result<Arc<Vec<u8>, Global>, Held>
    ensures counted { IfOk result (λ shared. (arc_value shared).items ≡ bytes_of held) }
    ensures kept { IfErr result (λ back. bytes_of back ≡ bytes_of held) }
{
    match held {
        Held::Own(bytes) => match Arc::new(alloc, bytes) {
            Ok(shared) => Ok(shared),
            Err(failed) => Err(Held::Own(failed.value)),
        },
        Held::Shared(shared) => Ok(shared),
    }
}
