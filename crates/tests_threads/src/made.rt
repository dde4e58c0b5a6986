//! What the tests hand in, and how they compare.
ghost use Rattle.std.specs.Prelude.{◌≡◌};

use plain_machine::Machine;
use pool_model::{Change, Name};
use pool_steps::PoolSteps;
use shared_pool::{Books, Entry, Recorded, Refusal};
use std::alloc::{AllocError, Global};
use std::sync::ledger::Ledger;
use std::test::Fail;

pub(crate) const VOLUME: &str = "v";

pub(crate) const SIZE: u64 = 2048;

pub(crate) const BLOCK: u64 = 512;

/// A record of a machine that has no volumes yet.
pub(crate) fn fresh<L: Ledger, M: Ledger>(
    alloc: Global,
    books: Books<L, M>,
) -> Result<Recorded<Machine, L, M>, Refusal>
    requires { (books.steps.total ≡ 0) × (books.calls.total ≡ 0) }
{
    Recorded::new(alloc, Machine::create(alloc), books)
}

pub(crate) fn name(alloc: Global, text: &str) -> Result<Name, AllocError> {
    Ok(Name::new(Vec::from_slice(alloc, text.as_bytes())?))
}

/// A block of each of these values.
pub(crate) fn blocks(alloc: Global, values: &[u8]) -> Result<Vec<u8>, AllocError> {
    let mut all = Vec::new(alloc);
    for value in values {
        all.extend_from_slice(&[*value; 512])?;
    }
    Ok(all)
}

pub(crate) fn creation(alloc: Global) -> Result<Change, AllocError> {
    Ok(Change::Create {
        name: name(alloc, VOLUME)?,
        size: SIZE,
        block_size: BLOCK,
    })
}

/// Whether the recorded steps, taken by this core, give the recorded replies.
pub(crate) fn does_replay<C: PoolSteps>(
    alloc: Global,
    core: &mut C,
    entries: Vec<Entry>,
) -> Result<bool, Fail> {
    for entry in entries {
        let Entry { step, reply } = entry;
        let again = format!(in alloc; "{:?}", core.take_step(step))?;
        let before = format!(in alloc; "{reply:?}")?;
        if again.as_str() != before.as_str() {
            return Ok(false);
        }
    }
    Ok(true)
}
