//! A session.
ghost use Rattle.std.specs.Prelude.{◌≡◌, List};
ghost use Rattle.volume_device.specs.Devices.{core_of, name_of};
ghost use Rattle.nbd_serve.specs.Answers.{Serves};
ghost use Rattle.nbd_serve.specs.Exchanges.{Exchange};
ghost use Rattle.nbd_serve.specs.Serving.{EndsSession, Says};

use crate::course::Course;
use crate::ended::Ended;
use crate::export::Export;
use crate::haggling::haggle;
use crate::transmission::transmit;
use pool_steps::PoolSteps;
use std::alloc::Global;
use std::io::{Read, Write};
use volume_device::Device;

/// The session up to its last flush.
fn talk<P: PoolSteps, R: Read, W: Write>(
    alloc: Global,
    device: &mut Device<P>,
    export: &Export,
    input: &mut R,
    output: &mut W,
) -> Result<(), Ended>
    ensures { (exchanges : List Exchange)
        × Serves P.PoolSteps export.now device.old exchanges device.new
        × Says export.now (R.remaining input.old) (R.remaining input.new)
        (W.contents output.old) (W.contents output.new) exchanges result }
{
    if haggle(alloc, export, input, output)?.is_left() {
        return Ok(());
    }
    transmit(alloc, device, export, input, output)
}

/// Serves one volume, or a snapshot, to one client: greets it, answers its options and its requests, until it leaves or the session ends otherwise, and
/// flushes then.
///
/// A request is refused with EINVAL if it isn't made of blocks of 512 bytes, if a read has more than 32 MiB or ends past the export's end, if a
/// flush has an offset or a length, and if it is unknown or has a flag other than FUA; with EPERM if it writes to a read-only export; with ENOSPC
/// if it writes past the end. A write of more than 32 MiB ends the session. What the pool refuses becomes ENOMEM, ENOSPC, EINVAL or EIO.
///
/// A flush, and a write with FUA, are answered without an error only where all that was written before is committed.
pub fn serve<P: PoolSteps, R: Read, W: Write>(
    alloc: Global,
    device: &mut Device<P>,
    export: &Export,
    input: &mut R,
    output: &mut W,
) -> Result<(), Ended>
    ensures follows { P.came_from (core_of device.old) (core_of device.new) }
    ensures name { name_of device.new ≡ name_of device.old }
    ensures ends { EndsSession P.PoolSteps export.now device.old device.new
        (R.remaining input.old) (R.remaining input.new)
        (W.contents output.old) (W.contents output.new) result }
{
    let ended = talk(alloc, device, export, input, output);
    if let Err(cause) = device.flush() {
        return Err(Ended::Refused(cause));
    }
    ended
}
