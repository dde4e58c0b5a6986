//! What a client gets.
ghost use Rattle.std.specs.Prelude.{◌≡◌, ◌++◌, IfErr, OnOk};
ghost use Rattle.std.specs.Io.KnownBytes.{Appends};
ghost use Rattle.nbd_serve.specs.declared.ended.Ended.TheVariants.{Output};

use crate::ended::Ended;
use std::io::Write;

/// Writes a message, its head and its data, and sees to it that it is sent.
pub(crate) fn send<W: Write>(output: &mut W, head: &[u8], data: &[u8]) -> Result<(), Ended>
    ensures sent { OnOk result
        (Appends (W.contents output.old) (W.contents output.new) (head.now ++ «data».now)) }
    ensures failed { IfErr result (λ ended. ended ≡ Output) }
{
    let Ok(()) = output.write_all(head) else {
        return Err(Ended::Output);
    };
    let Ok(()) = output.write_all(data) else {
        return Err(Ended::Output);
    };
    let Ok(()) = output.flush() else {
        return Err(Ended::Output);
    };
    Ok(())
}
