//! The handshake: NBD protocol, section "Newstyle negotiation".
ghost use Rattle.std.specs.Prelude.{◌≡◌, ◌⊎◌, Err, IfErr, IfOk, List, ℕ};
ghost use Rattle.std.specs.Io.KnownBytes.{Appends, Consumes};
ghost use Rattle.nbd_wire.specs.Handshake.{client_flags_bytes};
ghost use Rattle.nbd_serve.specs.Dealings.{DealsOne};
ghost use Rattle.nbd_serve.specs.Haggling.{AreNoFlags, EndsOptions, Haggles, IsNoOption, IsShort};
ghost use Rattle.nbd_serve.specs.Options.{optioned};
ghost use Rattle.nbd_serve.specs.declared.ended.Ended.TheVariants.{Hostile, NoMemory, Output, Torn};
ghost use Rattle.nbd_serve.specs.declared.export.Export.{Export};

use crate::course::Course;
use crate::ended::Ended;
use crate::export::Export;
use crate::input::{read_whole, zeros};
use crate::options::deal;
use crate::output::send;
use nbd_wire::{
    ClientFlags, OPTION_HEAD_LEN, decode_client_flags, decode_option_head, encode_greeting,
};
use std::alloc::Global;
use std::io::{Read, Write};

/// The longest data of an option: 64 KiB.
const MOST_DATA: u32 = 1 << 16;

/// An option with its data.
#[derive(Drop)]
pub(crate) struct Wished {
    pub(crate) option: u32,
    pub(crate) content: Vec<u8>,
}

fn read_flags<R: Read>(input: &mut R) -> Result<ClientFlags, Ended>
    ensures read { IfOk result (λ flags.
        Consumes (R.remaining input.old) (R.remaining input.new) (client_flags_bytes flags)) }
    ensures failed { IfErr result (λ ended. (ended ≡ Torn) ⊎ ((ended ≡ Hostile)
        × ((bytes : List ℕ) × AreNoFlags bytes
        × Consumes (R.remaining input.old) (R.remaining input.new) bytes))) }
{
    let mut bytes = [0; 4];
    read_whole(input, &mut bytes)?;
    decode_client_flags(&bytes).ok_or(Ended::Hostile)
}

fn read_option<R: Read>(alloc: Global, input: &mut R) -> Result<Wished, Ended>
    ensures read { IfOk result (λ wished. IsShort wished.option wished.content.items
        × Consumes (R.remaining input.old) (R.remaining input.new)
        (optioned wished.option wished.content.items)) }
    ensures failed { (export : Export) → IfErr result (λ ended. (ended ≡ Torn) ⊎ ((ended ≡ NoMemory)
        ⊎ ((ended ≡ Hostile) × ((bytes : List ℕ) × IsNoOption export bytes
        × Consumes (R.remaining input.old) (R.remaining input.new) bytes)))) }
{
    let mut bytes = [0; OPTION_HEAD_LEN];
    read_whole(input, &mut bytes)?;
    let Some(head) = decode_option_head(&bytes) else {
        return Err(Ended::Hostile);
    };
    if head.len > MOST_DATA {
        return Err(Ended::Hostile);
    }
    let mut content = zeros(alloc, head.len as usize)?;
    read_whole(input, &mut content)?;
    Ok(Wished {
        option: head.option,
        content,
    })
}

/// Reads an option and answers it.
fn deal_one<R: Read, W: Write>(
    alloc: Global,
    export: &Export,
    no_zeroes: bool,
    input: &mut R,
    output: &mut W,
) -> Result<Course, Ended>
    ensures { DealsOne export.now no_zeroes (R.remaining input.old) (R.remaining input.new)
        (W.contents output.old) (W.contents output.new) result }
{
    let wished = read_option(alloc, input)?;
    let content = wished.content.as_slice();
    let dealt = deal(alloc, export, no_zeroes, wished.option, content)?;
    send(output, dealt.answer.as_slice(), &[])?;
    Ok(dealt.course)
}

/// Reads and answers options, up to the one that leads elsewhere than to the next.
fn deal_all<R: Read, W: Write>(
    alloc: Global,
    export: &Export,
    no_zeroes: bool,
    input: &mut R,
    output: &mut W,
) -> Result<Course, Ended>
    ensures { EndsOptions export.now no_zeroes (R.remaining input.old) (R.remaining input.new)
        (W.contents output.old) (W.contents output.new) result }
{
    for _ in 0..u64::MAX {
        let course = deal_one(alloc, export, no_zeroes, input, output)?;
        if !course.goes_on() {
            return Ok(course);
        }
    }
    Err(Ended::Torn)
}

/// Greets a client, and answers its options up to the one with which the transmission begins or the client leaves.
pub(crate) fn haggle<R: Read, W: Write>(
    alloc: Global,
    export: &Export,
    input: &mut R,
    output: &mut W,
) -> Result<Course, Ended>
    ensures { (result ≡ Err Output) ⊎ Haggles export.now
        (R.remaining input.old) (R.remaining input.new)
        (W.contents output.old) (W.contents output.new) result }
{
    send(output, &encode_greeting(), &[])?;
    let flags = read_flags(input)?;
    deal_all(alloc, export, flags.no_zeroes, input, output)
}
