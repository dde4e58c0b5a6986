//! The answers to options.
ghost use Rattle.std.specs.Prelude.{◌≡◌, ◌++◌, ◌⊎◌, ◌<◌, ◌^◌, [], IfErr, IfOk, OnOk, Some, false, length};
ghost use Rattle.std.specs.Int.{w32, to_be_bytes};
ghost use Rattle.nbd_wire.specs.Options.{option_kind_of};
ghost use Rattle.nbd_wire.specs.declared.options.OptionKind.TheVariants as kinds;
ghost use Rattle.nbd_serve.specs.Options.{IsDealt, IsWish, dealing, export_answer, info_answer, is_known, list_answer, replying};
ghost use Rattle.nbd_serve.specs.declared.ended.Ended.TheVariants.{Hostile, NoMemory};

use crate::course::{Course, Wish};
use crate::ended::Ended;
use crate::export::Export;
use nbd_wire::{
    OptionKind, OptionReply, decode_info_request, encode_block_size_info, encode_export,
    encode_export_info, encode_option_reply,
};
use std::alloc::{AllocError, Global};

/// The longest name that is told, in bytes: NBD protocol, section "Values".
const MOST_NAME: usize = 4096;

/// An answer, and where it leads.
#[derive(Drop)]
pub(crate) struct Dealt {
    pub(crate) course: Course,
    pub(crate) answer: Vec<u8>,
}

/// Whether the export has that name, or it is the empty one.
fn is_known(export: &Export, name: &[u8]) -> bool
    ensures { result ≡ is_known export.now name.now }
{
    name == [].as_slice() || name == export.name.as_slice()
}

fn wish_of(export: &Export, data: &[u8]) -> Wish
    ensures { IsWish export.now «data».now result }
{
    match decode_info_request(data) {
        Some(name) => {
            if is_known(export, name) {
                Wish::Known
            } else {
                Wish::Unknown
            }
        }
        None => Wish::Broken,
    }
}

/// Puts a reply behind what is answered already.
fn put(answer: &mut Vec<u8>, option: u32, reply: OptionReply, data: &[u8]) -> Result<(), AllocError>
    requires { length «data».now < 2 ^ 32 }
    ensures { OnOk result (answer.new.items
        ≡ answer.old.items ++ replying option reply «data».now) }
{
    answer.extend_from_slice(&encode_option_reply(option, reply, data.len() as u32))?;
    answer.extend_from_slice(data)?;
    Ok(())
}

/// A reply without data.
fn plain(alloc: Global, option: u32, reply: OptionReply) -> Result<Vec<u8>, AllocError>
    ensures { IfOk result (λ answer. answer.items ≡ replying option reply []) }
{
    let mut answer = Vec::new(alloc);
    put(&mut answer, option, reply, &[])?;
    Ok(answer)
}

/// What an export is and which requests it takes; or that it isn't there.
fn info(alloc: Global, export: &Export, option: u32, wish: Wish) -> Result<Vec<u8>, AllocError>
    ensures { IfOk result (λ answer. answer.items ≡ info_answer export.now option wish) }
{
    match wish {
        Wish::Unknown => plain(alloc, option, OptionReply::Unknown),
        Wish::Broken => plain(alloc, option, OptionReply::Invalid),
        Wish::Known => {
            let mut answer = Vec::new(alloc);
            let told = encode_export_info(export.size, export.read_only);
            put(&mut answer, option, OptionReply::Info, &told)?;
            put(
                &mut answer,
                option,
                OptionReply::Info,
                &encode_block_size_info(),
            )?;
            put(&mut answer, option, OptionReply::Ack, &[])?;
            Ok(answer)
        }
    }
}

/// The name behind its length.
fn told_name(alloc: Global, export: &Export) -> Result<Vec<u8>, AllocError>
    requires { length export.now.name < 2 ^ 32 }
    ensures { IfOk result (λ told. told.items
        ≡ to_be_bytes w32 (length export.now.name) ++ export.now.name) }
{
    let name = export.name.as_slice();
    let mut told = Vec::from_slice(alloc, &(name.len() as u32).to_be_bytes())?;
    told.extend_from_slice(name)?;
    Ok(told)
}

/// The one export.
fn list(alloc: Global, export: &Export, option: u32, data: &[u8]) -> Result<Vec<u8>, AllocError>
    ensures { IfOk result (λ answer. answer.items
        ≡ list_answer export.now option «data».now) }
{
    if !data.is_empty() {
        return plain(alloc, option, OptionReply::Invalid);
    }
    if export.name.as_slice().len() > MOST_NAME {
        return plain(alloc, option, OptionReply::TooBig);
    }
    let told = told_name(alloc, export)?;
    let mut answer = Vec::new(alloc);
    put(&mut answer, option, OptionReply::Server, told.as_slice())?;
    put(&mut answer, option, OptionReply::Ack, &[])?;
    Ok(answer)
}

/// What EXPORT_NAME is answered.
fn begin(alloc: Global, export: &Export, no_zeroes: bool) -> Result<Vec<u8>, AllocError>
    ensures { IfOk result (λ answer. answer.items ≡ export_answer export.now no_zeroes) }
{
    let mut answer = Vec::from_slice(alloc, &encode_export(export.size, export.read_only))?;
    if !no_zeroes {
        answer.extend_from_slice(&[0; 124])?;
    }
    Ok(answer)
}

/// Answers an option. EXPORT_NAME with a name that isn't known can't be answered: the session ends.
pub(crate) fn deal(
    alloc: Global,
    export: &Export,
    no_zeroes: bool,
    option: u32,
    data: &[u8],
) -> Result<Dealt, Ended>
    ensures dealt { IfOk result (λ dealt. IsDealt export.now no_zeroes
        (dealing option «data».now dealt) dealt.course) }
    ensures failed { IfErr result (λ ended. (ended ≡ NoMemory) ⊎ ((ended ≡ Hostile)
        × (option_kind_of option ≡ Some kinds.ExportName)
        × (is_known export.now «data».now ≡ false))) }
{
    let (course, answer) = match OptionKind::of(option) {
        Some(OptionKind::ExportName) => {
            if !is_known(export, data) {
                return Err(Ended::Hostile);
            }
            (Course::Agreed, begin(alloc, export, no_zeroes)?)
        }
        Some(OptionKind::Abort) => (Course::Left, plain(alloc, option, OptionReply::Ack)?),
        Some(OptionKind::List) => (Course::GoesOn, list(alloc, export, option, data)?),
        Some(OptionKind::Info) => {
            let wish = wish_of(export, data);
            (Course::GoesOn, info(alloc, export, option, wish)?)
        }
        Some(OptionKind::Go) => {
            let wish = wish_of(export, data);
            (wish.go_course(), info(alloc, export, option, wish)?)
        }
        None => (
            Course::GoesOn,
            plain(alloc, option, OptionReply::Unsupported)?,
        ),
    };
    Ok(Dealt { course, answer })
}
