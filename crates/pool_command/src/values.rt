//! The values that a parse found, as what they mean.
ghost use Rattle.std.specs.Prelude.{◌≡◌, ◌==◌, IfOk, codes, position};
ghost use Rattle.clap.specs.Words.{found_of, rows_of};
ghost use Rattle.pool_command.specs.Causes.{Gives};
ghost use Rattle.pool_command.specs.Values.{given_number, number_in, text_in, files_in, flag_in, parities_in, parities_of, parts_of};

use crate::files::Files;
use crate::refusal::Refusal;
use clap::ArgMatches;
use pool_model::Name;
use std::alloc::{AllocError, Global};

/// The number of an option that may be left out.
pub(crate) fn given_number(matches: &ArgMatches, id: &str) -> Option<u64>
    ensures { result ≡ given_number id.now (rows_of (found_of matches.now)) }
{
    matches.get_one::<u64>(id)
}

pub(crate) fn number(matches: &ArgMatches, id: &str) -> Result<u64, Refusal>
    ensures { Gives (λ n. n) result (number_in id.now (rows_of (found_of matches.now))) }
{
    match given_number(matches, id) {
        Some(number) => Ok(number),
        None => Err(Refusal::Missing),
    }
}

pub(crate) fn text<'a>(matches: &ArgMatches<'a>, id: &str) -> Result<&'a str, Refusal>
    ensures { Gives (λ text. text.now) result (text_in id.now (rows_of (found_of matches.now))) }
{
    match matches.get_str(id) {
        Some(text) => Ok(text),
        None => Err(Refusal::Missing),
    }
}

/// Whether a flag is there.
pub(crate) fn flag(matches: &ArgMatches, id: &str) -> bool
    ensures { result ≡ flag_in id.now (rows_of (found_of matches.now)) }
{
    match matches.get_str(id) {
        Some(text) => text == "true",
        None => false,
    }
}

pub(crate) fn files(alloc: Global, matches: &ArgMatches) -> Result<Files, Refusal>
    ensures { Gives (λ files. files) result (files_in (rows_of (found_of matches.now))) }
{
    let Some(paths) = matches.get_strs("files") else {
        return Err(Refusal::Missing);
    };
    Ok(Files::of(alloc, paths)?)
}

/// A name, which need not be a good one.
pub(crate) fn owned(alloc: Global, text: &str) -> Result<Name, AllocError>
    ensures { IfOk result (λ name. name ≡ text.now) }
{
    Ok(Name::new(Vec::from_slice(alloc, text.as_bytes())?))
}

/// The name that stands on the line.
pub(crate) fn name(alloc: Global, matches: &ArgMatches) -> Result<Name, Refusal>
    ensures { Gives (λ name. name) result
        (text_in (codes "name") (rows_of (found_of matches.now))) }
{
    let text = text(matches, "name")?;
    Ok(owned(alloc, text)?)
}

/// How many parities a vdev of this type has.
fn parities_of(text: &str) -> Result<u32, Refusal>
    ensures { Gives (λ n. n) result (parities_of text.now) }
{
    if text == "raidz1" {
        Ok(1)
    } else if text == "raidz2" {
        Ok(2)
    } else {
        Err(Refusal::NoType)
    }
}

/// How many parities the vdev has.
pub(crate) fn parities(matches: &ArgMatches) -> Result<u32, Refusal>
    ensures { Gives (λ n. n) result (parities_in (rows_of (found_of matches.now))) }
{
    let text = text(matches, "type")?;
    parities_of(text)
}

fn at_sign(bytes: &[u8]) -> Option<usize>
    ensures { result ≡ position (λ b. b == 64) bytes.now }
{
    bytes.iter().position(|b| *b == b'@')
}

/// The volume's name, and what stands behind the '@'.
pub(crate) fn parts(alloc: Global, text: &str) -> Result<(Name, Name), Refusal>
    ensures { Gives (λ parts. parts) result (parts_of text.now) }
{
    let bytes = text.as_bytes();
    let Some(at) = at_sign(bytes) else {
        return Err(Refusal::NoPart);
    };
    let volume = Name::new(Vec::from_slice(alloc, &bytes[..at])?);
    let part = Name::new(Vec::from_slice(alloc, &bytes[at + 1..])?);
    Ok((volume, part))
}
