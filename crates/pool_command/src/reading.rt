//! Reading words as commands.
ghost use Rattle.std.specs.Prelude.{◌≡◌, true, map, option_map};
ghost use Rattle.clap.specs.Words.{App, found_of, is_simple_and_free, rows_of, subcommand_rows_of};
ghost use Rattle.pool_command.specs.Causes.{Gives};
ghost use Rattle.pool_command.specs.Values.{last_files, place_of, range_of};
ghost use Rattle.pool_command.specs.Words.{IsOfApp};
ghost use Rattle.pool_command.specs.Reading.{Finds, found_in, zpool_of, zfs_of, command_of};
ghost use Rattle.pool_command.specs.Reading.{new_pool, new_vdev, new_volume, new_snapshot, new_clone};
ghost use Rattle.pool_command.specs.Reading.{named_files, destroyed, write_at, written, read_at, read_out, served, zpool_command, zfs_command};

use crate::command::{Command, NewPool, NewVdev, ZfsCommand, ZpoolCommand};
use crate::files::Files;
use crate::refusal::Refusal;
use crate::values::{files, flag, given_number, name, number, owned, parities, parts, text};
use crate::zfs_words::zfs;
use crate::zpool_words::zpool;
use clap::ArgMatches;
use pool_model::Name;
use std::alloc::Global;

#[tactic(auto, unfolding(crate::specs::Reading::new_pool))]
fn new_pool(alloc: Global, matches: &ArgMatches) -> Result<NewPool, Refusal>
    ensures { Gives (λ pool. pool) result (new_pool (rows_of (found_of matches.now))) }
{
    let seed = number(matches, "seed")?;
    let bytes = number(matches, "bytes")?;
    let meta = number(matches, "meta")?;
    let shift = number(matches, "ms")?;
    let name = name(alloc, matches)?;
    let parities = parities(matches)?;
    let files = files(alloc, matches)?;
    Ok(NewPool {
        seed,
        bytes,
        meta,
        shift,
        name,
        parities,
        files,
    })
}

/// All but the last files, of which there are so many, and these.
fn parted(all: Files, count: u64) -> Result<(Files, Files), Refusal>
    ensures { Gives (λ parts. parts) result (last_files count all) }
{
    if count == 0 || count >= all.len() as u64 {
        return Err(Refusal::NoNewFiles);
    }
    Ok(all.split_last(count as usize)?)
}

#[tactic(auto, unfolding(crate::specs::Reading::new_vdev))]
fn new_vdev(alloc: Global, matches: &ArgMatches) -> Result<NewVdev, Refusal>
    ensures { Gives (λ vdev. vdev) result (new_vdev (rows_of (found_of matches.now))) }
{
    let seed = number(matches, "seed")?;
    let bytes = number(matches, "bytes")?;
    let parities = parities(matches)?;
    let count = number(matches, "new")?;
    let all = files(alloc, matches)?;
    let (files, new_files) = parted(all, count)?;
    Ok(NewVdev {
        seed,
        bytes,
        parities,
        files,
        new_files,
    })
}

/// A name, and the files.
#[tactic(auto, unfolding(crate::specs::Reading::named_files))]
fn named_files(alloc: Global, matches: &ArgMatches) -> Result<(Name, Files), Refusal>
    ensures { Gives (λ named. named) result (named_files (rows_of (found_of matches.now))) }
{
    let name = name(alloc, matches)?;
    let files = files(alloc, matches)?;
    Ok((name, files))
}

#[tactic(auto, unfolding(crate::specs::Reading::new_volume))]
fn new_volume(alloc: Global, matches: &ArgMatches) -> Result<ZfsCommand, Refusal>
    ensures { Gives (λ command. command) result (new_volume (rows_of (found_of matches.now))) }
{
    let size = number(matches, "size")?;
    let block_size = number(matches, "block")?;
    let (name, files) = named_files(alloc, matches)?;
    Ok(ZfsCommand::Create {
        size,
        block_size,
        name,
        files,
    })
}

#[tactic(auto, unfolding(crate::specs::Reading::new_snapshot))]
fn new_snapshot(alloc: Global, matches: &ArgMatches) -> Result<ZfsCommand, Refusal>
    ensures { Gives (λ command. command) result (new_snapshot (rows_of (found_of matches.now))) }
{
    let snapshot = text(matches, "snapshot")?;
    let (volume, part) = parts(alloc, snapshot)?;
    let files = files(alloc, matches)?;
    Ok(ZfsCommand::Snapshot {
        volume,
        part,
        files,
    })
}

#[tactic(auto, unfolding(crate::specs::Reading::new_clone))]
fn new_clone(alloc: Global, matches: &ArgMatches) -> Result<ZfsCommand, Refusal>
    ensures { Gives (λ command. command) result (new_clone (rows_of (found_of matches.now))) }
{
    let text = text(matches, "snapshot")?;
    let _parts = parts(alloc, text)?;
    let snapshot = owned(alloc, text)?;
    let (name, files) = named_files(alloc, matches)?;
    Ok(ZfsCommand::Clone {
        snapshot,
        name,
        files,
    })
}

#[tactic(auto, unfolding(crate::specs::Reading::destroyed))]
fn destroyed(alloc: Global, matches: &ArgMatches) -> Result<ZfsCommand, Refusal>
    ensures { Gives (λ command. command) result (destroyed (rows_of (found_of matches.now))) }
{
    let (name, files) = named_files(alloc, matches)?;
    Ok(ZfsCommand::Destroy { name, files })
}

#[tactic(auto, unfolding(crate::specs::Reading::served))]
fn served(alloc: Global, matches: &ArgMatches) -> Result<ZfsCommand, Refusal>
    ensures { Gives (λ command. command) result (served (rows_of (found_of matches.now))) }
{
    let (name, files) = named_files(alloc, matches)?;
    Ok(ZfsCommand::Serve { name, files })
}

/// Where a write begins, in bytes; `None` where it is of all that stands on the input.
#[tactic(auto, unfolding(crate::specs::Values::place_of))]
fn place(offset: Option<u64>, all: bool) -> Result<Option<u64>, Refusal>
    ensures { Gives (λ place. place) result (place_of offset all) }
{
    match (offset, all) {
        (Some(offset), false) => Ok(Some(offset)),
        (None, true) => Ok(None),
        _ => Err(Refusal::NoPlace),
    }
}

fn write_at(place: Option<u64>, name: Name, files: Files) -> ZfsCommand
    ensures { result ≡ write_at place name files }
{
    match place {
        Some(offset) => ZfsCommand::Write {
            offset,
            name,
            files,
        },
        None => ZfsCommand::WriteAll { name, files },
    }
}

#[tactic(auto, unfolding(crate::specs::Reading::written))]
fn written(alloc: Global, matches: &ArgMatches) -> Result<ZfsCommand, Refusal>
    ensures { Gives (λ command. command) result (written (rows_of (found_of matches.now))) }
{
    let place = place(given_number(matches, "at"), flag(matches, "all"))?;
    let (name, files) = named_files(alloc, matches)?;
    Ok(write_at(place, name, files))
}

/// A range by its offset and its length in bytes; `None` where all is read.
#[tactic(auto, unfolding(crate::specs::Values::range_of))]
fn range(offset: Option<u64>, len: Option<u64>) -> Result<Option<(u64, u64)>, Refusal>
    ensures { Gives (λ range. range) result (range_of offset len) }
{
    match (offset, len) {
        (Some(offset), Some(len)) => Ok(Some((offset, len))),
        (None, None) => Ok(None),
        _ => Err(Refusal::HalfRange),
    }
}

fn read_at(range: Option<(u64, u64)>, name: Name, files: Files) -> ZfsCommand
    ensures { result ≡ read_at range name files }
{
    match range {
        Some((offset, len)) => ZfsCommand::Read {
            offset,
            len,
            name,
            files,
        },
        None => ZfsCommand::ReadAll { name, files },
    }
}

#[tactic(auto, unfolding(crate::specs::Reading::read_out))]
fn read_out(alloc: Global, matches: &ArgMatches) -> Result<ZfsCommand, Refusal>
    ensures { Gives (λ command. command) result (read_out (rows_of (found_of matches.now))) }
{
    let range = range(given_number(matches, "at"), given_number(matches, "len"))?;
    let (name, files) = named_files(alloc, matches)?;
    Ok(read_at(range, name, files))
}

#[tactic(auto, unfolding(crate::specs::Reading::zpool_command))]
fn zpool_command(
    alloc: Global,
    command: &str,
    matches: &ArgMatches,
) -> Result<ZpoolCommand, Refusal>
    ensures { Gives (λ c. c) result
        (zpool_command command.now (rows_of (found_of matches.now))) }
{
    if command == "create" {
        Ok(ZpoolCommand::Create(new_pool(alloc, matches)?))
    } else if command == "add" {
        Ok(ZpoolCommand::Add(new_vdev(alloc, matches)?))
    } else if command == "status" {
        let files = files(alloc, matches)?;
        Ok(ZpoolCommand::Status { files })
    } else if command == "scrub" {
        let files = files(alloc, matches)?;
        Ok(ZpoolCommand::Scrub { files })
    } else if command == "export" {
        let files = files(alloc, matches)?;
        Ok(ZpoolCommand::Export { files })
    } else {
        Err(Refusal::Missing)
    }
}

#[tactic(auto, unfolding(crate::specs::Reading::zfs_command))]
fn zfs_command(alloc: Global, command: &str, matches: &ArgMatches) -> Result<ZfsCommand, Refusal>
    ensures { Gives (λ c. c) result
        (zfs_command command.now (rows_of (found_of matches.now))) }
{
    if command == "create" {
        new_volume(alloc, matches)
    } else if command == "snapshot" {
        new_snapshot(alloc, matches)
    } else if command == "clone" {
        new_clone(alloc, matches)
    } else if command == "destroy" {
        destroyed(alloc, matches)
    } else if command == "list" {
        let files = files(alloc, matches)?;
        Ok(ZfsCommand::List { files })
    } else if command == "write" {
        written(alloc, matches)
    } else if command == "read" {
        read_out(alloc, matches)
    } else if command == "serve" {
        served(alloc, matches)
    } else {
        Err(Refusal::Missing)
    }
}

/// What a parse by this command finds in the words.
fn matched<'a>(command: clap::Command<'a>, words: &'a [&str]) -> Result<ArgMatches<'a>, Refusal>
    ensures { (table : App) → IsOfApp table command.entry → is_simple_and_free table ≡ true
        → Finds result (found_in table (map (λ w. w.now) words.now)) }
{
    match command.try_get_matches_from(words) {
        Ok(matches) => Ok(matches),
        Err(error) => Err(Refusal::from(error)),
    }
}

/// The name of the command that was found, and what was found for it.
fn named<'a, 'b>(matches: &'b ArgMatches<'a>) -> Option<(&'a str, &'b ArgMatches<'a>)>
    ensures { option_map (λ found. (found.0.now, rows_of (found_of found.1.now))) result
        ≡ subcommand_rows_of matches.now }
{
    matches.subcommand()
}

/// What a line of `zpool` asks for.
fn zpool_of(alloc: Global, words: &[&str]) -> Result<ZpoolCommand, Refusal>
    ensures { Gives (λ c. c) result (zpool_of (map (λ w. w.now) words.now)) }
{
    let matches = matched(zpool(alloc)?, words)?;
    let Some((command, found)) = named(&matches) else {
        return Err(Refusal::Missing);
    };
    zpool_command(alloc, command, found)
}

/// What a line of `zfs` asks for.
fn zfs_of(alloc: Global, words: &[&str]) -> Result<ZfsCommand, Refusal>
    ensures { Gives (λ c. c) result (zfs_of (map (λ w. w.now) words.now)) }
{
    let matches = matched(zfs(alloc)?, words)?;
    let Some((command, found)) = named(&matches) else {
        return Err(Refusal::Missing);
    };
    zfs_command(alloc, command, found)
}

/// What a command line asks for. Its first word is the program's name, `zpool` or `zfs`.
#[tactic(auto, unfolding(crate::specs::Reading::command_of))]
pub fn parse(alloc: Global, words: &[&str]) -> Result<Command, Refusal>
    ensures { Gives (λ c. c) result (command_of (map (λ w. w.now) words.now)) }
{
    let Some(program) = words.first() else {
        return Err(Refusal::NoProgram);
    };
    if *program == "zpool" {
        Ok(Command::Zpool(zpool_of(alloc, words)?))
    } else if *program == "zfs" {
        Ok(Command::Zfs(zfs_of(alloc, words)?))
    } else {
        Err(Refusal::NoProgram)
    }
}
