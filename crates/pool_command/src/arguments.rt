//! The words of a program as a table, and the parser that is made of it.
ghost use Rattle.std.specs.Prelude.{◌≡◌, IfOk, [], false};
ghost use Rattle.clap.specs.Words.{App, rule_of, with_rule, with_subcommand};
ghost use Rattle.pool_command.specs.Words.{IsOfApp, given_rule, leaf_app, program_app};
ghost use Rattle.pool_command.specs.Tabled.{place_rule, command_app, app_of_table};

use clap::{Arg, ArgAction, Command, value_parser};
use std::alloc::{AllocError, Global};

pub(crate) const OWN_FILES: &str = "The files of the pool's disks, in any order";

pub(crate) const VOLUME: &str =
    "The volume: 1 to 27 of 'a-z', '0-9', '.', '_' and '-', the first a letter";

pub(crate) const VOLUME_OR_SNAPSHOT: &str = "VOLUME or VOLUME@SNAPSHOT";

/// What stands behind a command.
pub(crate) enum PlaceKind {
    /// `--name N`, a number that has to be given.
    Number,
    /// `--name N`, a number that may be left out.
    GivenNumber,
    /// The same, and this one if it is left out.
    NumberOr(&'static str),
    /// `--name`.
    Flag,
    /// `--name` and a text that has to be given, which the help shows so.
    Letters(&'static str),
    /// A word by its place, which the help shows so.
    Word(&'static str),
    /// The files, which stand last: one at least.
    Files,
}

/// An option or a place of a command, with its help.
pub(crate) struct Place {
    pub name: &'static str,
    pub help: &'static str,
    pub kind: PlaceKind,
}

/// A command of a program.
pub(crate) struct CommandTable {
    pub name: &'static str,
    pub about: &'static str,
    /// What its help says at the end.
    pub more: &'static str,
    pub places: &'static [Place],
}

/// A program, of which one command has to be named.
pub(crate) struct ProgramTable {
    pub name: &'static str,
    pub about: &'static str,
    /// What its help says at the end.
    pub more: &'static str,
    pub commands: &'static [CommandTable],
}

/// A number that may be left out.
fn given_number<'a>(alloc: Global, place: &Place) -> Arg<'a>
    ensures rule { rule_of result ≡ given_rule place.now.name.now }
    ensures own { result.global ≡ false }
{
    Arg::new(alloc, place.name)
        .long(place.name)
        .value_name("N")
        .value_parser(value_parser!(u64))
        .help(place.help)
}

fn argument<'a>(alloc: Global, place: &Place) -> Arg<'a>
    ensures rule { rule_of result ≡ place_rule place.now }
    ensures own { result.global ≡ false }
{
    match place.kind {
        PlaceKind::Number => given_number(alloc, place).required(true),
        PlaceKind::GivenNumber => given_number(alloc, place),
        PlaceKind::NumberOr(default) => given_number(alloc, place).default_value(default),
        PlaceKind::Flag => Arg::new(alloc, place.name)
            .long(place.name)
            .action(ArgAction::SetTrue)
            .help(place.help),
        PlaceKind::Letters(shown) => Arg::new(alloc, place.name)
            .long(place.name)
            .value_name(shown)
            .required(true)
            .help(place.help),
        PlaceKind::Word(shown) => Arg::new(alloc, place.name)
            .value_name(shown)
            .required(true)
            .help(place.help),
        PlaceKind::Files => Arg::new(alloc, place.name)
            .value_name("FILE")
            .required(true)
            .num_args(1..)
            .help(place.help),
    }
}

/// A command with no options and places. What its help says at the end is `more`.
fn leaf<'a>(alloc: Global, table: &CommandTable) -> Command<'a>
    ensures { IsOfApp (leaf_app table.now.name.now []) result }
{
    Command::new(alloc, table.name)
        .about(table.about)
        .after_help(table.more)
}

/// A program with no commands.
fn bare<'a>(alloc: Global, table: &ProgramTable) -> Command<'a>
    ensures { IsOfApp (program_app table.now.name.now []) result }
{
    Command::new(alloc, table.name)
        .about(table.about)
        .after_help(table.more)
        .version("1.0")
        .subcommand_required(true)
}

/// The command with an option or a place more.
fn with<'a>(command: Command<'a>, arg: Arg<'a>) -> Result<Command<'a>, AllocError>
    requires own { arg.global ≡ false }
    ensures { IfOk result (λ c. (app : App) → IsOfApp app command.entry
        → IsOfApp (with_rule app (rule_of arg.entry)) c) }
{
    command.arg(arg)
}

/// The program with a command more.
fn above<'a>(command: Command<'a>, below: Command<'a>) -> Result<Command<'a>, AllocError>
    ensures { IfOk result (λ c. (app sub : App) → IsOfApp app command.entry
        → IsOfApp sub below.entry → IsOfApp (with_subcommand app sub.top) c) }
{
    command.subcommand(below)
}

/// The command of a table.
fn command<'a>(alloc: Global, table: &CommandTable) -> Result<Command<'a>, AllocError>
    ensures { IfOk result (IsOfApp (command_app table.now)) }
{
    let mut command = leaf(alloc, table);
    for place in table.places {
        command = with(command, argument(alloc, place))?;
    }
    Ok(command)
}

/// The program of a table.
pub(crate) fn program<'a>(alloc: Global, table: &ProgramTable) -> Result<Command<'a>, AllocError>
    ensures { IfOk result (IsOfApp (app_of_table table.now)) }
{
    let mut program = bare(alloc, table);
    for below in table.commands {
        program = above(program, command(alloc, below)?)?;
    }
    Ok(program)
}
