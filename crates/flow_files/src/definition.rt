//! Describes a program's command line to clap.
ghost use Rattle.std.specs.Prelude.{IfOk};
ghost use Rattle.std.specs.List.{fold};
ghost use Rattle.clap.specs.Words.{App};
ghost use Rattle.flow_files.specs.Definition.{IsArgument, IsCommand, app_for, as_program};
ghost use Rattle.flow_files.specs.Definition.{rule_for, with_argument, with_sub};

use Argument::{Flag, Needed, Optional, Word, Words};
use clap::{Arg, ArgAction, Command};
use std::alloc::{AllocError, Global};

// A table of arguments: the kind, the name and the texts of each.
macro_rules! arguments {
    ($($kind:ident $name:tt $($text:literal)+;)*) => { [$($kind($name, $($text),+)),*] };
}

/// An argument of a command: the text after its name, if there is any, and its texts for help.
#[derive(Clone, Copy)]
pub enum Argument<'a> {
    /// `--name VALUE`, with the heading and the text.
    Optional(&'a str, &'a str, &'a str, &'a str),
    /// Like `Optional`, but required.
    Needed(&'a str, &'a str, &'a str, &'a str),
    /// `--name`, with the text.
    Flag(&'a str, &'a str),
    /// A required word, with its name, its name in help, and the text.
    Word(&'a str, &'a str, &'a str),
    /// Like `Word`, but one or more.
    Words(&'a str, &'a str, &'a str),
}

/// A subcommand, or the program: its name, its texts for help, and the lists of its arguments.
#[derive(Clone, Copy)]
pub struct Subcommand<'a> {
    pub name: &'a str,
    pub about: &'a str,
    pub usage: &'a str,
    pub example: &'a str,
    pub arguments: &'a [&'a [Argument<'a>]],
}

/// `--pmap FILE` and `--list FILE`.
pub const SOURCES: [Argument<'static>; 2] = arguments! {
    Optional "pmap" "FILE" "Labels" "The prefix map";
    Optional "list" "FILE" "Labels" "The prefix list";
};

/// The options for filters that both programs have.
pub const FILTERS: [Argument<'static>; 10] = arguments! {
    Optional "protocol" "NUMBERS" "Filters" "Flows of these protocols, such as 6,17 or 1-16";
    Optional "sport" "NUMBERS" "Filters" "Flows from these ports";
    Optional "dport" "NUMBERS" "Filters" "Flows to these ports";
    Optional "saddress" "BLOCKS" "Filters" "Flows from these addresses: 10.0.0.1,2001:db8::/32";
    Optional "daddress" "BLOCKS" "Filters" "Flows to these addresses";
    Optional "packets" "RANGE" "Filters" "Flows with this many packets, such as 5, 5- or 5-9";
    Optional "bytes" "RANGE" "Filters" "Flows with this many bytes";
    Optional "src-label" "LABEL" "Filters" "Flows whose source has this label";
    Optional "dst-label" "LABEL" "Filters" "Flows whose destination has this label";
    Optional "any-label" "LABEL" "Filters" "Flows whose source or destination has this label";
};

fn argument_of<'a>(alloc: Global, argument: &Argument<'a>) -> Arg<'a>
    ensures { IsArgument (rule_for argument.now) result }
{
    match *argument {
        Optional(name, value, heading, help) => Arg::new(alloc, name)
            .long(name)
            .value_name(value)
            .help_heading(heading)
            .help(help),
        Needed(name, value, heading, help) => Arg::new(alloc, name)
            .long(name)
            .value_name(value)
            .required(true)
            .help_heading(heading)
            .help(help),
        Flag(name, help) => Arg::new(alloc, name)
            .long(name)
            .action(ArgAction::SetTrue)
            .help_heading("Output")
            .help(help),
        Word(name, value, help) => Arg::new(alloc, name)
            .value_name(value)
            .required(true)
            .help(help),
        Words(name, value, help) => Arg::new(alloc, name)
            .value_name(value)
            .required(true)
            .action(ArgAction::Append)
            .help(help),
    }
}

// Adds arguments to a command.
fn with_arguments<'a>(
    alloc: Global,
    mut command: Command<'a>,
    arguments: &[Argument<'a>],
) -> Result<Command<'a>, AllocError>
    ensures { (app : App) → IsCommand app command.entry
        → IfOk result (IsCommand (fold with_argument app arguments.now)) }
{
    for argument in arguments {
        command = command.arg(argument_of(alloc, argument))?;
    }
    Ok(command)
}

/// Returns a command with its texts for help and its arguments. `title` is the first line of its help.
pub fn command_of<'a>(
    alloc: Global,
    title: &'a str,
    sub: &Subcommand<'a>,
) -> Result<Command<'a>, AllocError>
    ensures { IfOk result (IsCommand (app_for sub.now)) }
{
    let mut command = Command::new(alloc, sub.name)
        .before_help(title)
        .about(sub.about)
        .override_usage(sub.usage)
        .after_help(sub.example);
    for arguments in sub.arguments {
        command = with_arguments(alloc, command, arguments)?;
    }
    Ok(command)
}

/// Returns the command of a program with its texts for help, its arguments and its version, and with one required level
/// of subcommands.
pub fn program_of<'a>(
    alloc: Global,
    title: &'a str,
    version: &'a str,
    program: &Subcommand<'a>,
) -> Result<Command<'a>, AllocError>
    ensures { IfOk result (IsCommand (as_program (app_for program.now))) }
{
    let command = command_of(alloc, title, program)?;
    Ok(
        command
            .version(version)
            .subcommand_required(true)
            .disable_help_subcommand(true),
    )
}

/// Adds subcommands to a command. `title` is the first line of their help.
pub fn with_subcommands<'a>(
    alloc: Global,
    title: &'a str,
    mut command: Command<'a>,
    subcommands: &[Subcommand<'a>],
) -> Result<Command<'a>, AllocError>
    ensures { (app : App) → IsCommand app command.entry → IfOk result (IsCommand (fold with_sub app subcommands.now)) }
{
    for sub in subcommands {
        command = command.subcommand(command_of(alloc, title, sub)?)?;
    }
    Ok(command)
}
