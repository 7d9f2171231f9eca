//! The command line for clap.
ghost use Rattle.std.specs.Prelude.{◌≡◌, IfOk, true};
ghost use Rattle.clap.specs.declared.builder.command.Command.TheViews.{out-Command};
ghost use Rattle.flow_files.specs.Definition.{IsCommand};
ghost use Rattle.flow_many.specs.Definition.{many_app};

use clap::Command;
use flow_files::Argument::{Flag, Optional, Words};
use flow_files::{Argument, FILTERS, SOURCES, Subcommand, program_of, with_subcommands};
use std::alloc::{AllocError, Global};

// The text of an example: what it prints, and its words.
macro_rules! example {
    ($what:literal, $words:literal) => {
        concat!(
            "Example, ", $what, ":\n  flowlabel-many ", $words,
            "\n\nManuals: flowlabel-many(1), flowlabel-formats(5)"
        )
    };
}

// The version, which is that of flowlabel, and the first line of help.
const VERSION: &str = "1.0.0";

const TITLE: &str = "flowlabel-many 1.0.0";

const KEYS: [Argument<'static>; 2] = [
    Optional(
        "by",
        "UNIT",
        "Keys",
        "The unit of time to sum by: day, hour, minute, or\nminutes of which a whole number makes a day, such as 5m",
    ),
    Optional(
        "fields",
        "NAMES",
        "Keys",
        "The fields to sum by, such as sip,dport: sip, dip,\nsport, dport, proto, flags, in-if, out-if, vlan,\nsrc-as, dst-as, src-label, dst-label",
    ),
];

// The options for filters that `flowlabel` doesn't have.
const MORE_FILTERS: [Argument<'static>; 5] = [
    Optional(
        "in-if",
        "NUMBERS",
        "Filters",
        "Flows that came in by these interfaces",
    ),
    Optional(
        "out-if",
        "NUMBERS",
        "Filters",
        "Flows that went out by these interfaces",
    ),
    Optional("vlan", "NUMBERS", "Filters", "Flows of these VLANs"),
    Optional(
        "src-as",
        "NUMBERS",
        "Filters",
        "Flows from these AS numbers",
    ),
    Optional("dst-as", "NUMBERS", "Filters", "Flows to these AS numbers"),
];

const OUTPUT: [Argument<'static>; 2] = [
    Flag(
        "allow-skipped",
        "Take Files with data sets that have no template",
    ),
    Flag("columns", "Pad the fields to columns"),
];

const FILES: [Argument<'static>; 1] = [Words("files", "FILE", "The IPFIX Files, each by itself")];

const PROGRAM: Subcommand<'static> = Subcommand {
    name: "flowlabel-many",
    about: "Sum the flows of many IPFIX Files, and list their messages",
    usage: "flowlabel-many COMMAND ...",
    example: example!("the options of one command", "sum --help"),
    arguments: &[],
};

const SUBCOMMANDS: [Subcommand<'static>; 2] = [
    Subcommand {
        name: "sum",
        about: "Print the sums of the flows of IPFIX Files",
        usage: "flowlabel-many sum [--by UNIT] [--fields NAMES] [--pmap FILE | --list FILE] [OPTIONS] FILE..",
        example: example!(
            "the sums by day and customer",
            "sum --by day --fields dst-label --pmap customers.txt month/*.ipfix"
        ),
        arguments: &[&KEYS, &SOURCES, &FILTERS, &MORE_FILTERS, &OUTPUT, &FILES],
    },
    Subcommand {
        name: "messages",
        about: "Print what each message of IPFIX Files has",
        usage: "flowlabel-many messages FILE..",
        example: example!("the messages of a month", "messages month/*.ipfix"),
        arguments: &[&FILES],
    },
];

/// Returns the definition of the command line for clap: a program with one required level of subcommands.
pub fn definition<'a>(alloc: Global) -> Result<Command<'a>, AllocError>
    ensures app { IfOk result (IsCommand many_app) }
    ensures required { IfOk result (λ c. (out-Command c).subcommand_required ≡ true) }
{
    let program = program_of(alloc, TITLE, VERSION, &PROGRAM)?;
    with_subcommands(alloc, TITLE, program, &SUBCOMMANDS)
}
