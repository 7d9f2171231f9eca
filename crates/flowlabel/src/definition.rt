ghost use Rattle.std.specs.Prelude.{◌≡◌, IfOk, true};
ghost use Rattle.clap.specs.declared.builder.command.Command.TheViews.{out-Command};
ghost use Rattle.flow_files.specs.Definition.{IsCommand};
ghost use Rattle.flowlabel.specs.Definition.{flowlabel_app};

use clap::Command;
use flow_files::Argument::{Flag, Needed, Word};
use flow_files::{Argument, FILTERS, SOURCES, Subcommand, program_of, with_subcommands};
use std::alloc::{AllocError, Global};

// Appends the version, which is written only here, to a text.
macro_rules! version {
    ($before:literal) => {
        concat!($before, "1.0.0")
    };
}

// The text of an example: what it prints, and its words after `flowlabel`.
macro_rules! example {
    ($what:literal, $($words:literal),+) => {
        concat!("Example, ", $what, ":\n  flowlabel ", $($words,)+ "\n\nManuals: flowlabel(1), flowlabel-formats(5)")
    };
}

// A table of arguments: the kind, the name and the texts of each.
macro_rules! arguments {
    ($($kind:ident $name:tt $($text:literal)+;)*) => { [$($kind($name, $($text),+)),*] };
}

// A table of subcommands: the name, what the subcommand does, its words, an example with its words, and the lists of
// its arguments.
macro_rules! subcommands {
    ($($name:literal $about:literal $words:literal; $what:literal $example:literal;
        $($arguments:expr),+;)*) => {
        [$(Subcommand {
            name: $name,
            about: $about,
            usage: concat!("flowlabel ", $name, " ", $words),
            example: example!($what, $name, " ", $example),
            arguments: &[$($arguments),+],
        }),*]
    };
}

const TABLE: [Argument<'static>; 2] = arguments! {
    Flag "columns" "Pad the fields to columns";
    Word "flows" "FILE" "The IPFIX File";
};

/// The name of the program.
pub const NAME: &str = "flowlabel";

// The first line of each help.
const TITLE: &str = version!("flowlabel ");

const PROGRAM: Subcommand<'static> = Subcommand {
    name: NAME,
    about: "Label addresses by a prefix map, report on network flows, and shrink maps",
    usage: "flowlabel COMMAND ...",
    example: example!("the options of one command", "rows --help"),
    arguments: &[],
};

const SUBCOMMANDS: [Subcommand<'static>; 8] = subcommands! {
    "label" "Print the label of an address" "(--pmap FILE | --list FILE) ADDR";
        "the label of one address" "--pmap customers.txt 10.2.3.4";
        &SOURCES, &[Word("address", "ADDR", "The address to label")];
    "info" "Print the counts of an IPFIX File" "FILE";
        "the numbers of messages, sets and records" "flows.ipfix";
        &[Word("flows", "FILE", "The IPFIX File")];
    "rows" "Print the flows of an IPFIX File" "[--pmap FILE | --list FILE] [OPTIONS] FILE";
        "the flows from the customer Cedar to port 443"
        "--pmap customers.txt --src-label Cedar --dport 443 flows.ipfix";
        &SOURCES, &FILTERS, &TABLE;
    "uniq" "Print the sums of the flows of an IPFIX File"
        "--fields NAMES [--pmap FILE | --list FILE] [OPTIONS] FILE";
        "the sums by the customer that receives" "--fields dst-label --pmap customers.txt flows.ipfix";
        &[Needed("fields", "NAMES", "Keys",
            "The fields to sum by, such as sip,dport: sip, dip,\nsport, dport, proto, flags, src-label, dst-label")],
        &SOURCES, &FILTERS, &[Flag("sort-output", "Print the sums in the order of their keys")], &TABLE;
    "cat" "Print the ranges of a map or a list" "(--pmap FILE | --list FILE)";
        "the addresses of each label" "--pmap customers.txt";
        &SOURCES;
    "shrink" "Print a shortest prefix list of a map" "--pmap FILE [--certificate [--compact]]";
        "the list of a map" "--pmap customers.txt >list.txt";
        &[Needed("pmap", "FILE", "Files", "The prefix map"),
            Flag("certificate", "Print the certificate instead of the list"),
            Flag("compact", "Print the certificate in compact form")];
    "check" "Verify that a list is minimal" "--pmap FILE --list FILE --cert FILE";
        "whether list.txt is a shortest list" "--pmap customers.txt --list list.txt --cert cert.txt";
        &[Needed("pmap", "FILE", "Files", "The prefix map"),
            Needed("list", "FILE", "Files", "The prefix list"),
            Needed("cert", "FILE", "Files", "The certificate")];
    "recert" "Print a certificate in compact form" "--cert FILE";
        "a shorter form of cert.txt" "--cert cert.txt >compact.txt";
        &[Needed("cert", "FILE", "Files", "The certificate")];
};

/// Returns the definition of the command line for clap: a program with one required level of subcommands.
pub fn definition<'a>(alloc: Global) -> Result<Command<'a>, AllocError>
    ensures app { IfOk result (IsCommand flowlabel_app) }
    ensures required { IfOk result (λ c. (out-Command c).subcommand_required ≡ true) }
{
    let program = program_of(alloc, TITLE, version!(""), &PROGRAM)?;
    with_subcommands(alloc, TITLE, program, &SUBCOMMANDS)
}
