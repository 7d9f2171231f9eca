//! `flowlabel-many`: sums the flows of many IPFIX Files, and lists their messages. All of it is in the library
//! `flow_many`, which gets the system's files and streams here.
#![tactic(auto)]

use flow_io::Watched;
use flow_many::program;
use pmap_model::KeyHashing;
use std::env;
use std::process::ExitCode;

fn main(rt: HostRuntime) -> ExitCode {
    ExitCode::from(program(
        rt.alloc(),
        env::args(&rt).map_err(|error| error.kind()),
        &rt,
        &mut Watched::new(rt.stdout()),
        &mut Watched::new(rt.stderr()),
        KeyHashing::drawn(&rt),
    ))
}
