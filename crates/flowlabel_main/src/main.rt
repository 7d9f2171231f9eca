//! `flowlabel`: labels addresses by a prefix map or a prefix list, prints, filters and sums the flows of IPFIX Files,
//! and makes and checks shortest lists. All of it is in the library `flowlabel`, which gets the system's files and
//! streams here.
#![tactic(auto)]

use flow_io::Watched;
use flowlabel::program;
use pmap_model::KeyHashing;
use std::env;
use std::process::ExitCode;

fn main(rt: HostRuntime) -> ExitCode {
    ExitCode::from(program(
        rt.alloc(),
        env::args(&rt).map_err(|error| error.kind()),
        &rt,
        &mut Watched::new(rt.stdout()),
        &mut Watched::new(rt.stderr()),
        KeyHashing::drawn(&rt),
    ))
}
