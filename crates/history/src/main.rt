// The program `history`: the desk's history for the requests on standard input (01, What is delivered).
#![tactic(auto)]

use program_rules::{Method, View};

fn main(rt: HostRuntime) {
    let _ = desk_io::serve(&rt, Method::Locks, View::History);
}
