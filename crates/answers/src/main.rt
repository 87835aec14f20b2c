// The program `answers`: the desk's answers to the requests on standard input (01, What is delivered).
#![tactic(auto)]

use program_rules::{Method, View};

fn main(rt: HostRuntime) {
    let _ = desk_io::serve(&rt, Method::Locks, View::Answers);
}
