// The program `stamp_answers`: the timestamp desk's answers to the requests on standard input (02, No. 6).
#![tactic(auto)]

use program_rules::{Method, View};

fn main(rt: HostRuntime) {
    let _ = desk_io::serve(&rt, Method::Stamps, View::Answers);
}
