// The program `chain`: for each job that waits at the end of the requests on standard input, its chain (02, No. 3).
#![tactic(auto)]

use program_rules::{Method, View};

fn main(rt: HostRuntime) {
    let _ = desk_io::serve(&rt, Method::Locks, View::Chains);
}
