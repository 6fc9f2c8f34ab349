// Answers a list of calls: one a line from standard input, one answer a line to standard output.
#![tactic(auto)]

mod serve;

fn main(rt: HostRuntime) {
    // A write that fails ends the list, and the program with it: there is nobody left to tell.
    let _ = serve::serve(&rt);
}
