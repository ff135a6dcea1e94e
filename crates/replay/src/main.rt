// The replay program: answers to the log on standard input. A failed read or write ends it, with status 1.
#![tactic(auto)]

use std::io;

fn main(rt: HostRuntime) -> io::Result<()> {
    replaying::replay_input(&mut rt.stdin(), &mut rt.stdout())
}
