// The replay program once more, run on the rules' whole case, since a program has one stored input.
#![tactic(auto)]

use std::io;

fn main(rt: HostRuntime) -> io::Result<()> {
    replaying::replay_input(&mut rt.stdin(), &mut rt.stdout())
}
