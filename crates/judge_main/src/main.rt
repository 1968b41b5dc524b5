// Judges the solid of the tape on standard input, and prints one line: number and three places.
#![tactic(auto)]

fn main(rt: HostRuntime) -> Result<(), run::Fault<'static>> {
    run::judge_input(&rt)
}
