// The judging program, run on a solid that is a star.
#![tactic(auto)]

fn main(rt: HostRuntime) -> Result<(), run::Fault<'static>> {
    run::judge_input(&rt)
}
