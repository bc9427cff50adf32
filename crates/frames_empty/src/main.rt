// Run on no input at all.
#![tactic(auto)]

fn main(rt: HostRuntime) {
    program::frames(&rt);
}
