// Run on records with each of the numbers 3 to 10, at their limits and several at once, and on frames between them.
#![tactic(auto)]

fn main(rt: HostRuntime) {
    program::frames(&rt);
}
