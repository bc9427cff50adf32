// Document 01's program `frames`. Here it is run on the whole case: an erased frame, a kind that does not exist, and an empty
// line.
#![tactic(auto)]

fn main(rt: HostRuntime) {
    program::frames(&rt);
}
