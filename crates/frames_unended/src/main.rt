// Run on lines whose numbers descend, and of which the last, a record that is accepted, has no newline.
#![tactic(auto)]

fn main(rt: HostRuntime) {
    program::frames(&rt);
}
