// Run on lines that are no digit pairs or are too long, on either letter case, and on frames between them. The last line has
// 1,099 characters and no newline.
#![tactic(auto)]

fn main(rt: HostRuntime) {
    program::frames(&rt);
}
