// Run on calls: both rates, losses, trains, codes without slots, unstable LSPs, saturation, and lags that tie.
#![tactic(auto)]

fn main(rt: HostRuntime) {
    program::frames(&rt);
}
