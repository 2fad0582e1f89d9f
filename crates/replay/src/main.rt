// Reads a recording from standard input, plays it again, and writes how that ends: `ok N events`, `stop 18`, or
// `stop 19 at event K`.
#![tactic(auto)]

use std::io;

fn print_end(rt: &impl Print, why: u32, at: u32) -> io::Result<()> {
    if why == 0 {
        return println!(rt; "ok {at} events");
    }
    if why == 19 {
        return println!(rt; "stop {why} at event {at}");
    }
    println!(rt; "stop {why}")
}

fn main(rt: HostRuntime) -> io::Result<()> {
    // one byte more than a recording may have
    let mut recording: [u8; 60001] = [0; 60001];
    let read = input_read::read_full(&mut rt.stdin(), &mut recording)?;
    let mut bytes: [u8; 34816] = [0; 34816];
    let end = replay_headers::replay_own(&mut bytes, &recording[..read]);
    print_end(&rt, end.why, end.at)
}
