// Reads a script from standard input, plays it, and writes what is printed.
#![tactic(auto)]

ghost use Rattle.std.specs.Prelude.{◌≡◌, ◌≤◌, length};
ghost use Rattle.text.specs.Text.{text_room};

use std::io;

// Plays a script, and answers how much of `out` is printed. Every text fits the bytes that it asks for (rule S1).
fn play(bytes: &mut [u8], out: &mut [u8], script: &[u8]) -> usize
    requires { length out.old ≡ text_room }
    ensures { result ≤ length out.new }
{
    rehearsal_headers::rehearse(bytes, out, script)
}

fn main(rt: HostRuntime) -> io::Result<()> {
    // one byte more than a script may have
    let mut script: [u8; 4097] = [0; 4097];
    let read = input_read::read_full(&mut rt.stdin(), &mut script)?;
    let mut bytes: [u8; 34816] = [0; 34816];
    let mut out: [u8; 65536] = [0; 65536];
    let printed = play(&mut bytes, &mut out, &script[..read]);
    rt.write_all(&out[..printed])
}
