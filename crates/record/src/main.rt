// Reads a script from standard input, plays it, and writes its recording; where the play stops, the line that says so.
#![tactic(auto)]

ghost use Rattle.std.specs.Prelude.{◌≡◌, ◌≤◌, length};
ghost use Rattle.text.specs.Text.{text_room};

use std::io;

// Plays a script, and answers how much of `out` is printed. Every text fits the bytes that it asks for (rule S1).
fn play(bytes: &mut [u8], out: &mut [u8], script: &[u8]) -> usize
    requires { length out.old ≡ text_room }
    ensures { result ≤ length out.new }
{
    rehearsal_headers::rehearse(bytes, out, script)
}

// The recording of a script that was played, and how much of `buf` it takes; nothing where it is refused.
fn recorded(script: &[u8], text: &[u8], buf: &mut [u8]) -> usize
    ensures { result ≤ length buf.new }
{
    let Ok(size) = recorder::put_recording(script, text, &mut *buf) else {
        return 0;
    };
    size as usize
}

fn main(rt: HostRuntime) -> io::Result<()> {
    // one byte more than a script may have
    let mut script: [u8; 4097] = [0; 4097];
    let read = input_read::read_full(&mut rt.stdin(), &mut script)?;
    let mut bytes: [u8; 34816] = [0; 34816];
    let mut out: [u8; 65536] = [0; 65536];
    let printed = play(&mut bytes, &mut out, &script[..read]);
    let stop = script_events::stop_at(&out[..printed]);
    if stop < printed {
        return rt.write_all(&out[stop..printed]);
    }
    let mut buf: [u8; 60000] = [0; 60000];
    let size = recorded(&script[..read], &out[..printed], &mut buf);
    rt.write_all(&buf[..size])
}
