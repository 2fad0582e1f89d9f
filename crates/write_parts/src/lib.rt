// What the writer of recordings calls: the test of what it is handed, and a number of the table put. Any numbers, events
// and buffer may be handed.
#![tactic(auto)]

ghost use Rattle.std.specs.Prelude.{◌≡◌, ◌≤◌, length};
ghost use Rattle.printing.specs.Put.{put, ends};
ghost use Rattle.recording.specs.Recording.{made, two_bytes};
ghost use Rattle.recording.specs.Test.{sum, is_bad};

// How many events the sections have in all.
fn total_of(counts: &[u32]) -> u64
    requires { length counts.now ≤ 32 }
    ensures { result ≡ sum counts.now }
{
    let mut total: u64 = 0;
    for i in 0..counts.len() {
        total += counts[i] as u64;
    }
    total
}

// A recording is refused.
pub fn is_refused(nodes: u32, counts: &[u32], events: &[u8]) -> bool
    ensures { result ≡ is_bad (made nodes counts.now events.now) }
{
    if 32 < counts.len() {
        return true;
    }
    recording_bad::is_bad(nodes, counts.len(), total_of(counts), events)
}

// Puts a number of the table.
pub fn put_number(buf: &mut [u8], at: usize, x: u32) -> usize
    ensures memory { buf.new ≡ put buf.old at (two_bytes x) }
    ensures place { result ≡ ends buf.old at (two_bytes x) }
{
    printing::put_two(buf, at, (x % 256) as u8, (x / 256 % 256) as u8)
}
