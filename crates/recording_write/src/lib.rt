// Recordings written into lent bytes. Any numbers, events and buffer may be handed.
#![tactic(auto)]

ghost use Rattle.std.specs.Prelude.{◌≡◌, ◌≤◌, length};
ghost use Rattle.base.specs.Refusal.{answered};
ghost use Rattle.printing.specs.Put.{put, ends};
ghost use Rattle.recording.specs.Recording.{made, bodies, table};
ghost use Rattle.recording.specs.Test.{sum};
ghost use Rattle.recording_write.specs.Write.{write_answer, written_on};

use base::Refusal;

// Puts the table of contents.
fn put_table(buf: &mut [u8], at: usize, counts: &[u32]) -> usize
    requires { (at ≤ length buf.old) × (length counts.now ≤ 32) × (sum counts.now ≤ 15000) }
    ensures memory { buf.new
        ≡ put buf.old at (table (bodies (length counts.now)) counts.now) }
    ensures place { result ≡ ends buf.old at (table (bodies (length counts.now)) counts.now) }
{
    let mut next = at;
    let mut start = 2 + 4 * counts.len() as u32;
    for &n in counts {
        next = write_parts::put_number(buf, next, start);
        next = write_parts::put_number(buf, next, n);
        start += 4 * n;
    }
    next
}

// Writes a recording: its node count, how many events each section has, and the events, four bytes each. Answers its
// length. Refuses 18, 14.
pub fn write(nodes: u32, counts: &[u32], events: &[u8], buf: &mut [u8]) -> Result<u32, Refusal>
    ensures answer { answered result ≡ write_answer (made nodes counts.now events.now) (length buf.old) }
    ensures memory { buf.new ≡ written_on (made nodes counts.now events.now) buf.old }
{
    if write_parts::is_refused(nodes, counts, events) {
        return Err(Refusal::Recording);
    }
    let size = 2 + 4 * counts.len() + events.len();
    if buf.len() < size {
        return Err(Refusal::Buffer);
    }
    let at = printing::put_two(buf, 0, nodes as u8, counts.len() as u8);
    let after = put_table(buf, at, counts);
    let end = printing::put_bytes(buf, after, events);
    Ok(end as u32)
}
