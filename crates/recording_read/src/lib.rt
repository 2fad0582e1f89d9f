// Recordings in lent bytes, read into lent words and bytes. Any bytes may be handed.
#![tactic(auto)]

ghost use Rattle.std.specs.Prelude.{◌≡◌, ◌≤◌, length};
ghost use Rattle.base.specs.Choice.{list};
ghost use Rattle.base.specs.Refusal.{answered};
ghost use Rattle.printing.specs.Put.{put};
ghost use Rattle.recording.specs.Recording.{count_at, recording_in};
ghost use Rattle.recording_read.specs.Read.{read_answer, filled};

use base::Refusal;
use recording_test::{byte_at, number_at, sections_of};

// What a recording has: nodes, sections, events.
#[derive(Clone, Copy)]
pub struct Head {
    pub nodes: u32,
    pub sections: u32,
    pub events: u32,
}

// Puts how many events each section has.
fn put_counts(bytes: &[u8], counts: &mut [u32], sections: usize)
    requires { (sections ≤ length counts.old) × (sections ≤ 32) }
    ensures { counts.new ≡ put counts.old 0 (list 0 sections (count_at bytes.now)) }
{
    for (i, count) in counts[..sections].iter_mut().enumerate() {
        *count = number_at(bytes, 4 + 4 * i);
    }
}

// Reads a recording: how many events each section has into words, and the events, four bytes each, into bytes. Refuses
// 18, 14.
pub fn read(bytes: &[u8], counts: &mut [u32], events: &mut [u8]) -> Result<Head, Refusal>
    ensures answer { answered result ≡ read_answer bytes.now (length counts.old) (length events.old) }
    ensures counts { counts.new
        ≡ filled counts.old (recording_in bytes.now).counts
        (read_answer bytes.now (length counts.old) (length events.old)) }
    ensures events { events.new
        ≡ filled events.old (recording_in bytes.now).events
        (read_answer bytes.now (length counts.old) (length events.old)) }
{
    if !recording_test::is_recording(bytes) {
        return Err(Refusal::Recording);
    }
    let sections = sections_of(bytes);
    let text = &bytes[2 + 4 * sections..];
    if counts.len() < sections {
        return Err(Refusal::Buffer);
    }
    if events.len() < text.len() {
        return Err(Refusal::Buffer);
    }
    put_counts(bytes, counts, sections);
    printing::put_bytes(events, 0, text);
    Ok(Head {
        nodes: byte_at(bytes, 0) as u32,
        sections: sections as u32,
        events: (text.len() / 4) as u32,
    })
}
