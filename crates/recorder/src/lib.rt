// The recording of a script that was played, from the text that was printed for it. Any script and text may be handed.
#![tactic(auto)]

ghost use Rattle.std.specs.Prelude.{◌≡◌, ◌*◌, ◌≤◌, length};
ghost use Rattle.base.specs.Refusal.{answered};
ghost use Rattle.printing.specs.Put.{put};
ghost use Rattle.recording_write.specs.Write.{write_answer, written_on};
ghost use Rattle.script_counts.specs.Counts.{sections_for};
ghost use Rattle.recorder.specs.Recorded.{size_of, counts_for, recording_of};

use base::Refusal;

// ---- Sections

// How many events section i has.
fn size_of(events: usize, i: usize) -> u32
    requires { 500 * i ≤ events }
    ensures { result ≡ size_of events i }
{
    let left = events - 500 * i;
    if left < 500 {
        return left as u32;
    }
    500
}

// Puts how many events each section has, and answers how many sections there are.
fn put_counts(counts: &mut [u32], events: usize) -> usize
    requires { sections_for events ≤ length counts.old }
    ensures memory { counts.new ≡ put counts.old 0 (counts_for events) }
    ensures sections { result ≡ sections_for events }
{
    let n = script_counts::sections_for(events);
    for (i, count) in counts[..n].iter_mut().enumerate() {
        *count = size_of(events, i);
    }
    n
}

// ---- A recording

// Writes the recording of a script with the answers that were printed. Answers its length. Refuses 18, 14.
pub fn put_recording(script: &[u8], text: &[u8], buf: &mut [u8]) -> Result<u32, Refusal>
    ensures answer { answered result ≡ write_answer (recording_of script.now text.now) (length buf.old) }
    ensures memory { buf.new ≡ written_on (recording_of script.now text.now) buf.old }
{
    let first = script::line_at(script, 0);
    let mut events = [0; 60000];
    let end = script_events::put_events(&mut events, script, text);
    let mut counts = [0; 32];
    let sections = put_counts(&mut counts, end / 4);
    recording_write::write(
        script_counts::nodes_by(first.line),
        &counts[..sections],
        &events[..end],
        buf,
    )
}
