// The events of a script that was played, each with the answer that was printed for it. Any script and text may be
// handed.
#![tactic(auto)]

ghost use Rattle.std.specs.Prelude.{◌≡◌, ◌+◌, ◌≤◌, length, take, drop};
ghost use Rattle.line_forms.specs.Forms.{before};
ghost use Rattle.printing.specs.Put.{put, ends};
ghost use Rattle.script_events.specs.Events.{answer_of, line_from, next_from, stop_at, events_of};

use event_bytes::put_event;

// ---- The answers of a text

// The bytes from a place on.
fn from(s: &[u8], at: usize) -> &[u8]
    ensures { result.now ≡ drop at s.now }
{
    &s[at.min(s.len())..]
}

// The bytes before the first of a kind.
fn up_to(s: &[u8], byte: u8) -> &[u8]
    ensures { result.now ≡ take (before byte s.now) s.now }
{
    &s[..line_forms::find(s, byte)]
}

// The bytes after the first of a kind.
fn after(s: &[u8], byte: u8) -> &[u8]
    ensures { result.now ≡ drop (before byte s.now + 1) s.now }
{
    from(s, line_forms::find(s, byte) + 1)
}

// The answer that a printed line tells.
fn answer_of(line: &[u8]) -> u32
    ensures { result ≡ answer_of line.now }
{
    let part = up_to(after(line, b' '), b' ');
    line_parts::number_of(part).unwrap_or(0)
}

// The answer that the line of a text at a place tells.
fn answer_at(text: &[u8], at: usize) -> u32
    ensures { result ≡ answer_of (line_from text.now at) }
{
    answer_of(up_to(from(text, at), b'\n'))
}

// Where the next line of a text begins; its end where there is none.
fn next_from(text: &[u8], at: usize) -> usize
    ensures { result ≡ next_from text.now at }
{
    let rest = from(text, at);
    let n = line_forms::find(rest, b'\n');
    if n < rest.len() {
        return at + n + 1;
    }
    text.len()
}

// Where a text says why the play stopped; its end where it did not.
pub fn stop_at(text: &[u8]) -> usize
    ensures { (result ≡ stop_at text.now) × (result ≤ length text.now) }
{
    let at = next_from(text, 0);
    let rest = from(text, at);
    at + line_forms::find(rest, b's')
}

// ---- All events

// Puts a script's events with the answers of the text that was printed for it, as many bytes as there is room for.
// Answers where they end.
pub fn put_events(events: &mut [u8], script: &[u8], text: &[u8]) -> usize
    ensures memory { events.new ≡ put events.old 0 (events_of script.now text.now) }
    ensures place { result ≡ ends events.old 0 (events_of script.now text.now) }
{
    let mut at = script::line_at(script, 0).next;
    let mut from = next_from(text, 0);
    let mut end = 0;
    while at < script.len() {
        let p = script::line_at(script, at);
        end = put_event(events, end, p.line, answer_at(text, from));
        at = p.next;
        from = next_from(text, from);
    }
    end
}
