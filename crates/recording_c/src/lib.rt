// What a maker links to write, read and replay recordings: bytes and words that the caller lends, answers as numbers.
#![tactic(auto)]

ghost use Rattle.std.specs.Prelude.{◌≡◌, length};
ghost use Rattle.lookup_answers.specs.Words.{lookup_number, number_words};
ghost use Rattle.recording.specs.Recording.{made, recording_in};
ghost use Rattle.recording_read.specs.Read.{read_answer, filled};
ghost use Rattle.recording_write.specs.Write.{write_answer, written_on};
ghost use Rattle.rehearsal_headers.specs.Headers.{no_items};
ghost use Rattle.replays.specs.Replay.{replay, replay_answer};
ghost use Rattle.recording_answers.specs.Words.{head_words, position_words};

// Reads a recording. Refuses 18, 14.
#[unsafe(no_mangle)]
pub extern "C" fn ocb_recording_read(
    bytes: &[u8],
    counts: &mut [u32],
    events: &mut [u8],
    found: &mut [u32; 3],
) -> u32
    ensures answer { result
        ≡ lookup_number
        (read_answer bytes.now (length counts.old) (length events.old)) }
    ensures counts { counts.new
        ≡ filled counts.old (recording_in bytes.now).counts
        (read_answer bytes.now (length counts.old) (length events.old)) }
    ensures events { events.new
        ≡ filled events.old (recording_in bytes.now).events
        (read_answer bytes.now (length counts.old) (length events.old)) }
    ensures found { found.new
        ≡ head_words (read_answer bytes.now (length counts.old) (length events.old))
        found.old }
{
    recording_answers::answer_held(recording_read::read(bytes, counts, events), found)
}

// Writes a recording. Refuses 18, 14.
#[unsafe(no_mangle)]
pub extern "C" fn ocb_recording_write(
    nodes: u32,
    counts: &[u32],
    events: &[u8],
    buf: &mut [u8],
    size: &mut [u32; 1],
) -> u32
    ensures answer { result
        ≡ lookup_number
        (write_answer (made nodes counts.now events.now) (length buf.old)) }
    ensures buffer { buf.new ≡ written_on (made nodes counts.now events.now) buf.old }
    ensures size { size.new
        ≡ number_words (write_answer (made nodes counts.now events.now) (length buf.old))
        size.old }
{
    lookup_answers::answer_found(recording_write::write(nodes, counts, events, buf), size)
}

// Plays a recording again, with headers of its own. Refuses 18, 19.
#[unsafe(no_mangle)]
pub extern "C" fn ocb_replay(recording: &[u8], places: &mut [u8], position: &mut [u32; 1]) -> u32
    ensures answer { result ≡ (replay_answer recording.now no_items places.old).why }
    ensures frames { places.new ≡ (replay recording.now no_items places.old).bytes }
    ensures position { position.new
        ≡ position_words (replay_answer recording.now no_items places.old) position.old }
{
    recording_answers::answer_end(replay_headers::replay_own(places, recording), position)
}
