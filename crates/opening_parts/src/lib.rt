// What opens a rehearsal: the fresh board, and what is printed before the first event. Any numbers may be handed.
#![tactic(auto)]

ghost use Rattle.std.specs.Prelude.{◌≡◌};
ghost use Rattle.board_states.specs.States.{opening};
ghost use Rattle.printing.specs.Put.{put, ends};
ghost use Rattle.opening_parts.specs.Texts.{opening_text};

use board_states::Stage;

// A board of up to 16 nodes, all fresh.
pub fn open_stage(size: u32) -> Stage
    ensures { result ≡ opening size }
{
    let mut states = [states::none(); 16];
    for a in 0..16 {
        states[a as usize] = states::fresh(size, a);
    }
    Stage {
        states,
        size,
        under: 0,
    }
}

// The header line, and the line that stops the play, if one does.
pub fn put_opening(out: &mut [u8], why: u32, line: u32) -> usize
    ensures memory { out.new ≡ put out.old 0 (opening_text why line) }
    ensures place { result ≡ ends out.old 0 (opening_text why line) }
{
    let at = text::put_header(&mut *out, 0);
    if why == 0 {
        return at;
    }
    text::put_stop(&mut *out, at, why, line)
}
