// The rehearsal as a function for a caller in C or JavaScript: the program rehearse without its input and output.
#![tactic(auto)]

ghost use Rattle.std.specs.Prelude.{◌≡◌};
ghost use Rattle.printing.specs.Put.{put, ends};
ghost use Rattle.rehearsal.specs.Play.{play};
ghost use Rattle.rehearsal_headers.specs.Headers.{no_items};

// Plays a script with headers of its own, and answers how many bytes of `text` are printed. The places are for the frames under way.
#[unsafe(no_mangle)]
pub extern "C" fn ocb_rehearse(
    places: &mut [u8; 34816],
    text: &mut [u8; 65536],
    script: &[u8],
) -> u32
    ensures frames { places.new ≡ (play script.now no_items places.old).bytes }
    ensures printed { text.new ≡ put text.old 0 (play script.now no_items places.old).text }
    ensures count { result ≡ ends text.old 0 (play script.now no_items places.old).text }
{
    rehearsal_headers::rehearse(&mut places[..], &mut text[..], script) as u32
}
