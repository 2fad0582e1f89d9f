// The frame reader for tools and tests: from bytes into a frame's fields as words, both lent.
// Any bytes, words and number of nodes may be handed; what is not allowed is refused (rule R3),
// and a refused call leaves the words.
#![tactic(auto)]

ghost use Rattle.std.specs.Prelude.{◌≡◌, ◌+◌, ◌*◌, ◌≤◌, length};
ghost use Rattle.base.specs.Choice.{list};
ghost use Rattle.base.specs.Limits.{limits_of, width};
ghost use Rattle.base.specs.Refusal.{answered};
ghost use Rattle.frame.specs.Frame.{read_frame, answer_of, first_fields, second_fields, fields_of, shell_at};
ghost use Rattle.field_words.specs.Words.{field_words, frame_words};
ghost use Rattle.fields_read.specs.Pieces.{head_words, dims_by};

use base::{Bounds, Refusal};
use field_words::{AGREED, DIM, END, ISSUED, PASS, PHASE, RECEIVED, SENDER, SENT, TAKEN};

// Puts the words of a head, and no numbers yet.
fn get_head(bytes: &[u8], fields: &mut [u32; field_words::END])
    requires { 4 ≤ length bytes.now }
    ensures { fields.new ≡ head_words bytes.now }
{
    *fields = [0; field_words::END];
    fields[PASS] = bytes[0] as u32;
    fields[PHASE] = bytes[1] as u32;
    fields[DIM] = bytes[2] as u32;
    fields[SENDER] = bytes[3] as u32;
}

// Puts n numbers into a row of zeros, from shell k on.
fn get_row(bytes: &[u8], row: &mut [u32], k: usize, n: usize)
    requires { (row.old ≡ list 0 width (λ m. 0)) × (k + n ≤ width) × (4 + 4 * n ≤ length bytes.now) }
    ensures { row.new ≡ list 0 width (shell_at (k + n) k bytes.now 0) }
{
    wire_read::copy_numbers(bytes, &mut row[k..k + n]);
}

// Puts the numbers of a frame of pass 1.
fn get_first(bytes: &[u8], fields: &mut [u32])
    requires { (fields.old ≡ head_words bytes.now) × (12 ≤ length bytes.now) × (dims_by bytes.now ≤ width) }
    ensures { fields.new ≡ field_words (first_fields (dims_by bytes.now) bytes.now) }
{
    let k = bytes[2] as usize;
    let n = (bytes.len() - 12) / 8;
    get_row(bytes, &mut fields[SENT..TAKEN], k, n);
    get_row(&bytes[4 * n..], &mut fields[TAKEN..END], k, n);
    wire_read::copy_numbers(&bytes[8 * n..], &mut fields[ISSUED..AGREED]);
}

// Puts the numbers of a frame of pass 2.
fn get_second(bytes: &[u8], fields: &mut [u32])
    requires { (fields.old ≡ head_words bytes.now) × (12 ≤ length bytes.now) }
    ensures { fields.new ≡ field_words (second_fields bytes.now) }
{
    wire_read::copy_numbers(bytes, &mut fields[AGREED..SENT]);
    wire_read::copy_numbers(&bytes[4..], &mut fields[ISSUED..RECEIVED]);
}

// Puts the numbers of a frame, by its pass.
fn get_numbers(bytes: &[u8], fields: &mut [u32])
    requires { (fields.old ≡ head_words bytes.now) × (12 ≤ length bytes.now) × (dims_by bytes.now ≤ width) }
    ensures { fields.new ≡ field_words (fields_of (dims_by bytes.now) bytes.now) }
{
    if bytes[0] == 1 {
        get_first(bytes, &mut *fields);
        return;
    }
    get_second(bytes, &mut *fields);
}

// Reads a frame. Refuses 1, 9, 10, 2.
pub fn read(
    b: Bounds,
    nodes: u32,
    bytes: &[u8],
    fields: &mut [u32; field_words::END],
) -> Result<(), Refusal>
    ensures answer { answered result ≡ answer_of (read_frame (limits_of b) nodes bytes.now) }
    ensures memory { fields.new ≡ frame_words (read_frame (limits_of b) nodes bytes.now) fields.old }
{
    wire_read::checked(b, nodes, bytes)?;
    get_head(bytes, &mut *fields);
    get_numbers(bytes, &mut *fields);
    Ok(())
}
