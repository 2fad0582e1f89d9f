// The frame writer for tools and tests: from a frame's fields as words into a buffer, both lent.
// Any words, buffer and number of nodes may be handed; what is not allowed is refused (rule R3),
// and a refused call leaves the buffer.
#![tactic(auto)]

ghost use Rattle.std.specs.Prelude.{◌≡◌, ◌≤◌, ◌<◌, length, get_or};
ghost use Rattle.base.specs.Limits.{base, limits_of, width};
ghost use Rattle.base.specs.Refusal.{answered};
ghost use Rattle.frame.specs.Frame.{over};
ghost use Rattle.wire.specs.Wire.{put_at, put_numbers};
ghost use Rattle.field_words.specs.Words.{at_phase, at_dim, at_sender, fields_end};
ghost use Rattle.fields.specs.Fields.{write_on, written_on};
ghost use Rattle.fields.specs.Pieces.{between, head_with, first_numbers, second_numbers, bytes_with, put_answer};

use base::{Bounds, Refusal};
use field_words::{AGREED, DIM, ISSUED, PASS, PHASE, RECEIVED, SENDER, SENT, TAKEN};

// Puts the head, of a pass.
fn put_head(pass: u8, fields: &[u32], buf: &mut [u8])
    requires { (length fields.now ≡ fields_end)
        × (get_or fields.now at_dim 0 ≤ width)
        × (get_or fields.now at_phase 0 < 256)
        × (get_or fields.now at_sender 0 < base.nodes) }
    ensures { buf.new ≡ put_at buf.old 0 (head_with pass fields.now) }
{
    wire::put_head(
        buf,
        pass,
        fields[PHASE] as u8,
        fields[DIM] as u8,
        fields[SENDER] as u8,
    );
}

// Puts the numbers between two places of the words.
fn put_between(fields: &[u32], from: usize, end: usize, buf: &mut [u8], at: u32)
    requires { (from ≤ end) × (end ≤ length fields.now) }
    ensures { buf.new ≡ put_numbers buf.old at (between fields.now from end) }
{
    wire::put_numbers(buf, at, &fields[from..end]);
}

// Puts a frame of pass 1, where there is room.
fn put_first(p: u32, fields: &[u32], buf: &mut [u8]) -> Result<u32, Refusal>
    requires { (length fields.now ≡ fields_end)
        × (get_or fields.now at_dim 0 ≤ p)
        × (p ≤ width)
        × (get_or fields.now at_phase 0 < 256)
        × (get_or fields.now at_sender 0 < base.nodes) }
    ensures answer { answered result
        ≡ put_answer (bytes_with 1 fields.now (first_numbers p fields.now))
        (length buf.old) }
    ensures memory { buf.new
        ≡ over (bytes_with 1 fields.now (first_numbers p fields.now)) buf.old
        (put_answer (bytes_with 1 fields.now (first_numbers p fields.now))
        (length buf.old)) }
{
    let k = fields[DIM];
    let row = 4 * (p - k);
    let length = 12 + 2 * row;
    if buf.len() < length as usize {
        return Err(Refusal::Buffer);
    }
    let from = k as usize;
    let to = p as usize;
    put_head(1, fields, &mut *buf);
    put_between(fields, SENT + from, SENT + to, &mut *buf, 4);
    put_between(fields, TAKEN + from, TAKEN + to, &mut *buf, 4 + row);
    put_between(fields, ISSUED, AGREED, &mut *buf, 4 + 2 * row);
    Ok(length)
}

// Puts a frame of pass 2, where there is room.
fn put_second(fields: &[u32], buf: &mut [u8]) -> Result<u32, Refusal>
    requires { (length fields.now ≡ fields_end)
        × (get_or fields.now at_dim 0 ≤ width)
        × (get_or fields.now at_phase 0 < 256)
        × (get_or fields.now at_sender 0 < base.nodes) }
    ensures answer { answered result
        ≡ put_answer (bytes_with 2 fields.now (second_numbers fields.now))
        (length buf.old) }
    ensures memory { buf.new
        ≡ over (bytes_with 2 fields.now (second_numbers fields.now)) buf.old
        (put_answer (bytes_with 2 fields.now (second_numbers fields.now))
        (length buf.old)) }
{
    if buf.len() < 12 {
        return Err(Refusal::Buffer);
    }
    put_head(2, fields, &mut *buf);
    put_between(fields, AGREED, SENT, &mut *buf, 4);
    put_between(fields, ISSUED, RECEIVED, &mut *buf, 8);
    Ok(12)
}

// Writes a frame at the start of the buffer and answers its length. Refuses 1, 10, 2, 14.
pub fn write(
    b: Bounds,
    nodes: u32,
    fields: &[u32; field_words::END],
    buf: &mut [u8],
) -> Result<u32, Refusal>
    ensures answer { answered result ≡ write_on (limits_of b) nodes fields.now (length buf.old) }
    ensures buffer { buf.new ≡ written_on (limits_of b) nodes fields.now buf.old }
{
    let p = field_tests::tested(b, nodes, fields)?;
    if fields[PASS] == 1 {
        return put_first(p, fields, &mut *buf);
    }
    put_second(fields, &mut *buf)
}
