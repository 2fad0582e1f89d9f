// The calls in place on a state that the caller lends as words, answers as numbers. barrier_c_c exports them to C.
#![tactic(auto)]

ghost use Rattle.std.specs.Prelude.{◌≡◌, length};
ghost use Rattle.base.specs.Limits.{base};
ghost use Rattle.base.specs.declared.Kind.TheVariants.{Job, Note};
ghost use Rattle.tree.specs.Lookups.{dimension_lookup, place_lookup, distance_lookup};
ghost use Rattle.frame.specs.Frame.{read_frame};
ghost use Rattle.field_words.specs.Words.{frame_words};
ghost use Rattle.fields.specs.Fields.{write_on, written_on};
ghost use Rattle.node.specs.Answers.{outcome_number, barrier_number};
ghost use Rattle.node.specs.Calls.{send, take, idle, frame_in};
ghost use Rattle.node_calls.specs.Fresh.{fresh_on, fresh_words};
ghost use Rattle.answers.specs.Words.{detail_words};
ghost use Rattle.lookup_answers.specs.Words.{lookup_number, number_words, place_words};
ghost use Rattle.barrier_c.specs.Exports.{answer_on, words_on, barrier_on, barrier_state, barrier_buffer};

use base::{Bounds, Kind};

// ---- The calls on a state

// A node that has just started. Refuses 1, 2, 13.
pub fn ocb_fresh(state: &mut [u32], nodes: u32, number: u32) -> u32
    ensures answer { result ≡ outcome_number (fresh_on base nodes number state.old) }
    ensures memory { state.new ≡ fresh_words base nodes number state.old }
{
    answers::number_of(node_calls::fresh(Bounds::of_build(), state, nodes, number))
}

// One message more is sent to a node. Refuses 13, 2, 3, 4, 5.
pub fn ocb_send(state: &mut [u32], to: u32) -> u32
    ensures answer { result ≡ answer_on base (λ n. send base n to) state.old }
    ensures memory { state.new ≡ words_on base (λ n. send base n to) state.old }
{
    answers::number_of(calls::send_to(Bounds::of_build(), state, to))
}

// A job from a node, with its phase byte, is taken. Refuses 13, 2, 3, 7 or 8, 6.
pub fn ocb_take(state: &mut [u32], from: u32, phase: u8) -> u32
    ensures answer { result ≡ answer_on base (λ n. take base n Job from phase) state.old }
    ensures memory { state.new ≡ words_on base (λ n. take base n Job from phase) state.old }
{
    answers::number_of(calls::take_from(Bounds::of_build(), state, Kind::Job, from, phase))
}

// A note from a node, with its phase byte, is taken. Refuses 13, 2, 3, 7 or 8, 6.
pub fn ocb_take_note(state: &mut [u32], from: u32, phase: u8) -> u32
    ensures answer { result ≡ answer_on base (λ n. take base n Note from phase) state.old }
    ensures memory { state.new ≡ words_on base (λ n. take base n Note from phase) state.old }
{
    answers::number_of(calls::take_from(Bounds::of_build(), state, Kind::Note, from, phase))
}

// The node has run out of work. Refuses 13.
pub fn ocb_idle(state: &mut [u32]) -> u32
    ensures answer { result ≡ answer_on base (λ n. idle base n) state.old }
    ensures memory { state.new ≡ words_on base (λ n. idle base n) state.old }
{
    answers::number_of(calls::go_idle(Bounds::of_build(), state))
}

// A frame has come. Refuses 13, 9, 10, 2, 3, 11, 7, 8.
pub fn ocb_frame_in(state: &mut [u32], bytes: &[u8]) -> u32
    ensures answer { result ≡ answer_on base (λ n. frame_in base n bytes.now) state.old }
    ensures memory { state.new ≡ words_on base (λ n. frame_in base n bytes.now) state.old }
{
    answers::number_of(calls::frame_in(Bounds::of_build(), state, bytes))
}

// ---- The barrier call

// One step of an idle node: sends its frame, moves on, leaves or waits. Refuses 13, 12, 14.
pub fn ocb_barrier(state: &mut [u32], buf: &mut [u8], details: &mut [u32; 5]) -> u32
    ensures answer { result ≡ barrier_number (barrier_on base state.old (length buf.old)) }
    ensures state { state.new ≡ barrier_state base state.old (length buf.old) }
    ensures buffer { buf.new ≡ barrier_buffer base state.old buf.old }
    ensures details { details.new
        ≡ detail_words details.old (barrier_on base state.old (length buf.old)) }
{
    answers::answer_barrier(calls::step(Bounds::of_build(), state, buf), details)
}

// ---- The lookups

// The dimension of a board. Refuses 1.
pub fn ocb_dimension(nodes: u32, found: &mut [u32; 1]) -> u32
    ensures answer { result ≡ lookup_number (dimension_lookup base nodes) }
    ensures memory { found.new ≡ number_words (dimension_lookup base nodes) found.old }
{
    lookup_answers::answer_found(tree::dimension_of(nodes), found)
}

// The place of a node in a dimension. Refuses 1, 2, 10.
pub fn ocb_place(nodes: u32, dimension: u32, node: u32, found: &mut [u32; 3]) -> u32
    ensures answer { result ≡ lookup_number (place_lookup base nodes dimension node) }
    ensures memory { found.new ≡ place_words (place_lookup base nodes dimension node) found.old }
{
    lookup_answers::answer_placed(lookups::place_of(nodes, dimension, node), found)
}

// The distance of two nodes. Refuses 1, 2, 3.
pub fn ocb_distance(nodes: u32, a: u32, b: u32, found: &mut [u32; 1]) -> u32
    ensures answer { result ≡ lookup_number (distance_lookup base nodes a b) }
    ensures memory { found.new ≡ number_words (distance_lookup base nodes a b) found.old }
{
    lookup_answers::answer_found(lookups::distance_of(nodes, a, b), found)
}

// ---- Frames, for tools and tests

// Writes a frame. Refuses 1, 10, 2, 14.
pub fn ocb_frame_write(
    nodes: u32,
    fields: &[u32; field_words::END],
    buf: &mut [u8],
    size: &mut [u32; 1],
) -> u32
    ensures answer { result ≡ lookup_number (write_on base nodes fields.now (length buf.old)) }
    ensures buffer { buf.new ≡ written_on base nodes fields.now buf.old }
    ensures size { size.new
        ≡ number_words (write_on base nodes fields.now (length buf.old)) size.old }
{
    lookup_answers::answer_found(fields::write(Bounds::of_build(), nodes, fields, buf), size)
}

// Reads a frame. Refuses 1, 9, 10, 2.
pub fn ocb_frame_read(nodes: u32, bytes: &[u8], fields: &mut [u32; field_words::END]) -> u32
    ensures answer { result ≡ lookup_number (read_frame base nodes bytes.now) }
    ensures memory { fields.new ≡ frame_words (read_frame base nodes bytes.now) fields.old }
{
    lookup_answers::answer_read(fields_read::read(Bounds::of_build(), nodes, bytes, fields))
}
