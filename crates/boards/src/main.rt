// Prints who talks to whom on boards of five and of six nodes (rule T8), a line for each node and dimension; the timing
// of phase bytes; and the frame writer and reader at the limit of a field.
#![tactic(auto)]

use base::{Bounds, Refusal};
use frame::Timing;
use std::io;
use tree::Placed;

fn print_place(rt: &impl Print, place: Result<Placed, Refusal>) -> io::Result<()> {
    match place {
        Ok(Placed::Alone) => print!(rt; " alone"),
        Ok(Placed::Hermit(next)) => print!(rt; " hermit, awaits {next}"),
        Ok(Placed::Neighbour(other)) => print!(rt; " neighbour of {other}"),
        Ok(Placed::Messenger(other, hermit)) => {
            print!(rt; " neighbour of {other} and messenger to {hermit}")
        }
        Err(refusal) => print!(rt; " refused {}", refusal.number()),
    }
}

fn print_line(rt: &impl Print, nodes: u32, node: u32, dimension: u32) -> io::Result<()> {
    print!(rt; "{nodes} {node} {dimension}")?;
    print_place(rt, lookups::place_of(nodes, dimension, node))?;
    println!(rt)
}

fn print_node(rt: &impl Print, nodes: u32, node: u32, dimensions: u32) -> io::Result<()> {
    for k in 0..dimensions {
        print_line(rt, nodes, node, k)?;
    }
    Ok(())
}

fn print_board(rt: &impl Print, nodes: u32) -> io::Result<()> {
    let Ok(dimensions) = tree::dimension_of(nodes) else {
        return Ok(());
    };
    for node in 0..nodes {
        print_node(rt, nodes, node, dimensions)?;
    }
    Ok(())
}

fn print_timing(rt: &impl Print, node: u8, other: u8) -> io::Result<()> {
    print!(rt; "node in phase {node}, frame of phase {other}")?;
    let timing = frame::timing_of(other, node);
    match timing {
        Timing::Now => println!(rt; ": now"),
        Timing::Early => println!(rt; ": early, 7"),
        Timing::Late => println!(rt; ": late"),
        Timing::Foreign => println!(rt; ": foreign, 8"),
    }
}

fn print_length(rt: &impl Print, answer: Result<u32, Refusal>) -> io::Result<()> {
    match answer {
        Ok(length) => println!(rt; " length {length}"),
        Err(refusal) => println!(rt; " refused {}", refusal.number()),
    }
}

fn print_done(rt: &impl Print, answer: Result<(), Refusal>) -> io::Result<()> {
    match answer {
        Ok(()) => println!(rt; " done"),
        Err(refusal) => println!(rt; " refused {}", refusal.number()),
    }
}

// A pass 2 frame with a number as T, written on a board of two nodes.
fn print_written(rt: &impl Print, agreed: u32) -> io::Result<()> {
    print!(rt; "field {agreed} written:")?;
    let mut words = [0u32; field_words::END];
    words[field_words::PASS] = 2;
    words[field_words::SENDER] = 1;
    words[field_words::AGREED] = agreed;
    let mut buffer = [0u8; 12];
    print_length(
        rt,
        fields::write(Bounds::of_build(), 2, &words, &mut buffer),
    )
}

// The bytes of a pass 2 frame whose T is 6,291,200 = 0x005fff00 with another low byte. With 160 it is the limit.
fn print_read(rt: &impl Print, low: u8) -> io::Result<()> {
    print!(rt; "field 6291200 and {low} read:")?;
    let bytes = [2, 0, 0, 1, low, 255, 95, 0, 0, 0, 0, 0];
    let mut words = [0u32; field_words::END];
    print_done(
        rt,
        fields_read::read(Bounds::of_build(), 2, &bytes, &mut words),
    )
}

fn main(rt: HostRuntime) -> io::Result<()> {
    println!(rt; "nodes node dimension place")?;
    print_board(&rt, 5)?;
    print_board(&rt, 6)?;
    print_timing(&rt, 0, 255)?;
    print_timing(&rt, 255, 0)?;
    print_timing(&rt, 3, 5)?;
    print_timing(&rt, 3, 3)?;
    print_written(&rt, 6291360)?;
    print_written(&rt, 6291361)?;
    print_read(&rt, 160)?;
    print_read(&rt, 161)
}
