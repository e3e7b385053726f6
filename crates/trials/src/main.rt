// The replies to the halls and ways of a list, as a table. A line of the list names a hall, or a hall and a way; after the word `cuts` it names a hall
// whose bytes are cut short in every way, and then one byte too many; after the word
// `obstacles` one whose obstacles are compared with another test at many places.
#![tactic(auto)]

mod direct;

use anyhow::anyhow;
use direct::same_places;
use hall::reader::read_hall;
use obstacle::all::grow_all;
use std::fs;
use text::plans::reply_of;
use text::rendering::render;
use text::replies::{check_reply, plan_reply};

fn bytes_of(rt: &HostRuntime, name: &str, ending: &str) -> anyhow::Result<Vec<u8>> {
    let file = format!(in rt.alloc(); "{name}.{ending}")?;
    Ok(fs::read(rt, file.as_str())?)
}

fn planned(rt: &HostRuntime, bytes: &[u8]) -> anyhow::Result<String> {
    let planned = plan_reply(rt.alloc(), bytes);
    Ok(render(rt.alloc(), reply_of(&planned))?)
}

fn hall_line(rt: &HostRuntime, name: &str) -> anyhow::Result<()> {
    let bytes = bytes_of(rt, name, "hall")?;
    let reply = planned(rt, bytes.as_slice())?;
    print!(rt; "{name}: {reply}")?;
    Ok(())
}

fn way_line(rt: &HostRuntime, hall: &str, way: &str) -> anyhow::Result<()> {
    let hall_bytes = bytes_of(rt, hall, "hall")?;
    let way_bytes = bytes_of(rt, way, "way")?;
    let reply = render(
        rt.alloc(),
        check_reply(rt.alloc(), hall_bytes.as_slice(), way_bytes.as_slice()),
    )?;
    print!(rt; "{hall} {way}: {reply}")?;
    Ok(())
}

// Whether a hall's bytes that are cut short are refused at their length.
fn is_refused_at_end(rt: &HostRuntime, cut: &[u8]) -> anyhow::Result<bool> {
    let reply = planned(rt, cut)?;
    let length = cut.len();
    let expected = format!(in rt.alloc(); "refused 1 at {length}\n")?;
    Ok(reply.as_str() == expected.as_str())
}

// How many of the cuts of a hall's bytes are refused at their length.
fn cut_lines(rt: &HostRuntime, name: &str) -> anyhow::Result<()> {
    let mut bytes = bytes_of(rt, name, "hall")?;
    let whole = bytes.len();
    let right = (0..whole).try_fold(0usize, |right, length| -> anyhow::Result<usize> {
        let refused = is_refused_at_end(rt, &bytes.as_slice()[0..length])?;
        Ok(right.saturating_add(usize::from(refused)))
    })?;
    println!(rt; "{name}: {right} of {whole} cuts are refused at their length")?;
    bytes.push(0)?;
    let reply = planned(rt, bytes.as_slice())?;
    print!(rt; "{name} and a byte: {reply}")?;
    Ok(())
}

// At how many places each obstacle of a hall says the same as the direct test.
fn obstacle_line(rt: &HostRuntime, name: &str) -> anyhow::Result<()> {
    let bytes = bytes_of(rt, name, "hall")?;
    let hall = read_hall(rt.alloc(), bytes.as_slice()).map_err(|_| anyhow!("the hall is refused"))?;
    let load = hall.load();
    let things = hall.things(rt.alloc())?;
    let obstacles = grow_all(rt.alloc(), &hall)?;
    let same = things
        .iter()
        .zip(obstacles.iter())
        .map(|(thing, obstacle)| same_places(&load, thing, obstacle))
        .fold(0, usize::saturating_add);
    let all = things.len().saturating_mul(101 * 61);
    println!(rt; "{name}: obstacles are right at {same} of {all} places")?;
    Ok(())
}

fn line_of(rt: &HostRuntime, line: &str) -> anyhow::Result<()> {
    match line.split_once(' ') {
        None => hall_line(rt, line),
        Some(("cuts", name)) => cut_lines(rt, name),
        Some(("obstacles", name)) => obstacle_line(rt, name),
        Some((hall, way)) => way_line(rt, hall, way),
    }
}

fn run(rt: &HostRuntime) -> anyhow::Result<()> {
    for line in rt.lines(rt.alloc()) {
        line_of(rt, line?.as_str())?;
    }
    Ok(())
}

fn main(rt: HostRuntime) -> anyhow::Result<()> {
    run(&rt)
}
