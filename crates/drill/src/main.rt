// A drill on the alert line: the same calls on three stations, joined in both ways, and then a join with a clash.
#![tactic(auto)]

mod answering;
mod asking;
mod calls;
mod lines;
mod stations;

use anyhow::anyhow;
use calls::{CALLS, CLASH_CALLS};
use history::Call;
use segment::Segment;
use segment_join::Join;
use segment_single::Single;
use stations::{other_station_10h, station_10h, station_12h, station_14h};

// The length of the reply buffer.
const REPLY_BYTES: usize = 16;

// Makes the calls on a segment, and prints the lines of their history.
fn drill<S: Segment>(rt: &HostRuntime, segment: &mut S, calls: &[Call<'_>]) -> anyhow::Result<()> {
    let mut reply = [0u8; REPLY_BYTES];
    let history = history::run(rt.alloc(), segment, calls, &mut reply).map_err(|_| anyhow!(
        "no memory for the history"
    ))?;
    lines::print_history(rt, &history)?;
    Ok(())
}

// The drill on three stations, in both nestings.
fn drill_nestings(rt: &HostRuntime) -> anyhow::Result<()> {
    let left = Join::new(Single::new(station_10h()), Single::new(station_12h()));
    let mut segment = Join::new(left, Single::new(station_14h()));
    rt.println("nesting ((10h 12h) 14h)")?;
    drill(rt, &mut segment, CALLS)?;
    let right = Join::new(Single::new(station_12h()), Single::new(station_14h()));
    let mut segment = Join::new(Single::new(station_10h()), right);
    rt.println("nesting (10h (12h 14h))")?;
    drill(rt, &mut segment, CALLS)
}

// The drill on a join of two stations at one address.
fn drill_clash(rt: &HostRuntime) -> anyhow::Result<()> {
    let left = Single::new(station_10h());
    let mut segment = Join::new(left, Single::new(other_station_10h()));
    rt.println("clash (10h 10h)")?;
    drill(rt, &mut segment, CLASH_CALLS)
}

// The drill on three stations, and then on the join with a clash.
fn main(rt: HostRuntime) -> anyhow::Result<()> {
    drill_nestings(&rt)?;
    drill_clash(&rt)
}
