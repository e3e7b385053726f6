// bench HALL TIMES [WAY]: how long it takes to read a hall, to grow its obstacles and to check a way, in nanoseconds a run. Without arguments it does nothing.
#![tactic(auto)]

use anyhow::anyhow;
use hall::halls::Hall;
use hall::reader::{read_hall, read_way};
use motion::checker::check_route;
use obstacle::all::grow_all;
use std::time::Instant;
use std::{env, fs};

// How many nanoseconds one of so many runs takes.
fn time<F: FnMut()>(rt: &HostRuntime, times: u64, mut run: F) -> anyhow::Result<u128>
    requires { F.IsAlwaysCallable run }
{
    let start = Instant::now(rt)?;
    // A `for`: tried as `for_each`, whose proof didn't close.
    for _ in 0..times {
        run();
    }
    Ok(start.elapsed(rt)?.as_nanos() / u128::from(times.max(1)))
}

fn time_hall(rt: &HostRuntime, bytes: &[u8], hall: &Hall, times: u64) -> anyhow::Result<()> {
    let reading = time(rt, times, || drop(read_hall(rt.alloc(), bytes)))?;
    let growing = time(rt, times, || drop(grow_all(rt.alloc(), hall)))?;
    println!(rt; "read {reading} ns, obstacles {growing} ns")?;
    Ok(())
}

fn time_way(rt: &HostRuntime, bytes: &[u8], hall: &Hall, times: u64) -> anyhow::Result<()> {
    let route = read_way(rt.alloc(), bytes).map_err(|_| anyhow!("the way's bytes are refused"))?;
    check_route(rt.alloc(), hall, &route).map_err(|_| anyhow!("the way is refused"))?;
    let checking = time(rt, times, || drop(check_route(rt.alloc(), hall, &route)))?;
    let places = route.places().len();
    println!(rt; "check {checking} ns, a way of {places} places")?;
    Ok(())
}

fn run(rt: &HostRuntime, name: &str, times: u64, way: Option<String>) -> anyhow::Result<()> {
    let bytes = fs::read(rt, name)?;
    let hall = read_hall(rt.alloc(), bytes.as_slice()).map_err(|_| anyhow!("the hall is refused"))?;
    time_hall(rt, bytes.as_slice(), &hall, times)?;
    match way {
        Some(way) => time_way(rt, fs::read(rt, way.as_str())?.as_slice(), &hall, times),
        None => Ok(()),
    }
}

fn main(rt: HostRuntime) -> anyhow::Result<()> {
    let mut words = env::args(&rt)?.skip(1);
    let (Some(name), Some(times)) = (words.next(), words.next()) else {
        return Ok(());
    };
    let way = words.next();
    run(&rt, name.as_str(), times.as_str().parse::<u64>()?, way)
}
