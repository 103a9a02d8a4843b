//! Tests segments against zones, fires interrupts, and pushes events and reads them back, that many times, and prints
//! the results. The words are one of `touches`, `blocks` (`blocks_last` and `blocks_none`), `firings` and `pages`, and
//! how many times; without words each is done once. For `bench/run`.
#![tactic(auto)]

mod pages;
mod segments;
mod setpoints;
mod six_axes;
mod sixty_four_orders;
mod zoned_arm;

use pages::kept;
use segments::touching;
use setpoints::{under_no_zone, under_zones_of_last, under_zones_of_six};
use sixty_four_orders::SixtyFourOrders;
use std::alloc::Global;
use std::{env, io};

fn main(rt: HostRuntime) -> io::Result<()> {
    let mut words = env::args(&rt)?.skip(1);
    let work = words.next();
    let times = match words.next() {
        Some(word) => word.parse().unwrap_or(1),
        None => 1,
    };
    match &work {
        Some(work) => println!(rt; "{}", told(rt.alloc(), work.as_str(), times)),
        None => {
            for work in [
                "touches",
                "blocks",
                "blocks_last",
                "blocks_none",
                "firings",
                "pages",
            ] {
                println!(rt; "{work} {}", told(rt.alloc(), work, times))?;
            }
            Ok(())
        }
    }
}

/// How many segments touch a zone, how many setpoints a zone stops, how many events come back as they were, or how many
/// traps run; 0 if out of memory.
fn told(alloc: Global, work: &str, times: u32) -> u32 {
    match work {
        "touches" => touching(times),
        "blocks" => under_zones_of_six(alloc, times),
        "blocks_last" => under_zones_of_last(alloc, times),
        "blocks_none" => under_no_zone(alloc, times),
        "pages" => kept(alloc, times),
        _ => SixtyFourOrders::new(alloc).map_or(0, |mut orders| orders.traps(times)),
    }
}
