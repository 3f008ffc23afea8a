// For the bench alone: an image checked once, and a log walked one event at a time. Nothing else uses this crate.
#![tactic(auto)]

ghost use Rattle.std.specs.Prelude.{◌≡◌, ◌+◌, ◌<◌};
ghost use Rattle.stepbench.specs.Sum.{summed, summed_first};

use image::Walk;

fn total(walk: Walk) -> u64
    ensures { (result ≡ walk.place + walk.level + walk.steps) × (result < 12884901888) }
{
    u64::from(walk.place) + u64::from(walk.level) + u64::from(walk.steps)
}

fn steps(image: &[u8], places: u32, log: &[u8]) -> u64
    ensures { result ≡ summed image.now places 0 0 log.now }
{
    let mut place = 0;
    let mut sum: u64 = 0;
    for &event in log {
        // where it is refused, place 0
        let walk = image::next_in(image, places, place, event).unwrap_or_default();
        sum = (sum + total(walk)) % 4294967296;
        place = walk.place;
    }
    sum
}

// The places, levels and failure steps of all events of the log, added up; 0 where the image is refused.
#[unsafe(no_mangle)]
pub extern "C" fn gusemrak_bench_steps(image: &[u8], log: &[u8]) -> u64
    ensures { result ≡ summed_first image.now log.now }
{
    match image::check_image(image) {
        Ok(counts) => steps(image, counts.places, log),
        Err(_) => 0,
    }
}
