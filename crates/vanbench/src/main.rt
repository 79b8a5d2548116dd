// Full rounds for a measurement: 8 vans with 23 stops each, then so many checks, and so many places with a remove.
#![tactic(auto)]

use fleet::interface::{Fleet, Routed};
use std::env;
use stops::class::Class;
use stops::place::Place;
use stops::refusal::Refusal;
use stops::slot::Slot;
use stops::stop::Stop;
use vans::memory::Memory;
use vans::van::Van;
use vans::vanfleet::VanFleet;

const VANS: u16 = 8;

const STOPS: u16 = 24;

// A number that no stop of the rounds has.
const ONE_MORE: u16 = 1000;

// A stop in a cluster away from the depot, so that the vans fill one after the other.
fn stop(n: u32) -> Result<Stop, Refusal> {
    let hours = Slot::new(0, 1439)?;
    let place = Place::new(10 + (n % 5) as i32, (n % 4) as i32)?;
    Stop::new(0, hours, place, 1 + n % 3, Class::Private)
}

// Full rounds.
fn filled(memory: Memory) -> Result<VanFleet, Refusal> {
    let van = Van::new(1000, 0, 1439)?;
    let mut fleet = VanFleet::new(memory, &[van; 8])?;
    for n in 0..VANS * STOPS {
        fleet.place(n + 1, &stop(u32::from(n))?)?;
    }
    Ok(fleet)
}

// One position is left free in each round.
fn thin_out(fleet: &mut VanFleet) -> Result<(), Refusal> {
    for v in 0..VANS {
        fleet.remove(STOPS * v + 1)?;
    }
    Ok(())
}

fn checked(fleet: &VanFleet, checks: u32) -> Result<u32, Refusal> {
    let mut admitted = 0u32;
    for n in 0..checks {
        if fleet.check(&stop(n)?).is_none() {
            admitted = admitted.saturating_add(1);
        }
    }
    Ok(admitted)
}

fn placed(fleet: &mut VanFleet, places: u32) -> Result<(), Refusal> {
    for n in 0..places {
        fleet.place(ONE_MORE, &stop(n)?)?;
        fleet.remove(ONE_MORE)?;
    }
    Ok(())
}

// The sum of all begins, which shows that another program holds the same rounds.
fn begins(fleet: &VanFleet) -> u64 {
    (1..=VANS * STOPS)
        .filter_map(|number| fleet.visit(number))
        .fold(0, |sum: u64, visit| {
            sum.saturating_add(u64::from(visit.minute))
        })
}

// The number that a word writes, or 0.
fn number(word: Option<String>) -> u32 {
    word.and_then(|text| text.as_str().parse().ok())
        .unwrap_or(0)
}

fn main(rt: HostRuntime) -> anyhow::Result<()> {
    let mut words = env::args(&rt)?.skip(1);
    let checks = number(words.next());
    let places = number(words.next());
    let memory = Memory::reserve(rt.alloc()).map_err(Refusal::from)?;
    let mut fleet = filled(memory)?;
    thin_out(&mut fleet)?;
    let admitted = checked(&fleet, checks)?;
    placed(&mut fleet, places)?;
    let sum = begins(&fleet);
    println!(rt; "{admitted} admitted, begins {sum}")?;
    Ok(())
}
