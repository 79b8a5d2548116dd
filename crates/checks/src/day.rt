use crate::trial::try_layered;
use areas::areaquotas::AreaQuotas;
use areas::limits::AREAS;
use areas::memory::Memory;
use areas::quota::Quota;
use areas::quotas::{AreaFleet, Quotas};
use fleet::interface::Fleet;
use fleet::layer::Layer;
use fleet::tally::Tally;
use layers::rules::reserve::{Reserve, Reserved};
use layers::rules::weight::{Weighed, Weight};
use layers::share::Share;
use layers::weight::WeightLimit;
use std::alloc::Global;
use std::test::Fail;
use stops::class::Class;
use stops::limits::SLOTS;
use stops::place::Place;
use stops::refusal::Refusal;
use stops::slot::Slot;
use stops::stop::Stop;

type Pile = Reserved<Weighed<AreaFleet>>;

// In each slot 2 places, 1 of them kept for trade, and 50 units; in each area and slot 1 stop.
fn pile(heap: Global) -> Result<Pile, Refusal> {
    let memory = Memory::reserve(heap)?;
    let quotas = AreaQuotas::new([Quota::new(1)?; SLOTS]);
    let areas = AreaFleet::new(memory, Quotas::new([quotas; AREAS]));
    let weight = Weight::new([WeightLimit::new(50)?; SLOTS]);
    let reserve = Reserve::new([Share::new(2, 1)?; SLOTS]);
    Ok(Layer::new(reserve, Layer::new(weight, areas)))
}

// A stop of slot 0, on the x axis.
fn stop(x: i32, units: u32, class: Class) -> Result<Stop, Refusal> {
    Stop::new(0, Slot::new(60, 120)?, Place::new(x, 0)?, units, class)
}

// Each level objects at its own depth, and a number that is held is refused first.
#[test]
fn depths(rt: HostRuntime) -> Result<(), Fail> {
    let mut pile = pile(rt.alloc())?;
    assert_eq!(rt; pile.place(1, &stop(10, 5, Class::Private)?), Ok(()));
    assert_eq!(rt; pile.check(&stop(60, 5, Class::Private)?), Some(0));
    assert_eq!(rt; pile.check(&stop(60, 46, Class::Trade)?), Some(1));
    let near = stop(20, 5, Class::Trade)?;
    assert_eq!(rt; pile.place(2, &near), Err(Refusal::NoRoom(2)));
    assert_eq!(rt; pile.place(1, &near), Err(Refusal::NumberHeld));
    assert_eq!(rt; pile.remove(2), Err(Refusal::NumberNotHeld));
    Ok(())
}

// Of two places with one kept, one private and one trade stop fill both.
#[test]
fn kept_place(rt: HostRuntime) -> Result<(), Fail> {
    let mut pile = pile(rt.alloc())?;
    assert_eq!(rt; pile.place(1, &stop(10, 5, Class::Private)?), Ok(()));
    let second = stop(60, 7, Class::Private)?;
    assert_eq!(rt; pile.place(2, &second), Err(Refusal::NoRoom(0)));
    assert_eq!(rt; pile.place(2, &stop(60, 8, Class::Trade)?), Ok(()));
    assert_eq!(rt;
        pile.tally(0),
        Tally {
            privates: 1,
            trades: 1,
            units: 13,
        }
    );
    assert_eq!(rt; pile.remove(1), Ok(()));
    assert_eq!(rt;
        pile.tally(0),
        Tally {
            privates: 0,
            trades: 1,
            units: 8,
        }
    );
    Ok(())
}

// A trial answers as a place does and leaves the load.
#[test]
fn trial(rt: HostRuntime) -> Result<(), Fail> {
    let mut pile = pile(rt.alloc())?;
    let first = stop(10, 5, Class::Private)?;
    assert_eq!(rt; try_layered(&mut pile, 1, &first), Ok(()));
    assert_eq!(rt; pile.holds(1), false);
    assert_eq!(rt; pile.place(1, &first), Ok(()));
    assert_eq!(rt; try_layered(&mut pile, 1, &first), Err(Refusal::NumberHeld));
    assert_eq!(rt; pile.holds(1), true);
    Ok(())
}
