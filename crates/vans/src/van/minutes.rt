ghost use Rattle.std.specs.Prelude.{◌≡◌, ◌+◌, ◌≤◌, Decides};
ghost use Rattle.stops.specs.Limits.{last_minute};
ghost use Rattle.stops.specs.Places.{depot};
ghost use Rattle.vans.specs.Limits.{service_minutes, travel_limit};
ghost use Rattle.vans.specs.Figures.{travel, service, InWindow, window_end};
ghost use Rattle.vans.specs.Rounds.{begin, detour};
ghost use Rattle.vans.specs.Better.{Offers};
ghost use Rattle.vans.specs.Insertions.{latest_begin, Insertable};

use crate::choice::Insertion;
use crate::leg::{Arrival, Departure};
use crate::limits::SERVICE;
use crate::van::Van;
use stops::place::Place;
use stops::stop::Stop;

impl Van {
    // The minutes from one place to another.
    #[tactic(auto, unfolding(crate::specs::Figures::travel))]
    pub(crate) fn travel(&self, from: &Place, to: &Place) -> u16
        ensures bound { result ≤ travel_limit }
        ensures value { result ≡ travel self.now from.now to.now }
    {
        from.distance(to)
    }

    // The minutes of service at a stop.
    #[tactic(auto, unfolding(crate::specs::Figures::service))]
    pub(crate) fn service(&self, _stop: &Stop) -> u16
        ensures bound { result ≤ service_minutes }
        ensures value { result ≡ service self.now _stop.now }
    {
        SERVICE
    }

    // The window test: whether a stop may begin at this minute.
    #[tactic(auto, unfolding(crate::specs::Figures::InWindow))]
    pub(crate) fn in_window(&self, stop: &Stop, minute: u16) -> bool
        ensures { Decides result (InWindow self.now stop.now minute) }
    {
        minute <= stop.hours.closes
    }

    // The last minute that passes the window test.
    #[tactic(auto, unfolding(crate::specs::Figures::window_end))]
    pub(crate) fn window_end(&self, stop: &Stop) -> u16
        ensures { result ≡ window_end self.now stop.now }
    {
        stop.hours.closes
    }

    // The van leaves the depot at its start.
    pub(crate) fn departure(&self) -> Departure
        ensures from { result.from ≡ depot }
        ensures minute { result.minute ≡ self.now.start }
    {
        Departure {
            from: Place::depot(),
            minute: self.start,
        }
    }

    // It must be back at the depot by its end.
    pub(crate) fn arrival(&self) -> Arrival
        ensures { result ≡ record { to = depot; by = self.now.end } }
    {
        Arrival {
            to: Place::depot(),
            by: self.end,
        }
    }

    // The begin of a stop: the later of arrival and open.
    #[tactic(auto, unfolding(crate::specs::Rounds::begin))]
    pub(crate) fn begin(&self, leave: &Departure, stop: &Stop) -> u16
        ensures bound { result ≤ last_minute + travel_limit }
        ensures value { result ≡ begin self.now leave.now.from leave.now.minute stop.now }
    {
        (leave.minute + self.travel(&leave.from, &stop.place)).max(stop.hours.opens)
    }

    // The departure after service at a stop, within the day.
    pub(crate) fn after(&self, leave: &Departure, stop: &Stop) -> Departure
        requires { begin self.now leave.now.from leave.now.minute stop.now + service self.now stop.now ≤ last_minute }
        ensures from { result.from ≡ stop.now.place }
        ensures minute { result.minute ≡ begin self.now leave.now.from leave.now.minute stop.now + service self.now stop.now }
    {
        Departure {
            from: stop.place,
            minute: self.begin(leave, stop) + self.service(stop),
        }
    }

    // The arrival at a stop by its latest begin, before the next arrival.
    pub(crate) fn before(&self, stop: &Stop, next: &Arrival) -> Arrival
        ensures { result ≡ record { to = stop.now.place; by = latest_begin self.now stop.now next.now.to next.now.by } }
    {
        let rest = self.service(stop) + self.travel(&stop.place, &next.to);
        Arrival {
            to: stop.place,
            by: self.window_end(stop).min(next.by.saturating_sub(rest)),
        }
    }

    // Whether a stop can begin in its window, and the next arrival be in time.
    pub(crate) fn insertable(&self, leave: &Departure, stop: &Stop, next: &Arrival) -> bool
        ensures { Decides result (Insertable self.now leave.now.from leave.now.minute stop.now next.now.to next.now.by) }
    {
        let begin = self.begin(leave, stop);
        let reached = begin + self.service(stop) + self.travel(&stop.place, &next.to);
        self.in_window(stop, begin) && reached <= next.by
    }

    // The travel that a stop adds between two places.
    #[tactic(auto, using(crate::specs::FigureLaws::travel_triangle))]
    pub(crate) fn detour(&self, from: &Place, stop: &Stop, to: &Place) -> u16
        ensures { result ≡ detour self.now from.now stop.now to.now }
    {
        self.travel(from, &stop.place) + self.travel(&stop.place, to) - self.travel(from, to)
    }

    // A position for a stop between a departure and the next arrival, if there is time for it.
    pub(crate) fn insertion(
        &self,
        position: usize,
        leave: &Departure,
        stop: &Stop,
        next: &Arrival,
    ) -> Option<Insertion<usize>>
        ensures { Offers (Insertable self.now leave.now.from leave.now.minute stop.now next.now.to next.now.by) position (detour self.now leave.now.from stop.now next.now.to) result }
    {
        let insertion = Insertion {
            at: position,
            added: self.detour(&leave.from, stop, &next.to),
        };
        self.insertable(leave, stop, next).then_some(insertion)
    }
}
