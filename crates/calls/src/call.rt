use stops::class::Class;

// What an offer asks for, as it was said: nothing is known to be in range.
#[derive(Clone, Copy, PartialEq, Eq, Debug)]
pub struct Request {
    pub class: Class,
    pub slot: u32,
    pub x: i32,
    pub y: i32,
    pub units: u32,
}

// What a call wants of the book; a number is the one that the call names.
#[derive(Clone, Copy, PartialEq, Eq, Debug)]
pub enum Action {
    Offer(Request),
    Book(Request),
    Confirm(u32),
    Release(u32),
    Withdraw(u32),
    Tick,
}

// A call, with the booking minute that it names.
#[derive(Clone, Copy, PartialEq, Eq, Debug)]
pub struct Call {
    pub minute: u32,
    pub action: Action,
}
