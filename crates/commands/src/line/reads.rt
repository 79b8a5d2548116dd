ghost use Rattle.std.specs.Prelude.{◌≡◌};
ghost use Rattle.stops.specs.Refusals.{coded};
ghost use Rattle.commands.specs.Calls.{ReadBack, action_of, command, request_of};
ghost use Rattle.commands.specs.Values.{letter_of};
ghost use Rattle.commands.specs.Verbs.{verb_of};

use crate::fields::Fields;
use crate::limits::LINE_BYTES;
use crate::line::verb::Verb;
use calls::call::{Action, Call, Request};
use stops::refusal::Refusal;

// The call that a command line asks for.
pub fn read_call(line: &[u8]) -> Result<Call, Refusal>
    ensures value { coded result ≡ command line.now }
    ensures back { ReadBack line.now result }
{
    parse(line)
}

fn parse(line: &[u8]) -> Result<Call, Refusal>
    ensures { coded result ≡ command line.now }
{
    if line.len() > LINE_BYTES {
        return Err(Refusal::TooLong);
    }
    let fields = Fields::of(line);
    let verb = verb(&fields).ok_or(Refusal::UnknownCommand)?;
    if fields.count() != verb.field_count() {
        return Err(Refusal::FieldCount);
    }
    let minute = fields.number(1)?;
    let action = action(&fields, verb)?;
    Ok(Call { minute, action })
}

// What the first field asks for, if it is one of the letters.
fn verb(fields: &Fields<'_>) -> Option<Verb>
    ensures { result ≡ verb_of (letter_of fields.now) }
{
    fields.letter().and_then(Verb::from_letter)
}

fn action(fields: &Fields<'_>, verb: Verb) -> Result<Action, Refusal>
    ensures { coded result ≡ action_of fields.now verb }
{
    match verb {
        Verb::Offer => Ok(Action::Offer(request(fields)?)),
        Verb::Book => Ok(Action::Book(request(fields)?)),
        Verb::Confirm => Ok(Action::Confirm(fields.number(2)?)),
        Verb::Release => Ok(Action::Release(fields.number(2)?)),
        Verb::Withdraw => Ok(Action::Withdraw(fields.number(2)?)),
        Verb::Tick => Ok(Action::Tick),
    }
}

fn request(fields: &Fields<'_>) -> Result<Request, Refusal>
    ensures { coded result ≡ request_of fields.now }
{
    Ok(Request {
        class: fields.class(2)?,
        slot: fields.number(3)?,
        x: fields.signed(4)?,
        y: fields.signed(5)?,
        units: fields.number(6)?,
    })
}
