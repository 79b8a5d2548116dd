ghost use Rattle.std.specs.Prelude.{◌+◌, ◌*◌, ◌≤◌, length, drop};
ghost use Rattle.stops.specs.Refusals.{number, values};
ghost use Rattle.text.specs.Buffers.{Added, content};
ghost use Rattle.std.specs.List.{flat_map};
ghost use Rattle.text.specs.Parts.{lines};
ghost use Rattle.text.specs.Spaced.{spaced_line};
ghost use Rattle.commands.specs.Calls.{asked, call_line, named};
ghost use Rattle.batch.specs.Heard.{heard, refusal_line};
ghost use Rattle.batch.specs.Response.{Grown};

use calls::call::{Action, Call, Request};
use commands::line::reads::read_call;
use stops::refusal::Refusal;
use text::buffer::Buffer;
use text::lines::Lines;
use text::piece::Piece;

// An offer or a booking, behind its letter.
fn hear_request(
    verb: &'static str,
    minute: u32,
    request: Request,
    text: &mut Buffer,
) -> Result<(), Refusal>
    ensures { Added (spaced_line verb.now (asked minute request)) text.old result text.new }
{
    let space = Piece::Word(" ");
    text.add_line(&[
        Piece::Word(verb),
        space,
        Piece::Number(minute),
        space,
        Piece::Word(request.class.letter()),
        space,
        Piece::Number(request.slot),
        space,
        Piece::Signed(request.x),
        space,
        Piece::Signed(request.y),
        space,
        Piece::Number(request.units),
    ])
}

// A call that names a number, behind its letter.
fn hear_number(
    verb: &'static str,
    minute: u32,
    number: u32,
    text: &mut Buffer,
) -> Result<(), Refusal>
    ensures { Added (spaced_line verb.now (named minute number)) text.old result text.new }
{
    let space = Piece::Word(" ");
    text.add_line(&[
        Piece::Word(verb),
        space,
        Piece::Number(minute),
        space,
        Piece::Number(number),
    ])
}

fn hear_call(call: &Call, text: &mut Buffer) -> Result<(), Refusal>
    ensures { Added (call_line call.now) text.old result text.new }
{
    let minute = call.minute;
    match call.action {
        Action::Offer(request) => hear_request("O", minute, request, text),
        Action::Book(request) => hear_request("B", minute, request, text),
        Action::Confirm(number) => hear_number("C", minute, number, text),
        Action::Release(number) => hear_number("G", minute, number, text),
        Action::Withdraw(number) => hear_number("W", minute, number, text),
        Action::Tick => text.add_line(&[Piece::Word("T "), Piece::Number(minute)]),
    }
}

fn hear_refusal(refusal: Refusal, text: &mut Buffer) -> Result<(), Refusal>
    ensures { Added (refusal_line (number refusal) (values refusal)) text.old result text.new }
{
    let refused = Piece::Word("refused ");
    let code = Piece::Number(u32::from(refusal.number()));
    let (name, value) = match refusal {
        Refusal::NoRoom(depth) => (" depth ", depth),
        Refusal::BadField(field) => (" field ", field),
        _ => return text.add_line(&[refused, code]),
    };
    text.add_line(&[
        refused,
        code,
        Piece::Word(name),
        Piece::Number(u32::from(value)),
    ])
}

fn hear_line(line: &[u8], text: &mut Buffer) -> Result<(), Refusal>
    ensures { Added (heard line.now) text.old result text.new }
{
    match read_call(line) {
        Ok(call) => hear_call(&call, text),
        Err(refusal) => hear_refusal(refusal, text),
    }
}

// What was heard of each line but for so many at the front, in order, where there is room for 80 bytes a line.
pub(crate) fn hear_all(input: &[u8], passed: usize, text: &mut Buffer) -> Result<(), Refusal>
    requires { length (content text.old) + 80 * length (drop passed (lines input.now)) ≤ text.old.room }
    ensures { Grown (flat_map heard (drop passed (lines input.now))) text.old result text.new }
{
    for line in Lines::of(input).skip(passed) {
        hear_line(line, text)?;
    }
    Ok(())
}
