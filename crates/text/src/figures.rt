ghost use Rattle.std.specs.Prelude.{decimal};
ghost use Rattle.text.specs.Written.{Wrote};

use stops::refusal::Refusal;

// Writes the figures of n in base ten at the front of a buffer.
pub fn write_number(n: u32, out: &mut [u8]) -> Result<usize, Refusal>
    ensures { Wrote (decimal n) out.old result out.new }
{
    let len = out.len();
    if len == 0 {
        return Err(Refusal::TooShort);
    }
    if n < 10 {
        out[0] = b'0' + n as u8;
        return Ok(1);
    }
    let at = write_number(n / 10, &mut out[0..len - 1])?;
    out[at] = b'0' + (n % 10) as u8;
    Ok(at + 1)
}
