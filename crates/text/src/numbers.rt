ghost use Rattle.std.specs.Prelude.{◌≡◌, ◌<◌, ◌≤◌, length, IfSome};
ghost use Rattle.text.specs.Numbers.{reading, plain, signed};

// The most figures of a number.
const FIGURES: usize = 6;

// The number that figures write.
fn read_figures(field: &[u8]) -> Option<u32>
    requires { length field.now ≤ 6 }
    ensures value { result ≡ reading 0 field.now }
    ensures bound { IfSome result (λ n. n < 1000000) }
{
    let mut n = 0;
    for b in field {
        n = n * 10 + char::from(*b).to_digit(10)?;
    }
    Some(n)
}

// The number that a field writes, if it has 1 to 6 figures and no leading zero but in 0 itself.
pub fn plain_number(field: &[u8]) -> Option<u32>
    ensures value { result ≡ plain field.now }
    ensures bound { IfSome result (λ n. n < 1000000) }
{
    match field {
        [] | [b'0', _, ..] => None,
        _ if field.len() > FIGURES => None,
        _ => read_figures(field),
    }
}

// The same with an optional minus sign, but for -0.
pub fn signed_number(field: &[u8]) -> Option<i32>
    ensures { result ≡ signed field.now }
{
    match field {
        [b'-', b'0', ..] => None,
        [b'-', figures @ ..] => plain_number(figures).map(|n| -(n as i32)),
        _ => plain_number(field).map(|n| n as i32),
    }
}
