ghost use Rattle.std.specs.Prelude.{◌≡◌, [], length, slice_index_or};
ghost use Rattle.text.specs.Parts.{fields};

// The field with this index, counted from 0, or an empty one.
pub fn field(line: &[u8], index: usize) -> &[u8]
    ensures { result.now ≡ slice_index_or (fields line.now) index [] }
{
    line.split(|b| *b == b' ').nth(index).unwrap_or(&[])
}

// How many fields a line has, one more than its spaces. A loop, since it was the fastest of three forms.
pub fn field_count(line: &[u8]) -> usize
    ensures { result ≡ length (fields line.now) }
{
    let mut count = 0;
    for b in line {
        if *b == b' ' {
            count += 1;
        }
    }
    count + 1
}
