use batch::respond::{INPUT_BYTES, respond};
use batch::workspace::Workspace;
use batch::workspace::reserves::OUTPUT_BYTES;
use std::alloc::{AllocError, Global};
use std::process::Abort;
use std::test::Fail;
use stops::refusal::Refusal;

// Inputs, and the whole output for each.
const CASES: [(&[u8], &[u8]); 34] = [
    (b"", b"refused 15 line 1\n"),
    (b"\n", b"refused 15 line 1\n"),
    (b"S 60 120 2 1 50\nV 40 0 300\n", GOOD),
    // a last line without its end counts
    (b"S 60 120 2 1 50\nV 40 0 300", GOOD),
    // any other first field ends the set-up, an S behind a V too, however long the line
    (
        b"S 60 120 2 1 50\nV 40 0 300\n\nV 40 0 300\n",
        b"slots 1\nslot 0 60 120 2 1 50\nvans 1\nvan 0 40 0 300\nrefused 11\nrefused 11\n",
    ),
    (
        b"S 60 120 2 1 50\nV 40 0 300\nS 1 2 3 4\n",
        b"slots 1\nslot 0 60 120 2 1 50\nvans 1\nvan 0 40 0 300\nrefused 11\n",
    ),
    (
        b"S 60 120 2 1 50\nV 40 0 300\nX23456789012345678901234567890123456789012345678901234567890123456789012345678901\n",
        b"slots 1\nslot 0 60 120 2 1 50\nvans 1\nvan 0 40 0 300\nrefused 14\n",
    ),
    // a line is missing
    (b"S 60 120 2 1 50\n", b"refused 15 line 2\n"),
    (b"S 60 120 2 1 50\nT 5\n", b"refused 15 line 2\n"),
    (b"V 40 0 300\n", b"refused 15 line 1\n"),
    (b" S 60 120 2 1 50\nV 40 0 300\n", b"refused 15 line 1\n"),
    (b"s 60 120 2 1 50\nV 40 0 300\n", b"refused 15 line 1\n"),
    // wrong count of fields
    (b"S\nV 40 0 300\n", b"refused 12 line 1\n"),
    (b"S 60 120 2 1\nV 40 0 300\n", b"refused 12 line 1\n"),
    (b"S 60 120 2 1 50 \nV 40 0 300\n", b"refused 12 line 1\n"),
    (b"S 60 120 2 1 50\nV  40 0 300\n", b"refused 12 line 2\n"),
    // no number
    (b"S 060 120 2 1 50\nV 40 0 300\n", b"refused 13 line 1\n"),
    (b"S 60 120 2 -1 50\nV 40 0 300\n", b"refused 13 line 1\n"),
    (
        b"S 60 120 2 1 1000000\nV 40 0 300\n",
        b"refused 13 line 1\n",
    ),
    (b"S 60 120 2 1 50\nV 40 0 x\n", b"refused 13 line 2\n"),
    (b"S 60 120 2 1 50\nV 40  300\n", b"refused 13 line 2\n"),
    // out of range
    (b"S 60 60 2 1 50\nV 40 0 300\n", b"refused 17 line 1\n"),
    (b"S 60 1440 2 1 50\nV 40 0 300\n", b"refused 17 line 1\n"),
    (b"S 60 120 257 1 50\nV 40 0 300\n", b"refused 17 line 1\n"),
    (b"S 60 120 2 3 50\nV 40 0 300\n", b"refused 17 line 1\n"),
    (b"S 60 120 2 1 10000\nV 40 0 300\n", b"refused 17 line 1\n"),
    (b"S 60 120 2 1 50\nV 0 0 300\n", b"refused 17 line 2\n"),
    (b"S 60 120 2 1 50\nV 1001 0 300\n", b"refused 17 line 2\n"),
    (b"S 60 120 2 1 50\nV 40 301 300\n", b"refused 17 line 2\n"),
    (b"S 60 120 2 1 50\nV 40 0 1440\n", b"refused 17 line 2\n"),
    // in the order of the checks: 12 before 13, 13 before 17, 14 before 12
    (b"S x 60\nV 40 0 300\n", b"refused 12 line 1\n"),
    (b"S 60 60 2 1 x\nV 40 0 300\n", b"refused 13 line 1\n"),
    (
        b"S 60 120 2 1 50\nV 00000000000000000000000000000000000000000000000000000000000000000000000000000000\n",
        b"refused 14 line 2\n",
    ),
    // the first bad line is refused
    (
        b"S 60 120 2 1 50\nS 0 0 0 0 0\nS\nV\n",
        b"refused 17 line 2\n",
    ),
];

const GOOD: &[u8] = b"slots 1\nslot 0 60 120 2 1 50\nvans 1\nvan 0 40 0 300\n";

// Responds to an input, and compares the output.
fn responds(rt: &impl Abort, heap: Global, input: &[u8], expected: &[u8]) -> Result<(), Fail> {
    let work = Workspace::reserve(heap)?;
    let mut out = vec![in heap; 0u8; OUTPUT_BYTES]?;
    let len = respond(work, input, &mut out)?;
    assert!(rt; len <= OUTPUT_BYTES);
    assert_eq!(rt; &out[..len], expected);
    Ok(())
}

#[test]
fn sheets(rt: HostRuntime) -> Result<(), Fail> {
    for (input, expected) in CASES {
        responds(&rt, rt.alloc(), input, expected)?;
    }
    Ok(())
}

// So many S lines, so many V lines, and one line more.
fn sheet(heap: Global, slots: usize, vans: usize, last: &[u8]) -> Result<Vec<u8>, AllocError> {
    let mut input = Vec::new(heap);
    repeat(&mut input, b"S 60 120 2 1 50\n", slots)?;
    repeat(&mut input, b"V 40 0 300\n", vans)?;
    input.extend_from_slice(last)?;
    Ok(input)
}

fn repeat(input: &mut Vec<u8>, line: &[u8], count: usize) -> Result<(), AllocError> {
    for _ in 0..count {
        input.extend_from_slice(line)?;
    }
    Ok(())
}

// What is refused behind so many S lines and V lines.
const TOO_MANY: [(usize, usize, &[u8], &[u8]); 5] = [
    (12, 0, b"S\n", b"refused 16 line 13\n"),
    (12, 0, b"S 0 0\n", b"refused 16 line 13\n"),
    (12, 8, b"V\n", b"refused 16 line 21\n"),
    (
        12,
        8,
        b"V 000000000000000000000000000000000000000000000000000000000000000000000000000000\n",
        b"refused 16 line 21\n",
    ),
    (
        12,
        8,
        b"V 0000000000000000000000000000000000000000000000000000000000000000000000000000000\n",
        b"refused 14 line 21\n",
    ),
];

#[test]
fn too_many_lines(rt: HostRuntime) -> Result<(), Fail> {
    for (slots, vans, last, expected) in TOO_MANY {
        let input = sheet(rt.alloc(), slots, vans, last)?;
        responds(&rt, rt.alloc(), &input, expected)?;
    }
    Ok(())
}

#[test]
fn longest_input(rt: HostRuntime) -> Result<(), Fail> {
    let mut input = sheet(rt.alloc(), 1, 1, b"")?;
    input.resize(INPUT_BYTES, b'T')?;
    assert_eq!(rt; input.len(), INPUT_BYTES);
    responds(
        &rt,
        rt.alloc(),
        &input,
        b"slots 1\nslot 0 60 120 2 1 50\nvans 1\nvan 0 40 0 300\nrefused 14\n",
    )?;
    input.push(b'T')?;
    responds(&rt, rt.alloc(), &input, b"refused 14 line 0\n")
}

#[test]
fn short_buffer(rt: HostRuntime) -> Result<(), Fail> {
    let input = sheet(rt.alloc(), 1, 1, b"")?;
    let mut out = [7u8; 60];
    let short = GOOD.len() - 1;
    let refused = respond(Workspace::reserve(rt.alloc())?, &input, &mut out[..short]);
    assert_eq!(rt; refused, Err(Refusal::TooShort));
    assert_eq!(rt; &out, &[7u8; 60]);
    let len = respond(Workspace::reserve(rt.alloc())?, &input, &mut out)?;
    assert_eq!(rt; len, GOOD.len());
    assert_eq!(rt; &out[GOOD.len()..], &[7u8; 60][GOOD.len()..]);
    Ok(())
}

// Command lines behind a good set-up, and how each was read.
const COMMANDS: [(&[u8], &[u8]); 26] = [
    (b"O 0 P 0 10 0 5", b"O 0 P 0 10 0 5\n"),
    (
        b"B 999999 T 999999 -999999 999999 999999",
        b"B 999999 T 999999 -999999 999999 999999\n",
    ),
    (b"C 5 1", b"C 5 1\n"),
    (b"G 5 65537", b"G 5 65537\n"),
    (b"W 5 0", b"W 5 0\n"),
    (b"T 100001", b"T 100001\n"),
    // 11 before 12 and 13
    (b"X", b"refused 11\n"),
    (b"o 0 P 0 10 0 5", b"refused 11\n"),
    (b"OO 0 P 0 10 0 5", b"refused 11\n"),
    (b" T 5", b"refused 11\n"),
    // 12 before 13
    (b"T", b"refused 12\n"),
    (b"T x y", b"refused 12\n"),
    (b"T 5 ", b"refused 12\n"),
    (b"C 5", b"refused 12\n"),
    (b"O 0 P 0 10 0", b"refused 12\n"),
    (b"O 0 P 0 10 0 5 6", b"refused 12\n"),
    // 13 at the first bad field
    (b"O x Q 0 10 0 5", b"refused 13 field 1\n"),
    (b"O 0 Q 0 10 0 5", b"refused 13 field 2\n"),
    (b"O 0 PT 0 10 0 5", b"refused 13 field 2\n"),
    (b"O 0 P -1 10 0 5", b"refused 13 field 3\n"),
    (b"O 0 P 0 -0 0 5", b"refused 13 field 4\n"),
    (b"O 0 P 0 10 - 5", b"refused 13 field 5\n"),
    (b"O 0 P 0 10 0 05", b"refused 13 field 6\n"),
    (b"C 5 1234567", b"refused 13 field 2\n"),
    // 14 before 11: 80 bytes pass, 81 do not
    (
        b"X2345678901234567890123456789012345678901234567890123456789012345678901234567890",
        b"refused 11\n",
    ),
    (
        b"X23456789012345678901234567890123456789012345678901234567890123456789012345678901",
        b"refused 14\n",
    ),
];

#[test]
fn command_lines(rt: HostRuntime) -> Result<(), Fail> {
    let heap = rt.alloc();
    for (line, expected) in COMMANDS {
        let input = sheet(heap, 1, 1, line)?;
        let mut output = GOOD.to_vec(heap)?;
        output.extend_from_slice(expected)?;
        responds(&rt, heap, &input, &output)?;
    }
    Ok(())
}
