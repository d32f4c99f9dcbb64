// Images under scripts.

use crate::calls::Call;
use crate::expected::{Expected, Printed, compared};
use crate::rows::{Row, message, mismatch};
use crate::sources::shelf_files;
use mc_word::bytes::Memory;
use std::alloc::Global;
use std::test::Fail;

/// An image and a script, the status that `exec` answers, and what it prints.
#[derive(Clone, Copy, Debug)]
struct ImageRow<'a>(&'a [u8], &'a str, u8, &'a str);

impl Row for ImageRow<'_> {
    fn difference(&self, alloc: Global) -> Result<Option<String>, Memory> {
        let ImageRow(image, script, status, printed) = self;
        let call = Call {
            command: "exec a b",
            files: &shelf_files(image, script.as_bytes()),
            failing: &[],
        };
        let expected = Expected {
            status: *status,
            printed: Printed::Text(printed),
            // An image is refused before its script is loaded.
            asked: if *status == 4 {
                "load a"
            } else {
                "load a, load b"
            },
            saved: None,
        };
        compared(alloc, &call, &expected)
    }
}

/// The image of 22 bytes that prints 101 and halts: MOV #101, @#177566; HALT.
const HALTS: [u8; 22] = [
    0o001, 0, 0o016, 0, 0, 0o002, 0o337, 0o025, 0o101, 0, 0o166, 0o377, 0, 0, 0o105, 0o001, 0,
    0o006, 0, 0, 0o002, 0o367,
];

/// The first 15 bytes of `HALTS`, which are its first block.
const NO_START: [u8; 15] = [
    0o001, 0, 0o016, 0, 0, 0o002, 0o337, 0o025, 0o101, 0, 0o166, 0o377, 0, 0, 0o105,
];

/// The first 14 bytes of `HALTS`.
const NO_SUM: [u8; 14] = [
    0o001, 0, 0o016, 0, 0, 0o002, 0o337, 0o025, 0o101, 0, 0o166, 0o377, 0, 0,
];

/// `HALTS` with another sum of its first block.
const OTHER_SUM: [u8; 22] = [
    0o001, 0, 0o016, 0, 0, 0o002, 0o337, 0o025, 0o101, 0, 0o166, 0o377, 0, 0, 0, 0o001, 0, 0o006,
    0, 0, 0o002, 0o367,
];

/// `HALTS`, images that are refused, and a word that is reserved.
const IMAGES: &[ImageRow] = &[
    ImageRow(&HALTS, "", 8, "print 101\ninstructions 2\nhalt\n"),
    ImageRow(&HALTS, "limit 2", 8, "print 101\ninstructions 2\nhalt\n"),
    ImageRow(&HALTS, "limit 1", 7, "print 101\ninstructions 1\nlimit\n"),
    ImageRow(&HALTS, "limit x", 3, "script 1 BadLine\n"),
    ImageRow(&NO_START, "", 4, "image NoStart\n"),
    ImageRow(&NO_SUM, "limit x", 4, "image 0 Truncated\n"),
    ImageRow(&OTHER_SUM, "", 4, "image 0 BadSum\n"),
    ImageRow(b"\0\0\x02", "", 4, "image 2 BadHeader\n"),
    ImageRow(b"", "", 4, "image NoStart\n"),
    // The bytes at 1000 octal are no instruction: it faults, and is not counted.
    ImageRow(
        &[1, 0, 8, 0, 0, 2, 7, 0, 0o356, 1, 0, 6, 0, 0, 2, 0o367],
        "",
        8,
        "instructions 0\nreserved 000007\n",
    ),
];

#[test]
fn answers_images(rt: HostRuntime) -> Result<(), Fail> {
    let mismatch = mismatch(rt.alloc(), IMAGES)?;
    assert!(rt; mismatch.is_none(), "{}", message(&mismatch));
    Ok(())
}

/// Each is a block and the start block.
const FOREIGN: &[ImageRow] = &[
    // MOV @#1, R0 reads an odd address.
    ImageRow(
        &[
            1, 0, 10, 0, 0, 2, 0o300, 0o27, 1, 0, 0o33, 1, 0, 6, 0, 0, 2, 0o367,
        ],
        "",
        8,
        "instructions 0\nbus fault 000001\n",
    ),
    // BPT with the stack at 0: its first push goes to the status word, and its second faults.
    ImageRow(
        &[1, 0, 8, 0, 0, 2, 3, 0, 0o362, 1, 0, 6, 0, 0, 2, 0o367],
        "",
        8,
        "instructions 0\nbus fault 177774\n",
    ),
    // MOV #0, @#1006 writes a HALT over the WAIT that follows it.
    ImageRow(
        &[
            1, 0, 14, 0, 0, 2, 0o337, 0o25, 0, 0, 6, 2, 1, 0, 0o362, 1, 0, 6, 0, 0, 2, 0o367,
        ],
        "",
        8,
        "instructions 2\nhalt\n",
    ),
    // JSR PC, @#1010 pushes its return address into the status word, and goes on to a word of zero.
    ImageRow(
        &[
            1, 0, 10, 0, 0, 2, 0o337, 0o11, 8, 2, 1, 1, 0, 6, 0, 0, 2, 0o367,
        ],
        "",
        8,
        "instructions 2\nhalt\n",
    ),
];

#[test]
fn answers_foreign_images(rt: HostRuntime) -> Result<(), Fail> {
    let mismatch = mismatch(rt.alloc(), FOREIGN)?;
    assert!(rt; mismatch.is_none(), "{}", message(&mismatch));
    Ok(())
}

/// What is said of the first bytes of `HALTS`, so many of them.
fn cut_line(length: usize) -> &'static str {
    match length {
        0 | 15 => "image NoStart\n",
        1..=14 => "image 0 Truncated\n",
        _ => "image 15 Truncated\n",
    }
}

/// What is expected and what is found at the fewest first bytes of `HALTS` that are answered otherwise.
fn cut_mismatch(alloc: Global) -> Result<Option<String>, Memory> {
    for length in 0..22usize {
        let row = ImageRow(&HALTS[..length], "", 4, cut_line(length));
        let mismatch = mismatch(alloc, &[row])?;
        if mismatch.is_some() {
            return Ok(mismatch);
        }
    }
    Ok(None)
}

#[test]
fn answers_images_that_are_cut(rt: HostRuntime) -> Result<(), Fail> {
    let mismatch = cut_mismatch(rt.alloc())?;
    assert!(rt; mismatch.is_none(), "{}", message(&mismatch));
    Ok(())
}

/// An image that writes the printer again and again: MOV #101, @#177566; BR back.
const LOSES: [u8; 22] = [
    1, 0, 14, 0, 0, 2, 0o337, 0o025, 0o101, 0, 0o166, 0o377, 0o374, 1, 72, 1, 0, 6, 0, 0, 2, 0o367,
];

/// The number of a call that fails while `LOSES` runs for 1000 writes, the status, and how many bytes are printed.
#[derive(Debug)]
struct PieceRow(u64, u8, usize);

impl Row for PieceRow {
    fn difference(&self, alloc: Global) -> Result<Option<String>, Memory> {
        let PieceRow(failing, status, count) = self;
        let call = Call {
            command: "exec a b",
            files: &shelf_files(&LOSES, b"limit 2000"),
            failing: &[*failing],
        };
        let expected = Expected {
            status: *status,
            printed: Printed::Bytes(*count),
            asked: "load a, load b",
            saved: None,
        };
        compared(alloc, &call, &expected)
    }
}

/// Of 1000 writes those at the times 0, 300, 600 and so on are printed, with lines of 10 bytes; the others are lost,
/// with lines of 17. The second print, which is the fourth call, prints half of its piece where it fails.
const PIECES: &[PieceRow] = &[
    PieceRow(0, 7, 7 * 10 + 993 * 17 + 18 + 6),
    PieceRow(4, 11, 4_096 + 2_048),
];

#[test]
fn prints_in_pieces(rt: HostRuntime) -> Result<(), Fail> {
    let mismatch = mismatch(rt.alloc(), PIECES)?;
    assert!(rt; mismatch.is_none(), "{}", message(&mismatch));
    Ok(())
}
