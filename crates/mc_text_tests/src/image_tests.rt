// What no clause says: that the format is the one of the handbook, and that calls succeed where there is memory.

use mc_image::fault::ImageFault;
use mc_image::image::{Block, Image};
use mc_image::{read_image, write_image};
use mc_word::bytes::Bytes;
use std::alloc::Global;
use std::process::Abort;
use std::test::Fail;

/// One block at 1000 octal (MOV #101, @#177566 and three words more), and a start block for 1000.
const PRINTS: [u8; 22] = [
    0x01, 0x00, 0x0E, 0x00, 0x00, 0x02, 0xDF, 0x15, 0x41, 0x00, 0x76, 0xFF, 0x00, 0x00, 0x45, 0x01,
    0x00, 0x06, 0x00, 0x00, 0x02, 0xF7,
];

/// The start block alone.
const START: [u8; 7] = [0x01, 0x00, 0x06, 0x00, 0x00, 0x02, 0xF7];

/// The fault of these bytes.
fn fault(alloc: Global, bytes: &[u8]) -> Option<ImageFault> {
    read_image(alloc, bytes).err()
}

/// The bytes one after the other.
fn joined(alloc: Global, parts: &[&[u8]]) -> Result<Vec<u8>, Fail> {
    let mut bytes = Vec::new(alloc);
    for part in parts {
        bytes.extend_from_slice(part)?;
    }
    Ok(bytes)
}

/// That these bytes are the image of one block at 1000.
fn check_prints(rt: &impl Abort, alloc: Global, bytes: &[u8]) -> Result<(), Fail> {
    let image = read_image(alloc, bytes)?;
    assert_eq!(rt; image.start(), 0o1000);
    assert_eq!(rt; image.blocks().len(), 1);
    for block in image.blocks() {
        assert_eq!(rt; block.address, 0o1000);
        assert_eq!(rt; block.bytes.as_slice(), &PRINTS[6..14]);
    }
    Ok(())
}

#[test]
fn gives_back_its_blocks_and_its_start(rt: HostRuntime) -> Result<(), Fail> {
    let alloc = rt.alloc();
    let mut blocks = Vec::new(alloc);
    blocks.push(Block {
        address: 0o1001,
        bytes: Bytes::from_slice(alloc, &[1, 2, 3])?,
    })?;
    blocks.push(Block {
        address: 0o1000,
        bytes: Bytes::from_slice(alloc, &[4])?,
    })?;
    let image = Image::new(blocks, 0o1002);
    assert_eq!(rt; image.start(), 0o1002);
    assert_eq!(rt; image.blocks().len(), 2);
    let wanted = [(0o1001, [1, 2, 3].as_slice()), (0o1000, [4].as_slice())];
    for (block, (address, bytes)) in image.blocks().iter().zip(wanted.iter()) {
        assert_eq!(rt; block.address, *address);
        assert_eq!(rt; block.bytes.as_slice(), *bytes);
    }

    // 1 + 8 + 1 + 2 + 1 + 2 + 3 = 18, 1 + 7 + 2 + 4 = 14, and 1 + 6 + 2 + 2 = 11 are left of 256
    let wanted = [
        1, 0, 9, 0, 1, 2, 1, 2, 3, 237, 1, 0, 7, 0, 0, 2, 4, 242, 1, 0, 6, 0, 2, 2, 245,
    ];
    assert_eq!(rt; write_image(alloc, &image)?.as_slice(), wanted.as_slice());
    Ok(())
}

#[test]
fn reads_the_worked_image(rt: HostRuntime) -> Result<(), Fail> {
    let alloc = rt.alloc();
    check_prints(&rt, alloc, &PRINTS)?;
    let written = write_image(alloc, &read_image(alloc, &PRINTS)?)?;
    assert_eq!(rt; written.as_slice(), PRINTS.as_slice());
    let nulls = [0; 5];
    let parts = [
        &nulls[..2],
        &PRINTS[..15],
        &nulls[..2],
        &PRINTS[15..],
        nulls.as_slice(),
    ];
    check_prints(&rt, alloc, &joined(alloc, &parts)?)
}

#[test]
fn names_the_first_fault(rt: HostRuntime) -> Result<(), Fail> {
    let alloc = rt.alloc();
    let mut bytes = PRINTS;
    bytes[21] = 0xF6;
    assert_eq!(rt; fault(alloc, &bytes), Some(ImageFault::BadSum(15)));
    assert_eq!(rt; fault(alloc, &PRINTS[..10]), Some(ImageFault::Truncated(0)));
    assert_eq!(rt; fault(alloc, &PRINTS[..15]), Some(ImageFault::NoStart));
    let trailing = joined(alloc, &[PRINTS.as_slice(), [5].as_slice()])?;
    assert_eq!(rt; fault(alloc, &trailing), Some(ImageFault::Trailing(22)));
    let trailing = joined(alloc, &[PRINTS.as_slice(), [0, 0, 1].as_slice()])?;
    assert_eq!(rt; fault(alloc, &trailing), Some(ImageFault::Trailing(24)));
    Ok(())
}

#[test]
fn names_where_it_is_cut(rt: HostRuntime) {
    let alloc = rt.alloc();
    for length in 0..22 {
        let wanted = match length {
            0 | 15 => ImageFault::NoStart,
            1..15 => ImageFault::Truncated(0),
            _ => ImageFault::Truncated(15),
        };
        assert_eq!(rt; fault(alloc, &PRINTS[..length]), Some(wanted));
    }
}

#[test]
fn refuses_bad_headers_and_counts(rt: HostRuntime) {
    let alloc = rt.alloc();
    assert_eq!(rt; fault(alloc, &[0, 2]), Some(ImageFault::BadHeader(1)));
    assert_eq!(rt; fault(alloc, &[0, 1, 7]), Some(ImageFault::BadHeader(2)));
    assert_eq!(rt;
        fault(alloc, &[0, 1, 0, 5, 0, 0]),
        Some(ImageFault::Truncated(1))
    );
    assert_eq!(rt;
        fault(alloc, &[0, 1, 0, 5, 0, 0, 0]),
        Some(ImageFault::BadCount(1))
    );
    assert_eq!(rt;
        fault(alloc, &[1, 0, 6, 0, 0, 2]),
        Some(ImageFault::Truncated(0))
    );
}

#[test]
fn refuses_bad_places(rt: HostRuntime) -> Result<(), Fail> {
    let alloc = rt.alloc();

    // one byte at 157777, and one at 160000
    let last = [1, 0, 7, 0, 0xFF, 0xDF, 3, 0x17];
    let past = [1, 0, 7, 0, 0, 0xE0, 3, 0x15];
    let image = read_image(alloc, &joined(alloc, &[last.as_slice(), START.as_slice()])?)?;
    assert_eq!(rt; image.blocks().len(), 1);
    let bytes = joined(alloc, &[last.as_slice(), past.as_slice(), START.as_slice()])?;
    assert_eq!(rt; fault(alloc, &bytes), Some(ImageFault::OutOfMemoryRange(8)));

    // two bytes at 1000, one at 1001, and one at 1002
    let first = [1, 0, 8, 0, 0, 2, 3, 4, 0xEE];
    let inside = [1, 0, 7, 0, 1, 2, 5, 0xF0];
    let behind = [1, 0, 7, 0, 2, 2, 5, 0xEF];
    let bytes = joined(
        alloc,
        &[first.as_slice(), behind.as_slice(), START.as_slice()],
    )?;
    assert_eq!(rt; read_image(alloc, &bytes)?.blocks().len(), 2);
    let bytes = joined(
        alloc,
        &[first.as_slice(), behind.as_slice(), inside.as_slice()],
    )?;
    assert_eq!(rt; fault(alloc, &bytes), Some(ImageFault::Overlap(17)));

    // a start at 1, and then a byte that would be trailing; a start past memory is one
    let odd = [1, 0, 6, 0, 1, 0, 0xF8, 9];
    assert_eq!(rt; fault(alloc, &odd), Some(ImageFault::NoStart));
    assert_eq!(rt;
        read_image(alloc, &[1, 0, 6, 0, 0, 0xE0, 0x19])?.start(),
        0o160000
    );
    Ok(())
}
