// What the shelves in memory answer, call by call.

use mc_shelf::ask::Ask;
use mc_shelf::files::MemFile;
use mc_shelf::mem::MemShelf;
use mc_shelf::shelf::{LoadFault, PutFault, Shelf};
use mc_shelf::sound::SoundShelf;
use mc_word::bytes::{Bytes, Memory, Text};
use std::alloc::Global;
use std::test::Fail;

fn file(alloc: Global, name: &str, bytes: &[u8]) -> Result<MemFile, Memory> {
    Ok(MemFile {
        name: Text::from_slice(alloc, name.as_bytes())?,
        bytes: Bytes::from_slice(alloc, bytes)?,
    })
}

// A file `a` of three bytes, a second one of that name, and an empty file `b`.
fn files(alloc: Global) -> Result<Vec<MemFile>, Memory> {
    let mut files = Vec::new(alloc);
    files.push(file(alloc, "a", b"xyz")?)?;
    files.push(file(alloc, "a", b"shadowed")?)?;
    files.push(file(alloc, "b", b"")?)?;
    Ok(files)
}

// Loads through the trait.
fn load<S: Shelf>(
    alloc: Global,
    shelf: &mut S,
    name: &str,
    max: usize,
) -> Result<Vec<u8>, LoadFault> {
    shelf.load(alloc, name, max)
}

fn is_ask(ask: &Ask, saves: bool, name: &str) -> bool {
    match ask {
        Ask::Load(asked) => !saves && asked.as_slice() == name.as_bytes(),
        Ask::Save(asked) => saves && asked.as_slice() == name.as_bytes(),
    }
}

#[test]
fn numbered_calls_fail(rt: HostRuntime) -> Result<(), Fail> {
    let alloc = rt.alloc();
    let failing = Vec::from_slice(alloc, &[2, 4, 5])?;
    let mut shelf = MemShelf::new(alloc, files(alloc)?, failing);

    // Call 1, and 2, which fails.
    let loaded = load(alloc, &mut shelf, "a", 3)?;
    assert_eq!(rt; loaded.as_slice(), b"xyz".as_slice());
    let failed = load(alloc, &mut shelf, "a", 3);
    assert_eq!(rt; failed.err(), Some(LoadFault::Failed));

    // A print of no bytes has no number; call 3 is too long.
    shelf.print(b"")?;
    let long = load(alloc, &mut shelf, "a", 2);
    assert_eq!(rt; long.err(), Some(LoadFault::TooLong));

    // Call 4 fails, and prints two bytes of five.
    assert_eq!(rt; shelf.print(b"abcde").err(), Some(PutFault::Failed));
    assert_eq!(rt; shelf.printed(), b"ab".as_slice());

    // Call 5 fails, and takes the file away; a second file of the name does not come to light.
    assert_eq!(rt; shelf.save("a", b"new").err(), Some(PutFault::Failed));
    assert_eq!(rt; shelf.file("a"), None);
    assert_eq!(rt; shelf.file("b"), Some(b"".as_slice()));

    // Calls 6 to 9: a load of a name that the shelf lacks fails, until it is saved.
    let lacking = load(alloc, &mut shelf, "a", 3);
    assert_eq!(rt; lacking.err(), Some(LoadFault::Failed));
    shelf.save("a", b"new")?;
    let saved = load(alloc, &mut shelf, "a", 3)?;
    assert_eq!(rt; saved.as_slice(), b"new".as_slice());
    shelf.print(b"cd")?;
    assert_eq!(rt; shelf.printed(), b"abcd".as_slice());

    let asked = [
        (false, "a"),
        (false, "a"),
        (false, "a"),
        (true, "a"),
        (false, "a"),
        (true, "a"),
        (false, "a"),
    ];
    assert_eq!(rt; shelf.asked().len(), asked.len());
    for (ask, (saves, name)) in shelf.asked().iter().zip(asked.iter()) {
        assert!(rt; is_ask(ask, *saves, name), "{ask:?}");
    }
    Ok(())
}

#[test]
fn reserved_room_is_printed(rt: HostRuntime) -> Result<(), Fail> {
    let alloc = rt.alloc();
    let mut shelf = MemShelf::new(alloc, files(alloc)?, Vec::new(alloc));
    shelf.reserve(5)?;
    shelf.print(b"abc")?;
    shelf.print(b"de")?;
    assert_eq!(rt; shelf.printed(), b"abcde".as_slice());
    assert!(rt; shelf.asked().is_empty());
    Ok(())
}

#[test]
fn a_sound_shelf_has_each_file(rt: HostRuntime) -> Result<(), Fail> {
    let alloc = rt.alloc();
    let mut shelf = SoundShelf::new(alloc, files(alloc)?);
    let lacking = load(alloc, &mut shelf, "c", 0)?;
    assert!(rt; lacking.is_empty());
    assert_eq!(rt; shelf.file("c"), None);
    assert_eq!(rt;
        load(alloc, &mut shelf, "a", 2).err(),
        Some(LoadFault::TooLong)
    );

    shelf.save("c", b"third")?;
    shelf.save("a", b"first")?;
    let saved = load(alloc, &mut shelf, "a", 5)?;
    assert_eq!(rt; saved.as_slice(), b"first".as_slice());
    assert_eq!(rt; shelf.file("c"), Some(b"third".as_slice()));

    shelf.reserve(2)?;
    shelf.print(b"ok")?;
    assert_eq!(rt; shelf.printed(), b"ok".as_slice());
    assert_eq!(rt; shelf.asked().len(), 5);
    Ok(())
}
