// Small runs, worked out by hand.

ghost use Rattle.std.specs.Prelude.{◌≤◌};

use mc_image::image::{Block, Image};
use mc_script::script::Script;
use mc_word::bytes::{Bytes, Memory};
use pdp_dev::entry::{Entry, Event};
use pdp_machine::machine::Machine;
use pdp_machine::stop::Stop;
use std::alloc::Global;
use std::test::Fail;

// MOV #101, @#177566, and then a word.
fn machine_of(alloc: Global, last: u8, limit: u32) -> Result<Machine, Memory>
    requires low { 1 ≤ limit }
    requires high { limit ≤ 20000000 }
{
    let bytes = [0o337, 0o25, 0o101, 0, 0o166, 0o377, last, 0];
    let mut blocks = Vec::new(alloc);
    blocks.push(Block {
        address: 0o1000,
        bytes: Bytes::from_slice(alloc, &bytes)?,
    })?;
    let image = Image::new(blocks, 0o1000);
    let script = Script::plain(alloc, limit);
    Machine::open(alloc, &image, &script)
}

#[test]
fn loads_its_image(rt: HostRuntime) -> Result<(), Fail> {
    let machine = machine_of(rt.alloc(), 1, 100000)?;
    for (a, want) in [
        (0o776, 0),
        (0o1000, 0o012737),
        (0o1002, 0o101),
        (0o1004, 0o177566),
        (0o1006, 1),
        (0o1010, 0),
    ] {
        assert!(rt; a < 0o160000);
        assert_eq!(rt; machine.peek(a), want, "{a:o}");
    }
    Ok(())
}

#[test]
fn runs_to_its_stop(rt: HostRuntime) -> Result<(), Fail> {
    let print = Entry::Print(0o101);
    let ready = Entry::Event(Event::Printer);
    for (last, limit, entries, instructions, time, stop) in [
        (1, 100000, [print, ready].as_slice(), 2, 300, Stop::Silent),
        (1, 200, [print].as_slice(), 2, 200, Stop::Limit),
        (1, 1, [print].as_slice(), 1, 1, Stop::Limit),
        (0, 100000, [print].as_slice(), 2, 2, Stop::Halt),
        (0, 2, [print].as_slice(), 2, 2, Stop::Halt),
        (7, 100000, [print].as_slice(), 1, 1, Stop::Reserved(7)),
    ] {
        assert!(rt; 1 <= limit && limit <= 20000000);
        let mut machine = machine_of(rt.alloc(), last, limit)?;
        let mut journal = Vec::new(rt.alloc());
        for _ in 0..6 {
            let advance = machine.advance();
            journal.extend_from_slice(advance.entries.as_slice())?;
        }
        assert_eq!(rt; machine.stop(), Some(stop));
        assert_eq!(rt; machine.instructions(), instructions);
        assert_eq!(rt; machine.time(), time);
        assert_eq!(rt; journal.as_slice(), entries);
    }
    Ok(())
}
