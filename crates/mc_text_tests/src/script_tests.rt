// What no clause says: that the definitions mean these texts, and that calls succeed where there is memory.

use mc_script::fault::ScriptFault;
use mc_script::read_script;
use mc_script::script::Script;
use std::alloc::Global;
use std::test::Fail;

/// The fault of this text.
fn fault(alloc: Global, text: &[u8]) -> Option<ScriptFault> {
    read_script(alloc, text).err()
}

#[test]
fn plain_script_has_the_usual_values(rt: HostRuntime) {
    let script = Script::plain(rt.alloc(), Script::USUAL_LIMIT);
    assert!(rt; script.keys().is_empty() && script.tape().is_empty());
    assert_eq!(rt; script.printer(), 300);
    assert_eq!(rt; script.reader(), 200);
    assert_eq!(rt; script.punch(), 400);
    assert_eq!(rt; script.clock(), None);
    assert_eq!(rt; script.limit(), 1000000);
    let longest = Script::plain(rt.alloc(), Script::LONGEST);
    assert_eq!(rt; longest.limit(), 20000000);
}

#[test]
fn reads_texts_without_forms(rt: HostRuntime) -> Result<(), Fail> {
    for text in [b"".as_slice(), b"\n", b" \t\r\n;;\n", b"; limit 5"] {
        let script = read_script(rt.alloc(), text)?;
        assert!(rt; script.keys().is_empty() && script.tape().is_empty());
        assert_eq!(rt; script.printer(), 300);
        assert_eq!(rt; script.reader(), 200);
        assert_eq!(rt; script.punch(), 400);
        assert_eq!(rt; script.clock(), None);
        assert_eq!(rt; script.limit(), 1000000);
    }
    Ok(())
}

#[test]
fn reads_every_form(rt: HostRuntime) -> Result<(), Fail> {
    let text =
        b"at 5 key 101 ; the first\r\n\tdelay printer 1\ndelay reader 1000000;\ndelay  punch 007 \n\nclock 20000000\ntape 0 377\nlimit 20000000\ntape 00000000000000000000000000000000000000000000000000000000000000012\nat 00000000000000000000000000000000000000000000000000020000000 key 0";
    let script = read_script(rt.alloc(), text)?;
    assert_eq!(rt; script.keys().len(), 2);
    for (key, (at, byte)) in script.keys().iter().zip([(5, 0o101), (20000000, 0)].iter()) {
        assert_eq!(rt; key.at, *at);
        assert_eq!(rt; key.byte, *byte);
    }
    assert_eq!(rt; script.tape(), [0, 0o377, 0o12].as_slice());
    assert_eq!(rt; script.printer(), 1);
    assert_eq!(rt; script.reader(), 1000000);
    assert_eq!(rt; script.punch(), 7);
    assert_eq!(rt; script.clock(), Some(20000000));
    assert_eq!(rt; script.limit(), 20000000);
    Ok(())
}

#[test]
fn names_the_first_fault(rt: HostRuntime) {
    let alloc = rt.alloc();
    assert_eq!(rt;
        fault(alloc, b"at 5 key 400"),
        Some(ScriptFault::OutOfRange(1))
    );
    assert_eq!(rt;
        fault(alloc, b"at 9 key 101\nat 9 key 102"),
        Some(ScriptFault::Backwards(2))
    );
    assert_eq!(rt;
        fault(alloc, b"limit 5\nlimit 6"),
        Some(ScriptFault::Twice(2))
    );
    assert_eq!(rt; fault(alloc, b"at 5 key 9"), Some(ScriptFault::BadLine(1)));

    // within a line the form comes first, then the range, then what stood before
    assert_eq!(rt; fault(alloc, b"tape 400 9"), Some(ScriptFault::BadLine(1)));
    assert_eq!(rt;
        fault(alloc, b"limit 5\n\nlimit 0"),
        Some(ScriptFault::OutOfRange(3))
    );
    assert_eq!(rt;
        fault(alloc, b"at 5 key 1\nat 5 key 400"),
        Some(ScriptFault::OutOfRange(2))
    );
    assert_eq!(rt;
        fault(alloc, b"delay punch 5\ndelay printer 5\ndelay punch 5"),
        Some(ScriptFault::Twice(3))
    );
    assert_eq!(rt;
        fault(alloc, b"limit 5\nlimit 6\nx"),
        Some(ScriptFault::Twice(2))
    );
}

#[test]
fn refuses_values_past_their_ranges(rt: HostRuntime) {
    let alloc = rt.alloc();
    for text in [
        b"at 0 key 1".as_slice(),
        b"at 20000001 key 1",
        b"delay printer 0",
        b"delay reader 1000001",
        b"delay punch 99999999999999999999999999999999999999999999999999",
        b"clock 0",
        b"clock 20000001",
        b"tape 1 400",
        b"limit 18446744073709551617",
    ] {
        assert_eq!(rt; fault(alloc, text), Some(ScriptFault::OutOfRange(1)));
    }
}

#[test]
fn refuses_other_lines(rt: HostRuntime) {
    let alloc = rt.alloc();
    for text in [
        b"at 5 key".as_slice(),
        b"at 5 key 1 2",
        b"at x key 1",
        b"at 5 kex 1",
        b"key 5 at 1",
        b"delay clock 5",
        b"delay 5",
        b"tape",
        b"tape 1 8",
        b"clock",
        b"LIMIT 5",
        b"limit +5",
        b"limit 5\r",
        b"limit\r5\n",
        b"limit 5\r\r\n",
        b"\r",
    ] {
        assert_eq!(rt; fault(alloc, text), Some(ScriptFault::BadLine(1)));
    }
}

#[test]
fn names_where_it_is_cut(rt: HostRuntime) {
    let text = b"clock 25";
    for length in 0..9 {
        let wanted = match length {
            0 | 7 | 8 => None,
            _ => Some(ScriptFault::BadLine(1)),
        };
        assert_eq!(rt; fault(rt.alloc(), &text[..length]), wanted);
    }
}
