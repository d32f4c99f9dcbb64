// Settings.

use crate::calls::Call;
use crate::expected::{Expected, Printed, compared};
use crate::rows::{Row, message, mismatch};
use crate::sources::{PRINTED_A, PRINTS_A};
use mc_word::bytes::Memory;
use std::alloc::Global;
use std::test::Fail;

/// A command and the settings `c`, the status, what is printed and asked, and how many bytes the image `i` has, where it
/// is saved.
#[derive(Debug)]
struct SettingsRow(
    &'static str,
    &'static str,
    u8,
    &'static str,
    &'static str,
    Option<usize>,
);

impl Row for SettingsRow {
    fn difference(&self, alloc: Global) -> Result<Option<String>, Memory> {
        let SettingsRow(command, settings, status, printed, asked, saved) = self;
        let call = Call {
            command,
            files: &[
                ("a", PRINTS_A.as_bytes()),
                ("b", b""),
                ("c", settings.as_bytes()),
            ],
            failing: &[],
        };
        let expected = Expected {
            status: *status,
            printed: Printed::Text(printed),
            asked,
            saved: *saved,
        };
        compared(alloc, &call, &expected)
    }
}

/// The settings are loaded before the source.
const SETTINGS: &[SettingsRow] = &[
    SettingsRow(
        "run a b --settings c",
        "",
        0,
        PRINTED_A,
        "load c, load a, load b",
        None,
    ),
    SettingsRow(
        "run a b --settings c",
        "processes = 32",
        0,
        PRINTED_A,
        "load c, load a, load b",
        None,
    ),
    SettingsRow(
        "run a b --settings=c",
        "processes = 1",
        10,
        "settings OutOfRange\n",
        "load c",
        None,
    ),
    SettingsRow(
        "run a b --settings c",
        "procs = 4",
        10,
        "settings UnknownKey\n",
        "load c",
        None,
    ),
    SettingsRow(
        "run a b --settings c",
        "processes = \"4\"",
        10,
        "settings BadKind\n",
        "load c",
        None,
    ),
    SettingsRow(
        "run a b --settings c",
        "processes =",
        10,
        "settings NotToml\n",
        "load c",
        None,
    ),
    SettingsRow("run a b --settings d", "", 11, "", "load d", None),
    SettingsRow(
        "compile a i --settings c",
        "",
        0,
        "image 49\n",
        "load c, load a, save i",
        Some(49),
    ),
    SettingsRow(
        "compile a i --settings c",
        "procs = 4",
        10,
        "settings UnknownKey\n",
        "load c",
        None,
    ),
];

#[test]
fn answers_settings(rt: HostRuntime) -> Result<(), Fail> {
    let mismatch = mismatch(rt.alloc(), SETTINGS)?;
    assert!(rt; mismatch.is_none(), "{}", message(&mismatch));
    Ok(())
}
