// Words and settings as they are written.

use mc_words::{Command, SettingFault, WordFault, read_settings, read_words};
use std::alloc::{AllocError, Global};
use std::test::Fail;

// The strings of these texts.
fn strings(alloc: Global, texts: &[&str]) -> Result<Vec<String>, AllocError> {
    let mut words = Vec::new(alloc);
    for text in texts {
        words.push(String::from_str(alloc, text)?)?;
    }
    Ok(words)
}

#[test]
fn reads_commands(rt: HostRuntime) -> Result<(), Fail> {
    let alloc = rt.alloc();
    let cases: [(&[&str], Command); 10] = [
        (
            &["run", "a", "b"],
            Command::Run {
                source: "a",
                script: "b",
                settings: None,
                journal: false,
            },
        ),
        (
            &["run", "--settings", "-", "a", "--journal", "b"],
            Command::Run {
                source: "a",
                script: "b",
                settings: Some("-"),
                journal: true,
            },
        ),
        (
            &["run", "--settings=", "--", "-a", "--"],
            Command::Run {
                source: "-a",
                script: "--",
                settings: Some(""),
                journal: false,
            },
        ),
        (
            &["compile", "-", "i", "--settings=-s=t"],
            Command::Compile {
                source: "-",
                image: "i",
                settings: Some("-s=t"),
            },
        ),
        (
            &["exec", "--journal", "", "s"],
            Command::Exec {
                image: "",
                script: "s",
                journal: true,
            },
        ),
        (&["check", "a"], Command::Check { source: "a" }),
        (&["generate", "1"], Command::Generate { n: 1 }),
        (&["generate", "0026"], Command::Generate { n: 26 }),
        (&["self", "3"], Command::OwnRun { n: 3 }),
        (&["self", "--", "03"], Command::OwnRun { n: 3 }),
    ];
    for (texts, command) in cases {
        let words = strings(alloc, texts)?;
        assert_eq!(rt; read_words(alloc, words.as_slice()), Ok(command));
    }
    Ok(())
}

#[test]
fn refuses_other_words(rt: HostRuntime) -> Result<(), Fail> {
    let alloc = rt.alloc();
    let cases: [&[&str]; 24] = [
        &[],
        &[""],
        &["Run", "a", "b"],
        &["ru", "a", "b"],
        &["--help"],
        &["help"],
        &["run", "a"],
        &["run", "a", "b", "c"],
        &["run", "a", "b", "--help"],
        &["run", "a", "b", "-h"],
        &["run", "a", "b", "--journ"],
        &["run", "a", "b", "--journal", "--journal"],
        &["run", "a", "b", "--journal=yes"],
        &["run", "a", "b", "--settings"],
        &["run", "a", "b", "--settings", "--", "s"],
        &["run", "a", "b", "--settings", "--journal"],
        &["run", "a", "b", "--settings", "s", "--settings=s"],
        &["compile", "a", "i", "--journal"],
        &["exec", "i", "s", "--settings", "t"],
        &["check", "--journal", "a"],
        &["generate", "27"],
        &["generate", "0"],
        &["generate", "+1"],
        &["self", "99999999999999999999999"],
    ];
    for texts in cases {
        let words = strings(alloc, texts)?;
        assert_eq!(rt;
            read_words(alloc, words.as_slice()),
            Err(WordFault::NoCommand),
            "{texts:?}"
        );
    }
    Ok(())
}

#[test]
fn reads_settings(rt: HostRuntime) -> Result<(), Fail> {
    for (text, words, processes) in [
        ("", 200, 16),
        ("processes = 32\n", 200, 32),
        ("workspace_words = 64", 64, 16),
        ("# both\nprocesses = 2\nworkspace_words = 0x1000\n", 4096, 2),
    ] {
        let settings = read_settings(rt.alloc(), text.as_bytes())?;
        assert_eq!(rt; settings.workspace_words, words, "{text}");
        assert_eq!(rt; settings.processes, processes, "{text}");
    }
    Ok(())
}

#[test]
fn refuses_settings(rt: HostRuntime) {
    for (text, fault) in [
        ("processes =", SettingFault::NotToml),
        ("processes = 4\nprocesses = 4", SettingFault::NotToml),
        ("procs = 4", SettingFault::UnknownKey),
        ("procs = 4\nprocesses = \"4\"", SettingFault::UnknownKey),
        ("processes = \"4\"", SettingFault::BadKind),
        (
            "processes = 1\nworkspace_words = 1.5",
            SettingFault::BadKind,
        ),
        ("processes = 1", SettingFault::OutOfRange),
        ("processes = 33", SettingFault::OutOfRange),
        ("workspace_words = 63", SettingFault::OutOfRange),
        ("workspace_words = 4097", SettingFault::OutOfRange),
        ("workspace_words = -200", SettingFault::OutOfRange),
        ("workspace_words = 65736", SettingFault::OutOfRange),
    ] {
        assert_eq!(rt;
            read_settings(rt.alloc(), text.as_bytes()),
            Err(fault),
            "{text}"
        );
    }
    assert_eq!(rt;
        read_settings(rt.alloc(), &[0x80]),
        Err(SettingFault::NotToml)
    );
}
