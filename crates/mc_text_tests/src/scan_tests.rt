// What no clause says: that the definitions mean these tokens and these faults.

ghost use Rattle.std.specs.Prelude.{◌≤◌, length};

use mc_scan::scan;
use mc_tree::token::{Kind, Token};
use std::alloc::Global;
use std::test::Fail;

/// The bytes, one character each.
fn text(alloc: Global, bytes: &[u8]) -> Result<String, Fail> {
    let mut shown = String::new(alloc);
    for b in bytes {
        shown.push(char::from(*b))?;
    }
    Ok(shown)
}

fn kind(alloc: Global, kind: &Kind) -> Result<String, Fail> {
    Ok(match kind {
        Kind::Reserved(word) => format!(in alloc; "{word:?}")?,
        Kind::Name(name) => format!(in alloc; "name {}", text(alloc, name.as_slice())?)?,
        Kind::Number(value) => format!(in alloc; "number {value}")?,
        Kind::Char(value) => format!(in alloc; "char {value}")?,
        Kind::Text(bytes) => format!(in alloc; "text {}", text(alloc, bytes.as_slice())?)?,
        Kind::Symbol(symbol) => format!(in alloc; "{symbol:?}")?,
    })
}

/// The tokens without their places, or the fault with its place.
fn kinds(alloc: Global, source: &[u8]) -> Result<String, Fail>
    requires { length source.now ≤ 262144 }
{
    let mut shown = String::new(alloc);
    match scan(alloc, source) {
        Ok(scanned) => {
            for token in scanned.tokens.as_slice() {
                shown.push_str(kind(alloc, &token.kind)?.as_str())?;
                shown.push_str("; ")?;
            }
        }
        Err(refusal) => {
            let fault = refusal.fault().ok_or("memory")?;
            let code = fault.code;
            let line = fault.place.line;
            let column = fault.place.column;
            shown.push_str(format!(in alloc; "{code:?} {line} {column}")?.as_str())?;
        }
    }
    Ok(shown)
}

/// The places of the tokens, and the end.
fn places(alloc: Global, source: &[u8]) -> Result<String, Fail>
    requires { length source.now ≤ 262144 }
{
    let mut shown = String::new(alloc);
    let scanned = scan(alloc, source)?;
    for Token { kind: _, place } in scanned.tokens.as_slice() {
        let line = place.line;
        let column = place.column;
        shown.push_str(format!(in alloc; "{line} {column}; ")?.as_str())?;
    }
    let line = scanned.end.line;
    let column = scanned.end.column;
    shown.push_str(format!(in alloc; "end {line} {column}")?.as_str())?;
    Ok(shown)
}

#[test]
fn takes_the_longest_number(rt: HostRuntime) -> Result<(), Fail> {
    let alloc = rt.alloc();
    assert_eq!(rt;
        kinds(alloc, b"0 7 32767 00032767")?.as_str(),
        "number 0; number 7; number 32767; number 32767; "
    );
    assert_eq!(rt;
        kinds(alloc, b"1B 1b 8B 18B 12c")?.as_str(),
        "number 1; number 1; name b; number 8; name B; number 18; name B; number 12; name c; "
    );
    assert_eq!(rt;
        kinds(alloc, b"177777B 100000B 377C 0C")?.as_str(),
        "number 65535; number 32768; char 255; char 0; "
    );
    assert_eq!(rt;
        kinds(alloc, b"1BC 1CB 9C 5end")?.as_str(),
        "number 1; name C; char 1; name B; number 9; name C; number 5; EndWord; "
    );
    Ok(())
}

#[test]
fn refuses_what_is_past_its_bound(rt: HostRuntime) -> Result<(), Fail> {
    let alloc = rt.alloc();
    assert_eq!(rt; kinds(alloc, b"32768")?.as_str(), "NumberTooLarge 1 1");
    assert_eq!(rt; kinds(alloc, b"200000B")?.as_str(), "NumberTooLarge 1 1");
    assert_eq!(rt; kinds(alloc, b"400C")?.as_str(), "NumberTooLarge 1 1");
    assert_eq!(rt;
        kinds(alloc, b"a 99999999999999999999B")?.as_str(),
        "NumberTooLarge 1 3"
    );
    assert_eq!(rt; kinds(alloc, b"177777")?.as_str(), "NumberTooLarge 1 1");
    Ok(())
}

#[test]
fn reads_comments(rt: HostRuntime) -> Result<(), Fail> {
    let alloc = rt.alloc();
    assert_eq!(rt; kinds(alloc, b"(* a")?.as_str(), "OpenComment 1 1");
    assert_eq!(rt; kinds(alloc, b"a(*)")?.as_str(), "OpenComment 1 2");
    assert_eq!(rt;
        kinds(alloc, b"(*)*)a*)")?.as_str(),
        "name a; Times; RightParen; "
    );
    assert_eq!(rt;
        kinds(alloc, b"(**)(***)x(* (* '\x00\xff *)y(*b*)")?.as_str(),
        "name x; name y; "
    );
    assert_eq!(rt;
        kinds(alloc, b"( *)(* c *)")?.as_str(),
        "LeftParen; Times; RightParen; "
    );
    assert_eq!(rt; kinds(alloc, b"(*\n *\n(*")?.as_str(), "OpenComment 1 1");
    Ok(())
}

#[test]
fn reads_texts(rt: HostRuntime) -> Result<(), Fail> {
    let alloc = rt.alloc();
    assert_eq!(rt;
        kinds(alloc, b"'a' \"a\" 'ab' \"ab\"")?.as_str(),
        "char 97; char 97; text ab; text ab; "
    );
    assert_eq!(rt;
        kinds(alloc, b"'' \"'\" '\"' ' ' '~~'")?.as_str(),
        "text ; char 39; char 34; char 32; text ~~; "
    );
    assert_eq!(rt; kinds(alloc, b"'(* a *)'")?.as_str(), "text (* a *); ");
    assert_eq!(rt; kinds(alloc, b"x 'a\"")?.as_str(), "OpenText 1 3");
    assert_eq!(rt; kinds(alloc, b"x\n\"a\n\"")?.as_str(), "OpenText 2 1");
    assert_eq!(rt; kinds(alloc, b"'a\tb'")?.as_str(), "OpenText 1 1");
    assert_eq!(rt; kinds(alloc, b"'\x7f'")?.as_str(), "OpenText 1 1");
    assert_eq!(rt; kinds(alloc, b"'\xc3\xa9'")?.as_str(), "OpenText 1 1");
    Ok(())
}

#[test]
fn reads_words_and_symbols(rt: HostRuntime) -> Result<(), Fail> {
    let alloc = rt.alloc();
    let words =
        b"and array begin case const define device div do else elsif end exit if interface loop mod module not of or procedure process record repeat then type until use var when while xor";
    assert_eq!(rt;
        kinds(alloc, words)?.as_str(),
        "AndWord; ArrayWord; BeginWord; CaseWord; ConstWord; DefineWord; DeviceWord; DivWord; DoWord; ElseWord; ElsifWord; EndWord; ExitWord; IfWord; InterfaceWord; LoopWord; ModWord; ModuleWord; NotWord; OfWord; OrWord; ProcedureWord; ProcessWord; RecordWord; RepeatWord; ThenWord; TypeWord; UntilWord; UseWord; VarWord; WhenWord; WhileWord; XorWord; "
    );
    assert_eq!(rt;
        kinds(alloc, b"+-*=<><<=>>=()[],;::=.")?.as_str(),
        "Plus; Minus; Times; Equal; Unequal; Less; LessEqual; Greater; GreaterEqual; LeftParen; RightParen; LeftBracket; RightBracket; Comma; Semicolon; Colon; Becomes; Dot; "
    );
    assert_eq!(rt;
        kinds(alloc, b"<>= <=> := : = ..")?.as_str(),
        "Unequal; Equal; LessEqual; Greater; Becomes; Colon; Equal; Dot; Dot; "
    );
    assert_eq!(rt;
        kinds(alloc, b"End andy ands an A1b2 doio")?.as_str(),
        "name End; name andy; name ands; name an; name A1b2; name doio; "
    );
    Ok(())
}

#[test]
fn refuses_bad_bytes(rt: HostRuntime) -> Result<(), Fail> {
    let alloc = rt.alloc();
    assert_eq!(rt; kinds(alloc, b"a\x00")?.as_str(), "BadByte 1 2");
    assert_eq!(rt; kinds(alloc, b"\x7f")?.as_str(), "BadByte 1 1");
    assert_eq!(rt; kinds(alloc, b"\x80")?.as_str(), "BadByte 1 1");
    assert_eq!(rt; kinds(alloc, b"\xff")?.as_str(), "BadByte 1 1");
    assert_eq!(rt; kinds(alloc, b"a_b")?.as_str(), "BadByte 1 2");
    assert_eq!(rt; kinds(alloc, b"\x0c")?.as_str(), "BadByte 1 1");
    // the first of several faults
    assert_eq!(rt; kinds(alloc, b"400C $ (* ")?.as_str(), "NumberTooLarge 1 1");
    assert_eq!(rt; kinds(alloc, b" $ 'a")?.as_str(), "BadByte 1 2");
    assert_eq!(rt; kinds(alloc, b"(* $ 'a")?.as_str(), "OpenComment 1 1");
    Ok(())
}

#[test]
fn counts_places_in_bytes(rt: HostRuntime) -> Result<(), Fail> {
    let alloc = rt.alloc();
    assert_eq!(rt; places(alloc, b"")?.as_str(), "end 1 1");
    assert_eq!(rt;
        places(alloc, b"a\r\n\tb:=1\r\n")?.as_str(),
        "1 1; 2 2; 2 3; 2 5; end 3 1"
    );
    assert_eq!(rt;
        places(alloc, b"(*\xc3\xa9*)x(*\n*)'ab' y")?.as_str(),
        "1 7; 2 3; 2 8; end 2 9"
    );
    assert_eq!(rt;
        places(alloc, b"module m; begin end m")?.as_str(),
        "1 1; 1 8; 1 9; 1 11; 1 17; 1 21; end 1 22"
    );
    Ok(())
}

#[test]
fn takes_the_longest_source(rt: HostRuntime) -> Result<(), Fail> {
    let alloc = rt.alloc();
    let mut spaces = Vec::with_capacity(alloc, 262144)?;
    for _ in 0..262144 {
        spaces.push(b' ')?;
    }
    assert!(rt; spaces.len() <= 262144);
    assert_eq!(rt; places(alloc, spaces.as_slice())?.as_str(), "end 1 262145");
    Ok(())
}
