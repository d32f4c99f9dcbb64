// The lines in which a source, an image, a script or settings are refused. Their form is this project's own.

ghost use Rattle.std.specs.Prelude.{◌≡◌, ◌≢◌, ◌≤◌, ◌++◌, length, codes, MatchOption};
ghost use Rattle.mc_driver.specs.Refusal.{place_text, image_place, image_fault_name, image_line, code_name, source_line, script_place, script_fault_name, script_line, setting_fault_name, setting_line};

use arrayvec::ArrayVec;
use mc_image::fault::ImageFault;
use mc_report::digits::{decimal_digits, put};
use mc_script::fault::ScriptFault;
use mc_tree::fault::Code;
use mc_tree::place::Place;
use mc_words::SettingFault;

// The place of an image's fault, in bytes from 0, where it has one.
fn image_place(fault: ImageFault) -> Option<usize>
    ensures { result ≡ image_place fault }
{
    match fault {
        ImageFault::BadHeader(at)
        | ImageFault::Truncated(at)
        | ImageFault::BadCount(at)
        | ImageFault::BadSum(at)
        | ImageFault::OutOfMemoryRange(at)
        | ImageFault::Overlap(at)
        | ImageFault::Trailing(at) => Some(at),
        ImageFault::NoStart | ImageFault::Memory => None,
    }
}

fn image_fault_name(fault: ImageFault) -> &'static [u8]
    ensures value { result.now ≡ image_fault_name fault }
    ensures short { length result.now ≤ 16 }
{
    match fault {
        ImageFault::BadHeader(_) => b"BadHeader",
        ImageFault::Truncated(_) => b"Truncated",
        ImageFault::BadCount(_) => b"BadCount",
        ImageFault::BadSum(_) => b"BadSum",
        ImageFault::OutOfMemoryRange(_) => b"OutOfMemoryRange",
        ImageFault::Overlap(_) => b"Overlap",
        ImageFault::NoStart => b"NoStart",
        ImageFault::Trailing(_) => b"Trailing",
        ImageFault::Memory => b"Memory",
    }
}

// The line of a script's fault, from 1.
fn script_place(fault: ScriptFault) -> Option<usize>
    ensures { result ≡ script_place fault }
{
    match fault {
        ScriptFault::BadLine(line)
        | ScriptFault::OutOfRange(line)
        | ScriptFault::Twice(line)
        | ScriptFault::Backwards(line) => Some(line),
        ScriptFault::Memory => None,
    }
}

fn script_fault_name(fault: ScriptFault) -> &'static [u8]
    ensures value { result.now ≡ script_fault_name fault }
    ensures short { length result.now ≤ 16 }
{
    match fault {
        ScriptFault::BadLine(_) => b"BadLine",
        ScriptFault::OutOfRange(_) => b"OutOfRange",
        ScriptFault::Twice(_) => b"Twice",
        ScriptFault::Backwards(_) => b"Backwards",
        ScriptFault::Memory => b"Memory",
    }
}

fn setting_fault_name(fault: SettingFault) -> &'static [u8]
    ensures value { result.now ≡ setting_fault_name fault }
    ensures short { length result.now ≤ 16 }
{
    match fault {
        SettingFault::NotToml => b"NotToml",
        SettingFault::UnknownKey => b"UnknownKey",
        SettingFault::BadKind => b"BadKind",
        SettingFault::OutOfRange => b"OutOfRange",
        SettingFault::Memory => b"Memory",
    }
}

// A line of a noun, a place where there is one, and a name.
fn line_of(noun: &[u8], place: Option<usize>, name: &[u8]) -> ArrayVec<u8, 64>
    requires noun { length noun.now ≤ 16 }
    requires name { length name.now ≤ 16 }
    ensures { result.items ≡ noun.now ++ place_text place ++ name.now ++ codes "\n" }
{
    let mut line = ArrayVec::new();
    put(&mut line, noun);
    if let Some(place) = place {
        put(&mut line, decimal_digits(place as u64).as_slice());
        put(&mut line, b" ");
    }
    put(&mut line, name);
    put(&mut line, b"\n");
    line
}

/// `image AT NAME`, or `image NAME` where the fault has no place; none for want of memory, which is no fault.
pub fn image_line(fault: ImageFault) -> Option<ArrayVec<u8, 64>>
    ensures { MatchOption result (fault ≡ ImageFault.Memory) (λ line. (fault ≢ ImageFault.Memory) × (line.items ≡ image_line fault)) }
{
    if fault == ImageFault::Memory {
        return None;
    }
    Some(line_of(b"image ", image_place(fault), image_fault_name(fault)))
}

/// `script LINE NAME`; none for want of memory, which is no fault.
pub fn script_line(fault: ScriptFault) -> Option<ArrayVec<u8, 64>>
    ensures { MatchOption result (fault ≡ ScriptFault.Memory) (λ line. (fault ≢ ScriptFault.Memory) × (line.items ≡ script_line fault)) }
{
    if fault == ScriptFault::Memory {
        return None;
    }
    Some(line_of(b"script ", script_place(fault), script_fault_name(fault)))
}

/// `settings NAME`; none for want of memory, which is no fault.
pub fn setting_line(fault: SettingFault) -> Option<ArrayVec<u8, 64>>
    ensures { MatchOption result (fault ≡ SettingFault.Memory) (λ line. (fault ≢ SettingFault.Memory) × (line.items ≡ setting_line fault)) }
{
    if fault == SettingFault::Memory {
        return None;
    }
    Some(line_of(b"settings ", None, setting_fault_name(fault)))
}

fn code_name(code: Code) -> &'static [u8]
    ensures value { result.now ≡ code_name code }
    ensures short { length result.now ≤ 14 }
{
    match code {
        Code::BadByte => b"BadByte",
        Code::NumberTooLarge => b"NumberTooLarge",
        Code::OpenComment => b"OpenComment",
        Code::OpenText => b"OpenText",
        Code::Unexpected => b"Unexpected",
        Code::TooDeep => b"TooDeep",
        Code::S1 => b"S1",
        Code::S2 => b"S2",
        Code::S3 => b"S3",
        Code::S4 => b"S4",
        Code::S5 => b"S5",
        Code::Y1 => b"Y1",
        Code::Y2 => b"Y2",
        Code::Y3 => b"Y3",
        Code::Y4 => b"Y4",
        Code::Y5 => b"Y5",
        Code::Y6 => b"Y6",
        Code::Y7 => b"Y7",
        Code::Y8 => b"Y8",
        Code::M1 => b"M1",
        Code::M2 => b"M2",
        Code::M3 => b"M3",
        Code::M4 => b"M4",
        Code::M5 => b"M5",
        Code::M6 => b"M6",
        Code::M7 => b"M7",
        Code::M8 => b"M8",
        Code::M9 => b"M9",
        Code::M10 => b"M10",
    }
}

/// `source LINE COLUMN CODE`.
pub fn source_line(code: Code, place: Place) -> ArrayVec<u8, 64>
    ensures { result.items ≡ source_line (record { code = code; place = place }) }
{
    let mut line = ArrayVec::new();
    put(&mut line, b"source ");
    put(&mut line, decimal_digits(u64::from(place.line)).as_slice());
    put(&mut line, b" ");
    put(
        &mut line,
        decimal_digits(u64::from(place.column)).as_slice(),
    );
    put(&mut line, b" ");
    put(&mut line, code_name(code));
    put(&mut line, b"\n");
    line
}
