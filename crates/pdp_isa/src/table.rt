// The table of instructions, which decodes and encodes.

ghost use Rattle.std.specs.Prelude.{◌≡◌, IfSome, IfNone, None, Some};
ghost use Rattle.pdp_isa.specs.Table.{IsAnswer, instruction_of, spelled};

use crate::instr::{Field, Instr};
use mc_word::Word;

// Each row: the instruction, the bits in front of its fields, how many words the fields make, and each field
// with the value of its lowest bit and the number of its values.
macro_rules! table {
    ($then:ident, $x:expr) => {
        $then!($x,
            [Mov, 0o01, 0o10000, source 0o100 0o100, target 1 0o100]
            [MovByte, 0o11, 0o10000, source 0o100 0o100, target 1 0o100]
            [Cmp, 0o02, 0o10000, source 0o100 0o100, target 1 0o100]
            [CmpByte, 0o12, 0o10000, source 0o100 0o100, target 1 0o100]
            [Bit, 0o03, 0o10000, source 0o100 0o100, target 1 0o100]
            [BitByte, 0o13, 0o10000, source 0o100 0o100, target 1 0o100]
            [Bic, 0o04, 0o10000, source 0o100 0o100, target 1 0o100]
            [BicByte, 0o14, 0o10000, source 0o100 0o100, target 1 0o100]
            [Bis, 0o05, 0o10000, source 0o100 0o100, target 1 0o100]
            [BisByte, 0o15, 0o10000, source 0o100 0o100, target 1 0o100]
            [Add, 0o06, 0o10000, source 0o100 0o100, target 1 0o100]
            [Sub, 0o16, 0o10000, source 0o100 0o100, target 1 0o100]
            [Clr, 0o50, 0o100, target 1 0o100]
            [ClrByte, 0o1050, 0o100, target 1 0o100]
            [Com, 0o51, 0o100, target 1 0o100]
            [ComByte, 0o1051, 0o100, target 1 0o100]
            [Inc, 0o52, 0o100, target 1 0o100]
            [IncByte, 0o1052, 0o100, target 1 0o100]
            [Dec, 0o53, 0o100, target 1 0o100]
            [DecByte, 0o1053, 0o100, target 1 0o100]
            [Neg, 0o54, 0o100, target 1 0o100]
            [NegByte, 0o1054, 0o100, target 1 0o100]
            [Adc, 0o55, 0o100, target 1 0o100]
            [AdcByte, 0o1055, 0o100, target 1 0o100]
            [Sbc, 0o56, 0o100, target 1 0o100]
            [SbcByte, 0o1056, 0o100, target 1 0o100]
            [Tst, 0o57, 0o100, target 1 0o100]
            [TstByte, 0o1057, 0o100, target 1 0o100]
            [Ror, 0o60, 0o100, target 1 0o100]
            [RorByte, 0o1060, 0o100, target 1 0o100]
            [Rol, 0o61, 0o100, target 1 0o100]
            [RolByte, 0o1061, 0o100, target 1 0o100]
            [Asr, 0o62, 0o100, target 1 0o100]
            [AsrByte, 0o1062, 0o100, target 1 0o100]
            [Asl, 0o63, 0o100, target 1 0o100]
            [AslByte, 0o1063, 0o100, target 1 0o100]
            [Sxt, 0o67, 0o100, target 1 0o100]
            [Swab, 0o03, 0o100, target 1 0o100]
            [Xor, 0o74, 0o1000, register 0o100 0o10, target 1 0o100]
            [Mul, 0o70, 0o1000, register 0o100 0o10, source 1 0o100]
            [Div, 0o71, 0o1000, register 0o100 0o10, source 1 0o100]
            [Ash, 0o72, 0o1000, register 0o100 0o10, source 1 0o100]
            [Ashc, 0o73, 0o1000, register 0o100 0o10, source 1 0o100]
            [Sob, 0o77, 0o1000, register 0o100 0o10, offset 1 0o100]
            [Jmp, 0o01, 0o100, target 1 0o100]
            [Jsr, 0o04, 0o1000, register 0o100 0o10, target 1 0o100]
            [Rts, 0o20, 0o10, register 1 0o10]
            [Rti, 0o02, 1]
            [Rtt, 0o06, 1]
            [Halt, 0o00, 1]
            [Wait, 0o01, 1]
            [Reset, 0o05, 1]
            [Bpt, 0o03, 1]
            [Iot, 0o04, 1]
            [Emt, 0o210, 0o400, code 1 0o400]
            [Trap, 0o211, 0o400, code 1 0o400]
            [ClearCodes, 0o12, 0o20, mask 1 0o20]
            [SetCodes, 0o13, 0o20, mask 1 0o20]
            [Br, 0o01, 0o400, offset 1 0o400]
            [Bne, 0o02, 0o400, offset 1 0o400]
            [Beq, 0o03, 0o400, offset 1 0o400]
            [Bge, 0o04, 0o400, offset 1 0o400]
            [Blt, 0o05, 0o400, offset 1 0o400]
            [Bgt, 0o06, 0o400, offset 1 0o400]
            [Ble, 0o07, 0o400, offset 1 0o400]
            [Bpl, 0o200, 0o400, offset 1 0o400]
            [Bmi, 0o201, 0o400, offset 1 0o400]
            [Bhi, 0o202, 0o400, offset 1 0o400]
            [Blos, 0o203, 0o400, offset 1 0o400]
            [Bvc, 0o204, 0o400, offset 1 0o400]
            [Bvs, 0o205, 0o400, offset 1 0o400]
            [Bcc, 0o206, 0o400, offset 1 0o400]
            [Bcs, 0o207, 0o400, offset 1 0o400]
        )
    };
}

macro_rules! find_row {
    ($w:expr, $([$name:ident, $front:literal, $words:literal $(, $field:ident $unit:literal $range:literal)*])*) => {
        $(if $w / $words == $front {
            return Some(Instr::$name { $($field: Field::<$range>::low_part($w / $unit)),* });
        })*
    };
}

macro_rules! spell_row {
    ($i:expr, $([$name:ident, $front:literal, $words:literal $(, $field:ident $unit:literal $range:literal)*])*) => {
        match $i {
            $(Instr::$name { $($field),* } => $front * $words $(+ $field.value * $unit)*,)*
        }
    };
}

/// The instruction that a word is, or None where the table has no such word.
///
/// Words of the table that this project leaves out, as SPL's, are None like those that DEC reserves.
pub fn decode(w: Word) -> Option<Instr>
    ensures table { result ≡ instruction_of w }
    ensures rows { IsAnswer w result }
    ensures back { IfSome result (λ i. spelled i ≡ w) }
    ensures again { (i : Instr) → spelled i ≡ w → result ≡ Some i }
{
    row_of(w)
}

/// The word of an instruction.
pub fn encode(i: Instr) -> Word
    ensures { result ≡ spelled i }
{
    table!(spell_row, i)
}

// The reading of the row that has the word.
fn row_of(w: Word) -> Option<Instr>
    ensures some { IfSome result (λ i. spelled i ≡ w) }
    ensures none { IfNone result (instruction_of w ≡ None) }
{
    table!(find_row, w);
    None
}
