// The table against a list of patterns and masks that was written by hand, apart from the code's own rows.

use mc_word::Word;
use pdp_isa::instr::Instr;
use pdp_isa::table::{decode, encode};
use std::test::Fail;

// A row's name, and the words that have the pattern in the bits of the mask.
const ROWS: [(&str, Word, Word); 73] = [
    ("Mov", 0o010000, 0o170000),
    ("MovByte", 0o110000, 0o170000),
    ("Cmp", 0o020000, 0o170000),
    ("CmpByte", 0o120000, 0o170000),
    ("Bit", 0o030000, 0o170000),
    ("BitByte", 0o130000, 0o170000),
    ("Bic", 0o040000, 0o170000),
    ("BicByte", 0o140000, 0o170000),
    ("Bis", 0o050000, 0o170000),
    ("BisByte", 0o150000, 0o170000),
    ("Add", 0o060000, 0o170000),
    ("Sub", 0o160000, 0o170000),
    ("Clr", 0o005000, 0o177700),
    ("ClrByte", 0o105000, 0o177700),
    ("Com", 0o005100, 0o177700),
    ("ComByte", 0o105100, 0o177700),
    ("Inc", 0o005200, 0o177700),
    ("IncByte", 0o105200, 0o177700),
    ("Dec", 0o005300, 0o177700),
    ("DecByte", 0o105300, 0o177700),
    ("Neg", 0o005400, 0o177700),
    ("NegByte", 0o105400, 0o177700),
    ("Adc", 0o005500, 0o177700),
    ("AdcByte", 0o105500, 0o177700),
    ("Sbc", 0o005600, 0o177700),
    ("SbcByte", 0o105600, 0o177700),
    ("Tst", 0o005700, 0o177700),
    ("TstByte", 0o105700, 0o177700),
    ("Ror", 0o006000, 0o177700),
    ("RorByte", 0o106000, 0o177700),
    ("Rol", 0o006100, 0o177700),
    ("RolByte", 0o106100, 0o177700),
    ("Asr", 0o006200, 0o177700),
    ("AsrByte", 0o106200, 0o177700),
    ("Asl", 0o006300, 0o177700),
    ("AslByte", 0o106300, 0o177700),
    ("Sxt", 0o006700, 0o177700),
    ("Swab", 0o000300, 0o177700),
    ("Xor", 0o074000, 0o177000),
    ("Mul", 0o070000, 0o177000),
    ("Div", 0o071000, 0o177000),
    ("Ash", 0o072000, 0o177000),
    ("Ashc", 0o073000, 0o177000),
    ("Sob", 0o077000, 0o177000),
    ("Jmp", 0o000100, 0o177700),
    ("Jsr", 0o004000, 0o177000),
    ("Rts", 0o000200, 0o177770),
    ("Rti", 0o000002, 0o177777),
    ("Rtt", 0o000006, 0o177777),
    ("Halt", 0o000000, 0o177777),
    ("Wait", 0o000001, 0o177777),
    ("Reset", 0o000005, 0o177777),
    ("Bpt", 0o000003, 0o177777),
    ("Iot", 0o000004, 0o177777),
    ("Emt", 0o104000, 0o177400),
    ("Trap", 0o104400, 0o177400),
    ("ClearCodes", 0o000240, 0o177760),
    ("SetCodes", 0o000260, 0o177760),
    ("Br", 0o000400, 0o177400),
    ("Bne", 0o001000, 0o177400),
    ("Beq", 0o001400, 0o177400),
    ("Bge", 0o002000, 0o177400),
    ("Blt", 0o002400, 0o177400),
    ("Bgt", 0o003000, 0o177400),
    ("Ble", 0o003400, 0o177400),
    ("Bpl", 0o100000, 0o177400),
    ("Bmi", 0o100400, 0o177400),
    ("Bhi", 0o101000, 0o177400),
    ("Blos", 0o101400, 0o177400),
    ("Bvc", 0o102000, 0o177400),
    ("Bvs", 0o102400, 0o177400),
    ("Bcc", 0o103000, 0o177400),
    ("Bcs", 0o103400, 0o177400),
];

#[test]
fn decodes_each_word_by_the_list(rt: HostRuntime) -> Result<(), Fail> {
    for w in 0..=u16::MAX {
        let mut names = ROWS
            .iter()
            .filter(|row| w & row.2 == row.1)
            .map(|row| row.0);
        match decode(w) {
            Some(i) => {
                assert_eq!(rt; encode(i), w);
                let text = format!(in rt.alloc(); "{i:?}")?;
                let name = text
                    .as_str()
                    .split_once(' ')
                    .map_or(text.as_str(), |parts| parts.0);
                assert_eq!(rt; names.next(), Some(name), "at {w:06o}");
                assert!(rt; names.next().is_none(), "at {w:06o}");
            }
            None => assert!(rt; names.next().is_none(), "at {w:06o}"),
        }
    }
    Ok(())
}

#[test]
fn refuses_words_between_the_rows(rt: HostRuntime) {
    for w in [0o000007, 0o000210, 0o000237] {
        assert!(rt; decode(w).is_none());
    }
}

#[test]
fn keeps_an_empty_mask(rt: HostRuntime) -> Result<(), Fail> {
    let clear = decode(0o000240).ok_or("not found")?;
    if let Instr::ClearCodes { mask } = clear {
        assert_eq!(rt; mask.value, 0);
    } else {
        return Err(Fail::from("another row"));
    }
    assert_eq!(rt; encode(clear), 0o000240);
    Ok(())
}
