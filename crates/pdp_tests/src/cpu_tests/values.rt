// What instructions compute, and the operands that they name.

use super::run;
use std::test::Fail;

#[test]
fn computes_one_operand(rt: HostRuntime) -> Result<(), Fail> {
    // The instruction on R0, R0 before and after, PS before and after.
    for (name, word, before, after, ps, codes) in [
        ("ASR keeps the sign", 0o6200, 0o100000, 0o140000, 0, 0o12),
        ("CLR", 0o5000, 0o123456, 0, 0o13, 4),
        (
            "CLRB leaves the high byte",
            0o105000,
            0o123456,
            0o123400,
            0,
            4,
        ),
        ("COM", 0o5100, 0o123456, 0o54321, 0o16, 1),
        ("COMB", 0o105100, 0o777, 0o400, 0, 5),
        ("INC of the greatest", 0o5200, 0o77777, 0o100000, 1, 0o13),
        ("INCB wraps", 0o105200, 0o777, 0o400, 1, 5),
        ("DEC of the least", 0o5300, 0o100000, 0o77777, 0, 2),
        ("DECB wraps", 0o105300, 0, 0o377, 0, 0o10),
        ("NEG of the least", 0o5400, 0o100000, 0o100000, 0, 0o13),
        ("NEG of 0", 0o5400, 0, 0, 1, 4),
        ("NEGB", 0o105400, 1, 0o377, 0, 0o11),
        ("ADC of the greatest", 0o5500, 0o77777, 0o100000, 1, 0o12),
        ("ADC of all ones", 0o5500, 0o177777, 0, 1, 5),
        ("ADC without C", 0o5500, 0o177777, 0o177777, 0, 0o10),
        ("ADCB of the greatest", 0o105500, 0o177, 0o200, 1, 0o12),
        ("SBC of 0", 0o5600, 0, 0o177777, 1, 0o11),
        ("SBC of the least", 0o5600, 0o100000, 0o77777, 1, 2),
        ("SBCB of the least", 0o105600, 0o200, 0o177, 1, 2),
        ("TST", 0o5700, 0o100000, 0o100000, 3, 0o10),
        ("TSTB", 0o105700, 0o100000, 0o100000, 3, 4),
        ("ROR", 0o6000, 1, 0o100000, 1, 0o11),
        ("RORB", 0o106000, 0o401, 0o400, 0, 7),
        ("ROL", 0o6100, 0o100000, 0, 0, 7),
        ("ROLB", 0o106100, 0o100, 0o201, 1, 0o12),
        ("ASRB", 0o106200, 0o201, 0o300, 0, 0o11),
        ("ASL", 0o6300, 0o40000, 0o100000, 1, 0o12),
        ("ASLB", 0o106300, 0o200, 0, 0, 7),
        ("SXT of N", 0o6700, 0, 0o177777, 0o13, 0o11),
        ("SXT without N", 0o6700, 0o123, 0, 3, 5),
        ("SWAB", 0o300, 0o100377, 0o177600, 3, 0o10),
        ("SWAB tests the low byte", 0o300, 0o377, 0o177400, 3, 4),
    ] {
        let core = run(
            &rt,
            rt.alloc(),
            [word, 0, 0],
            [before, 0, 0, 0, 0, 0, 0],
            ps,
            &[],
        )?;
        assert_eq!(rt;
            core.registers(),
            [after, 0, 0, 0, 0, 0, 0, 0o1002],
            "{name}"
        );
        assert_eq!(rt; core.ps(), codes, "{name}");
    }
    Ok(())
}

#[test]
fn computes_two_operands(rt: HostRuntime) -> Result<(), Fail> {
    // The instruction on R0 and R1, R0, R1 before and after, PS before and after.
    for (name, word, source, before, after, ps, codes) in [
        ("CMP of equals", 0o20001, 5, 5, 5, 0o13, 4),
        ("CMP borrows", 0o20001, 1, 2, 2, 0, 0o11),
        ("CMPB overflows", 0o120001, 0o200, 0o401, 0o401, 0, 2),
        (
            "BIT keeps C",
            0o30001,
            0o100000,
            0o100001,
            0o100001,
            3,
            0o11,
        ),
        ("BITB", 0o130001, 0o401, 0o402, 0o402, 0, 4),
        ("BIC", 0o40001, 7, 0o17, 0o10, 1, 1),
        (
            "BICB leaves the high byte",
            0o140001,
            0o177777,
            0o1777,
            0o1400,
            0,
            4,
        ),
        ("BIS", 0o50001, 0o100000, 1, 0o100001, 2, 0o10),
        ("BISB", 0o150001, 0o200, 0o401, 0o601, 0, 0o10),
        ("ADD carries", 0o60001, 0o177777, 1, 0, 0, 5),
        ("ADD overflows", 0o60001, 1, 0o77777, 0o100000, 0, 0o12),
        ("SUB overflows", 0o160001, 1, 0o100000, 0o77777, 0, 2),
        ("SUB borrows", 0o160001, 1, 0, 0o177777, 0, 0o11),
        (
            "MOV clears V and keeps C",
            0o10001,
            0o100000,
            0,
            0o100000,
            0o347,
            0o351,
        ),
        (
            "MOVB extends the sign",
            0o110001,
            0o200,
            0o123456,
            0o177600,
            0,
            0o10,
        ),
        ("XOR", 0o74001, 0o170000, 0o110000, 0o60000, 3, 1),
    ] {
        let core = run(
            &rt,
            rt.alloc(),
            [word, 0, 0],
            [source, before, 0, 0, 0, 0, 0],
            ps,
            &[],
        )?;
        assert_eq!(rt;
            core.registers(),
            [source, after, 0, 0, 0, 0, 0, 0o1002],
            "{name}"
        );
        assert_eq!(rt; core.ps(), codes, "{name}");
    }
    Ok(())
}

#[test]
fn multiplies_divides_and_shifts(rt: HostRuntime) -> Result<(), Fail> {
    // The instruction, R0 to R2 before and after, PS before and after.
    for (name, word, before, after, ps, codes) in [
        (
            "MUL of a negative",
            0o70001,
            [0o177777, 2, 0],
            [0o177777, 0o177776, 0],
            3,
            0o10,
        ),
        (
            "MUL into an odd register",
            0o70102,
            [0, 0o77777, 2],
            [0, 0o177776, 2],
            0,
            1,
        ),
        ("MUL by 0", 0o70002, [5, 7, 0], [0, 0, 0], 0, 4),
        (
            "MUL of the least",
            0o70002,
            [0o100000, 7, 0o100000],
            [0o40000, 0, 0o100000],
            0,
            1,
        ),
        (
            "DIV truncates",
            0o71002,
            [0o177777, 0o177771, 2],
            [0o177775, 0o177777, 2],
            0,
            0o10,
        ),
        ("DIV by 0", 0o71002, [1, 2, 0], [1, 2, 0], 0o14, 3),
        ("DIV without a fit", 0o71002, [1, 0, 1], [1, 0, 1], 0o15, 2),
        (
            "DIV to the least",
            0o71002,
            [0o177777, 0o100000, 1],
            [0o100000, 0, 1],
            0,
            0o10,
        ),
        (
            "DIV just past the greatest",
            0o71002,
            [0, 0o100000, 1],
            [0, 0o100000, 1],
            0,
            2,
        ),
        (
            "DIV of the least by -1",
            0o71002,
            [0o100000, 0, 0o177777],
            [0o100000, 0, 0o177777],
            0,
            2,
        ),
        (
            "DIV by a negative",
            0o71002,
            [0, 7, 0o177776],
            [0o177775, 1, 0o177776],
            0,
            0o10,
        ),
        (
            "DIV to 0",
            0o71002,
            [0o177777, 0o177777, 2],
            [0, 0o177777, 2],
            0,
            4,
        ),
        (
            "ASH changes the sign",
            0o72002,
            [0o40000, 0, 1],
            [0o100000, 0, 1],
            0,
            0o12,
        ),
        (
            "ASH to the right",
            0o72002,
            [0o100001, 0, 0o77],
            [0o140000, 0, 0o77],
            0,
            0o11,
        ),
        ("ASH by 0", 0o72002, [5, 0, 0o100], [5, 0, 0o100], 3, 0),
        (
            "ASH to the right by 32",
            0o72002,
            [0o100000, 0, 0o40],
            [0o177777, 0, 0o40],
            0,
            0o11,
        ),
        (
            "ASH to the left by 16",
            0o72002,
            [1, 0, 0o20],
            [0, 0, 0o20],
            0,
            7,
        ),
        (
            "ASH to the left by 31",
            0o72002,
            [1, 0, 0o37],
            [0, 0, 0o37],
            0,
            6,
        ),
        (
            "ASH changes the sign and back",
            0o72002,
            [0o40000, 0, 2],
            [0, 0, 2],
            0,
            7,
        ),
        (
            "ASH of a negative stays one",
            0o72002,
            [0o177777, 0, 0o17],
            [0o100000, 0, 0o17],
            0,
            0o11,
        ),
        (
            "ASHC to the left",
            0o73002,
            [0, 0o100000, 1],
            [1, 0, 1],
            3,
            0,
        ),
        (
            "ASHC to the right",
            0o73002,
            [0o100000, 1, 0o77],
            [0o140000, 0, 0o77],
            0,
            0o11,
        ),
        (
            "ASHC changes the sign",
            0o73002,
            [0o40000, 0, 1],
            [0o100000, 0, 1],
            0,
            0o12,
        ),
    ] {
        let [r0, r1, r2] = before;
        let core = run(
            &rt,
            rt.alloc(),
            [word, 0, 0],
            [r0, r1, r2, 0, 0, 0, 0],
            ps,
            &[],
        )?;
        let [r0, r1, r2] = after;
        assert_eq!(rt;
            core.registers(),
            [r0, r1, r2, 0, 0, 0, 0, 0o1002],
            "{name}"
        );
        assert_eq!(rt; core.ps(), codes, "{name}");
    }
    Ok(())
}

#[test]
fn addresses_by_each_mode(rt: HostRuntime) -> Result<(), Fail> {
    // A move to R1: R0 before and after, R1 and PC after. At 3002 stand the bytes 11 and 1.
    for (name, [word, next], before, after, moved, pc) in [
        ("(R)", [0o11001, 0], 0o2000, 0o2000, 0o3000, 0o1002),
        ("(R)+", [0o12001, 0], 0o2000, 0o2002, 0o3000, 0o1002),
        ("@(R)+", [0o13001, 0], 0o2000, 0o2002, 0o10, 0o1002),
        ("-(R)", [0o14001, 0], 0o2002, 0o2000, 0o3000, 0o1002),
        ("@-(R)", [0o15001, 0], 0o2002, 0o2000, 0o10, 0o1002),
        ("X(R)", [0o16001, 2], 0o2000, 0o2000, 0o3003, 0o1004),
        ("@X(R)", [0o17001, 0o177776], 0o2000, 0o2000, 0o411, 0o1004),
        ("immediate", [0o12701, 5], 0o2000, 0o2000, 5, 0o1004),
        (
            "absolute",
            [0o13701, 0o2000],
            0o2000,
            0o2000,
            0o3000,
            0o1004,
        ),
        ("relative", [0o16701, 0o774], 0o2000, 0o2000, 0o3000, 0o1004),
        (
            "relative deferred",
            [0o17701, 0o774],
            0o2000,
            0o2000,
            0o10,
            0o1004,
        ),
        ("byte (R)+", [0o112001, 0], 0o2003, 0o2004, 6, 0o1002),
        ("byte -(R)", [0o114001, 0], 0o2003, 0o2002, 3, 0o1002),
        ("byte @(R)+", [0o113001, 0], 0o2002, 0o2004, 1, 0o1002),
        ("byte @-(R)", [0o115001, 0], 0o2004, 0o2002, 1, 0o1002),
        ("byte X(R)", [0o116001, 0], 0o2003, 0o2003, 6, 0o1004),
        (
            "byte immediate",
            [0o112701, 0o402],
            0o2000,
            0o2000,
            2,
            0o1004,
        ),
    ] {
        let words = [
            (0o1776, 0o3002),
            (0o2000, 0o3000),
            (0o2002, 0o3003),
            (0o3000, 0o10),
            (0o3002, 0o411),
        ];
        let core = run(
            &rt,
            rt.alloc(),
            [word, next, 0],
            [before, 0, 0, 0, 0, 0, 0],
            0,
            &words,
        )?;
        assert_eq!(rt;
            core.registers(),
            [after, moved, 0, 0, 0, 0, 0, pc],
            "{name}"
        );
    }
    Ok(())
}

#[test]
fn keeps_the_order_of_operands(rt: HostRuntime) -> Result<(), Fail> {
    // R0 and R1 before and after, and the word at 2000 before and after. At 1776 stands 7.
    for (name, word, before, after, old, new) in [
        (
            "the source is read before the target steps",
            0o10020,
            [0o2000, 0],
            [0o2002, 0],
            0,
            0o2000,
        ),
        (
            "the source steps before the target is addressed",
            0o62010,
            [0o1776, 0],
            [0o2000, 0],
            5,
            0o14,
        ),
        (
            "XOR reads its register last",
            0o74020,
            [0o2000, 0],
            [0o2002, 0],
            1,
            0o2003,
        ),
        (
            "MUL reads its register last",
            0o70120,
            [0o2000, 3],
            [0o2002, 6],
            2,
            2,
        ),
        (
            "MUL reads its own register last",
            0o70020,
            [0o2000, 7],
            [0, 0o4004],
            2,
            2,
        ),
        (
            "ASH reads its register last",
            0o72020,
            [0o2000, 0],
            [0o4004, 0],
            1,
            1,
        ),
        (
            "MOVB into the low byte",
            0o110110,
            [0o2000, 0o2000],
            [0o2000, 0o2000],
            0o401,
            0o400,
        ),
    ] {
        let [r0, r1] = before;
        let words = [(0o1776, 7), (0o2000, old)];
        let core = run(
            &rt,
            rt.alloc(),
            [word, 0, 0],
            [r0, r1, 0, 0, 0, 0, 0],
            0,
            &words,
        )?;
        let [r0, r1] = after;
        assert_eq!(rt; core.registers(), [r0, r1, 0, 0, 0, 0, 0, 0o1002], "{name}");
        assert_eq!(rt; core.word(0o2000), new, "{name}");
    }
    Ok(())
}

#[test]
fn writes_half_of_a_word(rt: HostRuntime) -> Result<(), Fail> {
    // MOVB R0, 1(R1) and MOVB R0, (R1).
    for (code, want) in [([0o110061, 1, 0], 0o141001), ([0o110011, 0, 0], 0o702)] {
        let core = run(
            &rt,
            rt.alloc(),
            code,
            [0o702, 0o2000, 0, 0, 0, 0, 0],
            0,
            &[(0o2000, 0o401)],
        )?;
        assert_eq!(rt; core.word(0o2000), want);
    }
    Ok(())
}

#[test]
fn steps_the_stack_by_words(rt: HostRuntime) -> Result<(), Fail> {
    // MOVB (SP)+, R0 and MOVB -(SP), R0.
    for (word, before, after) in [(0o112600, 0o2000, 0o2002), (0o114600, 0o2002, 0o2000)] {
        let words = [(0o2000, 0o601)];
        let core = run(
            &rt,
            rt.alloc(),
            [word, 0, 0],
            [0, 0, 0, 0, 0, 0, before],
            0,
            &words,
        )?;
        assert_eq!(rt; core.registers(), [0o177601, 0, 0, 0, 0, 0, after, 0o1002]);
    }
    Ok(())
}
