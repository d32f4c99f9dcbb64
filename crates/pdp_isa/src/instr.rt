// The instructions and their fields.

ghost use Rattle.std.specs.Prelude.{◌≡◌, ◌<◌, ◌%◌};

/// A field of an instruction: a number below N.
#[derive(Clone, Copy, PartialEq, Eq, Debug)]
pub struct Field<const N: u16> {
    pub value: u16,
    ghost in_range: { value < N },
}

impl<const N: u16> Field<N> {
    /// The low part of a number.
    pub fn low_part(x: u16) -> Field<N>
        requires { 0 < N }
        ensures { result.value ≡ x % N }
    {
        Field { value: x % N }
    }
}

/// An instruction of the PDP-11, one variant for each row of its table (DEC's Processor Handbook), but for
/// memory management, floating point, SPL and MARK, which this project leaves out.
///
/// A source or target has six bits, its mode and its register. `Byte` marks the byte form of a row.
/// A branch adds twice its signed offset to PC; SOB subtracts twice its own.
#[derive(Clone, Copy, PartialEq, Eq, Debug)]
pub enum Instr {
    /// Target := source.
    Mov {
        source: Field<64>,
        target: Field<64>,
    },
    MovByte {
        source: Field<64>,
        target: Field<64>,
    },
    /// Codes of source - target.
    Cmp {
        source: Field<64>,
        target: Field<64>,
    },
    CmpByte {
        source: Field<64>,
        target: Field<64>,
    },
    /// Codes of source and target.
    Bit {
        source: Field<64>,
        target: Field<64>,
    },
    BitByte {
        source: Field<64>,
        target: Field<64>,
    },
    /// Clears the source's bits in the target.
    Bic {
        source: Field<64>,
        target: Field<64>,
    },
    BicByte {
        source: Field<64>,
        target: Field<64>,
    },
    /// Sets the source's bits in the target.
    Bis {
        source: Field<64>,
        target: Field<64>,
    },
    BisByte {
        source: Field<64>,
        target: Field<64>,
    },
    /// Target := target + source.
    Add {
        source: Field<64>,
        target: Field<64>,
    },
    /// Target := target - source.
    Sub {
        source: Field<64>,
        target: Field<64>,
    },
    /// Target := 0.
    Clr {
        target: Field<64>,
    },
    ClrByte {
        target: Field<64>,
    },
    /// Target := not target.
    Com {
        target: Field<64>,
    },
    ComByte {
        target: Field<64>,
    },
    /// Target := target + 1.
    Inc {
        target: Field<64>,
    },
    IncByte {
        target: Field<64>,
    },
    /// Target := target - 1.
    Dec {
        target: Field<64>,
    },
    DecByte {
        target: Field<64>,
    },
    /// Target := - target.
    Neg {
        target: Field<64>,
    },
    NegByte {
        target: Field<64>,
    },
    /// Target := target + C.
    Adc {
        target: Field<64>,
    },
    AdcByte {
        target: Field<64>,
    },
    /// Target := target - C.
    Sbc {
        target: Field<64>,
    },
    SbcByte {
        target: Field<64>,
    },
    /// Codes of the target.
    Tst {
        target: Field<64>,
    },
    TstByte {
        target: Field<64>,
    },
    /// Rotates right through C.
    Ror {
        target: Field<64>,
    },
    RorByte {
        target: Field<64>,
    },
    /// Rotates left through C.
    Rol {
        target: Field<64>,
    },
    RolByte {
        target: Field<64>,
    },
    /// Shifts right, with the sign kept.
    Asr {
        target: Field<64>,
    },
    AsrByte {
        target: Field<64>,
    },
    /// Shifts left.
    Asl {
        target: Field<64>,
    },
    AslByte {
        target: Field<64>,
    },
    /// Target := 0, or all ones where N is set.
    Sxt {
        target: Field<64>,
    },
    /// Swaps the target's bytes.
    Swab {
        target: Field<64>,
    },
    /// Target := target xor register.
    Xor {
        register: Field<8>,
        target: Field<64>,
    },
    /// Register := register * source, of 32 bits in two registers where the register is even.
    Mul {
        register: Field<8>,
        source: Field<64>,
    },
    /// Quotient and remainder of two registers by the source.
    Div {
        register: Field<8>,
        source: Field<64>,
    },
    /// Shifts the register by the source's low six bits.
    Ash {
        register: Field<8>,
        source: Field<64>,
    },
    /// Shifts two registers by the source's low six bits.
    Ashc {
        register: Field<8>,
        source: Field<64>,
    },
    /// Register := register - 1; goes back by the offset where it is not 0 then.
    Sob {
        register: Field<8>,
        offset: Field<64>,
    },
    /// Goes to the target's address.
    Jmp {
        target: Field<64>,
    },
    /// Pushes the register, keeps the return address in it, and goes to the target's address.
    Jsr {
        register: Field<8>,
        target: Field<64>,
    },
    /// Goes to the register's address, and pops the register.
    Rts {
        register: Field<8>,
    },
    /// Returns from an interrupt.
    Rti,
    /// Returns from a trap.
    Rtt,
    /// Stops the machine.
    Halt,
    /// Waits for an interrupt.
    Wait,
    /// Sets all devices as at opening.
    Reset,
    /// Traps through 14.
    Bpt,
    /// Traps through 20.
    Iot,
    /// Traps through 30.
    Emt {
        code: Field<256>,
    },
    /// Traps through 34.
    Trap {
        code: Field<256>,
    },
    /// Clears the codes of the mask: N 8, Z 4, V 2, C 1.
    ClearCodes {
        mask: Field<16>,
    },
    /// Sets the codes of the mask: N 8, Z 4, V 2, C 1.
    SetCodes {
        mask: Field<16>,
    },
    /// Branches always.
    Br {
        offset: Field<256>,
    },
    /// Branches where Z is clear.
    Bne {
        offset: Field<256>,
    },
    /// Branches where Z is set.
    Beq {
        offset: Field<256>,
    },
    /// Branches where N equals V.
    Bge {
        offset: Field<256>,
    },
    /// Branches where N differs from V.
    Blt {
        offset: Field<256>,
    },
    /// Branches where Z is clear and N equals V.
    Bgt {
        offset: Field<256>,
    },
    /// Branches where Z is set or N differs from V.
    Ble {
        offset: Field<256>,
    },
    /// Branches where N is clear.
    Bpl {
        offset: Field<256>,
    },
    /// Branches where N is set.
    Bmi {
        offset: Field<256>,
    },
    /// Branches where C and Z are clear.
    Bhi {
        offset: Field<256>,
    },
    /// Branches where C or Z is set.
    Blos {
        offset: Field<256>,
    },
    /// Branches where V is clear.
    Bvc {
        offset: Field<256>,
    },
    /// Branches where V is set.
    Bvs {
        offset: Field<256>,
    },
    /// Branches where C is clear.
    Bcc {
        offset: Field<256>,
    },
    /// Branches where C is set.
    Bcs {
        offset: Field<256>,
    },
}
