// The addresses on the bus at which devices answer.

ghost use Rattle.std.specs.Prelude.{◌≡◌, is_some};
ghost use Rattle.pdp_dev.specs.Register.{register_at};

use mc_word::Word;

/// A device register (DEC's Peripherals Handbook: KL11, PC11, KW11-L).
#[derive(Clone, Copy, PartialEq, Eq, Debug)]
pub enum Register {
    /// TKS at 177560: bit 7 a key waits, bit 6 interrupt enable.
    KeyboardStatus,
    /// TKB at 177562: the byte of the key; a read ends its waiting (own).
    KeyboardByte,
    /// TPS at 177564: bit 7 ready, bit 6 interrupt enable.
    PrinterStatus,
    /// TPB at 177566: a write prints its low byte.
    PrinterByte,
    /// LKS at 177546: bit 7 the clock has ticked, bit 6 interrupt enable.
    ClockStatus,
    /// PRS at 177550: bit 15 error, bit 11 busy, bit 7 done, bit 6 interrupt enable, bit 0 start.
    ReaderStatus,
    /// PRB at 177552: the byte that was read; a read clears done (own).
    ReaderByte,
    /// PPS at 177554: bit 7 ready, bit 6 interrupt enable.
    PunchStatus,
    /// PPB at 177556: a write punches its low byte.
    PunchByte,
}

/// The register at an address, if one is there.
pub fn register_of(a: Word) -> Option<Register>
    ensures { result ≡ register_at a }
{
    match a {
        0o177560 => Some(Register::KeyboardStatus),
        0o177562 => Some(Register::KeyboardByte),
        0o177564 => Some(Register::PrinterStatus),
        0o177566 => Some(Register::PrinterByte),
        0o177546 => Some(Register::ClockStatus),
        0o177550 => Some(Register::ReaderStatus),
        0o177552 => Some(Register::ReaderByte),
        0o177554 => Some(Register::PunchStatus),
        0o177556 => Some(Register::PunchByte),
        _ => None,
    }
}

/// Whether a device register has this address.
pub fn is_register(a: Word) -> bool
    ensures { result ≡ is_some (register_at a) }
{
    register_of(a).is_some()
}
