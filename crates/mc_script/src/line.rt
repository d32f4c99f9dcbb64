// What a line says, by its fields.

use crate::setting::Setting;

/// What a line says. Its numbers stand as their digits, of which there may be any number.
#[derive(Clone, Copy)]
pub enum Line<'a> {
    /// A key is struck: the time in decimal, and the byte in octal.
    Strikes(&'a [u8], &'a [u8]),
    /// Bytes on the tape: one or more fields in octal.
    Tape(&'a [u8]),
    /// A value in decimal.
    Sets(Setting, &'a [u8]),
}
