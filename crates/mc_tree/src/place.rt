// Places in a source.

/// A place in a source: the line, and the column in bytes, both counted from 1.
/// A line ends with the byte 10.
#[derive(Clone, Copy, PartialEq, Eq, Debug)]
pub struct Place {
    pub line: u32,
    pub column: u32,
}
