// Where the parts of a compiled program stand.

ghost use Rattle.std.specs.Prelude.{◌≡◌};

use mc_word::Word;
use mc_word::word::Settings;

/// Where the kernel and the data of a compiled program begin, and what it is given to run with.
#[derive(Clone, Copy, PartialEq, Eq, Debug)]
pub struct Layout {
    pub settings: Settings,
    /// The address of the kernel's first word.
    pub kernel_at: Word,
    /// The address of the first data word.
    pub data_at: Word,
}

impl Layout {
    /// The kernel at 400 and the data at 20000 (octal).
    pub fn usual(settings: Settings) -> Layout
        ensures settings { result.settings ≡ settings }
        ensures kernel_at { result.kernel_at ≡ 0o400 }
        ensures data_at { result.data_at ≡ 0o20000 }
    {
        Layout {
            settings,
            kernel_at: 0o400,
            data_at: 0o20000,
        }
    }
}

/// The kernel: its words from `kernel_at` on, and the addresses of its entries in the order wait, send, awaited, doio,
/// start, end, enter, leave, interrupt, choose, trap.
#[derive(Debug, Drop)]
pub struct Kernel {
    pub words: Vec<Word>,
    pub entries: Vec<Word>,
}
