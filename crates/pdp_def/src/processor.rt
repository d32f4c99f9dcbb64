// The processor's registers, its status word and the memory.

ghost use Rattle.std.specs.Prelude.{◌≡◌, ◌<◌, ◌≤◌, ◌+◌, ◌/◌, ℕ, length, slice_index, slice_set, IfOk};
ghost use Rattle.pdp_def.specs.State.{opening_core, byte_of, with_byte};
ghost use Rattle.pdp_def.specs.Bytes.{IsPatched};

use mc_word::Word;
use mc_word::bytes::Memory;
use std::alloc::Global;
use std::marker::Model;

/// How many words the memory has: those at the addresses below 160000 octal.
pub const WORDS: usize = 28672;

/// The processor's state: eight registers, the status word PS, whether it waits, and the memory.
#[derive(Drop)]
pub struct Core {
    registers: [Word; 8],
    ps: Word,
    waiting: bool,
    memory: Vec<Word>,
}

impl Model for Core {
    ghost use Rattle.std.specs.Prelude.{◌≡◌, vec_len};
    ghost use Rattle.pdp_def.specs.State.{CoreState};

    ghost Value = { CoreState };

    ghost view = { λ c. record { registers = c.registers; ps = c.ps; waiting = c.waiting; memory = c.memory.items } };

    ghost invariant = { λ c. vec_len c.memory ≡ 28672 };
}

impl Core {
    /// The state at opening: all registers, PS and all words are zero.
    pub fn new(alloc: Global) -> Result<Core, Memory>
        ensures { IfOk result (λ c. c ≡ opening_core) }
    {
        Ok(Core {
            registers: [0; 8],
            ps: 0,
            waiting: false,
            memory: vec![in alloc; 0; WORDS]?,
        })
    }

    /// The register of this number.
    pub fn register(&self, r: usize) -> Word
        requires { r < 8 }
        ensures { result ≡ slice_index self.now.registers r }
    {
        self.registers[r]
    }

    /// Sets a register.
    pub fn set_register(&mut self, r: usize, w: Word)
        requires { r < 8 }
        ensures { self.new ≡ record self.old { registers = slice_set self.old.registers r w } }
    {
        self.registers[r] = w;
    }

    /// All registers, R0 to R7.
    pub fn registers(&self) -> [Word; 8]
        ensures { result ≡ self.now.registers }
    {
        self.registers
    }

    /// Sets all registers.
    pub fn set_registers(&mut self, registers: [Word; 8])
        ensures { self.new ≡ record self.old { registers = registers } }
    {
        self.registers = registers;
    }

    /// The status word: priority in bits 7 to 5, and the condition codes N, Z, V, C in bits 3 to 0.
    pub fn ps(&self) -> Word
        ensures { result ≡ self.now.ps }
    {
        self.ps
    }

    /// Sets the status word.
    pub fn set_ps(&mut self, w: Word)
        ensures { self.new ≡ record self.old { ps = w } }
    {
        self.ps = w;
    }

    /// Whether the processor waits for a grant.
    pub fn waiting(&self) -> bool
        ensures { result ≡ self.now.waiting }
    {
        self.waiting
    }

    /// Makes the processor wait, or ends that.
    pub fn set_waiting(&mut self, waiting: bool)
        ensures { self.new ≡ record self.old { waiting = waiting } }
    {
        self.waiting = waiting;
    }

    /// The word of memory at an even address, or the one around an odd address.
    pub fn word(&self, a: Word) -> Word
        requires { a < 57344 }
        ensures { result ≡ slice_index self.now.memory (a / 2) }
    {
        self.memory[usize::from(a / 2)]
    }

    /// Sets the word of memory at an even address, or the one around an odd address.
    pub fn set_word(&mut self, a: Word, w: Word)
        requires { a < 57344 }
        ensures { self.new ≡ record self.old { memory = slice_set self.old.memory (a / 2) w } }
    {
        self.memory[usize::from(a / 2)] = w;
    }

    /// The byte of memory at an address: the low half of its word at an even one, else the high half.
    pub fn byte(&self, a: Word) -> u8
        requires { a < 57344 }
        ensures { result ≡ byte_of self.now.memory a }
    {
        let w = self.word(a);
        if a % 2 == 0 {
            (w % 256) as u8
        } else {
            (w / 256) as u8
        }
    }

    /// Sets the byte of memory at an address.
    pub fn set_byte(&mut self, a: Word, b: u8)
        requires { a < 57344 }
        ensures { self.new ≡ record self.old { memory = with_byte self.old.memory a b } }
    {
        put_byte(self.memory.as_mut_slice(), a, b);
    }

    /// Puts bytes into memory from an address on.
    pub fn fill(&mut self, at: Word, bytes: &[u8])
        requires { at + length bytes.now ≤ 57344 }
        ensures bytes { IsPatched (length bytes.now) bytes.now at self.old.memory self.new.memory }
        ensures rest { self.new ≡ record self.old { memory = self.new.memory } }
        ensures length { length self.new.memory ≡ length self.old.memory }
    {
        put_bytes(self.memory.as_mut_slice(), at, bytes);
    }
}

// Sets a byte of some words.
fn put_byte(memory: &mut [Word], a: Word, b: u8)
    requires { a / 2 < length memory.old }
    ensures { memory.new ≡ with_byte memory.old a b }
{
    let word = &mut memory[usize::from(a / 2)];
    let byte = u16::from(b);
    if a % 2 == 0 {
        *word = *word / 256 * 256 + byte;
    } else {
        *word = byte * 256 + *word % 256;
    }
}

// Puts bytes into the whole memory from an address on.
fn put_bytes(memory: &mut [Word], at: Word, bytes: &[u8])
    requires memory { length memory.old ≡ 28672 }
    requires room { at + length bytes.now ≤ 57344 }
    ensures { IsPatched (length bytes.now) bytes.now at memory.old memory.new }
{
    let mut a = at;
    for byte in bytes {
        put_byte(memory, a, *byte);
        a += 1;
    }
}
