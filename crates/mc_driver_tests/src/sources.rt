// Sources of the form that runs, and the files of a shelf.

use mc_word::bytes::Memory;
use std::alloc::Global;

/// A source that prints 101.
pub const PRINTS_A: &str = "device module m [4]; var TPB [177566B]: char; begin TPB := 'A' end m.";

/// A source whose second byte comes too early.
pub const PRINTS_A_B: &str =
    "device module m [4]; var TPB [177566B]: char; begin TPB := 'A'; TPB := 'B' end m.";

/// A source that punches 101.
pub const PUNCHES_A: &str =
    "device module m [4]; var PPB [177556B]: char; begin PPB (* one byte *) := 'A' end m.";

/// What is printed for `PRINTS_A`, where `#` stands for digits.
pub const PRINTED_A: &str = "print 101\ninstructions #\nend\n";

/// The files of a shelf: a source `a`, the same source as `-`, and a script `b`.
pub fn shelf_files<'a>(source: &'a [u8], script: &'a [u8]) -> [(&'a str, &'a [u8]); 3] {
    [("a", source), ("-", source), ("b", script)]
}

/// `PRINTS_A` with other words in the place of these; no source where it lacks these.
pub fn with_words(alloc: Global, words: &str, others: &str) -> Result<String, Memory> {
    let (before, after) = PRINTS_A.split_once(words).unwrap_or(("no such words", ""));
    format!(in alloc; "{before}{others}{after}").map_err(|_| Memory)
}

/// What `generate 3` prints.
pub const RING_OF_3: &str = "module ring;
const last = 3; laps = 100;
device module console [4];
define put;
var TPS [177564B]: bits; TPB [177566B]: char;
procedure put(c: char);
begin
  while not TPS[7] do end;
  TPB := c
end put;
end console;
interface module gate;
define arrive, hold, pass;
use last, marshal;
var turn: signal; count: integer;
procedure arrive(r: integer);
begin
  count := count + 1;
  if count = last then marshal end;
  wait(turn, r)
end arrive;
procedure hold(r: integer);
begin wait(turn, r) end hold;
procedure pass;
begin send(turn) end pass;
end gate;
process marshal;
var k: integer;
begin
  k := 0;
  while k < last * laps do pass; k := k + 1 end
end marshal;
process member(r: integer);
var lap: integer;
begin
  arrive(r);
  put(char(100B + r));
  lap := 1;
  while lap < laps do
    hold(lap * last + r);
    put(char(100B + r));
    lap := lap + 1
  end
end member;
var r: integer;
begin
  r := last;
  while r > 0 do member(r); r := r - 1 end
end ring.
";
