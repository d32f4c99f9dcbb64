// The program that `generate` prints.

ghost use Rattle.std.specs.Prelude.{◌≡◌, ◌++◌, codes, IfOk};
ghost use Rattle.mc_report.specs.Ring.{ring_lines, ring_text, text_of};

use crate::digits::decimal_digits;
use mc_word::bytes::Memory;
use std::alloc::Global;

// The text behind the number of members.
fn ring_behind() -> &'static [u8]
    ensures { result.now ≡ codes "; laps = 100;\n" ++ text_of ring_lines }
{
    b"; laps = 100;
device module console [4];
define put;
var TPS [177564B]: bits; TPB [177566B]: char;
procedure put(c: char);
begin
  while not TPS[7] do end;
  TPB := c
end put;
end console;
interface module gate;
define arrive, hold, pass;
use last, marshal;
var turn: signal; count: integer;
procedure arrive(r: integer);
begin
  count := count + 1;
  if count = last then marshal end;
  wait(turn, r)
end arrive;
procedure hold(r: integer);
begin wait(turn, r) end hold;
procedure pass;
begin send(turn) end pass;
end gate;
process marshal;
var k: integer;
begin
  k := 0;
  while k < last * laps do pass; k := k + 1 end
end marshal;
process member(r: integer);
var lap: integer;
begin
  arrive(r);
  put(char(100B + r));
  lap := 1;
  while lap < laps do
    hold(lap * last + r);
    put(char(100B + r));
    lap := lap + 1
  end
end member;
var r: integer;
begin
  r := last;
  while r > 0 do member(r); r := r - 1 end
end ring.
"
}

/// The source of a ring of so many members that take turns: each comes to print its letter a hundred times. It is accepted
/// where there are 1 to 26 members.
///
/// # Errors
///
/// Want of memory alone.
pub fn ring_source(alloc: Global, members: u8) -> Result<Vec<u8>, Memory>
    ensures { IfOk result (λ text. text.items ≡ ring_text members) }
{
    let mut text = Vec::from_slice(alloc, b"module ring;\nconst last = ")?;
    text.extend_from_slice(decimal_digits(u64::from(members)).as_slice())?;
    text.extend_from_slice(ring_behind())?;
    Ok(text)
}
