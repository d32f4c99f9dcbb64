// Sources of the rules of modules and devices. The columns were counted by a mark at the place of the fault.

/// A line for each source: `ok`, or the code and the column of its first fault of types or rules; a colon, a space and
/// the source.
pub const RULES: &str = r#"ok: device module d [4]; begin end d.
ok: device module d [5]; begin end d.
ok: device module d [6]; begin end d.
ok: device module d [7]; begin end d.
ok: device module d [2 + 2]; begin end d.
ok: device module d [4B]; begin end d.
M1 18: device module d [0]; begin end d.
M1 18: device module d [3]; begin end d.
M1 18: device module d [8]; begin end d.
M1 18: device module d [10B]; begin end d.
M1 18: device module d [2 * 4]; begin end d.
M1 18: device module d [-4]; begin end d.
M1 18: device module d [32767]; begin end d.
ok: module m; const p = 5; device module d [p]; use p; begin end d; begin end m.
M1 41: module m; const p = 8; device module d [p]; use p; begin end d; begin end m.
M1 62: module m; device module a [7]; begin end a; device module b [9]; begin end b; begin end m.
M1 28: module m; device module a [1]; begin end a; device module b [9]; begin end b; begin end m.
ok: device module d [4]; process p [60B]; begin doio end p; begin p end d.
ok: device module d [4]; process p [64B]; begin doio end p; begin p end d.
ok: device module d [4]; process p [70B]; begin doio end p; begin p end d.
ok: device module d [4]; process p [74B]; begin doio end p; begin p end d.
ok: device module d [4]; process p [48]; begin doio end p; begin p end d.
ok: device module d [4]; process p [60]; begin doio end p; begin p end d.
ok: device module d [4]; process p [50B + 10B]; begin doio end p; begin p end d.
M2 33: device module d [7]; process p [0]; begin doio end p; begin p end d.
M2 33: device module d [7]; process p [4]; begin doio end p; begin p end d.
M2 33: device module d [7]; process p [56B]; begin doio end p; begin p end d.
M2 33: device module d [7]; process p [57B]; begin doio end p; begin p end d.
M2 33: device module d [7]; process p [61B]; begin doio end p; begin p end d.
M2 33: device module d [7]; process p [62B]; begin doio end p; begin p end d.
M2 33: device module d [7]; process p [66B]; begin doio end p; begin p end d.
M2 33: device module d [7]; process p [72B]; begin doio end p; begin p end d.
M2 33: device module d [7]; process p [76B]; begin doio end p; begin p end d.
M2 33: device module d [7]; process p [77B]; begin doio end p; begin p end d.
M2 33: device module d [7]; process p [102B]; begin doio end p; begin p end d.
M2 33: device module d [7]; process p [100]; begin doio end p; begin p end d.
M2 33: device module d [7]; process p [61]; begin doio end p; begin p end d.
M2 33: device module d [7]; process p [-60B]; begin doio end p; begin p end d.
M2 69: device module d [7]; process p [100B]; begin doio end p; process q [101B]; begin doio end q; begin p end d.
ok: device module d [4]; process p [60B]; begin doio end p; process q [64B]; begin doio end q; begin p; q end d.
M3 68: device module d [4]; process p [60B]; begin doio end p; process q [60B]; begin doio end q; begin p; q end d.
M3 103: device module d [4]; process p [60B]; begin doio end p; process q [64B]; begin doio end q; process r [48]; begin doio end r; process s [64B]; begin doio end s; begin end d.
ok: module m; device module a [4]; process p [60B]; begin doio end p; begin p end a; device module b [4]; process p [64B]; begin doio end p; begin p end b; begin end m.
M3 114: module m; device module a [4]; process p [60B]; begin doio end p; begin p end a; device module b [4]; process p [60B]; begin doio end p; begin p end b; begin end m.
M3 115: module m; device module a [6]; process p [100B]; begin doio end p; begin p end a; device module b [4]; process p [100B]; begin doio end p; begin p end b; begin end m.
M2 33: device module d [4]; process p [62B]; begin doio end p; process q [62B]; begin doio end q; begin end d.
ok: device module d [6]; process p [100B]; begin doio end p; begin p end d.
ok: device module d [7]; process p [100B]; begin doio end p; begin p end d.
M4 33: device module d [4]; process p [100B]; begin doio end p; begin p end d.
M4 33: device module d [5]; process p [100B]; begin doio end p; begin p end d.
ok: device module d [5]; process p [60B]; begin doio end p; begin p end d.
ok: device module d [5]; process p [64B]; begin doio end p; begin p end d.
ok: device module d [5]; process p [70B]; begin doio end p; begin p end d.
ok: device module d [5]; process p [74B]; begin doio end p; begin p end d.
M4 77: module m; device module a [6]; begin end a; device module b [4]; process p [100B]; begin doio end p; begin p end b; begin end m.
M1 18: device module d [3]; process p [60B]; begin doio end p; begin p end d.
M5 71: module m; procedure p; begin end p; device module d [4]; use p; begin p end d; begin end m.
M5 112: module m; procedure f: integer; begin f := 1 end f; device module d [4]; use f; var i: integer; begin i := 1 + f end d; begin end m.
M5 120: module m; procedure f(i: integer): integer; begin f := i end f; device module d [4]; use f; var i: integer; begin i := f(2) end d; begin end m.
M5 69: module m; process q; begin end q; device module d [4]; use q; begin q end d; begin end m.
M5 84: module m; procedure p; begin end p; device module d [4]; use p; procedure r; begin p end r; begin end d; begin end m.
M5 94: module m; procedure p; begin end p; device module d [4]; use p; process r [60B]; begin doio; p end r; begin end d; begin end m.
M5 115: module m; device module a [4]; define p; procedure p; begin end p; begin end a; device module b [4]; use p; begin p end b; begin end m.
M5 124: module m; device module a [4]; define p; process p [60B]; begin doio end p; begin end a; device module b [4]; use p; begin p end b; begin end m.
M5 103: module m; procedure p; begin end p; device module d [4]; use p; begin if true then if false then else p end end end d; begin end m.
ok: module m; procedure p; begin end p; interface module d; use p; begin p end d; begin end m.
ok: module m; procedure p; begin end p; module d; use p; begin p end d; begin end m.
ok: module m; device module d [4]; define p; procedure p; begin end p; procedure q; begin p end q; begin q; p end d; procedure r; begin p end r; begin p; r end m.
ok: module m; var v: integer; device module d [4]; use v; begin v := v + 1 end d; begin end m.
ok: module m; procedure p; begin end p; device module d [4]; use p; begin end d; begin p end m.
ok: device module d [4]; var s: signal; procedure p; begin p end p; begin send(s); if awaited(s) then p end end d.
ok: device module d [4]; var s: signal; process p [60B]; begin wait(s) end p; begin p end d.
M6 60: device module d [4]; var s: signal; process p [60B]; begin wait(s, 1) end p; begin p end d.
M6 69: device module d [4]; var s: signal; process p [60B]; begin wait(s); wait(s, 0); wait(s, 2) end p; begin p end d.
M6 56: device module d [4]; var s: signal; procedure r; begin wait(s, 1) end r; process p [60B]; begin r end p; begin p end d.
ok: device module d [4]; var s: signal; procedure r; begin wait(s, 1) end r; process p [60B]; begin doio end p; begin p; r end d.
M6 56: device module d [4]; var s: signal; procedure c; begin wait(s, 2) end c; procedure b; begin c end b; procedure a; begin b end a; process p [60B]; begin a end p; begin p end d.
ok: device module d [4]; var s: signal; procedure c; begin wait(s, 2) end c; procedure b; begin c end b; procedure a; begin b end a; process p [60B]; begin doio end p; begin p; a end d.
M6 87: device module d [4]; var s: signal; procedure a; begin b end a; procedure b; begin c; wait(s, 2) end b; procedure c; begin a end c; process p [60B]; begin c end p; begin p end d.
ok: device module d [4]; var s: signal; procedure a; begin b end a; procedure b; begin c; wait(s, 2) end b; procedure c; begin a end c; process p [60B]; begin doio end p; begin p; a end d.
M6 56: device module d [4]; var s: signal; procedure a; begin wait(s, 3); a end a; process p [60B]; begin a end p; begin p end d.
M6 102: device module d [4]; var s: signal; i: integer; v: array 1:2 of integer; procedure f: integer; begin wait(s, 1); f := 1 end f; procedure g(j: integer): integer; begin g := j end g; process p [60B]; begin i := f end p; begin p end d.
M6 102: device module d [4]; var s: signal; i: integer; v: array 1:2 of integer; procedure f: integer; begin wait(s, 1); f := 1 end f; procedure g(j: integer): integer; begin g := j end g; process p [60B]; begin i := 1 + f * 2 end p; begin p end d.
M6 102: device module d [4]; var s: signal; i: integer; v: array 1:2 of integer; procedure f: integer; begin wait(s, 1); f := 1 end f; procedure g(j: integer): integer; begin g := j end g; process p [60B]; begin i := -f end p; begin p end d.
M6 102: device module d [4]; var s: signal; i: integer; v: array 1:2 of integer; procedure f: integer; begin wait(s, 1); f := 1 end f; procedure g(j: integer): integer; begin g := j end g; process p [60B]; begin i := (f) end p; begin p end d.
M6 102: device module d [4]; var s: signal; i: integer; v: array 1:2 of integer; procedure f: integer; begin wait(s, 1); f := 1 end f; procedure g(j: integer): integer; begin g := j end g; process p [60B]; begin i := g(f) end p; begin p end d.
M6 102: device module d [4]; var s: signal; i: integer; v: array 1:2 of integer; procedure f: integer; begin wait(s, 1); f := 1 end f; procedure g(j: integer): integer; begin g := j end g; process p [60B]; begin v[f] := 1 end p; begin p end d.
M6 102: device module d [4]; var s: signal; i: integer; v: array 1:2 of integer; procedure f: integer; begin wait(s, 1); f := 1 end f; procedure g(j: integer): integer; begin g := j end g; process p [60B]; begin i := v[f] end p; begin p end d.
M6 102: device module d [4]; var s: signal; i: integer; v: array 1:2 of integer; procedure f: integer; begin wait(s, 1); f := 1 end f; procedure g(j: integer): integer; begin g := j end g; process p [60B]; begin if f = 1 then end end p; begin p end d.
M6 102: device module d [4]; var s: signal; i: integer; v: array 1:2 of integer; procedure f: integer; begin wait(s, 1); f := 1 end f; procedure g(j: integer): integer; begin g := j end g; process p [60B]; begin if i = 1 then elsif f = 1 then end end p; begin p end d.
M6 102: device module d [4]; var s: signal; i: integer; v: array 1:2 of integer; procedure f: integer; begin wait(s, 1); f := 1 end f; procedure g(j: integer): integer; begin g := j end g; process p [60B]; begin while f = 1 do end end p; begin p end d.
M6 102: device module d [4]; var s: signal; i: integer; v: array 1:2 of integer; procedure f: integer; begin wait(s, 1); f := 1 end f; procedure g(j: integer): integer; begin g := j end g; process p [60B]; begin repeat until f = 1 end p; begin p end d.
M6 102: device module d [4]; var s: signal; i: integer; v: array 1:2 of integer; procedure f: integer; begin wait(s, 1); f := 1 end f; procedure g(j: integer): integer; begin g := j end g; process p [60B]; begin loop when f = 1 exit end end p; begin p end d.
M6 102: device module d [4]; var s: signal; i: integer; v: array 1:2 of integer; procedure f: integer; begin wait(s, 1); f := 1 end f; procedure g(j: integer): integer; begin g := j end g; process p [60B]; begin loop when true do i := f exit end end p; begin p end d.
M6 102: device module d [4]; var s: signal; i: integer; v: array 1:2 of integer; procedure f: integer; begin wait(s, 1); f := 1 end f; procedure g(j: integer): integer; begin g := j end g; process p [60B]; begin case f of 1: begin end end end p; begin p end d.
M6 102: device module d [4]; var s: signal; i: integer; v: array 1:2 of integer; procedure f: integer; begin wait(s, 1); f := 1 end f; procedure g(j: integer): integer; begin g := j end g; process p [60B]; begin case i of 1: begin i := f end end end p; begin p end d.
M6 102: device module d [4]; var s: signal; i: integer; v: array 1:2 of integer; procedure f: integer; begin wait(s, 1); f := 1 end f; procedure g(j: integer): integer; begin g := j end g; process p [60B]; begin repeat i := f until true end p; begin p end d.
M6 102: device module d [4]; var s: signal; i: integer; v: array 1:2 of integer; procedure f: integer; begin wait(s, 1); f := 1 end f; procedure g(j: integer): integer; begin g := j end g; process p [60B]; begin while true do i := f end end p; begin p end d.
M6 102: device module d [4]; var s: signal; i: integer; v: array 1:2 of integer; procedure f: integer; begin wait(s, 1); f := 1 end f; procedure g(j: integer): integer; begin g := j end g; process p [60B]; begin if true then else i := f end end p; begin p end d.
M6 102: device module d [4]; var s: signal; i: integer; v: array 1:2 of integer; procedure f: integer; begin wait(s, 1); f := 1 end f; procedure g(j: integer): integer; begin g := j end g; process p [60B]; begin loop i := f end end p; begin p end d.
M6 102: device module d [4]; var s: signal; i: integer; v: array 1:2 of integer; procedure f: integer; begin wait(s, 1); f := 1 end f; procedure g(j: integer): integer; begin g := j end g; process p [60B]; begin if not (f = 1) or (1 < f) then end end p; begin p end d.
ok: device module d [4]; var s: signal; i: integer; v: array 1:2 of integer; procedure f: integer; begin wait(s, 1); f := 1 end f; procedure g(j: integer): integer; begin g := j end g; process p [60B]; begin i := g(1) end p; begin p end d.
M6 77: module m; var s: signal; device module d [4]; use s; process p [60B]; begin wait(s, 1) end p; begin p end d; process q; begin wait(s, 1) end q; begin end m.
ok: module m; var s: signal; process q; begin wait(s, 1) end q; begin wait(s, 2) end m.
M7 69: device module d [4]; var s: signal; process p [60B]; begin wait(s); send(s) end p; begin p end d.
M7 69: device module d [4]; var s: signal; process p [60B]; begin send(s); wait(s) end p; begin p end d.
ok: device module d [4]; var s, t: signal; process p [60B]; begin wait(s); send(t) end p; begin p end d.
M7 81: device module d [4]; var s, t: signal; process p [60B]; begin wait(s); wait(t); send(t); send(s) end p; begin p end d.
M7 78: device module d [4]; var s: signal; process p [60B]; begin wait(s); wait(s); send(s); send(s) end p; begin p end d.
M7 85: device module d [4]; var s: array 1:2 of signal; process p [60B]; begin wait(s[1]); send(s[2]) end p; begin p end d.
ok: device module d [4]; var s, t: array 1:2 of signal; process p [60B]; begin wait(s[1]); send(t[1]) end p; begin p end d.
M7 113: device module d [4]; var s: array 1:2 of array 1:2 of signal; i: integer; process p [60B]; begin send(s[1][i]); wait(s[i + 1][2]) end p; begin p end d.
ok: device module d [4]; var s: signal; process p [60B]; begin wait(s); if awaited(s) then end end p; begin p end d.
M7 97: device module d [4]; var s: signal; procedure r; begin send(s) end r; process p [60B]; begin r; wait(s) end p; begin p end d.
ok: device module d [4]; var s: signal; procedure r; begin send(s) end r; process p [60B]; begin wait(s) end p; begin p; r end d.
M7 153: device module d [4]; var s: signal; procedure a; begin send(s) end a; procedure b; begin a end b; procedure c; begin b end c; process p [60B]; begin c; wait(s) end p; begin p end d.
M7 98: device module d [4]; var s: signal; process p [60B]; begin wait(s) end p; process q [64B]; begin send(s) end q; begin p; q end d.
ok: device module d [4]; var s: signal; process p [60B]; begin wait(s) end p; begin p; send(s); wait(s) end d.
M7 161: module m; device module a [4]; define s; var s: signal; process p [60B]; begin wait(s) end p; begin p end a; device module b [4]; use s; process q [64B]; begin send(s) end q; begin q end b; begin end m.
ok: module m; device module a [4]; define s; var s: signal; process p [60B]; begin wait(s) end p; begin p end a; process q; begin send(s); wait(s) end q; begin q end m.
M8 17: module m; begin doio end m.
M8 28: device module d [4]; begin doio end d.
M8 28: module m; process p; begin doio end p; begin end m.
M8 30: module m; procedure p; begin doio end p; begin end m.
M8 41: device module d [4]; procedure r; begin doio end r; process p [60B]; begin r; doio end p; begin p end d.
M8 55: module m; interface module i; procedure r; begin loop doio end end r; begin end i; begin end m.
ok: device module d [4]; process p [60B]; begin loop doio; if true then doio end end end p; begin p end d.
ok: device module d [4]; var x [177546B]: bits; begin end d.
ok: device module d [4]; var x [177550B]: bits; begin end d.
ok: device module d [4]; var x [177552B]: bits; begin end d.
ok: device module d [4]; var x [177554B]: bits; begin end d.
ok: device module d [4]; var x [177556B]: bits; begin end d.
ok: device module d [4]; var x [177560B]: bits; begin end d.
ok: device module d [4]; var x [177562B]: bits; begin end d.
ok: device module d [4]; var x [177564B]: bits; begin end d.
ok: device module d [4]; var x [177566B]: bits; begin end d.
M9 26: device module d [4]; var x [177544B]: bits; begin end d.
M9 26: device module d [4]; var x [177545B]: bits; begin end d.
M9 26: device module d [4]; var x [177547B]: bits; begin end d.
M9 26: device module d [4]; var x [177551B]: bits; begin end d.
M9 26: device module d [4]; var x [177553B]: bits; begin end d.
M9 26: device module d [4]; var x [177555B]: bits; begin end d.
M9 26: device module d [4]; var x [177557B]: bits; begin end d.
M9 26: device module d [4]; var x [177561B]: bits; begin end d.
M9 26: device module d [4]; var x [177563B]: bits; begin end d.
M9 26: device module d [4]; var x [177565B]: bits; begin end d.
M9 26: device module d [4]; var x [177567B]: bits; begin end d.
M9 26: device module d [4]; var x [177570B]: bits; begin end d.
M9 26: device module d [4]; var x [177540B]: bits; begin end d.
M9 26: device module d [4]; var x [177776B]: bits; begin end d.
M9 26: device module d [4]; var x [177777B]: bits; begin end d.
M9 26: device module d [4]; var x [0]: bits; begin end d.
M9 26: device module d [4]; var x [60B]: bits; begin end d.
M9 26: device module d [4]; var x [-1]: bits; begin end d.
ok: device module d [4]; var x [-214B]: bits; begin end d.
ok: device module d [4]; var x [177566B]: integer; begin end d.
ok: device module d [4]; var x [177566B]: char; begin end d.
ok: device module d [4]; var x [177566B]: bits; begin end d.
M9 26: device module d [4]; var x [177566B]: Boolean; begin end d.
M9 26: device module d [4]; var x [177566B]: (a, b); begin end d.
M9 26: device module d [4]; var x [177566B]: array 1:1 of bits; begin end d.
M9 26: device module d [4]; var x [177566B]: record a: char end; begin end d.
ok: device module d [4]; type t = char; var x [177566B]: t; begin end d.
M9 62: device module d [4]; type t = (a, b); var x [177564B]: bits; y [177566B]: t; begin end d.
M9 15: module m; var x [177564B]: bits; begin end m.
M9 35: module m; interface module i; var x [177564B]: bits; begin end i; begin end m.
M9 49: module m; device module d [4]; begin end d; var x [177564B]: bits; begin end m.
M9 39: device module d [4]; procedure p; var x [177564B]: bits; begin end p; begin end d.
M9 55: device module d [4]; process p [60B]; var i: integer; x [177564B]: bits; begin doio end p; begin end d.
M9 26: module m; process p; var x [177564B]: bits; begin end p; begin end m.
M9 39: device module d [4]; var a [177564B], b [177565B]: bits; begin end d.
ok: device module d [4]; var a [177564B], b [177564B]: bits; i, j: Boolean; begin end d.
ok: device module d [4]; process p [60B]; begin doio end p; begin p; p end d.
M10 76: device module d [4]; process p [60B]; begin doio end p; procedure r; begin p end r; begin r end d.
M10 51: device module d [4]; process p [60B]; begin doio; p end p; begin p end d.
M10 86: device module d [4]; process p [60B]; begin doio end p; process q [64B]; begin doio; p end q; begin p; q end d.
M10 98: module m; device module d [4]; define p; process p [60B]; begin doio end p; begin p end d; begin p end m.
M10 125: module m; device module d [4]; define p; process p [60B]; begin doio end p; begin p end d; interface module i; use p; begin p end i; begin end m.
M10 109: module m; device module d [4]; define p; process p [60B]; begin doio end p; begin p end d; process q; begin p end q; begin q end m.
ok: module m; process q; begin end q; process r; begin q; r end r; procedure a; begin q end a; begin q; r; a end m.
M1 54: module m; procedure e; begin end e; device module d [3]; use e; var x [0]: bits; s: signal; procedure r; begin doio; p; e end r; process p [62B]; begin wait(s, 1); send(s) end p; process q [62B]; begin doio end q; begin end d; begin end m.
M9 69: module m; procedure e; begin end e; device module d [4]; use e; var x [0]: bits; s: signal; procedure r; begin doio; p; e end r; process p [62B]; begin wait(s, 1); send(s) end p; process q [62B]; begin doio end q; begin end d; begin end m.
M8 118: module m; procedure e; begin end e; device module d [4]; use e; var x [177564B]: bits; s: signal; procedure r; begin doio; p; e end r; process p [62B]; begin wait(s, 1); send(s) end p; process q [62B]; begin doio end q; begin end d; begin end m.
M10 121: module m; procedure e; begin end e; device module d [4]; use e; var x [177564B]: bits; s: signal; procedure r; begin r; p; e end r; process p [62B]; begin wait(s, 1); send(s) end p; process q [62B]; begin doio end q; begin end d; begin end m.
M5 124: module m; procedure e; begin end e; device module d [4]; use e; var x [177564B]: bits; s: signal; procedure r; begin r; r; e end r; process p [62B]; begin wait(s, 1); send(s) end p; process q [62B]; begin doio end q; begin end d; begin end m.
M2 144: module m; procedure e; begin end e; device module d [4]; use e; var x [177564B]: bits; s: signal; procedure r; begin r; r; r end r; process p [62B]; begin wait(s, 1); send(s) end p; process q [62B]; begin doio end q; begin end d; begin end m.
M4 144: module m; procedure e; begin end e; device module d [4]; use e; var x [177564B]: bits; s: signal; procedure r; begin r; r; r end r; process p [100B]; begin wait(s, 1); send(s) end p; process q [62B]; begin doio end q; begin end d; begin end m.
M6 156: module m; procedure e; begin end e; device module d [4]; use e; var x [177564B]: bits; s: signal; procedure r; begin r; r; r end r; process p [60B]; begin wait(s, 1); send(s) end p; process q [62B]; begin doio end q; begin end d; begin end m.
M7 165: module m; procedure e; begin end e; device module d [4]; use e; var x [177564B]: bits; s: signal; procedure r; begin r; r; r end r; process p [60B]; begin wait(s); send(s) end p; process q [62B]; begin doio end q; begin end d; begin end m.
M2 188: module m; procedure e; begin end e; device module d [4]; use e; var x [177564B]: bits; s: signal; procedure r; begin r; r; r end r; process p [60B]; begin wait(s); doio end p; process q [62B]; begin doio end q; begin end d; begin end m.
M3 188: module m; procedure e; begin end e; device module d [4]; use e; var x [177564B]: bits; s: signal; procedure r; begin r; r; r end r; process p [60B]; begin wait(s); doio end p; process q [60B]; begin doio end q; begin end d; begin end m.
Y1 44: module m; var i: integer; begin doio; i := true end m.
"#;
