// Sources of the types. The columns were counted by hand.

/// A line for each source: `ok`, or the code and the column of its first type fault; a colon, a space and the source.
pub const TYPES: &str = r#"ok: module m; var i: integer; begin i := 1 + 2 - 3 * 4 div 5 mod 6 end m.
Y1 38: module m; var i: integer; begin i := true + 1 end m.
Y1 42: module m; var i: integer; begin i := 1 + true end m.
Y1 42: module m; var i: integer; begin i := 1 - 'a' end m.
Y1 38: module m; var i: integer; begin i := 'a' * 2 end m.
Y1 44: module m; var i: integer; begin i := 2 div [1] end m.
Y1 38: module m; var i: integer; begin i := [1] mod 2 end m.
ok: module m; var b: Boolean; begin b := true and false or not b end m.
ok: module m; var w: bits; begin w := w and [1] or not w xor [2] end m.
Y1 52: module m; var b: Boolean; w: bits; begin b := b or w end m.
Y1 41: module m; var w: bits; begin w := w and true end m.
Y1 38: module m; var b: Boolean; begin b := true xor b end m.
Y1 42: module m; var b: Boolean; begin b := not 1 end m.
ok: module m; var i: integer; begin i := -i; i := +i; i := -i * 2 + 1 end m.
Y1 39: module m; var i: integer; begin i := -true end m.
Y1 42: module m; var i: integer; begin i := 1 + (true) end m.
Y1 38: module m; var i: integer; begin i := 1 = 1 end m.
ok: module m; type t = (x, y); var b: Boolean; begin b := 1 = 2; b := true <> false; b := 'a' = 'b'; b := [1] <> [2]; b := x = y end m.
ok: module m; type t = (x, y); var b: Boolean; begin b := 1 < 2; b := true <= false; b := 'a' > 'b'; b := x >= y end m.
Y1 38: module m; var b: Boolean; begin b := [1] < [2] end m.
Y1 42: module m; var b: Boolean; begin b := 1 = 'a' end m.
Y1 42: module m; var b: Boolean; begin b := b = -1 end m.
Y1 71: module m; type t = (x, y); u = (v, w); var b: Boolean; begin b := x = v end m.
Y1 60: module m; var b: Boolean; a: array 1:2 of char; begin b := a = a end m.
ok: module m; type t = (x, y); var i: integer; begin i := integer(1); i := integer(true); i := integer('a'); i := integer([1]); i := integer(x) end m.
ok: module m; var c: char; w: bits; begin c := char(65); c := char(c); w := bits(1); w := bits(c); w := bits(w) end m.
Y6 40: module m; var c: char; begin c := char(true) end m.
Y6 40: module m; var w: bits; begin w := bits(false) end m.
Y6 35: module m; var w: bits; begin w := bits(true, 2) end m.
Y6 49: module m; type t = (x, y); var e: t; begin e := t(1) end m.
Y1 38: module m; var i: integer; begin i := integer end m.
Y6 17: module m; begin integer(1) end m.
ok: module m; var b: Boolean; w: bits; i: integer; begin b := w[0]; w[1] := b; b := w[i + 1]; b := w[16] end m.
ok: module m; const k = [1]; var b: Boolean; begin b := k[1] end m.
Y2 32: module m; const k = [1]; begin k[1] := true end m.
Y1 32: module m; var w: bits; begin w[true] := true end m.
Y1 47: module m; var b: Boolean; w: bits; begin b := w[1, 2] end m.
Y1 38: module m; var w: bits; begin w[1] := 1 end m.
ok: module m; procedure f: bits; begin f[3] := true end f; end m.
Y2 57: module m; procedure f: bits; begin f := [] end f; begin f[3] := true end m.
ok: module m; var a: array 1:2, 'a':'z' of integer; begin a[1, 'b'] := 1; a[1]['b'] := 2; a[1] := a[2]; a[9, 'c'] := 3 end m.
ok: module m; type t = (x, y); var a: array false:true of t; e: array x:y of char; begin a[true] := x; e[a[false]] := 'q'; e[y] := e[x] end m.
Y1 48: module m; var a: array 1:2 of integer; begin a[true] := 1 end m.
Y1 60: module m; var a: array 1:2, 'a':'z' of integer; begin a[1, 2] := 1 end m.
Y1 74: module m; type t = (x, y); u = (v, w); var a: array x:y of char; begin a[v] := 'c' end m.
Y1 46: module m; var a: array 1:2 of integer; begin a[1, 2] := 3 end m.
Y1 64: module m; var i: integer; r: record x: integer end; begin i := r[1] end m.
Y1 49: module m; var r: record x: integer end; begin r.y := 1 end m.
Y1 47: module m; var r: record x: integer end; begin r.x.y := 1 end m.
ok: module m; var r: record x, y: integer; z: array 1:2 of record p: char end end; begin r.x := r.y; r.z[1].p := 'c'; r.z[1] := r.z[2] end m.
Y1 70: module m; var a: array 1:2 of char; b: array 1:2 of char; begin a := b end m.
ok: module m; var a, b: array 1:2 of char; begin a := b; a := (b); a := ((b)) end m.
ok: module m; type t = array 1:2 of char; u = t; var a: t; b: u; begin a := b end m.
ok: module m; type t = integer; var a: t; i: integer; begin a := i; i := a + 1 end m.
ok: module m; var a: array 1:2 of char; b: array 1:2, 1:3 of char; begin a := 'ab'; a := "cd"; b[1] := 'abc' end m.
ok: module m; type t = (x, y, z); var a: array false:true of char; b: array x:z of char; begin a := 'ab'; b := 'abc' end m.
Y8 48: module m; var a: array 1:2 of char; begin a := 'abc' end m.
Y8 48: module m; var a: array 1:2 of char; begin a := '' end m.
Y1 48: module m; var a: array 1:1 of char; begin a := 'a' end m.
Y1 51: module m; var a: array 1:2 of integer; begin a := 'ab' end m.
Y8 38: module m; var i: integer; begin i := '' end m.
ok: module m; var s: signal; a: array 1:2 of signal; t: array 1:2, 1:2 of signal; begin wait(s); wait(a[1], 3); send(t[1, 2]); if awaited(a[2]) then send(s) end end m.
Y1 35: module m; var s, t: signal; begin s := t end m.
Y1 49: module m; var s: signal; b: Boolean; begin b := s = s end m.
Y1 40: module m; var r: record x: integer; s: signal end; end m.
Y1 43: module m; procedure p; var i: integer; s: signal; begin end p; end m.
Y1 31: module m; procedure p; var s: array 1:2 of signal; begin end p; end m.
ok: module m; procedure p; type t = signal; begin end p; end m.
Y6 23: module m; procedure p(s: signal); begin end p; end m.
Y6 53: module m; type t = array 1:2 of signal; procedure p(a, b: t); begin end p; end m.
Y1 24: module m; procedure f: signal; begin end f; end m.
Y6 38: module m; var i: integer; begin wait(i) end m.
Y6 40: module m; var s: signal; begin wait(s, true) end m.
Y6 17: module m; begin wait end m.
Y6 50: module m; var a: array 1:2 of signal; begin send(a) end m.
Y6 70: module m; var a: array 1:2, 1:2 of signal; begin send(a[1, 1]); send(a[1]) end m.
Y6 32: module m; var s: signal; begin awaited(s) end m.
Y6 49: module m; var s: signal; b: Boolean; begin b := wait(s) end m.
ok: module m; begin doio end m.
Y1 38: module m; var b: Boolean; begin b := awaited end m.
ok: module m; const a = 1 + 2 - 3 * 4 div 5 mod 6; b = -a; c = +a; d = a = b; e = a <> b; f = a < b; g = a <= b; h = a > b; i = a >= b; end m.
ok: module m; const a = true and false or not true; b = [1] and [2] or not [3] xor [4:6]; c = 'a' < 'b'; d = ('a'); end m.
ok: module m; const a = integer('a'); b = char(a); c = bits(b); d = integer(c); e = c[3]; f = integer(e); end m.
ok: module m; type t = (x, y); const c = y; d = x < c; e = integer(c); var a: array x:c of char; begin a[c] := 'e' end m.
Y5 21: module m; const a = 32767 + 1; end m.
ok: module m; const a = -32767 - 1; b = 100000B + 77777B; c = char(255); d = 7 mod (-2); end m.
Y5 28: module m; const a = 1; b = a div (a - 1); end m.
Y5 21: module m; const a = 100000B div (-1); end m.
Y5 21: module m; const a = -100000B; end m.
Y5 21: module m; const a = char(256); end m.
ok: module m; const a = true or (1 div 0 = 1); b = false and (1 div 0 = 1); end m.
Y5 21: module m; const a = true and (1 div 0 = 1); end m.
ok: module m; var i: integer; begin i := 1 div 0; i := 32767 + 1; i := integer(char(256)) end m.
Y1 21: module m; const a = 'ab'; end m.
Y8 21: module m; const a = ''; end m.
Y5 37: module m; var x: integer; const a = 1 + x; end m.
Y5 63: module m; procedure f: integer; begin f := 1 end f; const a = f; end m.
Y2 30: module m; const a = 1; begin a := 2 end m.
ok: module m; const k = 3; var w: bits; begin w := [1, 3:5]; w := []; w := [0:15]; w := [k, k + 1:7, 9:9] end m.
Y5 36: module m; var w: bits; begin w := [16] end m.
Y4 39: module m; var w: bits; begin w := [1, 5:3] end m.
Y5 51: module m; var w: bits; i: integer; begin w := [1, i] end m.
Y1 36: module m; var w: bits; begin w := ['a'] end m.
Y5 48: module m; var w: bits; b: Boolean; begin w := [b] end m.
ok: module m; type t = (p, q, r); var x: t; b: Boolean; begin x := p; b := x < r; case x of p: begin end; q, r: begin x := p end end end m.
Y1 49: module m; type t = (p, q); var x: t; begin x := 0 end m.
Y2 34: module m; type t = (p, q); begin p := q end m.
ok: module m; var a: array 1:1 of char; b: array -3:3 of char; c: array 'a':'a' of char; d: array 100000B:-32000 of char; end m.
Y4 24: module m; var a: array 1:'a' of char; end m.
Y4 24: module m; var a: array 2:1 of char; end m.
Y4 36: module m; var x: integer; a: array 1:x of char; end m.
Y4 24: module m; var a: array 1 + true:2 of char; end m.
Y4 29: module m; var a: array 1:2, 2:1 of char; end m.
ok: module m; var a: array 1:20000 of char; r: record a: array 1:19999 of char; b: char end; end m.
Y4 18: module m; var a: array 1:20001 of char; end m.
Y4 20: module m; type t = array 1:200, 1:101 of char; end m.
Y4 18: module m; var r: record a: array 1:20000 of char; b: char end; end m.
Y1 30: module m; var x: integer; y: x; end m.
Y1 51: module m; const k = 1; procedure p(a: integer; b: k); begin end p; end m.
ok: module m; var i: integer; procedure p(a: integer; const c: char; var x: integer); begin x := a + integer(c) end p; begin p(1, 'a', i) end m.
Y2 42: module m; procedure p(a: integer); begin a := 1 end p; end m.
Y2 64: module m; type t = array 1:2 of char; procedure p(a: t); begin a[1] := 'x' end p; end m.
ok: module m; type t = array 1:2 of char; procedure p(var a: t); begin a[1] := 'x'; a := 'xy' end p; end m.
ok: module m; var a: array 1:2 of integer; r: record x: integer end; procedure p(var x: integer); begin x := 1 end p; procedure q(var x: integer); var y: integer; begin p(x); p(y) end q; begin p(a[1]); p(r.x); q(a[2]) end m.
Y2 84: module m; var i: integer; procedure p(var x: integer); begin x := 1 end p; begin p((i)) end m.
Y2 81: module m; const k = 1; procedure p(var x: integer); begin x := 1 end p; begin p(k) end m.
Y2 93: module m; procedure p(var x: integer); begin x := 1 end p; procedure q(a: integer); begin p(a) end q; end m.
Y2 68: module m; procedure p(var x: integer); begin x := 1 end p; begin p('a') end m.
Y2 74: module m; var w: bits; procedure p(var x: Boolean); begin end p; begin p(w[1]) end m.
Y2 92: device module m [4]; var r [177566B]: char; procedure p(var x: char); begin end p; begin p(r) end m.
Y6 81: module m; var c: char; procedure p(var x: integer); begin x := 1 end p; begin p(c) end m.
ok: module m; type t = array 1:2 of char; var a: t; b: array 1:3 of t; procedure p(a: t); begin end p; procedure q(const a: t); begin p(a) end q; begin p(a); p('xy'); p(b[1]); q(a) end m.
Y6 79: module m; type t = array 1:2 of char; procedure p(a: t); begin end p; begin p('xyz') end m.
Y6 89: module m; type t = array 1:2 of char; var a: t; procedure p(a: t); begin end p; begin p((a)) end m.
Y6 105: module m; type t = array 1:2 of char; var a: array 1:2 of char; procedure p(a: t); begin end p; begin p(a) end m.
Y6 57: module m; procedure p(a: integer); begin end p; begin p(true) end m.
Y6 55: module m; procedure p(a: integer); begin end p; begin p end m.
Y6 55: module m; procedure p(a: integer); begin end p; begin p(true, 2) end m.
Y1 58: module m; procedure p(a: char); begin end p; begin p(1 + true) end m.
ok: module m; var i: integer; procedure f(a: integer): integer; begin f := a end f; procedure g: integer; begin if i = 1 then g := g + f(2) end end g; begin i := f(1) + g; i := (g) end m.
Y1 92: module m; var i: integer; procedure f(a: integer): integer; begin f := a end f; begin i := f end m.
Y6 80: module m; var i: integer; procedure f: integer; begin f := 1 end f; begin i := f(1) end m.
Y6 75: module m; var i: integer; procedure f: integer; begin f := 1 end f; begin f end m.
Y1 52: module m; type t = array 1:2 of char; procedure f: t; begin end f; end m.
Y2 75: module m; var i: integer; procedure f: integer; begin f := 1 end f; begin f := 1 end m.
Y6 76: module m; var i: integer; procedure p(a: integer); begin end p; begin i := p(1) end m.
Y1 64: module m; var i: integer; procedure p; begin end p; begin i := p end m.
Y6 50: module m; var i: integer; x: integer; begin i := x(1) end m.
Y6 33: module m; var i: integer; begin i end m.
Y2 35: module m; type t = integer; begin t := 1 end m.
ok: module m; process q(a: integer; const b: Boolean); begin end q; process o; begin o end o; begin q(1, true); o; o end m.
Y6 49: module m; type t = array 1:2 of char; process q(a: t); begin end q; end m.
Y6 37: module m; process q(i: integer; var a: integer); begin end q; end m.
Y6 74: module m; var i: integer; process q(a: integer); begin end q; begin i := q(1) end m.
Y6 59: module m; process q(a: integer); begin end q; begin q(1); q end m.
Y3 60: module m; module n; define x; var x: integer; end n; begin x := 1 end m.
ok: module m; var i: integer; module n; define x; var x: integer; procedure p; begin x := 1 end p; begin x := 2 end n; begin i := x end m.
Y3 77: module m; module n; define x; var x: integer; end n; module k; use x; begin x := 1 end k; end m.
ok: module m; module n; define x; var x: integer; module k; use x; begin x := 1 end k; begin x := 2 end n; end m.
Y3 111: module m; module n; define x; var x: integer; end n; procedure p(var x: integer); begin x := 1 end p; begin p(x) end m.
Y3 108: module m; module n; define x; var x: char; end n; procedure p(var x: integer); begin x := 1 end p; begin p(x) end m.
ok: module m; module n; define p, x; var x: integer; procedure p(var y: integer); begin y := 1 end p; begin p(x) end n; end m.
Y2 119: module m; device module n [4]; define r; var r [177566B]: char; end n; procedure p(var x: char); begin end p; begin p(r) end m.
ok: module m; interface module n; define s; var s: signal; begin send(s) end n; begin wait(s) end m.
ok: module m; var b: Boolean; begin if b then elsif not b then else end; while 1 < 2 do end; repeat until b; loop when b do b := false exit when true exit end end m.
Y1 20: module m; begin if 1 then end end m.
Y1 49: module m; var w: bits; begin if true then elsif w then end end m.
Y1 23: module m; begin while 'a' do end end m.
Y1 46: module m; var i: integer; begin repeat until i end m.
Y1 58: module m; var i: integer; begin loop when true exit when i + 1 exit end end m.
ok: module m; var i: integer; c: char; b: Boolean; begin case i of 1, -2: begin end; 3 + 4: begin end end; case c of 'a': begin end end; case b of true: begin end; false: begin end end end m.
Y1 35: module m; var w: bits; begin case w of 1: begin end end end m.
Y1 43: module m; var i: integer; begin case i of 'a': begin end end end m.
Y5 46: module m; var i, k: integer; begin case i of k: begin end end end m.
Y7 60: module m; var i: integer; begin case i of 2: begin end; 3, 1 + 1: begin end end end m.
Y7 56: module m; var c: char; begin case c of 'a': begin end; 141C: begin end end end m.
ok: device module m [3]; const a = 177566B; var r [a]: char; process d [64B]; begin doio end d; begin d end m.
Y5 18: device module m [true]; end m.
Y5 44: module m; var x: integer; device module d [x]; use x; end d; end m.
Y5 33: device module m [4]; process d ['a']; begin doio end d; begin d end m.
Y5 33: module m; var x: integer; y, z [x]: char; end m.
ok: module m; procedure p; var x [5]: integer; begin x := 1 end p; var y [177777B]: array 1:2 of char; end m.
Y5 37: module m; var x: integer; const a = true + x; end m.
Y5 37: module m; var x: integer; const a = x + true; end m.
Y2 30: module m; const k = 1; begin k := true + 'a' end m.
Y1 39: module m; var c: char; begin c := 1 + true end m.
Y4 24: module m; var a: array 2:1 of wait; end m.
"#;
