// Further sources of the types. The columns were counted by hand.

/// A line for each source: `ok`, or the code and the column of its first type fault; a colon, a space and the source.
pub const MORE_TYPES: &str =
    r#"Y1 63: module m; var i: integer; a: array 1:2 of integer; begin i := a + 1 end m.
Y1 68: module m; var i: integer; r: record x: integer end; begin i := 1 + r end m.
Y1 59: module m; type t = (x, y); var i: integer; begin i := 1 * x end m.
Y1 38: module m; var b: Boolean; begin b := 1 and true end m.
Y1 47: module m; var b: Boolean; begin b := true and 1 end m.
Y1 38: module m; var b: Boolean; begin b := 'a' or b end m.
Y1 41: module m; var w: bits; begin w := w xor true end m.
Y1 35: module m; var w: bits; begin w := 1 xor w end m.
Y1 42: module m; var i: integer; begin i := not i end m.
Y1 59: module m; type t = (x, y); var b: Boolean; begin b := not x end m.
Y1 36: module m; var c: char; begin c := +'a' end m.
Y1 36: module m; var w: bits; begin w := -w end m.
Y1 38: module m; var b: Boolean; begin b := 1 + 1 end m.
Y1 47: module m; var b: Boolean; w: bits; begin b := not w end m.
Y1 47: module m; var b: Boolean; w: bits; begin b := w >= w end m.
Y1 42: module m; var b: Boolean; begin b := 1 < [1] end m.
Y1 59: module m; type t = (x, y); var b: Boolean; begin b := x < 1 end m.
Y1 61: module m; var b: Boolean; r: record x: char end; begin b := r <> r end m.
Y1 60: module m; var b: Boolean; a: array 1:2 of char; begin b := a = 'ab' end m.
Y1 38: module m; var b: Boolean; begin b := 'ab' = 'ab' end m.
Y1 51: module m; var b: Boolean; c: char; begin b := c = 'ab' end m.
Y6 40: module m; var c: char; begin c := char([1]) end m.
Y6 57: module m; type t = (x, y); var c: char; begin c := char(x) end m.
Y6 57: module m; type t = (x, y); var w: bits; begin w := bits(y) end m.
Y6 68: module m; var i: integer; a: array 1:2 of char; begin i := integer(a) end m.
Y6 46: module m; var i: integer; begin i := integer('ab') end m.
Y6 38: module m; var i: integer; begin i := integer(1, 2) end m.
Y6 38: module m; var b: Boolean; begin b := Boolean(1) end m.
Y1 38: module m; var i: integer; begin i := char(65) end m.
Y1 49: module m; var b: Boolean; w: bits; begin b := w['a'] end m.
Y1 35: module m; var w: bits; begin w := w[1] end m.
ok: module m; var a: array 1:2 of bits; begin a[1, 2] := a[2][1] end m.
Y1 44: module m; procedure f: bits; begin f[3] := 1 end f; end m.
Y1 72: module m; var b: Boolean; a: array false:true of Boolean; begin b := a[1] end m.
Y1 48: module m; var a: array 1:2 of integer; begin a[a] := 1 end m.
Y1 33: module m; var i: integer; begin i[1] := 1 end m.
Y1 63: module m; var i: integer; a: array 1:2 of integer; begin i := a.x end m.
Y1 33: module m; var i: integer; begin i.x := 1 end m.
Y1 65: module m; var r: record x: record z: integer end end; begin r.x.y := 1 end m.
Y1 54: module m; var a: array 1:2 of integer; begin a[1] := 'a' end m.
Y1 78: module m; var r: record x: integer end; s: record x: integer end; begin r := s end m.
ok: module m; type t = record x: integer end; var r: t; s: t; begin r := s; r := (s) end m.
Y1 94: module m; type t = record x: integer end; var r: t; s: array 1:2 of t; begin r := s[1]; s := r end m.
Y1 56: module m; var x: (p, q); y: (r, s); begin x := q; x := y end m.
Y1 70: module m; var a: array 1:2 of char; b: array 1:2 of char; begin a := (b) end m.
Y1 92: module m; var a: array 1:2, 1:3 of char; b: array 1:3 of char; begin a[1] := a[2]; a[1] := b end m.
Y8 48: module m; var a: array 1:3 of char; begin a := 'ab' end m.
Y1 35: module m; var c: char; begin c := 'ab' end m.
Y1 42: module m; var i: integer; begin i := 1 + 'ab' end m.
Y8 42: module m; var i: integer; begin i := 1 + '' end m.
Y1 48: module m; var a, b: array 1:2 of signal; begin a := b end m.
Y1 49: module m; var s: signal; i: integer; begin i := s end m.
Y1 29: module m; process q; var s: signal; begin end q; end m.
Y1 48: module m; procedure p; type t = signal; var s: t; begin end p; end m.
Y6 39: module m; procedure p(i: integer; var s: signal); begin end p; end m.
Y6 32: module m; var s: signal; begin wait(s, 1, 2) end m.
Y6 32: module m; var s: signal; begin send(s, 1) end m.
Y6 46: module m; var b: Boolean; begin b := awaited(b) end m.
Y6 49: module m; var s: signal; b: Boolean; begin b := awaited(s, 1) end m.
Y1 49: module m; var s: signal; i: integer; begin i := awaited(s) end m.
Y6 17: module m; begin doio(1) end m.
Y5 21: module m; const a = -32767 - 2; end m.
Y5 21: module m; const a = 200 * 200; end m.
Y5 21: module m; const a = 1 mod 0; end m.
Y5 21: module m; const a = 100000B mod (-1); end m.
Y5 21: module m; const a = integer(char(-1)); end m.
Y5 30: module m; const a = [1]; b = a[16]; end m.
Y5 21: module m; const a = (1 div 0 = 1) or true; end m.
Y5 37: module m; var x: integer; const a = x; end m.
Y5 34: module m; var x: char; const a = integer(x); end m.
Y5 52: module m; const k = [1]; var x: integer; const a = k[x]; end m.
Y5 39: module m; type t = integer; const a = t; end m.
Y5 46: module m; procedure p(a: integer); const b = a; begin end p; end m.
Y5 39: module m; var w: bits; begin w := [1, -1] end m.
Y5 36: module m; var w: bits; begin w := [1 div 0] end m.
Y1 38: module m; var i: integer; begin i := [1] end m.
Y1 61: module m; type t = (p, q); u = (r, s); var x: t; begin x := r end m.
Y1 55: module m; type t = (p, q); var i: integer; begin i := q end m.
Y4 24: module m; var a: array 'b':'a' of char; end m.
Y4 24: module m; var a: array true:false of char; end m.
Y4 41: module m; type t = (x, y); var a: array y:x of char; end m.
Y4 53: module m; type t = (x, y); u = (v, w); var a: array x:w of char; end m.
Y4 24: module m; var a: array [1]:[2] of char; end m.
Y4 36: module m; var x: integer; a: array x:2 of char; end m.
Y4 24: module m; var a: array 'ab':'cd' of char; end m.
Y4 24: module m; var a: array 77777B:100000B of char; end m.
Y4 18: module m; var a: array 100000B:77777B of char; end m.
Y4 63: module m; type t = array 1:10001 of char; procedure p; var a: array 1:2 of t; begin end p; end m.
Y1 18: module m; var y: true; end m.
Y1 57: module m; procedure p; begin end p; var y: array 1:2 of p; end m.
Y1 30: module m; type t = record a: wait end; end m.
Y2 48: module m; procedure p(const a: integer); begin a := true end p; end m.
Y2 40: module m; process q(a: integer); begin a := 1 end q; end m.
Y2 65: module m; type t = record x: char end; procedure p(a: t); begin a.x := 'x' end p; end m.
Y2 39: module m; procedure p(w: bits); begin w[1] := true end p; end m.
Y2 68: module m; procedure p(var x: integer); begin x := 1 end p; begin p(1) end m.
Y2 84: module m; var i: integer; procedure p(var x: integer); begin x := 1 end p; begin p(i + 1) end m.
Y2 110: module m; procedure f: integer; begin f := 1 end f; procedure p(var x: integer); begin x := 1 end p; begin p(f) end m.
Y2 68: module m; procedure p(var x: integer); begin x := 1 end p; begin p(integer) end m.
Y2 81: module m; var w: bits; procedure p(var x: integer); begin x := 1 end p; begin p(w[1]) end m.
Y6 109: module m; type t = array 1:2 of char; var a: array 1:2 of char; procedure p(var x: t); begin end p; begin p(a) end m.
Y6 79: module m; type t = array 1:2 of char; procedure p(a: t); begin end p; begin p(1) end m.
Y6 82: module m; type t = array 1:2 of integer; procedure p(a: t); begin end p; begin p('xy') end m.
Y6 79: module m; type t = array 1:1 of char; procedure p(a: t); begin end p; begin p('x') end m.
Y6 57: module m; procedure p(a: integer); begin end p; begin p('xy') end m.
Y6 72: module m; var s: signal; procedure p(a: integer); begin end p; begin p(s) end m.
Y6 46: module m; procedure p; begin end p; begin p; p(1) end m.
Y6 92: module m; var i: integer; procedure f(a: integer): integer; begin f := a end f; begin i := f(1, 2) end m.
Y6 87: module m; var i: integer; procedure f(a: integer): integer; begin f := a end f; begin f(1) end m.
Y1 77: module m; var c: char; procedure f: integer; begin f := 1 end f; begin c := f end m.
Y1 44: module m; procedure f: integer; begin f := 'a' end f; end m.
Y1 65: module m; type t = record x: char end; procedure f(a: integer): t; begin end f; end m.
ok: module m; type t = (x, y); procedure f: t; begin f := y end f; procedure g: bits; begin g := [1] end g; end m.
Y2 81: module m; procedure f: integer; begin f := 1 end f; procedure g: integer; begin f := 1 end g; end m.
Y2 30: module m; procedure p; begin p := 1 end p; end m.
Y1 50: module m; type t = integer; var i: t; begin i := t end m.
Y6 17: module m; begin true end m.
Y1 62: module m; var i: integer; process q; begin end q; begin i := q end m.
Y6 55: module m; process q(a: integer); begin end q; begin q('a') end m.
Y3 73: module m; module n; define x; var x: array 1:2 of integer; end n; begin x[1] := 1 end m.
Y3 70: module m; module n; define x; var x: bits; end n; procedure p; begin x[1] := 2 end p; end m.
ok: module m; var x: integer; module n; use x; module k; use x; begin x := 1 end k; begin x := 2 end n; begin x := 3 end m.
Y3 93: module m; device module n [4]; define r; var r [177566B]: char; begin r := 'a' end n; begin r := 'b' end m.
Y2 57: module m; module n; define k; const k = 1; end n; begin k := 2 end m.
Y1 48: module m; var a: array 1:2 of char; begin case a of 'a': begin end end end m.
Y1 69: module m; type t = (p, q); u = (r, s); var x: t; begin case x of p, r: begin end end end m.
Y5 72: module m; var i: integer; b: Boolean; begin case i of 1: begin end; 2, b: begin end end end m.
Y5 43: module m; var i: integer; begin case i of 1 div 0: begin end end end m.
Y7 46: module m; var i: integer; begin case i of 1, 1: begin end end end m.
Y5 18: device module m [4 div 0]; end m.
Y5 49: device module m [4]; var x: integer; process d [x + 1]; begin doio end d; begin d end m.
Y5 29: device module m [4]; var r [[1]]: bits; end m.
Y1 51: module m; const k = 1; var i: integer; begin i := 'a' + true; k := 2 end m.
Y1 24: module m; begin if 1 + true then end end m.
Y1 53: module m; var a: array 'a':'b' of char; begin a[1 + true] := 2 end m.
Y1 51: module m; var i: integer; procedure p; begin i := 'a' end p; const k = 'ab'; begin k := 1 end m.
Y8 48: module m; var a: array 1:2 of char; begin a := 'abc'; a := '' end m.
Y1 18: module m; var x: p; procedure p; begin end p; begin end m.
Y1 18: module m; var x: p; process p; begin end p; begin end m.
Y1 20: module m; type t = p; procedure p; begin end p; begin end m.
Y1 31: module m; var x: array 1:2 of p; procedure p; begin end p; begin end m.
Y1 28: module m; var x: record a: p end; procedure p; begin end p; begin end m.
Y1 26: module m; procedure q(a: p); begin end q; procedure p; begin end p; begin end m.
Y1 30: module m; procedure q(var a: p); begin end q; procedure p; begin end p; begin end m.
Y1 24: module m; procedure q: p; begin end q; procedure p; begin end p; begin end m.
Y1 26: module m; procedure p(a: p); begin end p; begin end m.
Y1 24: module m; procedure p: p; begin end p; begin end m.
Y1 24: module m; process p(a: p); begin end p; begin end m.
Y1 35: module m; module n; use p; var x: p; end n; procedure p; begin end p; begin end m.
Y1 52: module m; module n; use p; module k; use p; var x: p; end k; end n; procedure p; begin end p; begin end m.
Y1 31: module m; procedure q; var x: p; begin end q; procedure p; begin end p; begin end m.
Y1 39: device module m [4]; var x [177560B]: p; procedure p; begin end p; begin end m.
Y5 21: module m; const c = f ; procedure f: integer; begin f := 1 end f; begin end m.
Y5 63: module m; procedure f: integer; begin f := 1 end f; const c = f ; begin end m.
Y4 26: module m; type t = array f:2 of char; procedure f: integer; begin f := 1 end f; begin end m.
Y5 29: device module m [4]; var x [f]: bits; procedure f: integer; begin f := 1 end f; begin end m.
Y1 24: module m; procedure p: q; begin end p; process q; begin end q; begin end m.
ok: module m; procedure p; begin q end p; procedure q; begin p; r end q; process r; begin end r; begin p end m.
ok: module m; module n; use p; procedure q; begin p end q; begin q end n; procedure p; begin end p; begin end m.
ok: module m; var i: integer; procedure p; begin i := f end p; procedure f: integer; begin f := 1 end f; begin end m.
Y6 25: module m; process p(var a: wait); begin end p; begin end m.
Y6 37: module m; process p(a: integer; var b: Boolean); begin end p; begin end m.
Y6 37: module m; process p(b: Boolean; var a: wait); begin end p; begin end m.
Y2 32: module m; const d = [1]; begin d[true] := true end m.
Y2 32: module m; const d = [1]; begin d[1 + true] := true end m.
Y2 76: module m; const d = [1]; procedure q(var b: Boolean); begin end q; begin q(d[true]) end m.
Y1 55: module m; const d = [1]; var b: Boolean; begin b := d[true] end m.
Y1 57: module m; procedure a: bits; var x: Boolean; begin x := a['ab' div 1] end a; begin end m.
Y1 55: module m; var x: integer; procedure q; begin x := f + true end q; procedure f: wait; begin end f; begin end m.
Y1 55: module m; var x: Boolean; procedure q; begin x := f = 'ab' end q; procedure f: wait; begin end f; begin end m.
Y1 55: module m; var x: Boolean; procedure q; begin x := f < [1] end q; procedure f: wait; begin end f; begin end m.
Y1 81: module m; var x: Boolean; procedure q; begin x := f and [1] end q; procedure f: wait; begin end f; begin end m.
Y1 31: module m; procedure p; var x: array 1:2 of record s: signal end; begin end p; begin end m.
Y1 33: module m; procedure p; type t = array 1:2, 3:4 of record s: signal end; begin end p; begin end m.
ok: module m; procedure p; type t = array 1:2 of array 1:3 of signal; begin end p; begin end m.
Y1 31: module m; procedure p; var x: record a: record s: signal end; b: integer end; begin end p; begin end m.
Y1 31: module m; procedure p; var x: record a: wait; s: signal end; begin end p; begin end m.
Y1 31: module m; procedure p; var x: array 2:1 of signal; begin end p; begin end m.
Y4 52: module m; procedure p; type x = array 1:2 of array 2:1 of signal; begin end p; begin end m.
Y1 28: module m; var x: record a: record s: signal end; b: integer end; begin end m.
Y1 28: module m; var x: record a: array 1:2 of record s: signal end; b: integer end; begin end m.
Y1 41: module m; var x: array 1:2 of record s: signal end; begin end m.
Y4 28: module m; var x: record a: array 1:20001 of signal end; begin end m.
"#;
