// Accepted sources: those of the form that runs, and others.

use crate::rows::{Row, RunRow, message, mismatch, read_difference};
use crate::sources::with_words;
use mc_word::bytes::Memory;
use std::alloc::Global;
use std::test::Fail;

/// With a text of one byte, an octal character and a character, and a comment behind two of the statements.
const WRITES: &str = "(* two devices *)
device module writer [7];
var
  printer [177566B]: char;
  punch [177556B]: char;
begin
  printer := \"H\";   (* is printed *)
  punch := 102C;    (* the letter B *)
  printer := 'i'    (* comes too early, and is lost *)
end writer.
";

/// With a blank or a comment behind each token, and before the first. A comment ends at the first `*)`.
const PRINTS_A_WITH_COMMENTS: &str =
    "(* a *)device(**)module(* b *)m(* [3] *)[ (* 7 *)04B(* C *)]\t;
(* c; *)var(* (* *)TPB\r[ 177566B(* octal *) ](* d *):(* bits *)char(* e *);
(* f *)begin(* g *)TPB (* h *) :=(* 'B' *)'A'(* ; *)end(* n *)m(* i *).(* j *)";

/// Sources of the form that runs.
const FORMS: &[RunRow] = &[
    RunRow(
        WRITES,
        "",
        0,
        "print 110\npunch 102\nlost printer 151\ninstructions 7\nend\n",
    ),
    RunRow(
        PRINTS_A_WITH_COMMENTS,
        "",
        0,
        "print 101\ninstructions 5\nend\n",
    ),
    // Both variables are the one register, whose second byte comes too early.
    RunRow(
        "device module m [5]; var p [177566B]: char; q [177566B]: char;
             begin p := 'A'; q := 'B' end m.",
        "",
        0,
        "print 101\nlost printer 102\ninstructions 6\nend\n",
    ),
    // Names whose letters are of another case are other names, and p is never assigned.
    RunRow(
        "device module M [6]; var p [177566B]: char; m [177556B]: char; Send [177566B]: char;
             begin m := 'A'; Send := 'A' end M.",
        "",
        0,
        "punch 101\nprint 101\ninstructions 6\nend\n",
    ),
];

#[test]
fn runs_each_source_of_the_form(rt: HostRuntime) -> Result<(), Fail> {
    let mismatch = mismatch(rt.alloc(), FORMS)?;
    assert!(rt; mismatch.is_none(), "{}", message(&mismatch));
    Ok(())
}

/// Words of `PRINTS_A` and others in their place, which make an accepted source of another form.
#[derive(Debug)]
struct FormRow(&'static str, &'static str);

/// The commands over a source, and what each answers to an accepted source of another form.
const ANSWERS: &[(&str, u8, &str)] = &[
    ("check a", 0, "ok\n"),
    ("run a b", 15, "not yet source\n"),
    ("compile a i", 15, "not yet source\n"),
];

/// What is expected and what is found at the first command that answers otherwise.
fn other_form_mismatch(alloc: Global, source: &str) -> Result<Option<String>, Memory> {
    for (command, status, line) in ANSWERS {
        let mismatch = read_difference(alloc, command, source, *status, line)?;
        if mismatch.is_some() {
            return Ok(mismatch);
        }
    }
    Ok(None)
}

impl Row for FormRow {
    fn difference(&self, alloc: Global) -> Result<Option<String>, Memory> {
        match with_words(alloc, self.0, self.1) {
            Ok(source) => other_form_mismatch(alloc, source.as_str()),
            Err(memory) => Err(memory),
        }
    }
}

/// What makes another form of it.
const OTHER_FORMS: &[FormRow] = &[
    // the priority is an integer constant from 4 to 7, and no number alone
    FormRow("[4]", "[+4]"),
    FormRow("[4]", "[(4)]"),
    FormRow("[4]", "[4 + 0]"),
    FormRow("[4]", "[4 * 1]"),
    // the declarations are no one list of registers of the printer and the punch
    FormRow("[177566B]", "[177564B]"),
    FormRow("[177566B]", "[(177566B)]"),
    FormRow(" [177566B]", ""),
    FormRow("TPB [177566B]", "p [177566B], TPB [177556B]"),
    FormRow("char;", "char; x: char;"),
    FormRow("char;", "char; var x [177556B]: char;"),
    FormRow("char;", "char; const x = 1;"),
    FormRow("var", "const x = 1; var"),
    FormRow("char;", "char; procedure p; begin end p;"),
    // the statements are no assignments of characters alone to variables alone
    FormRow("begin TPB := 'A'", ""),
    FormRow("TPB := 'A'", ""),
    FormRow("'A'", "'A';"),
    FormRow("TPB := 'A'", "; TPB := 'A'"),
    FormRow("'A'", "TPB"),
    FormRow("'A'", "('A')"),
    FormRow("TPB := 'A'", "if true then TPB := 'A' end"),
];

#[test]
fn runs_no_other_form(rt: HostRuntime) -> Result<(), Fail> {
    let mismatch = mismatch(rt.alloc(), OTHER_FORMS)?;
    assert!(rt; mismatch.is_none(), "{}", message(&mismatch));
    Ok(())
}
