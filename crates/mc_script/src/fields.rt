// Lines without their comments, and their fields.

ghost use Rattle.std.specs.Prelude.{◌≡◌, ◌<◌, ◌≤◌, ◌∷◌, [], length, MatchOption, IfSome};
ghost use Rattle.std.specs.List.{before_first, position_or_len, prefix_len};
ghost use Rattle.mc_script.specs.Lines.{is_blank, is_semicolon, fields};
ghost use Rattle.mc_script.specs.Steps.{strip};

/// Space or tab.
fn is_blank(b: u8) -> bool
    ensures { result ≡ is_blank b }
{
    matches!(b, b' ' | b'\t')
}

/// How many blanks stand at the front.
fn blanks(line: &[u8]) -> usize
    ensures count { result ≡ prefix_len is_blank line.now }
    ensures within { result ≤ length line.now }
{
    for (i, b) in line.iter().enumerate() {
        if !is_blank(*b) {
            return i;
        }
    }
    line.len()
}

/// How many bytes stand before the first blank.
fn field_length(line: &[u8]) -> usize
    ensures count { result ≡ position_or_len is_blank line.now }
    ensures within { result ≤ length line.now }
{
    for (i, b) in line.iter().enumerate() {
        if is_blank(*b) {
            return i;
        }
    }
    line.len()
}

/// The first field, and what stands behind it.
pub fn next_field(line: &[u8]) -> Option<(&[u8], &[u8])>
    ensures cases { MatchOption result (fields line.now ≡ []) (λ x. fields line.now ≡ x.0.now ∷ fields x.1.now) }
    ensures shorter { IfSome result (λ x. length x.1.now < length line.now) }
{
    let rest = &line[blanks(line)..];
    if rest.is_empty() {
        return None;
    }
    Some(rest.split_at(field_length(rest)))
}

/// What stands before the comment.
pub fn before_comment(line: &[u8]) -> &[u8]
    ensures { result.now ≡ before_first is_semicolon line.now }
{
    for (i, b) in line.iter().enumerate() {
        if *b == b';' {
            return &line[..i];
        }
    }
    line
}

/// The line without the carriage return at its end.
pub fn without_return(line: &[u8]) -> &[u8]
    ensures { result.now ≡ strip line.now }
{
    if line.is_empty() || line[line.len() - 1] != b'\r' {
        return line;
    }
    &line[..line.len() - 1]
}
