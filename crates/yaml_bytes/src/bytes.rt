//! What the bytes of a line are.

ghost use Rattle.std.specs.Prelude.{◌≡◌};
ghost use Rattle.yaml_bytes.specs.Bytes.{is_blank, begins_blank, begins_gap, is_flow_indicator, begins_flow_indicator};
ghost use Rattle.yaml_bytes.specs.Bytes.{begins_break, begins_bare_colon, is_over, is_indicator, is_mark, begins_word};
ghost use Rattle.yaml_bytes.specs.Bytes.{begins_item, is_document_marker, begins_character, is_forbidden};

/// Whether a byte is a space or a tab.
pub fn is_blank(b: u8) -> bool
    ensures { result ≡ is_blank b }
{
    b == b' ' || b == b'\t'
}

/// Whether a blank comes first.
pub fn begins_blank(text: &[u8]) -> bool
    ensures { result ≡ begins_blank text.now }
{
    match text {
        [] => false,
        [b, ..] => is_blank(*b),
    }
}

/// Whether a blank comes first, or nothing.
pub fn begins_gap(text: &[u8]) -> bool
    ensures { result ≡ begins_gap text.now }
{
    text.is_empty() || begins_blank(text)
}

/// Whether a byte is one of `, [ ] { }`, which separate the parts of a list or mapping on one line.
pub fn is_flow_indicator(b: u8) -> bool
    ensures { result ≡ is_flow_indicator b }
{
    b == b',' || b == b'[' || b == b']' || b == b'{' || b == b'}'
}

/// Whether one of `, [ ] { }` comes first.
pub fn begins_flow_indicator(text: &[u8]) -> bool
    ensures { result ≡ begins_flow_indicator text.now }
{
    match text {
        [] => false,
        [b, ..] => is_flow_indicator(*b),
    }
}

/// Whether a gap comes first, or in flow one of `, [ ] { }`.
pub(crate) fn begins_break(flow: bool, text: &[u8]) -> bool
    ensures { result ≡ begins_break flow text.now }
{
    (flow && begins_flow_indicator(text)) || begins_gap(text)
}

/// Whether `:` comes first, and directly after it one of `, [ ] { }`.
pub fn begins_bare_colon(text: &[u8]) -> bool
    ensures { result ≡ begins_bare_colon text.now }
{
    match text {
        [] => false,
        [b, after @ ..] => *b == b':' && begins_flow_indicator(after),
    }
}

/// Whether nothing more comes but a comment.
pub fn is_over(text: &[u8]) -> bool
    ensures { result ≡ is_over text.now }
{
    match text {
        [] => true,
        [b, ..] => *b == b'#',
    }
}

// Whether a byte begins something other than a plain word.
fn is_indicator(b: u8) -> bool
    ensures { result ≡ is_indicator b }
{
    b == b','
        || b == b'['
        || b == b']'
        || b == b'{'
        || b == b'}'
        || b == b'#'
        || b == b'&'
        || b == b'*'
        || b == b'!'
        || b == b'|'
        || b == b'>'
        || b == b'\''
        || b == b'"'
        || b == b'%'
        || b == b'@'
        || b == b'`'
}

/// Whether a byte is `-`, `?` or `:`. These begin a plain word only if no gap follows, and in flow
/// none of `, [ ] { }` either.
pub fn is_mark(b: u8) -> bool
    ensures { result ≡ is_mark b }
{
    b == b'-' || b == b'?' || b == b':'
}

/// Whether a plain word may begin here: with no blank, no indicator, and no mark that a gap follows,
/// nor in flow one of `, [ ] { }`.
pub fn begins_word(flow: bool, text: &[u8]) -> bool
    ensures { result ≡ begins_word flow text.now }
{
    match text {
        [] => false,
        [b, after @ ..] => {
            !is_blank(*b) && !is_indicator(*b) && !(is_mark(*b) && begins_break(flow, after))
        }
    }
}

/// Whether an item begins here: `-`, and a gap after it.
pub fn begins_item(text: &[u8]) -> bool
    ensures { result ≡ begins_item text.now }
{
    match text {
        [] => false,
        [b, after @ ..] => *b == b'-' && begins_gap(after),
    }
}

/// Whether a line is `---` or `...`, or begins with one of these and a blank.
pub fn is_document_marker(raw: &[u8]) -> bool
    ensures { result ≡ is_document_marker raw.now }
{
    match raw {
        [a, b, c, after @ ..] => {
            let dashes = *a == b'-' && *b == b'-' && *c == b'-';
            let points = *a == b'.' && *b == b'.' && *c == b'.';
            (dashes || points) && begins_gap(after)
        }
        _ => false,
    }
}

/// Whether a byte begins a character of UTF-8. Each byte does but 128 to 191, which continue one.
pub(crate) fn begins_character(b: u8) -> bool
    ensures { result ≡ begins_character b }
{
    b < 128 || 192 <= b
}

/// Whether a character is allowed in no line: a control character other than tab, U+FEFF, U+FFFE and
/// U+FFFF.
pub fn is_forbidden(c: char) -> bool
    ensures { result ≡ is_forbidden c }
{
    (c < '\u{20}' && c != '\t')
        || ('\u{7F}' <= c && c < '\u{A0}')
        || c == '\u{FEFF}'
        || c == '\u{FFFE}'
        || c == '\u{FFFF}'
}
