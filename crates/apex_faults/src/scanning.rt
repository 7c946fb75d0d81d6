//! The parts of a table's text: headers, keys, values, and the elements of arrays. Each function is
//! lent the rest of the text from some place on, and gives a later rest. The text is TOML, which is
//! read elsewhere; in another text the places are of no use.
ghost use Rattle.std.specs.Prelude.{◌≤◌, ◌<◌, length, IfSome};

/// A header or a key with its value, and the text behind it.
#[derive(Clone, Copy)]
pub struct Expression<'t> {
    /// The text from the header or the key on.
    pub start: &'t [u8],
    /// The name of a header, or the key, with the spaces around it.
    pub name: &'t [u8],
    /// Whether it is a header, and no key.
    pub is_header: bool,
    /// The text behind the header, or behind `=`.
    pub value: &'t [u8],
}

/// The text behind a string on one line, after its first quote.
fn after_string(text: &[u8], quote: u8) -> &[u8]
    ensures { length result.now ≤ length text.now }
{
    let mut rest = text;
    'bytes: while let [byte, after @ ..] = rest {
        if *byte == quote || *byte == b'\n' {
            return after;
        }
        rest = match after {
            [_, beyond @ ..] if *byte == b'\\' && quote == b'"' => beyond,
            _ => after,
        };
    }
    rest
}

/// The text behind a quote, if one is at the front.
fn after_quote(text: &[u8], quote: u8) -> &[u8]
    ensures { length result.now ≤ length text.now }
{
    match text {
        [first, after @ ..] if *first == quote => after,
        _ => text,
    }
}

/// The text behind a string on several lines, after its first three quotes. Before the three that end
/// it, it may have one or two of its own.
fn after_long_string(text: &[u8], quote: u8) -> &[u8]
    ensures { length result.now ≤ length text.now }
{
    let mut rest = text;
    'bytes: while let [byte, after @ ..] = rest {
        rest = match after {
            [_, beyond @ ..] if *byte == b'\\' && quote == b'"' => beyond,
            [second, third, beyond @ ..] if *byte == quote && *second == quote && *third == quote =>
                {
                    return after_quote(after_quote(beyond, quote), quote);
                }
            _ => after,
        };
    }
    rest
}

/// The text behind a string of any kind, after its first quote.
fn after_quoted(text: &[u8], quote: u8) -> &[u8]
    ensures { length result.now ≤ length text.now }
{
    match text {
        [second, third, rest @ ..] if *second == quote && *third == quote => {
            after_long_string(rest, quote)
        }
        _ => after_string(text, quote),
    }
}

/// The text from the end of the line on.
fn from_line_end(text: &[u8]) -> &[u8]
    ensures { length result.now ≤ length text.now }
{
    let mut rest = text;
    'bytes: while let [byte, after @ ..] = rest {
        if *byte == b'\n' {
            return rest;
        }
        rest = after;
    }
    rest
}

/// The text from the first byte on that is no space, line end, comma or comment.
pub fn from_next(text: &[u8]) -> &[u8]
    ensures { length result.now ≤ length text.now }
{
    let mut rest = text;
    'bytes: while let [byte, after @ ..] = rest {
        rest = match byte {
            b' ' | b'\t' | b'\r' | b'\n' | b',' => after,
            b'#' => from_line_end(after),
            _ => return rest,
        };
    }
    rest
}

/// The text behind the value at the front: from its line's end, comma or closing bracket on.
pub fn after_value(text: &[u8]) -> &[u8]
    ensures { length result.now ≤ length text.now }
{
    let mut rest = text;
    let mut depth: usize = 0;
    'bytes: while let [byte, after @ ..] = rest {
        rest = match byte {
            b'"' | b'\'' => after_quoted(after, *byte),
            b'#' => from_line_end(after),
            b'[' | b'{' => {
                depth = depth.saturating_add(1);
                after
            }
            b']' | b'}' | b',' | b'\n' if depth == 0 => return rest,
            b']' | b'}' => {
                depth -= 1;
                after
            }
            _ => after,
        };
    }
    rest
}

/// The text from this byte or the end of the line on, whichever comes first. A part of a name in quotes
/// may have the byte itself.
fn from_name_end(text: &[u8], end: u8) -> &[u8]
    ensures { length result.now ≤ length text.now }
{
    let mut rest = text;
    'bytes: while let [byte, after @ ..] = rest {
        rest = match byte {
            b'"' | b'\'' => after_string(after, *byte),
            _ if *byte == end || *byte == b'\n' => return rest,
            _ => after,
        };
    }
    rest
}

/// The name at the front, which ends at this byte, and the text from there on.
fn split_name(text: &[u8], end: u8) -> (&[u8], &[u8])
    ensures { length result.1.now ≤ length text.now }
{
    let rest = from_name_end(text, end);
    (&text[..text.len() - rest.len()], rest)
}

/// The header or the key at the front, or the next one.
pub fn next_expression(text: &[u8]) -> Option<Expression<'_>>
    ensures { IfSome result (λ e. (length e.start.now ≤ length text.now)
        × (length e.value.now < length e.start.now)) }
{
    let start = from_next(text);
    match start {
        [] => None,
        [b'[', b'[', inner @ ..] | [b'[', inner @ ..] => {
            let (name, rest) = split_name(inner, b']');
            Some(Expression {
                start,
                name,
                is_header: true,
                value: from_line_end(rest),
            })
        }
        [_, _rest @ ..] => {
            let (name, rest) = split_name(start, b'=');
            match rest {
                [_, value @ ..] => Some(Expression {
                    start,
                    name,
                    is_header: false,
                    value,
                }),
                [] => None,
            }
        }
    }
}
