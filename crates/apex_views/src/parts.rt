//! A text that has a table, the line `%%`, and a schedule.
ghost use Rattle.std.specs.Prelude.{◌≡◌, ◌<◌, ◌==◌, IfSome, None, length};
ghost use Rattle.std.specs.List.{position};
ghost use Rattle.apex_check.specs.Texts.{HasNoSeparator, IsParted};

fn place_of_feed(text: &[u8]) -> Option<usize>
    ensures place { result ≡ position (λ byte. byte == 10) text.now }
    ensures within { IfSome result (λ at. at < length text.now) }
{
    text.iter().position(|byte| *byte == b'\n')
}

/// The texts before and behind the first line that is exactly `%%`. None if no line is; a part
/// without a line feed at its end is no line.
pub fn parted(text: &[u8]) -> Option<(&[u8], &[u8])>
    ensures parts { IfSome result (λ parts. IsParted text.now parts.0.now parts.1.now) }
    ensures none { result ≡ None → HasNoSeparator text.now }
{
    let mut start = 0;
    while let Some(length) = place_of_feed(&text[start..]) {
        let next = start + length + 1;
        if &text[start..next] == b"%%\n".as_slice() {
            return Some((&text[..start], &text[next..]));
        }
        start = next;
    }
    None
}
