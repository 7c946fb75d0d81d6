//! The rows of the services, each with its guards, its effects and its cases.

/// The first line of a text, and the rest.
pub(crate) fn cut_line(text: &str) -> (&str, &str) {
    text.split_once('\n').unwrap_or((text, ""))
}

/// The first word of a line, and what comes after the space.
pub(crate) fn cut_word(line: &str) -> (&str, &str) {
    line.split_once(' ').unwrap_or((line, ""))
}

/// Whether a line says nothing: it is empty, or begins with `#`.
pub(crate) fn is_silent(line: &str) -> bool {
    line.is_empty() || line.starts_with('#')
}

/// The number of cases of a row's text that have this name.
pub(crate) fn cases_of(row: &str, name: &str) -> u64 {
    let mut count: u64 = 0;
    let mut parts = row.split("\ncase ");
    let _head = parts.next();
    for part in parts {
        if cut_line(part).0 == name {
            count = count.saturating_add(1);
        }
    }
    count
}

/// Whether a guard or an effect of these lines has this text.
pub(crate) fn has_clause(lines: &str, name: &str) -> bool {
    for line in lines.lines() {
        if let Some((word, text)) = line.split_once(' ') {
            if text == name && matches!(word, "guard" | "effect") {
                return true;
            }
        }
    }
    false
}
