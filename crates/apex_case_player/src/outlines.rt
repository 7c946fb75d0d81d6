//! The partition table of a row's case, which has it in short.
use crate::faults::CaseFault;
use crate::rows::cut_word;
use crate::texts::Text;
use std::alloc::Global;

/// The table that the lines of a case have in short; `Outline` if a section has too few words.
pub(crate) fn table_of(alloc: Global, lines: &str) -> Text {
    let mut table = Text::new(alloc);
    put_key(&mut table, "profile", value_of(lines, "profile ", "1"));
    put_key(&mut table, "cores", value_of(lines, "cores ", "1"));
    put_key(&mut table, "history", value_of(lines, "history ", "4096"));
    put_init(&mut table, lines);
    for line in lines.lines() {
        put_section(&mut table, line);
    }
    table
}

/// Whether a line with this word is one of the table.
pub(crate) fn is_of_table(field: &str) -> bool {
    matches!(field, "profile" | "cores" | "history" | "init") || !keys_of(field).is_empty()
}

/// The keys of a section of this kind, in the order of a line's words; none if there is no such
/// kind.
fn keys_of(kind: &str) -> &'static [&'static str] {
    match kind {
        "process" => &["name", "priority", "core"],
        "semaphore" => &["name", "maximum", "initial", "discipline"],
        "buffer" => &["name", "length", "capacity", "discipline"],
        "blackboard" => &["name", "length"],
        "event" => &["name"],
        "mutex" => &["name", "ceiling", "discipline"],
        _ => &[],
    }
}

/// The value on the first line with this word, or the usual one.
fn value_of<'a>(lines: &'a str, word: &str, usual: &'a str) -> &'a str {
    for line in lines.lines() {
        if let Some(value) = line.strip_prefix(word) {
            return value;
        }
    }
    usual
}

/// Writes the init list, if there are lines `init`, with the steps of these.
fn put_init(table: &mut Text, lines: &str) {
    if !lines.starts_with("init") && !lines.contains("\ninit") {
        return;
    }
    table.put("init = [");
    for line in lines.lines() {
        if let Some(steps) = line.strip_prefix("init ") {
            put_steps(table, steps);
        }
    }
    table.put("]\n");
}

/// Writes steps as the items of an array of texts.
fn put_steps(table: &mut Text, steps: &str) {
    for step in steps.split("; ") {
        if !step.is_empty() {
            table.put("\"");
            table.put(step);
            table.put("\", ");
        }
    }
}

/// Writes a key with its value, which is a number, `true` or a text.
fn put_key(table: &mut Text, key: &str, value: &str) {
    let is_bare = value == "true" || value.parse::<u32>().is_ok();
    let quote = if is_bare { "" } else { "\"" };
    table.put(key);
    table.put(" = ");
    table.put(quote);
    table.put(value);
    table.put(quote);
    table.put("\n");
}

/// Writes the section that a line gives, if it gives one.
fn put_section(table: &mut Text, line: &str) {
    let (kind, words) = cut_word(line);
    let keys = keys_of(kind);
    if kind == "process" {
        put_process(table, keys, words);
    } else if !keys.is_empty() {
        put_keys(table, kind, keys, words);
    }
}

/// Writes the section of a process, which is given as
/// `NAME PRIORITY CORE KEY KEY=VALUE: STEP; STEP`.
fn put_process(table: &mut Text, keys: &[&str], words: &str) {
    let Some((head, steps)) = words.split_once(':') else {
        return table.blame(CaseFault::Outline);
    };
    put_keys(table, "process", keys, head);
    table.put("script = [");
    put_steps(table, steps.trim_start());
    table.put("]\n");
}

/// Writes the head of a section: the values of these keys, and after them `KEY=VALUE`, or a key
/// that is true.
fn put_keys(table: &mut Text, kind: &str, keys: &[&str], values: &str) {
    let mut keys = keys.iter();
    table.put("[[");
    table.put(kind);
    table.put("]]\n");
    for word in values.split(' ') {
        let (key, value) = match keys.next() {
            Some(key) => (*key, word),
            None => word.split_once('=').unwrap_or((word, "true")),
        };
        put_key(table, key, value);
    }
    if keys.next().is_some() {
        table.blame(CaseFault::Outline);
    }
}
