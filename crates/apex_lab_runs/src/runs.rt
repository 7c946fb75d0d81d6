//! A run: its arguments, its input, and what it has to write, as a file has them.

/// What a run has to write on standard output.
#[derive(Clone, Copy)]
pub enum Output<'a> {
    /// This text.
    Whole(&'a str),
    /// A prefix of this text, which may be the whole.
    Prefix(&'a str),
    /// A text with the parts of these lines.
    Parts(&'a str),
}

/// A run of the program.
#[derive(Clone, Copy)]
pub struct Run<'a> {
    /// The first line of its text.
    pub title: &'a str,
    /// The arguments, with a blank between two.
    pub words: &'a str,
    /// One argument more, which may have blanks.
    pub word: Option<&'a str>,
    /// The numbers of the read and of the call of standard output that fail, with a blank between them.
    pub failing: Option<&'a str>,
    /// The standard input, with its last line feed. If it is empty, it is that of the run before.
    pub input: &'a str,
    /// The exit status; empty if the text lacks it.
    pub status: &'a str,
    /// What is written on standard output.
    pub output: Output<'a>,
    /// What is written on standard error.
    pub error: &'a str,
}

/// The rest of the text's first line behind this word, if it begins with it, and the lines behind.
fn line_of<'a>(text: &'a str, word: &str) -> Option<(&'a str, &'a str)> {
    let rest = text.strip_prefix(word)?;
    rest.split_once('\n')
}

/// The rest of the text's first line behind this word, if it begins with it, and what the text has
/// without that line.
fn optional_line<'a>(text: &'a str, word: &str) -> (Option<&'a str>, &'a str) {
    match line_of(text, word) {
        Some((line, rest)) => (Some(line), rest),
        None => (None, text),
    }
}

/// The status and the output of an answer's lines.
fn answer_of(lines: &str) -> (&str, Output<'_>) {
    let (status, text) = line_of(lines, "answer ").unwrap_or(("", ""));
    match status.split_once(' ') {
        Some((status, "prefix")) => (status, Output::Prefix(text)),
        Some((status, "parts")) => (status, Output::Parts(text)),
        _ => (status, Output::Whole(text)),
    }
}

impl<'a> Run<'a> {
    /// The run of this text, which begins with the title.
    pub fn of(text: &'a str) -> Run<'a> {
        let (front, answer) = match text.find("\nanswer ") {
            Some(end) => text.split_at(end + 1),
            None => (text, ""),
        };
        let (answer, error) = match answer.find("\nerror\n") {
            Some(end) => answer.split_at(end + 1),
            None => (answer, ""),
        };
        let (title, rest) = front.split_once('\n').unwrap_or((front, ""));
        let (words, rest) = line_of(rest, "words ").unwrap_or(("", rest));
        let (word, rest) = optional_line(rest, "word ");
        let (failing, input) = optional_line(rest, "fails ");
        let (status, output) = answer_of(answer);
        Run {
            title,
            words,
            word,
            failing,
            input,
            status,
            output,
            error: error.strip_prefix("error\n").unwrap_or(""),
        }
    }
}
