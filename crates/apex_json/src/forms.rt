//! The form of what is written.
ghost use Rattle.std.specs.Prelude.{◌≡◌, ◌+◌, ◌≤◌, length};
ghost use Rattle.apex_json.specs.Forms.{in_form};

/// The form of what is written.
#[derive(Clone, Copy, PartialEq, Eq)]
pub enum Form {
    /// As lines of text.
    Text,
    /// As JSON.
    Json,
}

/// The one of the two texts that belongs to the form.
pub fn pick(form: Form, text: &'static str, json: &'static str) -> &'static str
    ensures text { result.now ≡ in_form form text.now json.now }
    ensures short { length result.now ≤ length text.now + length json.now }
{
    match form {
        Form::Text => text,
        Form::Json => json,
    }
}
