//! The texts of the steps of a script, as the table has them.
ghost use Rattle.std.specs.Prelude.{◌≡◌, map, slice_get, option_map, IfOk};

use std::alloc::{AllocError, Global};
use std::marker::Model;

/// The text of a step.
#[derive(Drop)]
struct StepText {
    bytes: Vec<u8>,
}

impl Model for StepText {
    ghost use Rattle.std.specs.Prelude.{ℕ, List};

    ghost Value = { List ℕ };

    ghost view = { λ t. t.bytes.items };
}

impl StepText {
    fn of(alloc: Global, text: &str) -> Result<StepText, AllocError>
        ensures { IfOk result (λ t. t ≡ text.now) }
    {
        let mut bytes = Vec::with_capacity(alloc, text.len())?;
        bytes.extend_from_slice(text.as_bytes())?;
        Ok(StepText { bytes })
    }
}

/// The texts of the steps of a script, in order.
#[derive(Drop)]
pub struct ScriptTexts {
    texts: Vec<StepText>,
}

impl Model for ScriptTexts {
    ghost use Rattle.std.specs.Prelude.{ℕ, List};

    ghost Value = { List (List ℕ) };

    ghost view = { λ t. t.texts.items };
}

impl ScriptTexts {
    /// The texts of this script, copied. It fails only for want of memory.
    pub fn of(alloc: Global, script: &[&str]) -> Result<ScriptTexts, AllocError>
        ensures { IfOk result (λ t. t ≡ map (λ text. text.now) script.now) }
    {
        let mut texts = Vec::with_capacity(alloc, script.len())?;
        for text in script {
            texts.push(StepText::of(alloc, text)?)?;
        }
        Ok(ScriptTexts { texts })
    }

    /// The text of the step at this place, counted from 0, or none past the end.
    pub fn get(&self, place: usize) -> Option<&[u8]>
        ensures { option_map (λ t. t.now) result ≡ slice_get self.now place }
    {
        match self.texts.get(place) {
            Some(text) => Some(text.bytes.as_slice()),
            None => None,
        }
    }
}
