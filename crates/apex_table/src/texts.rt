//! The texts of the steps of all scripts, as the table has them.
ghost use Rattle.std.specs.Prelude.{◌≡◌, map, IfOk};
ghost use Rattle.apex_table.specs.Processes.{ProcessDraft};

use crate::processes::Draft;
use apex_configs::ScriptTexts;
use std::alloc::{AllocError, Global};

/// The texts of all scripts, by process.
pub fn script_texts(alloc: Global, drafts: &[Draft]) -> Result<Vec<ScriptTexts>, AllocError>
    ensures { IfOk result (λ v. v.items ≡ map (λ (d : ProcessDraft). d.script) drafts.now) }
{
    let mut texts = Vec::with_capacity(alloc, drafts.len())?;
    for draft in drafts {
        texts.push(ScriptTexts::of(alloc, &draft.script)?)?;
    }
    Ok(texts)
}
