//! A book without a note, and its speakers.
ghost use Rattle.std.specs.Prelude.{◌≡◌, ◌≤◌, ◌<◌, ◌∷◌, [], ℕ, length, slice_index_or, All, IfOk};
ghost use Rattle.apex_types.specs.declared.limits.TheConstants.{MOST_CORES};
ghost use Rattle.apex_types.specs.declared.entries.Who.TheVariants.{Core, Ticker};
ghost use Rattle.apex_receipts.specs.Receipts.{IsNamedAfter, IsSilent, speaker_ids, unspoken, unspoken_cores};
ghost use Rattle.apex_receipts.specs.Rules.{head_of};

use crate::law::{Head, Known};
use crate::naming::Naming;
use crate::scribes::Scribe;
use crate::speakers::{Speaker, take_pen};
use crate::voices::Voice;
use apex_types::{CoreId, Who};
use logbook::{Seen, Start, Word};
use std::alloc::{AllocError, Global};
use std::marker::Model;

/// A book without a note, and its speakers: the scribe, one for each core, and one for the ticker
/// (this profile). It is opened before a partition is named after it.
#[derive(Drop)]
pub struct Opened {
    head: Head,
    seen: Known,
    scribe: Speaker,
    cores: Vec<Speaker>,
    ticker: Speaker,
}

impl Model for Opened {
    ghost use Rattle.std.specs.Prelude.{◌≡◌, ◌≤◌, [], length, All};
    ghost use Rattle.apex_types.specs.declared.limits.TheConstants.{MOST_CORES};
    ghost use Rattle.apex_receipts.specs.Receipts.{IsSilent, Opening, speaker_ids};
    ghost use Rattle.apex_receipts.specs.Rules.{head_of};

    ghost Value = { Opening };

    ghost view = { λ o. record {
      book = o.seen.book;
      scribe = o.scribe.id;
      cores = speaker_ids o.cores.items;
      ticker = o.ticker.id;
    } };

    ghost invariant = { λ o. (o.head ≡ head_of o.seen.book) × (o.seen.log ≡ [])
        × (length o.cores.items ≤ MOST_CORES)
        × IsSilent o.seen.book o.scribe × IsSilent o.seen.book o.ticker
        × All (IsSilent o.seen.book) o.cores.items };
}

/// A speaker of the book, which has written nothing.
fn speaker(head: &Head, seen: &Known) -> Speaker
    requires head { head.now ≡ head_of seen.now.book }
    requires empty { seen.now.log ≡ [] }
    ensures book { result.book ≡ seen.now.book }
    ensures log { result.log ≡ [] }
{
    Speaker::new(take_pen(head, seen), seen.again())
}

/// As many speakers of the book as there are cores.
fn speakers(
    alloc: Global,
    head: &Head,
    seen: &Known,
    cores: u32,
) -> Result<Vec<Speaker>, AllocError>
    requires head { head.now ≡ head_of seen.now.book }
    requires empty { seen.now.log ≡ [] }
    ensures many { IfOk result (λ speakers. length speakers.items ≡ cores) }
    ensures silent { IfOk result (λ speakers. All (IsSilent seen.now.book) speakers.items) }
{
    let mut speakers = Vec::with_capacity(alloc, cores as usize)?;
    for core in 0..cores {
        speakers.push(speaker(head, seen))?;
    }
    Ok(speakers)
}

/// The voices of the cores, in the order of their numbers, which have these speakers.
fn voices<P: Naming>(
    alloc: Global,
    seen: &Known,
    speakers: Vec<Speaker>,
) -> Result<Vec<Voice<P>>, AllocError>
    requires book { seen.now.book ≡ P.book }
    requires empty { seen.now.log ≡ [] }
    requires few_speakers { length speakers.items ≤ MOST_CORES }
    requires silent { All (IsSilent P.book) speakers.items }
    requires voice { (core : ℕ) → core < length speakers.items
        → P.voice (Core core) ≡ slice_index_or (speaker_ids speakers.items) core 0 }
    ensures { IfOk result (λ voices. voices.items ≡ unspoken_cores (length speakers.items)) }
{
    let mut voices = Vec::with_capacity(alloc, speakers.len())?;
    let mut number = 0;
    for speaker in speakers {
        voices.push(Voice::new(Who::Core(CoreId::new(number)), speaker, seen.again()))?;
        number += 1;
    }
    Ok(voices)
}

impl Opened {
    /// A new book with speakers for `cores` cores, 8 at the most. It fails only for want of memory.
    pub fn new(alloc: Global, cores: u32) -> Result<Opened, AllocError>
        requires { cores ≤ MOST_CORES }
        ensures { IfOk result (λ opened. length opened.cores ≡ cores) }
    {
        let (seen, mut first, _second) = Seen::open(Start::alone(), 0, 0);
        let head: Head = Word::tracked(0, &mut first);
        let cores = speakers(alloc, &head, &seen, cores)?;
        let scribe = speaker(&head, &seen);
        let ticker = speaker(&head, &seen);
        Ok(Opened {
            head,
            seen,
            scribe,
            cores,
            ticker,
        })
    }

    /// The scribe, the voices of the cores in the order of their numbers, and the ticker's voice,
    /// of the partition that is named after this book. It fails only for want of memory.
    pub fn into_parts<P: Naming>(
        self,
        alloc: Global,
    ) -> Result<(Scribe<P>, Vec<Voice<P>>, Voice<P>), AllocError>
        requires named { IsNamedAfter P.book P.scribe P.voice self }
        ensures scribe { IfOk result (λ parts. parts.0 ≡ []) }
        ensures voices { IfOk result (λ parts. parts.1.items ≡ unspoken_cores (length self.cores)) }
        ensures ticker { IfOk result (λ parts. parts.2 ≡ unspoken Ticker) }
    {
        let Opened {
            head,
            seen,
            scribe,
            cores,
            ticker,
        } = self;
        let voices = voices(alloc, &seen, cores)?;
        let ticker = Voice::new(Who::Ticker, ticker, seen);
        Ok((Scribe::new(head, scribe), voices, ticker))
    }
}
