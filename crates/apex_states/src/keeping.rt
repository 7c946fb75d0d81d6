//! States that were found are kept: their halves are numbered, those of one side after those of the
//! other, and then the pairs of these numbers are entered.
ghost use Rattle.std.specs.Prelude.{◌≡◌, ℕ, ◌<◌, List, length, IfOk};
ghost use Rattle.apex_states.specs.Expansions.{origins_of, states_of};
ghost use Rattle.apex_states.specs.Finds.{AreKept};
ghost use Rattle.apex_states.specs.Halves.{width_on, IsHalf, IsNumber, StillHas};
ghost use Rattle.apex_states.specs.Keeping.{roots_found, AreAllNumbered, AreFound, AreNumbered, ArePaired, AreTranslated, CanNumberAll};
ghost use Rattle.apex_states.specs.Lists.{AllAre};
ghost use Rattle.apex_states.specs.Nodes.{ArePartsFound};

use crate::expansions::Expansion;
use crate::finds::Finds;
use crate::halves::Half;
use crate::pairs::Pair;
use crate::roots::Roots;
use crate::states::Origin;
use std::alloc::{AllocError, Global};

/// The number of the known half with this number among these halves. It is looked up unless it was found
/// before, and so is each of its parts. Fails only for want of memory.
fn translate(
    alloc: Global,
    half: &mut Half,
    known: &Half,
    number: u32,
    found: &mut [Option<u32>],
    parts: &mut [Option<u32>],
) -> Result<u32, AllocError>
    requires half { IsHalf half.old }
    requires known { IsHalf known.now }
    requires width { known.now.width ≡ half.old.width }
    requires number { (k : List ℕ) × IsNumber known.now number k }
    requires found { AreFound known.now half.old found.old }
    requires slot { number < length found.old }
    requires parts { ArePartsFound known.now.nodes half.old.nodes parts.old }
    requires part_slots { length parts.old ≡ length known.now.nodes.parts.rows }
    ensures number { IfOk result (λ among. (k : List ℕ)
        → IsNumber known.now number k → IsNumber half.new among k) }
    ensures found { IfOk result (λ _. AreFound known.now half.new found.new) }
    ensures slots { length found.new ≡ length found.old }
    ensures parts { ArePartsFound known.now.nodes half.new.nodes parts.new }
    ensures part_slots { length parts.new ≡ length parts.old }
    ensures held { StillHas half.old half.new }
    ensures half { IsHalf half.new }
{
    match found[number as usize] {
        Some(translated) => Ok(translated),
        None => {
            let translated = half.translate(alloc, known, number, parts)?;
            found[number as usize] = Some(translated);
            Ok(translated)
        }
    }
}

/// The numbers among these halves of the known ones with these numbers. What has the same number is looked
/// up once. Fails only for want of memory.
fn translate_all(
    alloc: Global,
    half: &mut Half,
    known: &Half,
    numbers: &[u32],
) -> Result<Vec<u32>, AllocError>
    requires half { IsHalf half.old }
    requires known { IsHalf known.now }
    requires width { known.now.width ≡ half.old.width }
    requires numbers { AllAre (λ number. (k : List ℕ) × IsNumber known.now number k) numbers.now }
    ensures numbers { IfOk result (λ among.
        AreTranslated known.now half.new numbers.now among.items) }
    ensures held { StillHas half.old half.new }
    ensures half { IsHalf half.new }
{
    let mut among = Vec::with_capacity(alloc, numbers.len())?;
    let mut found = vec![in alloc; None; known.count()]?;
    let mut parts = vec![in alloc; None; known.part_count()]?;
    let (found, parts) = (found.as_mut_slice(), parts.as_mut_slice());
    for place in 0..numbers.len() {
        among.push(translate(alloc, half, known, numbers[place], found, parts)?)?;
    }
    Ok(among)
}

/// The number of the half of each state that was found, in order. Fails only for want of memory.
fn number_finds(alloc: Global, half: &mut Half, finds: &Finds) -> Result<Vec<u32>, AllocError>
    requires half { IsHalf half.old }
    requires width { half.old.width ≡ width_on half.old.side finds.now.width }
    ensures numbers { IfOk result (λ numbers. AreNumbered half.new finds.now numbers.items) }
    ensures held { StillHas half.old half.new }
    ensures half { IsHalf half.new }
{
    let (known, numbers) = finds.numbered(alloc, half.side())?;
    translate_all(alloc, half, known, numbers.as_slice())
}

/// The number of the half of each state that was found in the expansions, in order. Fails only for want
/// of memory.
fn number_all(
    alloc: Global,
    half: &mut Half,
    expansions: &[Expansion],
) -> Result<Vec<u32>, AllocError>
    requires { CanNumberAll half.old expansions.now }
    ensures numbers { IfOk result (λ numbers.
        AreAllNumbered half.new expansions.now numbers.items) }
    ensures held { StillHas half.old half.new }
    ensures half { IsHalf half.new }
{
    let mut numbers = Vec::new(alloc);
    for place in 0..expansions.len() {
        let more = number_finds(alloc, half, &expansions[place].finds)?;
        numbers.extend_from_slice(more.as_slice())?;
    }
    Ok(numbers)
}

/// The numbers of the left and of the right half of each state that was found in the expansions. Fails
/// only for want of memory.
pub(crate) fn number_both(
    alloc: Global,
    left: &mut Half,
    right: &mut Half,
    expansions: &[Expansion],
) -> Result<(Vec<u32>, Vec<u32>), AllocError>
    requires left { CanNumberAll left.old expansions.now }
    requires right { CanNumberAll right.old expansions.now }
    ensures lefts { IfOk result (λ numbers.
        AreAllNumbered left.new expansions.now numbers.0.items) }
    ensures rights { IfOk result (λ numbers.
        AreAllNumbered right.new expansions.now numbers.1.items) }
    ensures held_left { StillHas left.old left.new }
    ensures held_right { StillHas right.old right.new }
    ensures left { IsHalf left.new }
    ensures right { IsHalf right.new }
{
    let lefts = number_all(alloc, left, expansions)?;
    let rights = number_all(alloc, right, expansions)?;
    Ok((lefts, rights))
}

/// The pairs of these numbers. Fails only for want of memory.
pub(crate) fn pair_all(alloc: Global, lefts: &[u32], rights: &[u32]) -> Result<Vec<u64>, AllocError>
    requires { length rights.now ≡ length lefts.now }
    ensures { IfOk result (λ pairs. ArePaired lefts.now rights.now pairs.items) }
{
    let mut pairs = Vec::with_capacity(alloc, lefts.len())?;
    for place in 0..lefts.len() {
        let pair = Pair {
            left: lefts[place],
            right: rights[place],
        };
        pairs.push(pair.word())?;
    }
    Ok(pairs)
}

/// The origin of each state that was found in the expansions, in order. Fails only for want of memory.
pub(crate) fn gather_origins(
    alloc: Global,
    expansions: &[Expansion],
) -> Result<Vec<Origin>, AllocError>
    ensures origins { IfOk result (λ origins. origins.items ≡ origins_of expansions.now) }
    ensures paired { IfOk result (λ origins.
        length origins.items ≡ length (states_of expansions.now)) }
{
    let mut origins = Vec::new(alloc);
    for place in 0..expansions.len() {
        origins.extend_from_slice(expansions[place].finds.origins())?;
    }
    Ok(origins)
}

/// Enters the pairs of the states that come from these origins, in order, until there is no room for
/// one: false then.
pub(crate) fn enter_all(roots: &mut Roots, pairs: &[u64], origins: &[Origin]) -> bool
    requires paired { length roots.old.origins ≡ length roots.old.states }
    requires count { length pairs.now ≡ length origins.now }
    ensures { AreKept (roots_found pairs.now origins.now) roots.old roots.new result }
{
    for place in 0..origins.len() {
        if !roots.enter(pairs[place], origins[place]) {
            return false;
        }
    }
    true
}
