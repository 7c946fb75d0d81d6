//! Words as trees. A row of words is cut in halves, each half again, and so on down to parts of a
//! few words. Each part and each pair of halves is kept once, so rows that share halves share their
//! memory.
ghost use Rattle.std.specs.Prelude.{◌≡◌, ℕ, ◌+◌, ◌<◌, List, [], ◌∷◌, length, IfOk};
ghost use Rattle.apex_states.specs.Nodes.{ArePartsFound, IsExact, IsHeld, IsTree, Joins, no_nodes, spread};

use crate::pairs::Pair;
use crate::registers::Register;
use crate::words::are_same;
use std::alloc::{AllocError, Global};

/// The room for parts and for pairs at first.
const FIRST_ROOM: u32 = 64;

/// The parts of all rows, and the pairs of numbers of two halves. The number of a half that is a
/// part is that of the part, and else that of its pair.
#[derive(Drop)]
pub(crate) struct Nodes {
    parts: Register,
    pairs: Register,
}

impl Nodes {
    /// No nodes, for parts of `width` words. Fails only for want of memory.
    pub(crate) fn new(alloc: Global, width: usize) -> Result<Nodes, AllocError>
        ensures { IfOk result (λ nodes. nodes ≡ no_nodes width FIRST_ROOM) }
    {
        Ok(Nodes {
            parts: Register::new(alloc, width, FIRST_ROOM)?,
            pairs: Register::new(alloc, 1, FIRST_ROOM)?,
        })
    }

    /// The number of parts: the number of a part is below it.
    pub(crate) fn part_count(&self) -> usize
        ensures { result ≡ length self.now.parts.rows }
    {
        self.parts.len()
    }

    /// The number of pairs: the number of a tree that is no part is below it.
    pub(crate) fn pair_count(&self) -> usize
        ensures { result ≡ length self.now.pairs.rows }
    {
        self.pairs.len()
    }

    /// The number of the tree of these words. Fails only for want of memory.
    #[cycle(numbers)]
    pub(crate) fn number(
        &mut self,
        alloc: Global,
        depth: u32,
        words: &[u64],
    ) -> Result<u32, AllocError>
        requires exact { IsExact self.old }
        requires words { length words.now ≡ spread self.old.parts.width depth }
        ensures number { IfOk result (λ number. IsTree self.new depth number words.now) }
        ensures held { IsHeld self.old self.new }
        ensures exact { IsExact self.new }
    {
        if depth == 0 {
            return self.parts.number(alloc, words);
        }
        let word = self.number_halves(alloc, depth - 1, words)?;
        self.pairs.number(alloc, &[word])
    }

    /// The numbers of the trees of both halves of these words, in one word; `depth` is that of a
    /// half. Fails only for want of memory.
    #[cycle(numbers)]
    fn number_halves(&mut self, alloc: Global, depth: u32, words: &[u64]) -> Result<u64, AllocError>
        requires exact { IsExact self.old }
        requires words { length words.now
            ≡ spread self.old.parts.width depth + spread self.old.parts.width depth }
        ensures halves { IfOk result (λ word.
            Joins (IsTree self.new depth) (word ∷ []) words.now) }
        ensures held { IsHeld self.old self.new }
        ensures exact { IsExact self.new }
    {
        let (front, back) = words.split_at(words.len() / 2);
        let left = self.number(alloc, depth, front)?;
        let right = self.number(alloc, depth, back)?;
        Ok(Pair { left, right }.word())
    }

    /// The number of the tree of these words, which are nearly these known ones: what they have in
    /// common is not looked up. Fails only for want of memory.
    #[cycle(likes)]
    pub(crate) fn number_like(
        &mut self,
        alloc: Global,
        depth: u32,
        words: &[u64],
        known: &[u64],
        number: u32,
    ) -> Result<u32, AllocError>
        requires exact { IsExact self.old }
        requires words { length words.now ≡ spread self.old.parts.width depth }
        requires long { length known.now ≡ length words.now }
        requires known { IsTree self.old depth number known.now }
        ensures number { IfOk result (λ number. IsTree self.new depth number words.now) }
        ensures held { IsHeld self.old self.new }
        ensures exact { IsExact self.new }
    {
        if depth == 0 {
            if are_same(words, known) {
                return Ok(number);
            }
            return self.parts.number(alloc, words);
        }
        let pair = self.pairs.row(number as usize)[0];
        let word = self.number_halves_like(alloc, depth - 1, words, known, pair)?;
        if word == pair {
            return Ok(number);
        }
        self.pairs.number(alloc, &[word])
    }

    /// The numbers of the trees of both halves of these words, in one word. They are nearly these
    /// known ones, whose numbers are in `pair`; `depth` is that of a half. Fails only for want of
    /// memory.
    #[cycle(likes)]
    fn number_halves_like(
        &mut self,
        alloc: Global,
        depth: u32,
        words: &[u64],
        known: &[u64],
        pair: u64,
    ) -> Result<u64, AllocError>
        requires exact { IsExact self.old }
        requires words { length words.now
            ≡ spread self.old.parts.width depth + spread self.old.parts.width depth }
        requires long { length known.now ≡ length words.now }
        requires known { Joins (IsTree self.old depth) (pair ∷ []) known.now }
        ensures halves { IfOk result (λ word.
            Joins (IsTree self.new depth) (word ∷ []) words.now) }
        ensures held { IsHeld self.old self.new }
        ensures exact { IsExact self.new }
    {
        let pair = Pair::of(pair);
        let (front, back) = words.split_at(words.len() / 2);
        let (known_front, known_back) = known.split_at(known.len() / 2);
        let left = self.number_like(alloc, depth, front, known_front, pair.left)?;
        let right = self.number_like(alloc, depth, back, known_back, pair.right)?;
        Ok(Pair { left, right }.word())
    }

    /// The number among these trees of the known one with this number. A part is looked up unless
    /// `found` has its number among these. Fails only for want of memory.
    #[cycle(translates)]
    pub(crate) fn translate(
        &mut self,
        alloc: Global,
        known: &Nodes,
        depth: u32,
        number: u32,
        found: &mut [Option<u32>],
    ) -> Result<u32, AllocError>
        requires exact { IsExact self.old }
        requires known { IsExact known.now }
        requires width { known.now.parts.width ≡ self.old.parts.width }
        requires number { (k : List ℕ) × IsTree known.now depth number k }
        requires found { ArePartsFound known.now self.old found.old }
        requires slots { length found.old ≡ length known.now.parts.rows }
        ensures number { IfOk result (λ among. (k : List ℕ)
            → IsTree known.now depth number k → IsTree self.new depth among k) }
        ensures found { ArePartsFound known.now self.new found.new }
        ensures slots { length found.new ≡ length found.old }
        ensures held { IsHeld self.old self.new }
        ensures exact { IsExact self.new }
    {
        if depth == 0 {
            return self.translate_part(alloc, known, number, found);
        }
        let pair = known.pairs.row(number as usize)[0];
        let word = self.translate_halves(alloc, known, depth - 1, pair, found)?;
        self.pairs.number(alloc, &[word])
    }

    /// The numbers among these trees of both known ones with the numbers in `pair`, in one word;
    /// `depth` is that of a half. Fails only for want of memory.
    #[cycle(translates)]
    fn translate_halves(
        &mut self,
        alloc: Global,
        known: &Nodes,
        depth: u32,
        pair: u64,
        found: &mut [Option<u32>],
    ) -> Result<u64, AllocError>
        requires exact { IsExact self.old }
        requires known { IsExact known.now }
        requires width { known.now.parts.width ≡ self.old.parts.width }
        requires halves { (k : List ℕ) × Joins (IsTree known.now depth) (pair ∷ []) k }
        requires found { ArePartsFound known.now self.old found.old }
        requires slots { length found.old ≡ length known.now.parts.rows }
        ensures halves { IfOk result (λ word. (k : List ℕ)
            → Joins (IsTree known.now depth) (pair ∷ []) k
            → Joins (IsTree self.new depth) (word ∷ []) k) }
        ensures found { ArePartsFound known.now self.new found.new }
        ensures slots { length found.new ≡ length found.old }
        ensures held { IsHeld self.old self.new }
        ensures exact { IsExact self.new }
    {
        let pair = Pair::of(pair);
        let left = self.translate(alloc, known, depth, pair.left, found)?;
        let right = self.translate(alloc, known, depth, pair.right, found)?;
        Ok(Pair { left, right }.word())
    }

    /// The number among these parts of the known one with this number. It is looked up unless
    /// `found` has it. Fails only for want of memory.
    fn translate_part(
        &mut self,
        alloc: Global,
        known: &Nodes,
        number: u32,
        found: &mut [Option<u32>],
    ) -> Result<u32, AllocError>
        requires exact { IsExact self.old }
        requires width { known.now.parts.width ≡ self.old.parts.width }
        requires number { number < length known.now.parts.rows }
        requires found { ArePartsFound known.now self.old found.old }
        requires slots { length found.old ≡ length known.now.parts.rows }
        ensures number { IfOk result (λ among. (k : List ℕ)
            → IsTree known.now 0 number k → IsTree self.new 0 among k) }
        ensures found { ArePartsFound known.now self.new found.new }
        ensures slots { length found.new ≡ length found.old }
        ensures held { IsHeld self.old self.new }
        ensures exact { IsExact self.new }
    {
        match found[number as usize] {
            Some(among) => Ok(among),
            None => {
                let among = self.parts.number(alloc, known.parts.row(number as usize))?;
                found[number as usize] = Some(among);
                Ok(among)
            }
        }
    }

    /// Puts the words of the tree with this number into these.
    #[cycle(trees)]
    pub(crate) fn restore(&self, depth: u32, number: u32, words: &mut [u64])
        requires exact { IsExact self.now }
        requires tree { (k : List ℕ) × (length k ≡ length words.old)
            × IsTree self.now depth number k }
        ensures { IsTree self.now depth number words.new }
    {
        if depth == 0 {
            words.copy_from_slice(self.parts.row(number as usize));
        } else {
            self.restore_halves(depth - 1, self.pairs.row(number as usize)[0], words);
        }
    }

    /// Puts the words of both trees with the numbers in this word into these; `depth` is that of a
    /// half.
    #[cycle(trees)]
    fn restore_halves(&self, depth: u32, word: u64, words: &mut [u64])
        requires exact { IsExact self.now }
        requires halves { (k : List ℕ) × (length k ≡ length words.old)
            × Joins (IsTree self.now depth) (word ∷ []) k }
        ensures { Joins (IsTree self.now depth) (word ∷ []) words.new }
    {
        let pair = Pair::of(word);
        let middle = words.len() / 2;
        let (front, back) = words.split_at_mut(middle);
        self.restore(depth, pair.left, front);
        self.restore(depth, pair.right, back);
    }
}
