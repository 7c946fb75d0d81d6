//! Pairs of numbers.
ghost use Rattle.std.specs.Prelude.{◌≡◌, ◌^◌, ◌/◌, ◌%◌};

/// The numbers of two halves.
#[derive(Clone, Copy)]
pub(crate) struct Pair {
    pub(crate) left: u32,
    pub(crate) right: u32,
}

impl Pair {
    /// The numbers in a word.
    pub(crate) fn of(word: u64) -> Pair
        ensures left { result.left ≡ word / 2 ^ 32 }
        ensures right { result.right ≡ word % 2 ^ 32 }
    {
        Pair {
            left: (word / 0x1_0000_0000) as u32,
            right: (word % 0x1_0000_0000) as u32,
        }
    }

    /// Both numbers in one word.
    pub(crate) fn word(self) -> u64
        ensures left { result / 2 ^ 32 ≡ self.left }
        ensures right { result % 2 ^ 32 ≡ self.right }
    {
        u64::from(self.left) * 0x1_0000_0000 + u64::from(self.right)
    }
}
