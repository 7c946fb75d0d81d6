//! The entry of a section that has a name.
ghost use Rattle.std.specs.Prelude.{ℕ, List, ◌≡◌, map};
ghost use Rattle.std.specs.List.{list_any};
ghost use Rattle.std.specs.Str.{bytes_eq};

use apex_types::Name;

/// An entry of a section, which has a name.
pub trait HasName {
    ghost name_of: { Self → List ℕ };

    /// The entry's name, which no other entry of its section has.
    fn name(&self) -> &Name
        ensures { result.now ≡ name_of self.now };
}

/// Whether an entry has this name.
pub fn has_name<T: HasName>(entries: &[T], name: &[u8]) -> bool
    ensures { result ≡ list_any (bytes_eq name.now) (map T.name_of entries.now) }
{
    for entry in entries {
        if name == entry.name().as_bytes() {
            return true;
        }
    }
    false
}
