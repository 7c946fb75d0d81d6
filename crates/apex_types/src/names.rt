//! The names of processes and of objects.
ghost use Rattle.std.specs.Prelude.{◌≡◌, ◌≤◌, true, false, IsNone, IfSome, length};
ghost use Rattle.std.specs.List.{list_all};
ghost use Rattle.std.specs.Str.{bytes_eq};
ghost use Rattle.std.specs.Cmp.{partial_equiv_from_equiv};
ghost use Rattle.std.specs.Cmp.Lexicographic.{nat_list_eq_equiv};
ghost use Rattle.apex_types.specs.declared.limits.TheConstants.{MOST_NAME};
ghost use Rattle.apex_types.specs.Name.{is_visible, is_name, padded};

use crate::limits::MOST_NAME;
use std::marker::Model;

/// The name of a process or of an object: 1 to 30 bytes from 0x21 to 0x7E, compared byte by byte.
#[derive(Clone, Copy)]
pub struct Name {
    /// The name's bytes, and zeros behind them: so a name has one form alone.
    bytes: [u8; MOST_NAME],
    /// The number of bytes that the name has.
    used: u8,
}

impl Model for Name {
    ghost use Rattle.std.specs.Prelude.{ℕ, List, take, length};
    ghost use Rattle.apex_types.specs.Name.{padded, IsNameIn};
    ghost use Rattle.std.proofs.Common.{sym, length-take-le};

    ghost Value = { List ℕ };

    ghost view = { λ n. take n.used n.bytes };

    ghost invariant = { λ n. IsNameIn n.used n.bytes };

    ghost inverse = { λ name. record { bytes = padded name; used = length name } };

    ghost inverse_ok = { λ n h i. record {
      bytes = sym h.zeros i;
      used = length-take-le n.used n.bytes h.within i;
    } };
}

impl PartialEq for Name {
    ghost eq = { bytes_eq };

    ghost laws = { partial_equiv_from_equiv nat_list_eq_equiv };

    fn eq(&self, other: &Name) -> bool {
        self.as_bytes() == other.as_bytes()
    }
}

impl Eq for Name {
    ghost laws = { nat_list_eq_equiv };
}

fn is_visible(byte: u8) -> bool
    ensures { result ≡ is_visible byte }
{
    (0x21..=0x7e).contains(&byte)
}

fn all_visible(text: &[u8]) -> bool
    ensures { result ≡ list_all is_visible text.now }
{
    text.iter().all(|byte| is_visible(*byte))
}

fn is_name(text: &[u8]) -> bool
    ensures { result ≡ is_name text.now }
{
    1 <= text.len() && text.len() <= MOST_NAME && all_visible(text)
}

fn padded(name: &[u8]) -> [u8; MOST_NAME]
    requires { length name.now ≤ MOST_NAME }
    ensures { result ≡ padded name.now }
{
    let mut bytes = [0; MOST_NAME];
    bytes[..name.len()].copy_from_slice(name);
    bytes
}

impl Name {
    /// The name of these bytes, or none if they are no name. Takes no memory.
    pub fn from_bytes(text: &[u8]) -> Option<Name>
        ensures none { IsNone result → is_name text.now ≡ false }
        ensures some { IfSome result (λ name. (name ≡ text.now) × (is_name text.now ≡ true)) }
    {
        if !is_name(text) {
            return None;
        }
        Some(Name {
            bytes: padded(text),
            used: text.len() as u8,
        })
    }

    /// The name's bytes.
    pub fn as_bytes(&self) -> &[u8]
        ensures value { result.now ≡ self.now }
        ensures name { is_name result.now ≡ true }
    {
        &self.bytes[..usize::from(self.used)]
    }
}
