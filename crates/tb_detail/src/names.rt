// Names: their form, and lists of things that have names.
ghost use Rattle.std.specs.Prelude.{◌≡◌, ◌≢◌, ◌↔◌, ℕ, List, IsTrue, All, AllPairs};
ghost use Rattle.std.specs.List.{list_all, list_any};
ghost use Rattle.std.specs.Str.{bytes_eq};
ghost use Rattle.tb_detail.specs.Names.{AreNamed, is_name, is_name_byte};

use crate::limits::MOST_NAME_BYTES;
use crate::{ChiItem, Environment, Material, Name, Part, PsiItem};

/// Whether a text has the form of a name: 1 to `MOST_NAME_BYTES` bytes, each an ASCII letter, a digit, a space, `_`,
/// `-` or `.`.
pub fn is_name(text: &[u8]) -> bool
    ensures { result ≡ is_name text.now }
{
    1 <= text.len() && text.len() <= MOST_NAME_BYTES && are_name_bytes(text)
}

fn are_name_bytes(text: &[u8]) -> bool
    ensures { result ≡ list_all is_name_byte text.now }
{
    text.iter().all(|byte| is_name_byte(*byte))
}

#[tactic(auto, unfolding(crate::specs::Names::is_name_byte))]
fn is_name_byte(byte: u8) -> bool
    ensures { result ≡ is_name_byte byte }
{
    match byte {
        b'a'..=b'z' | b'A'..=b'Z' | b'0'..=b'9' | b' ' | b'_' | b'-' | b'.' => true,
        _ => false,
    }
}

/// A thing that has a name.
pub trait Named {
    ghost name_of: { Self → List ℕ };

    fn name(&self) -> &Name
        ensures { result.now ≡ name_of self.now };
}

impl Named for Environment {
    ghost name_of = { λ thing. thing.name };

    fn name(&self) -> &Name {
        &self.name
    }
}

impl Named for Material {
    ghost name_of = { λ thing. thing.name };

    fn name(&self) -> &Name {
        &self.name
    }
}

impl Named for Part {
    ghost name_of = { λ thing. thing.name };

    fn name(&self) -> &Name {
        &self.name
    }
}

impl Named for PsiItem {
    ghost name_of = { λ thing. thing.name };

    fn name(&self) -> &Name {
        &self.name
    }
}

impl Named for ChiItem {
    ghost name_of = { λ thing. thing.name };

    fn name(&self) -> &Name {
        &self.name
    }
}

// Whether one of these things has the name of this thing.
fn is_taken<T: Named>(things: &[T], thing: &T) -> bool
    ensures { result ≡ list_any (λ other. bytes_eq (T.name_of other) (T.name_of thing.now)) things.now }
{
    things.iter().any(|other| other.name() == thing.name())
}

fn are_formed<T: Named>(things: &[T]) -> bool
    ensures { IsTrue result ↔ All (λ thing. IsTrue (is_name (T.name_of thing))) things.now }
{
    things.iter().all(|thing| is_name(&thing.name().bytes))
}

fn are_distinct<T: Named>(things: &[T]) -> bool
    ensures { IsTrue result ↔ AllPairs (λ thing other. T.name_of thing ≢ T.name_of other) things.now }
{
    for (place, thing) in things.iter().enumerate() {
        if is_taken(&things[..place], thing) {
            return false;
        }
    }
    true
}

/// Whether the names of these things have the form of a name, and no two of them are the same.
pub fn are_named<T: Named>(things: &[T]) -> bool
    ensures { IsTrue result ↔ AreNamed T.name_of things.now }
{
    are_formed(things) && are_distinct(things)
}
