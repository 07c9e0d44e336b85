// Fields of a line of text, with a space between two, and the numbers that they spell in decimal. Any bytes are met with an answer.
#![tactic(auto)]

ghost use Rattle.std.specs.Prelude.{◌≡◌, [], ◌∷◌, ◌≤◌, ◌==◌, length, drop, IfSome, MatchOption};
ghost use Rattle.fields.specs.Fields.{first_field, later_fields, leading_zero, same_bytes, number_of, next_number};

use std::marker::Model;

// The fields of a line behind its first one that are still to be read, first to last. A clause sees the list of them.
#[derive(Drop)]
pub struct Fields<'a> {
    // Empty, or begins with the space before the next field.
    rest: &'a [u8],
}

impl<'a> Model for Fields<'a> {
    ghost use Rattle.std.specs.Prelude.{ℕ, List, [], ◌≡◌};
    ghost use Rattle.fields.specs.Fields.{first_field, later_fields};

    ghost Value = { List (List ℕ) };

    ghost view = { λ f. later_fields f.rest.now };

    ghost invariant = { λ f. first_field f.rest.now ≡ [] };
}

impl<'a> Iterator for Fields<'a> {
    type Item = &'a [u8];

    ghost use Rattle.std.specs.Iterator.{YieldsFirstRef, item_count};

    ghost next_gives = { YieldsFirstRef (λ f. f) };

    ghost remaining = { item_count (λ f. f) };

    // The next field.
    fn next(&mut self) -> Option<&'a [u8]> {
        let (_, after) = self.rest.split_first()?;
        let (field, rest) = after.split_at(first_len(after));
        self.rest = rest;
        Some(field)
    }
}

impl<'a> Fields<'a> {
    // The number that the next field spells in decimal, if there is one, and it is at most `most`.
    pub fn number(&mut self, most: u64) -> Option<u64>
        ensures number { result ≡ next_number most self.old }
        ensures fits { IfSome result (λ v. v ≤ most) }
        ensures rest { self.new ≡ drop 1 self.old }
    {
        read_number(self.next()?, most)
    }

    // Whether no field is left.
    pub fn is_empty(&self) -> bool
        ensures { result ≡ (length self.now == 0) }
    {
        self.rest.is_empty()
    }

    // The rest of the line, from the next field on; none where no field is left.
    pub fn rest(self) -> Option<&'a [u8]>
        ensures { MatchOption result (self.entry ≡ []) (λ r. self.entry ≡ first_field r.now ∷ later_fields r.now) }
    {
        let (_, after) = self.rest.split_first()?;
        Some(after)
    }
}

// ---- fields

// How many bytes the first field of a line has: those before the first space, or all.
fn first_len(line: &[u8]) -> usize
    ensures { result ≡ length (first_field line.now) }
{
    line.iter().position(|b| *b == b' ').unwrap_or(line.len())
}

// A line's first field, and its later ones.
pub fn split(line: &[u8]) -> (&[u8], Fields<'_>)
    ensures first { result.0.now ≡ first_field line.now }
    ensures later { result.1 ≡ later_fields line.now }
{
    let (first, rest) = line.split_at(first_len(line));
    (first, Fields { rest })
}

// Whether a line's first field is this word.
pub fn begins(line: &[u8], word: &[u8]) -> bool
    ensures { result ≡ same_bytes (first_field line.now) word.now }
{
    split(line).0 == word
}

// ---- numbers

// The number that a field spells in decimal, if it is at most `most`: digits alone, and no zero before another.
pub fn read_number(field: &[u8], most: u64) -> Option<u64>
    ensures number { result ≡ number_of most field.now }
    ensures fits { IfSome result (λ v. v ≤ most) }
{
    match field {
        [] | [b'0', _, ..] => return None,
        _ => {}
    }
    let mut value: u64 = 0;
    for b in field {
        if !b.is_ascii_digit() {
            return None;
        }
        let digit = u64::from(*b - b'0');
        value = value.checked_mul(10)?.checked_add(digit)?;
        if value > most {
            return None;
        }
    }
    Some(value)
}
