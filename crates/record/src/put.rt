// The writing of records: fields one after the other into lent memory.
ghost use Rattle.std.specs.Prelude.{◌≡◌, ◌+◌, ◌^◌, ◌≤◌, ℕ, true, false, length, MatchOption, nat_lt};
ghost use Rattle.record.specs.Number.{big};
ghost use Rattle.record.specs.Format.{over, encode, extent, all_fit, width, bits, Written};

use crate::field::{Held, Party};
use std::marker::Model;

// A field that is filled: the count of its bytes, and the number to write there.
#[derive(Clone, Copy)]
pub(crate) struct Filled {
    width: usize,
    number: u64,
}

impl Model for Filled {
    ghost Value = { ℕ × ℕ };

    ghost view = { λ field. (field.width, field.number) };

    ghost invariant = { λ field. field.width ≤ 8 };

    ghost inverse = { λ value. record { width = value.0; number = value.1 } };
}

impl Filled {
    // Whether the number fits the bytes of the field.
    fn fits(&self) -> bool
        ensures { result ≡ nat_lt self.now.1 (256 ^ self.now.0) }
    {
        self.width == 8 || self.number >> (8 * self.width) == 0
    }

    // How many bytes the field takes; None where its number does not fit them.
    fn checked_width(&self) -> Option<usize>
        ensures { MatchOption result (nat_lt self.now.1 (256 ^ self.now.0) ≡ false) (λ n. (nat_lt self.now.1 (256 ^ self.now.0) ≡ true) × (n ≡ self.now.0) × (n ≤ 8)) }
    {
        self.fits().then_some(self.width)
    }

    // Writes the bytes of the field and says which place comes next.
    fn put_bytes(&self, out: &mut [u8], at: usize) -> usize
        requires { at + self.now.0 ≤ length out.old }
        ensures place { result ≡ at + self.now.0 }
        ensures bytes { out.new ≡ over out.old at (big self.now.0 self.now.1) }
    {
        let bytes = self.number.to_be_bytes();
        out[at..at + self.width].copy_from_slice(&bytes[8 - self.width..]);
        at + self.width
    }
}

// A value in the bytes of its type.
pub(crate) fn field<T: Held>(value: T) -> Filled
    ensures { result ≡ (width T.form, bits T.form (T.value value)) }
{
    Filled {
        width: T::width(),
        number: value.number(),
    }
}

pub(crate) fn party(number: u64) -> Filled
    ensures { result ≡ (2, number) }
{
    field(Party(number))
}

// How many bytes the fields take; None where a number does not fit its field.
fn checked_extent(fields: &[Filled]) -> Option<usize>
    requires { length fields.now ≤ 16 }
    ensures { MatchOption result (all_fit fields.now ≡ false) (λ n. (all_fit fields.now ≡ true) × (n ≡ extent fields.now)) }
{
    let mut n = 0;
    for field in fields {
        n += field.checked_width()?;
    }
    Some(n)
}

// Writes the fields, which all fit and have room.
fn put_all(out: &mut [u8], at: usize, fields: &[Filled])
    requires { at + extent fields.now ≤ length out.old }
    ensures { out.new ≡ over out.old at (encode fields.now) }
{
    let mut place = at;
    for field in fields {
        place = field.put_bytes(out, place);
    }
}

// Writes the fields at the place `at` and says which place comes next.
// Writes nothing where a number does not fit its field, or the memory ends before the last of them.
pub(crate) fn put_checked(out: &mut [u8], at: usize, fields: &[Filled]) -> Option<usize>
    requires { length fields.now ≤ 16 }
    ensures { Written fields.now at out.old out.new result }
{
    let length = checked_extent(fields)?;
    let next = at.checked_add(length)?;
    if next > out.len() {
        return None;
    }
    put_all(out, at, fields);
    Some(next)
}
