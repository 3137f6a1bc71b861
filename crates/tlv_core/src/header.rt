//! Headers in DER: identifier octets and the shortest length octets (X.690 8.1.2, 10.1).
ghost use Rattle.std.specs.Prelude.{◌≡◌, ◌+◌, ◌<◌, ◌≤◌, ◌++◌, ◌∷◌, ◌*◌, [], cond, length};
ghost use Rattle.tlv_core.specs.Identifier.{identifier, base128, leading_base128};
ghost use Rattle.tlv_core.specs.Length.{shortest_length, number_octets};

use crate::tag::{Class, Tag};
use std::marker::Model;

/// The octets of a header: at most 5 of the identifier and 9 of the length.
#[derive(Drop)]
pub struct Header {
    room: [u8; 14],
    used: usize,
}

impl Model for Header {
    ghost use Rattle.std.specs.Prelude.{◌≤◌, take, List, ℕ};

    ghost Value = { List ℕ };

    ghost view = { λ header. take header.used header.room };

    ghost invariant = { λ header. header.used ≤ 14 };
}

impl Header {
    pub(crate) fn empty() -> Header
        ensures { result ≡ [] }
    {
        Header {
            room: [0; 14],
            used: 0,
        }
    }

    /// The octets of the header.
    pub fn octets(&self) -> &[u8]
        ensures { result.now ≡ self.now }
    {
        &self.room[..self.used]
    }

    fn push(&mut self, octet: u8)
        requires { length self.old < 14 }
        ensures { self.new ≡ self.old ++ octet ∷ [] }
    {
        self.room[self.used] = octet;
        self.used += 1;
    }

    /// The base-128 digits of a number below 2^21, each with bit 8 set.
    fn push_leading_base128(&mut self, n: u32)
        requires small { n < 2097152 }
        requires room { length self.old + length (leading_base128 n n) ≤ 14 }
        ensures { self.new ≡ self.old ++ leading_base128 n n }
    {
        if n > 0 {
            self.push_leading_base128(n / 128);
            self.push((128 + n % 128) as u8);
        }
    }

    /// The big-endian octets of a number, without leading zeros.
    fn push_number(&mut self, n: u64)
        requires { length self.old + length (number_octets n n) ≤ 14 }
        ensures { self.new ≡ self.old ++ number_octets n n }
    {
        if n > 0 {
            self.push_number(n / 256);
            self.push((n % 256) as u8);
        }
    }

    pub(crate) fn push_identifier(&mut self, tag: Tag, constructed: bool)
        requires { self.old ≡ [] }
        ensures octets { self.new ≡ identifier tag constructed }
        ensures short { length self.new ≤ 5 }
    {
        let number = tag.number();
        if number < 31 {
            self.push(lead(tag, constructed, number as u8));
        } else {
            self.push(lead(tag, constructed, 31));
            self.push_leading_base128(number / 128);
            self.push((number % 128) as u8);
        }
    }

    pub(crate) fn push_length(&mut self, content: u64)
        requires { length self.old ≤ 5 }
        ensures { self.new ≡ self.old ++ shortest_length content }
    {
        if content < 128 {
            self.push(content as u8);
        } else {
            self.push(128 + number_size(content));
            self.push_number(content);
        }
    }
}

/// The first identifier octet: class, form and the five bits that are left.
pub(crate) fn lead(tag: Tag, constructed: bool, low: u8) -> u8
    requires { low < 32 }
    ensures { result ≡ tag.class * 64 + cond constructed 32 0 + low }
{
    let class = match tag.class() {
        Class::Universal => 0,
        Class::Application => 64,
        Class::Context => 128,
        Class::Private => 192,
    };
    let form = if constructed { 32 } else { 0 };
    class + form + low
}

/// How many octets a number has, without leading zeros.
pub(crate) fn number_size(n: u64) -> u8
    ensures { result ≡ length (number_octets n n) }
{
    if n == 0 { 0 } else { 1 + number_size(n / 256) }
}
