//! Tags (X.690 8.1.2).
ghost use Rattle.std.specs.Prelude.{◌≡◌, ◌↔◌, ◌≤◌, ◌⊎◌, ◌^◌, IfSome, IsNone};
ghost use Rattle.tlv_core.specs.Classes.{class_bits};
ghost use Rattle.tlv_core.specs.declared.tag.Class.TheVariants.{Universal};

use std::marker::Model;

/// The class of a tag (X.690 8.1.2.2).
#[derive(Clone, Copy, Debug, PartialEq, Eq)]
pub enum Class {
    Universal,
    Application,
    Context,
    Private,
}

/// A class and a number below 2^28, universal 0 excepted.
#[derive(Clone, Copy, Debug, PartialEq, Eq)]
pub struct Tag {
    class: Class,
    number: u32,
}

impl Model for Tag {
    ghost use Rattle.tlv_core.specs.Identifier.{Tag as Identified, IsTag};
    ghost use Rattle.tlv_core.specs.Classes.{class_bits, class_of, tag_code};

    ghost Value = { Identified };

    ghost coded = { tag_code };

    ghost view = { λ tag. record { class = class_bits tag.class; number = tag.number } };

    ghost invariant = { λ tag.
        IsTag (record { class = class_bits tag.class; number = tag.number }) };

    ghost inverse = { λ tag. record { class = class_of tag.class; number = tag.number } };
}

impl Tag {
    /// The tag, `None` for a number of 2^28 or more and for universal 0.
    pub fn new(class: Class, number: u32) -> Option<Tag>
        ensures made { IfSome result (λ tag.
            (tag.class ≡ class_bits class) × (tag.number ≡ number)) }
        ensures refused { IsNone result
            ↔ ((2 ^ 28 ≤ number) ⊎ ((class ≡ Universal) × (number ≡ 0))) }
    {
        if number >= 1 << 28 || (number == 0 && class == Class::Universal) {
            return None;
        }
        Some(Tag { class, number })
    }

    /// The class that the tag was made from.
    pub fn class(self) -> Class
        ensures { class_bits result ≡ self.class }
    {
        self.class
    }

    /// The number that the tag was made from.
    pub fn number(self) -> u32
        ensures { result ≡ self.number }
    {
        self.number
    }
}
