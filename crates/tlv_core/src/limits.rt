//! Limits that a caller sets to a document.
ghost use Rattle.std.specs.Prelude.{◌≡◌, ◌↔◌, IfSome, IsSome};
ghost use Rattle.tlv_core.specs.Limits.{IsLimits};

use std::marker::Model;

/// The greatest depth of nesting, 1 to 64, the outermost element being at depth 1; and the greatest number of octets of
/// a document and of its DER text, 1 to 2,147,483,647.
#[derive(Clone, Copy, Debug, PartialEq, Eq)]
pub struct Limits {
    depth: u8,
    octets: u32,
}

impl Model for Limits {
    ghost use Rattle.tlv_core.specs.Limits.{Limits as Allowed, IsLimits, limits_code};

    ghost Value = { Allowed };

    ghost coded = { limits_code };

    ghost view = { λ limits. record { depth = limits.depth; octets = limits.octets } };

    ghost invariant = { λ limits.
        IsLimits (record { depth = limits.depth; octets = limits.octets }) };

    ghost inverse = { λ limits. record { depth = limits.depth; octets = limits.octets } };
}

impl Limits {
    /// The limits, `Some` exactly for a depth of 1 to 64 and octets of 1 to 2,147,483,647.
    pub fn new(depth: u8, octets: u32) -> Option<Limits>
        ensures made { IfSome result (λ limits. (limits.depth ≡ depth) × (limits.octets ≡ octets)) }
        ensures exactly { IsSome result ↔ IsLimits (record { depth = depth; octets = octets }) }
    {
        if depth == 0 || depth > 64 || octets == 0 || octets > 2_147_483_647 {
            return None;
        }
        Some(Limits { depth, octets })
    }

    /// The greatest depth of nesting.
    pub fn depth(self) -> u8
        ensures value { result ≡ self.depth }
        ensures bounds { IsLimits self }
    {
        self.depth
    }

    /// The greatest number of octets.
    pub fn octets(self) -> u32
        ensures value { result ≡ self.octets }
        ensures bounds { IsLimits self }
    {
        self.octets
    }
}
