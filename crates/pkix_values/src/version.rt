//! Versions of documents (RFC 5958 section 2, RFC 5915 section 3, RFC 2986 section 4.1).
ghost use Rattle.x690_laws.proofs.TextsTellApart.{leaf_one_text};
ghost use Rattle.std.specs.Prelude.{◌≡◌, ◌≤◌, ◌<◌, ◌∷◌, IfSome, [], true};
ghost use Rattle.std.specs.Option.{is_some};
ghost use Rattle.x690.specs.DerTexts.{der};
ghost use Rattle.pkix_definitions.specs.DocumentTypes.{version};
ghost use Rattle.x690.specs.Layouts.{universal};
ghost use Rattle.x690.specs.Lists.{one_of};
ghost use Rattle.x690.specs.Values.{Leaf};
ghost use Rattle.pkix_definitions.proofs.ClosedTypes.{version_closed};
ghost use Rattle.pkix_definitions.specs.Paths.{version_0};
ghost use Rattle.pkix_values.specs.Versions.{versions};

use asn_elements::der_text::DerText;
use asn_elements::element::Element;
use asn_elements::integer::read_integer_octet;
use asn_elements::tags::{is_same_tag, universal_tag};
use ber_pull::pull::Pull;
use pkix_definitions::identifiers::are_same_octets;
use std::alloc::Global;
use tlv_core::fault::ReadError;
use tlv_core::limits::Limits;
use tlv_core::reason::Reason;
use tlv_core::sink::{Sink, WriteError};
use tlv_core::source::Source;
use tlv_core::tag::Tag;
use tlv_core::target::Target;

/// The version of a document: an INTEGER from `LEAST` to `MOST`, and no more than 127 even where `MOST` is. Another
/// INTEGER is refused at its identifier as `Version`.
#[derive(Clone, Copy)]
pub struct Version<const LEAST: u8, const MOST: u8> {
    number: u8,
    ghost allowed: { one_of (number ∷ []) (versions LEAST MOST) ≡ true },
}

impl<const LEAST: u8, const MOST: u8> Version<LEAST, MOST> {
    ghost use Rattle.pkix_values.specs.VersionNumbers.{version_number};

    /// Its number, which is the one octet of the INTEGER's contents.
    pub fn number(&self) -> u8
        ensures value { result ≡ version_number self.now }
        ensures least { LEAST ≤ result }
        ensures most { result ≤ MOST }
        ensures octet { result < 128 }
        ensures allowed { one_of (result ∷ []) (versions LEAST MOST) ≡ true }
    {
        self.number
    }

    fn text(&self) -> [u8; 3]
        ensures { result ≡ der (Leaf (universal 2) (version_number self.now ∷ [])) }
    {
        [0x02, 0x01, self.number]
    }
}

/// Whether the type has the version with this number.
fn is_version<const LEAST: u8, const MOST: u8>(number: u8) -> bool
    ensures { result ≡ one_of (number ∷ []) (versions LEAST MOST) }
{
    if number < LEAST || number > MOST {
        return false;
    }
    number < 128
}

/// Whether these are the contents of version 0, v1.
#[inline(always)]
pub fn names_version_0(version: &[u8]) -> bool
    ensures { result ≡ one_of version.now (version_0 ∷ []) }
{
    are_same_octets(version, &[0])
}

/// The contents of the INTEGER of one octet that octets begin with, and what stands after it.
#[inline(always)]
fn octet_in_der(octets: &[u8]) -> Option<(u8, &[u8])>
    ensures { IfSome result (λ x. octets.now ≡ 2 ∷ 1 ∷ x.0 ∷ x.1.now) }
{
    let [identifier, length, number, rest @ ..] = octets else {
        return None;
    };
    if *identifier != 2 || *length != 1 {
        return None;
    }
    Some((*number, rest))
}

impl<const LEAST: u8, const MOST: u8> DerText for Version<LEAST, MOST> {
    ghost use Rattle.pkix_values.specs.VersionNumbers.{version_number};

    ghost value = { λ v. Leaf (universal 2) (version_number v ∷ []) };

    ghost one_text = { λ x y. leaf_one_text (universal 2) (universal 2)
        (version_number x ∷ []) (version_number y ∷ []) };

    fn size(&self) -> u64 {
        3
    }

    fn put<W: Target>(&self, sink: &mut Sink<'_, W>) -> Result<(), WriteError> {
        sink.put(&self.text())
    }

    fn octet(&self, i: u64) -> Option<u8> {
        if i < 3 {
            Some(self.text()[i as usize])
        } else {
            None
        }
    }
}

impl<const LEAST: u8, const MOST: u8> Element for Version<LEAST, MOST> {
    ghost type_term = { version (versions LEAST MOST) };

    ghost closed = { version_closed (versions LEAST MOST) };

    #[tactic(auto, unfolding(x690::specs::TypeTerms::fits_tag))]
    fn fits(tag: Tag) -> bool {
        is_same_tag(universal_tag(2), tag)
    }

    fn read<R: Source>(
        alloc: Global,
        pull: &mut Pull<'_, R>,
    ) -> Result<Version<LEAST, MOST>, ReadError> {
        let at = pull.at();
        let mut others = Vec::new(alloc);
        match read_integer_octet(pull, universal_tag(2), &mut others)? {
            Some(number) if is_version::<LEAST, MOST>(number) => Ok(Version { number }),
            _ => Err(pull.refuse(at, Reason::Version, None)),
        }
    }

    fn judge(octets: &[u8], _limits: Limits, _left: u8) -> Option<&[u8]> {
        let (number, rest) = octet_in_der(octets)?;
        if !is_version::<LEAST, MOST>(number) {
            return None;
        }
        Some(rest)
    }
}
