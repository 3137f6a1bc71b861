//! CurvePrivateKey of RFC 8410 section 7.
ghost use Rattle.std.specs.Prelude.{◌≡◌};
ghost use Rattle.x690.specs.Contents.{OctetString};
ghost use Rattle.x690.specs.Layouts.{universal};
ghost use Rattle.x690.specs.UniversalTypes.{octet_string};
ghost use Rattle.x690_laws.proofs.TypesClosed.{leaf_closed};

use asn_elements::der_text::DerText;
use asn_elements::element::Element;
use asn_elements::octets::Octets;
use ber_pull::pull::Pull;
use std::alloc::Global;
use tlv_core::fault::ReadError;
use tlv_core::limits::Limits;
use tlv_core::sink::{Sink, WriteError};
use tlv_core::source::Source;
use tlv_core::tag::Tag;
use tlv_core::target::Target;

/// A private key of X25519, X448, Ed25519 or Ed448. Its length goes by the algorithm, which stands in its container.
#[derive(Drop)]
pub struct CurveKey(Octets);

impl CurveKey {
    ghost use Rattle.private_keys.specs.CurveKeys.{curve_key_of};

    /// The private key.
    pub fn key(&self) -> &Octets
        ensures { result.now ≡ curve_key_of self.now }
    {
        &self.0
    }
}

impl DerText for CurveKey {
    ghost use Rattle.private_keys.specs.CurveKeys.{curve_key_of};

    ghost value = { λ x. ⟦<Octets as DerText>⟧.value (curve_key_of x) };

    ghost one_text = { λ x y. ⟦<Octets as DerText>⟧.one_text (curve_key_of x) (curve_key_of y) };

    fn size(&self) -> u64 {
        self.0.size()
    }

    fn put<W: Target>(&self, sink: &mut Sink<'_, W>) -> Result<(), WriteError> {
        self.0.put(sink)
    }

    fn octet(&self, i: u64) -> Option<u8> {
        self.0.octet(i)
    }
}

impl Element for CurveKey {
    ghost type_term = { octet_string };

    ghost closed = { leaf_closed (universal 4) OctetString };

    fn fits(tag: Tag) -> bool {
        Octets::fits(tag)
    }

    fn read<R: Source>(alloc: Global, pull: &mut Pull<'_, R>) -> Result<CurveKey, ReadError> {
        Ok(CurveKey(Octets::read(alloc, pull)?))
    }

    fn judge(octets: &[u8], limits: Limits, left: u8) -> Option<&[u8]> {
        let rest = Octets::judge(octets, limits, left)?;
        Some(rest)
    }
}
