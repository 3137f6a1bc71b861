//! What can be read, and has one text in DER.
ghost use Rattle.std.specs.Prelude.{◌≡◌, None, Some, IfSome, IsSome, OnOk};
ghost use Rattle.x690.specs.TypeTerms.{TypeTerm, fits_tag};
ghost use Rattle.x690.specs.ReadTypes.{IsClosed};
ghost use Rattle.ber_pull.specs.View.{standing, Repeats, Uses, Frame};
ghost use Rattle.ber_pull.specs.declared.state.Given.{Given};
ghost use Rattle.asn_elements.specs.InDer.{BeginsInDer};
ghost use Rattle.asn_elements.specs.Reading.{AnswersValue, read_given};

use crate::der_text::DerText;
use ber_pull::pull::Pull;
use std::alloc::Global;
use tlv_core::fault::ReadError;
use tlv_core::limits::Limits;
use tlv_core::source::Source;
use tlv_core::tag::Tag;

/// A value of one type.
pub trait Element: DerText {
    /// Its type.
    ghost type_term: { TypeTerm };

    /// Whether a value of the type may begin with this tag.
    fn fits(tag: Tag) -> bool
        ensures { result ≡ fits_tag type_term tag };

    /// Reads the element that `next_tag` has given, as the plain reading of the type does: a value is one that the
    /// octets taken spell, a fault is the first one, and want of memory or a failed read may come in place of any
    /// answer. On an error the reader has failed with it.
    fn read<R: Source>(alloc: Global, pull: &mut Pull<'_, R>) -> Result<Self, ReadError>
        requires { (standing pull.old).error ≡ None → IsSome (standing pull.old).given }
        ensures frame { Frame pull.old pull.new result }
        ensures repeats { Repeats pull.old pull.new result }
        ensures reads { (g : Given) → (standing pull.old).error ≡ None
            → (standing pull.old).given ≡ Some g
            → AnswersValue pull.old pull.new
            (read_given type_term (standing pull.old) g) Self.value result }
        ensures stands { OnOk result (Uses pull.old pull.new) };

    /// What stands after the element that octets begin with, where it is a value's text in DER as it stands, with no
    /// more than `left` containers in each other: no value is made, and no memory taken. `None` says nothing of them.
    fn judge(octets: &[u8], limits: Limits, left: u8) -> Option<&[u8]>
        ensures { IfSome result (λ rest. BeginsInDer limits.depth left type_term octets.now
            rest.now) }
    {
        None
    }

    /// It doesn't look at the earlier fields of a container.
    ghost closed: { IsClosed type_term };
}
