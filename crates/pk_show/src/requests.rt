//! Certification requests.
ghost use Rattle.std.specs.Prelude.{◌≡◌, ◌++◌, OnOk, flat_map, map, string_bytes};
ghost use Rattle.asn_lists.specs.Containers.{list_items};
ghost use Rattle.pk_show.specs.Parts.{rdn_items};
ghost use Rattle.pk_show.specs.Shown.{info_lines, item_line, rdn_lines, request_lines, subject_lines};

use crate::attributes::push_attributes;
use crate::keys::{push_algorithm, push_public_key};
use crate::lines::{push_any_line, push_bits_line, push_number_line, push_set};
use crate::shown::Shown;
use asn_lists::list::List;
use pkcs10::info::CertificationRequestInfo;
use pkcs10::request::CertificationRequest;
use pkix_values::name::{Name, NameItem, Rdn};
use std::alloc::{AllocError, Global};
use tlv_core::text::push_oid;

impl Shown for NameItem {
    ghost lines = { item_line };

    #[tactic(auto, unfolding(crate::specs::Shown::item_line))]
    fn push_lines(&self, alloc: Global, text: &mut String) -> Result<(), AllocError> {
        text.push_str("    ")?;
        push_oid(text, self.id())?;
        push_any_line(alloc, text, ": ", self.value())
    }
}

/// The lines of the parts of a name, from the root on.
fn push_rdns(alloc: Global, text: &mut String, rdns: &List<Rdn>) -> Result<(), AllocError>
    ensures { OnOk result (string_bytes text.new ≡ string_bytes text.old
        ++ flat_map rdn_lines (map rdn_items (list_items rdns.now))) }
{
    for i in 0..rdns.len() {
        let Some(rdn) = rdns.get(i) else {
            unreachable!()
        };
        let items = rdn.items();
        push_number_line(text, "  rdn: ", items.len())?;
        push_set(alloc, text, items)?;
    }
    Ok(())
}

/// The lines of the subject.
fn push_subject(alloc: Global, text: &mut String, subject: &Name) -> Result<(), AllocError>
    ensures { OnOk result (string_bytes text.new ≡ string_bytes text.old
        ++ subject_lines subject.now) }
{
    let rdns = subject.rdns();
    push_number_line(text, "subject: ", rdns.len())?;
    push_rdns(alloc, text, rdns)
}

/// The lines of what a signature covers.
#[tactic(auto, unfolding(crate::specs::Shown::info_lines))]
fn push_info(
    alloc: Global,
    text: &mut String,
    info: &CertificationRequestInfo,
) -> Result<(), AllocError>
    ensures { OnOk result (string_bytes text.new ≡ string_bytes text.old
        ++ info_lines info.now) }
{
    push_subject(alloc, text, info.subject())?;
    push_public_key(
        alloc,
        text,
        "key algorithm: ",
        "key parameters: ",
        info.key_info(),
    )?;
    push_attributes(alloc, text, info.attributes())
}

/// The lines of a certification request.
#[tactic(auto, unfolding(crate::specs::Shown::request_lines))]
pub(crate) fn push_request(
    alloc: Global,
    text: &mut String,
    request: &CertificationRequest,
) -> Result<(), AllocError>
    ensures { OnOk result (string_bytes text.new ≡ string_bytes text.old
        ++ request_lines request.now) }
{
    push_info(alloc, text, request.info())?;
    push_algorithm(
        alloc,
        text,
        "signature algorithm: ",
        "signature parameters: ",
        request.signature_algorithm(),
    )?;
    push_bits_line(alloc, text, "signature: ", request.signature())
}
