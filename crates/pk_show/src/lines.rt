//! Lines: a label, what is said, and a line feed.
ghost use Rattle.std.specs.Prelude.{◌≡◌, ◌++◌, OnOk, codes, decimal, flat_map, string_bytes};
ghost use Rattle.std.specs.Option.{option_map};
ghost use Rattle.asn_lists.specs.Containers.{list_items, set_items};
ghost use Rattle.pk_show.specs.Lines.{any_text, bits_said, line, octets_line, optional, parameters_text};
ghost use Rattle.tlv_core.specs.Texts.{oid_text};

use crate::shown::Shown;
use crate::texts::{push_bits, push_hex};
use asn_elements::bits::Bits;
use asn_elements::der_text::{DerText, der_text};
use asn_lists::list::List;
use asn_lists::set_of::SetOf;
use asn_open_values::any::Any;
use std::alloc::{AllocError, Global};
use tlv_core::oid::Oid;
use tlv_core::text::{push_number, push_oid};

/// A line that says a number.
#[tactic(auto, unfolding(crate::specs::Lines::line))]
pub(crate) fn push_number_line(
    text: &mut String,
    label: &str,
    number: usize,
) -> Result<(), AllocError>
    ensures { OnOk result (string_bytes text.new ≡ string_bytes text.old
        ++ line label.now (decimal number)) }
{
    text.push_str(label)?;
    push_number(text, number as u128)?;
    text.push_str("\n")
}

/// A line that says how many octets there are.
#[tactic(auto, unfolding(crate::specs::Lines::octets_line))]
pub(crate) fn push_octets_line(
    text: &mut String,
    label: &str,
    octets: u64,
) -> Result<(), AllocError>
    ensures { OnOk result (string_bytes text.new ≡ string_bytes text.old
        ++ octets_line label.now octets) }
{
    text.push_str(label)?;
    push_number(text, octets as u128)?;
    text.push_str(" octets\n")
}

/// A line that says an object identifier.
#[tactic(auto, unfolding(crate::specs::Lines::line))]
pub(crate) fn push_oid_line(text: &mut String, label: &str, id: &Oid) -> Result<(), AllocError>
    ensures { OnOk result (string_bytes text.new ≡ string_bytes text.old
        ++ line label.now (oid_text id.now)) }
{
    text.push_str(label)?;
    push_oid(text, id)?;
    text.push_str("\n")
}

/// A line that says an object identifier, where there is one.
pub(crate) fn push_optional_oid_line(
    text: &mut String,
    label: &str,
    id: Option<&Oid>,
) -> Result<(), AllocError>
    ensures { OnOk result (string_bytes text.new ≡ string_bytes text.old
        ++ line label.now (optional oid_text (option_map (λ r. r.now) id.entry))) }
{
    match id {
        Some(id) => push_oid_line(text, label, id),
        None => push_absent_line(text, label),
    }
}

/// A line that says bits.
#[tactic(auto, unfolding(crate::specs::Lines::line))]
pub(crate) fn push_bits_line(
    alloc: Global,
    text: &mut String,
    label: &str,
    bits: &Bits,
) -> Result<(), AllocError>
    ensures { OnOk result (string_bytes text.new ≡ string_bytes text.old
        ++ line label.now (bits_said bits.now)) }
{
    text.push_str(label)?;
    push_bits(alloc, text, bits)?;
    text.push_str("\n")
}

/// A line that says bits, where there are some.
pub(crate) fn push_optional_bits_line(
    alloc: Global,
    text: &mut String,
    label: &str,
    bits: Option<&Bits>,
) -> Result<(), AllocError>
    ensures { OnOk result (string_bytes text.new ≡ string_bytes text.old
        ++ line label.now (optional bits_said (option_map (λ r. r.now) bits.entry))) }
{
    match bits {
        Some(bits) => push_bits_line(alloc, text, label, bits),
        None => push_absent_line(text, label),
    }
}

/// A line that says that something is absent.
#[tactic(auto, unfolding(crate::specs::Lines::line))]
pub(crate) fn push_absent_line(text: &mut String, label: &str) -> Result<(), AllocError>
    ensures { OnOk result (string_bytes text.new ≡ string_bytes text.old
        ++ line label.now (codes "absent")) }
{
    text.push_str(label)?;
    text.push_str("absent\n")
}

/// A line that says an open value.
#[tactic(auto, unfolding(crate::specs::Lines::line))]
pub(crate) fn push_any_line(
    alloc: Global,
    text: &mut String,
    label: &str,
    value: &Any,
) -> Result<(), AllocError>
    ensures { OnOk result (string_bytes text.new ≡ string_bytes text.old
        ++ line label.now (any_text value.now)) }
{
    text.push_str(label)?;
    let octets = der_text(alloc, value)?;
    push_hex(alloc, text, &octets)?;
    text.push_str("\n")
}

/// A line that says the parameters of an algorithm.
#[tactic(auto, unfolding(crate::specs::Lines::line))]
pub(crate) fn push_parameters_line(
    alloc: Global,
    text: &mut String,
    label: &str,
    parameters: Option<&Any>,
) -> Result<(), AllocError>
    ensures { OnOk result (string_bytes text.new ≡ string_bytes text.old
        ++ line label.now (parameters_text (option_map (λ r. r.now) parameters.entry))) }
{
    match parameters {
        Some(parameters) => push_any_line(alloc, text, label, parameters),
        None => {
            text.push_str(label)?;
            text.push_str("none\n")
        }
    }
}

/// The lines of the members of a SET OF, in the order of their texts.
pub(crate) fn push_set<T: DerText + Shown>(
    alloc: Global,
    text: &mut String,
    set: &SetOf<T>,
) -> Result<(), AllocError>
    ensures { OnOk result (string_bytes text.new ≡ string_bytes text.old
        ++ flat_map T.Shown.lines (set_items set.now)) }
{
    for i in 0..set.len() {
        let Some(member) = set.get(i) else {
            unreachable!()
        };
        member.push_lines(alloc, text)?;
    }
    Ok(())
}

/// The lines of the members of a list, in order.
pub(crate) fn push_list<T: DerText + Shown>(
    alloc: Global,
    text: &mut String,
    list: &List<T>,
) -> Result<(), AllocError>
    ensures { OnOk result (string_bytes text.new ≡ string_bytes text.old
        ++ flat_map T.Shown.lines (list_items list.now)) }
{
    for i in 0..list.len() {
        let Some(member) = list.get(i) else {
            unreachable!()
        };
        member.push_lines(alloc, text)?;
    }
    Ok(())
}
