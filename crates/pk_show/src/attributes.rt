//! Attributes of keys and of certification requests.
ghost use Rattle.std.specs.Prelude.{◌≡◌, ◌++◌, ◌∷◌, [], OnOk, codes, cond, false, flat_map, length, map, string_bytes};
ghost use Rattle.std.specs.Option.{option_map};
ghost use Rattle.asn_lists.specs.Containers.{list_items, set_items};
ghost use Rattle.pkix_definitions.specs.Identifiers.{extension_request};
ghost use Rattle.pkix_values.specs.RequestAttributes.{request_attribute_type_of};
ghost use Rattle.pk_show.specs.Shown.{attribute_line, attribute_lines, attributes_lines, extension_line};
ghost use Rattle.pk_show.specs.Shown.{extensions_lines, request_attribute_lines, value_line};
ghost use Rattle.x690.specs.Lists.{one_of};

use crate::lines::{push_absent_line, push_any_line, push_list, push_number_line, push_set};
use crate::shown::Shown;
use crate::texts::push_hex;
use asn_elements::der_text::DerText;
use asn_lists::list::List;
use asn_lists::set_of::SetOf;
use asn_open_values::any::Any;
use pkix_values::attribute::Attribute;
use pkix_values::extension::Extension;
use pkix_values::request_attribute::RequestAttribute;
use std::alloc::{AllocError, Global};
use tlv_core::oid::Oid;
use tlv_core::text::{push_number, push_oid};

/// An open value is shown as a value of an attribute.
impl Shown for Any {
    ghost lines = { value_line };

    #[tactic(auto, unfolding(crate::specs::Shown::value_line))]
    fn push_lines(&self, alloc: Global, text: &mut String) -> Result<(), AllocError> {
        push_any_line(alloc, text, "  value ", self)
    }
}

impl Shown for Attribute {
    ghost lines = { attribute_lines };

    #[tactic(auto, unfolding(crate::specs::Shown::attribute_lines))]
    fn push_lines(&self, alloc: Global, text: &mut String) -> Result<(), AllocError> {
        push_values(alloc, text, self.id(), self.values())
    }
}

impl Shown for RequestAttribute {
    ghost lines = { request_attribute_lines };

    fn push_lines(&self, alloc: Global, text: &mut String) -> Result<(), AllocError> {
        match self.extensions() {
            Some(lists) => push_lists(alloc, text, self.id(), lists),
            None => push_plain(alloc, text, self),
        }
    }
}

impl Shown for Extension {
    ghost lines = { extension_line };

    #[tactic(auto, unfolding(crate::specs::Shown::extension_line, crate::specs::Lines::line))]
    fn push_lines(&self, alloc: Global, text: &mut String) -> Result<(), AllocError> {
        text.push_str("    ")?;
        push_oid(text, self.id())?;
        text.push_str(mark_of(self.critical()))?;
        push_hex(alloc, text, self.value().octets())?;
        text.push_str("\n")
    }
}

/// What stands between an extension's identifier and what it says.
fn mark_of(critical: bool) -> &'static str
    ensures { result.now ≡ cond critical (codes ", critical: ") (codes ": ") }
{
    if critical { ", critical: " } else { ": " }
}

/// The line that an attribute begins with: its type, and how many values it has.
#[tactic(auto, unfolding(crate::specs::Shown::attribute_line, crate::specs::Lines::line))]
fn push_attribute_line(text: &mut String, id: &Oid, values: usize) -> Result<(), AllocError>
    ensures { OnOk result (string_bytes text.new ≡ string_bytes text.old
        ++ attribute_line id.now values) }
{
    text.push_str("attribute ")?;
    push_oid(text, id)?;
    text.push_str(": ")?;
    push_number(text, values as u128)?;
    text.push_str("\n")
}

/// The lines of an attribute of a certification request that isn't an extensionRequest.
fn push_plain(
    alloc: Global,
    text: &mut String,
    attribute: &RequestAttribute,
) -> Result<(), AllocError>
    requires { one_of (request_attribute_type_of attribute.now.fields) (extension_request ∷ []) ≡ false }
    ensures { OnOk result (string_bytes text.new ≡ string_bytes text.old
        ++ request_attribute_lines attribute.now) }
{
    let Some(values) = attribute.plain() else {
        unreachable!()
    };
    push_values(alloc, text, attribute.id(), values)
}

/// The lines of an attribute of this type by its values.
fn push_values(
    alloc: Global,
    text: &mut String,
    id: &Oid,
    values: &SetOf<Any>,
) -> Result<(), AllocError>
    ensures { OnOk result (string_bytes text.new ≡ string_bytes text.old
        ++ (attribute_line id.now (length (set_items values.now))
        ++ flat_map value_line (set_items values.now))) }
{
    push_attribute_line(text, id, values.len())?;
    push_set(alloc, text, values)
}

/// The lines of an attribute of this type by its values, which are lists of extensions.
fn push_lists(
    alloc: Global,
    text: &mut String,
    id: &Oid,
    lists: &SetOf<List<Extension>>,
) -> Result<(), AllocError>
    ensures { OnOk result (string_bytes text.new ≡ string_bytes text.old
        ++ (attribute_line id.now (length (set_items lists.now))
        ++ flat_map extensions_lines (map list_items (set_items lists.now)))) }
{
    push_attribute_line(text, id, lists.len())?;
    push_extension_lists(alloc, text, lists)
}

/// The lines of the values of extensionRequest (RFC 2985 section 5.4.2), in the order of their texts.
fn push_extension_lists(
    alloc: Global,
    text: &mut String,
    lists: &SetOf<List<Extension>>,
) -> Result<(), AllocError>
    ensures { OnOk result (string_bytes text.new ≡ string_bytes text.old
        ++ flat_map extensions_lines (map list_items (set_items lists.now))) }
{
    for i in 0..lists.len() {
        let Some(extensions) = lists.get(i) else {
            unreachable!()
        };
        push_number_line(text, "  extensions: ", extensions.len())?;
        push_list(alloc, text, extensions)?;
    }
    Ok(())
}

/// The lines of attributes, in the order of their texts.
#[tactic(auto, unfolding(crate::specs::Shown::attributes_lines))]
pub(crate) fn push_attributes<T: DerText + Shown>(
    alloc: Global,
    text: &mut String,
    attributes: Option<&SetOf<T>>,
) -> Result<(), AllocError>
    ensures { OnOk result (string_bytes text.new ≡ string_bytes text.old
        ++ attributes_lines T.Shown.lines
        (option_map (λ set. set_items set) (option_map (λ r. r.now) attributes.entry))) }
{
    let Some(attributes) = attributes else {
        return push_absent_line(text, "attributes: ");
    };
    push_number_line(text, "attributes: ", attributes.len())?;
    push_set(alloc, text, attributes)
}
