//! Numbers and object identifiers in text.
ghost use Rattle.std.specs.Prelude.{◌≡◌, ◌++◌, OnOk, codes, decimal, string_bytes};
ghost use Rattle.tlv_core.specs.Texts.{ArcsAreTold, oid_text};

use crate::oid::Oid;
use itoa::Buffer;
use std::alloc::AllocError;

/// Puts a number in decimal digits after the text.
pub fn push_number(text: &mut String, number: u128) -> Result<(), AllocError>
    ensures { OnOk result (string_bytes text.new ≡ string_bytes text.old ++ decimal number) }
{
    let mut buffer = Buffer::new();
    text.push_str(buffer.format(number))
}

/// Puts the arcs of an object identifier after the text, a full stop between each two.
pub fn push_oid(text: &mut String, id: &Oid) -> Result<(), AllocError>
    ensures { OnOk result (string_bytes text.new ≡ string_bytes text.old ++ oid_text id.now) }
{
    let (first, second, mut later) = id.arcs();
    push_number(text, first)?;
    push_arc(text, second)?;
    while let Some(arc) = later.next() {
        push_arc(text, arc)?;
    }
    Ok(())
}

/// A full stop and an arc.
fn push_arc(text: &mut String, arc: u128) -> Result<(), AllocError>
    ensures { OnOk result (string_bytes text.new ≡ string_bytes text.old
        ++ (codes "." ++ decimal arc)) }
{
    text.push_str(".")?;
    push_number(text, arc)
}

/// The text of an object identifier is that of its arcs.
pub fn arcs_are_told()
    ensures { ArcsAreTold }
{}
