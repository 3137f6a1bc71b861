// Reading the members of containers.
ghost use Rattle.std.specs.Prelude.{◌≡◌, ◌<◌, ◌^◌, None, Some, IfErr, IfOk, IsSome, OnOk, length, map};
ghost use Rattle.tlv_core.specs.declared.fault.ReadError.TheVariants.{Memory};
ghost use Rattle.x690.specs.DerTexts.{texts_of};
ghost use Rattle.ber_pull.specs.Standing.{failed_with};
ghost use Rattle.ber_pull.specs.View.{standing, source, Repeats, Uses, Frame};
ghost use Rattle.ber_pull.specs.declared.state.Given.{Given};
ghost use Rattle.asn_elements.specs.Reading.{AnswersMembers, read_given_members};

use crate::row::Row;
use asn_elements::der_text::DerText;
use asn_elements::element::Element;
use asn_elements::keep::keep;
use ber_pull::pull::Pull;
use std::alloc::Global;
use tlv_core::fault::ReadError;
use tlv_core::source::Source;

/// The members of the container that is given, and the place where it ends.
pub fn read_members<R: Source, T: Element>(
    alloc: Global,
    pull: &mut Pull<'_, R>,
) -> Result<(Vec<T>, u64), ReadError>
    requires { (standing pull.old).error ≡ None → IsSome (standing pull.old).given }
    ensures frame { Frame pull.old pull.new result }
    ensures repeats { Repeats pull.old pull.new result }
    ensures reads { (g : Given) → (standing pull.old).error ≡ None
        → (standing pull.old).given ≡ Some g
        → AnswersMembers pull.old pull.new (read_given_members T.type_term (standing pull.old) g)
        (λ v. map T.value v.0.items) (λ v. v.1) result }
    ensures short { IfOk result (λ v. length (texts_of (map T.value v.0.items)) < 2 ^ 63) }
    ensures stands { OnOk result (Uses pull.old pull.new) }
{
    pull.enter()?;
    let mut items = Vec::new(alloc);
    let mut at = pull.at();
    while let Some(_next) = pull.next_tag()? {
        let item = T::read(alloc, pull)?;
        keep(pull, &mut items, item)?;
        at = pull.at();
    }
    pull.leave()?;
    Ok((items, at))
}

/// The row of these items; the reader fails where it finds no memory.
pub fn row_of<R: Source, T: DerText>(
    alloc: Global,
    pull: &mut Pull<'_, R>,
    items: Vec<T>,
) -> Result<Row<T>, ReadError>
    requires fine { (standing pull.old).error ≡ None }
    requires short { length (texts_of (map T.value items.items)) < 2 ^ 63 }
    ensures frame { Frame pull.old pull.new result }
    ensures made { IfOk result (λ row. row.items ≡ items) }
    ensures still { OnOk result (pull.new ≡ pull.old) }
    ensures stops { IfErr result (λ e. (e ≡ Memory) × (source pull.new ≡ source pull.old)
        × (standing pull.new ≡ failed_with e (standing pull.old))) }
{
    match Row::new(alloc, items) {
        Ok(row) => Ok(row),
        Err(_) => Err(pull.no_memory()),
    }
}
