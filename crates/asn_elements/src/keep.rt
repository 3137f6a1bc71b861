// Items that are kept while a reader goes on.
ghost use Rattle.std.specs.Prelude.{◌≡◌, ◌++◌, ◌∷◌, [], None, IfErr, OnOk};
ghost use Rattle.tlv_core.specs.declared.fault.ReadError.TheVariants.{Memory};
ghost use Rattle.ber_pull.specs.Standing.{failed_with};
ghost use Rattle.ber_pull.specs.View.{standing, source, Frame};

use ber_pull::pull::Pull;
use tlv_core::fault::ReadError;
use tlv_core::source::Source;

/// One more item after the others; the reader fails where it finds no memory.
pub fn keep<R: Source, T: Drop>(
    pull: &mut Pull<'_, R>,
    items: &mut Vec<T>,
    item: T,
) -> Result<(), ReadError>
    requires { (standing pull.old).error ≡ None }
    ensures frame { Frame pull.old pull.new result }
    ensures kept { OnOk result (items.new.items ≡ items.old.items ++ item ∷ []) }
    ensures still { OnOk result (pull.new ≡ pull.old) }
    ensures unchanged { IfErr result (λ _. items.new.items ≡ items.old.items) }
    ensures stops { IfErr result (λ e. (e ≡ Memory) × (source pull.new ≡ source pull.old)
        × (standing pull.new ≡ failed_with e (standing pull.old))) }
{
    // (the first one gets room for itself alone: most containers have one member)
    if items.is_empty() && items.reserve_exact(1).is_err() {
        return Err(pull.no_memory());
    }
    match items.push(item) {
        Ok(()) => Ok(()),
        Err(_) => Err(pull.no_memory()),
    }
}
