//! What stands next in a container.
ghost use Rattle.std.specs.Prelude.{◌≡◌, IfOk, None};
ghost use Rattle.ber_pull.specs.View.{standing, AsksNoMemory, Frame};
ghost use Rattle.asn_fields.specs.Fields.{AnswersAhead, StandsAhead};

use ber_pull::pull::Pull;
use tlv_core::fault::ReadError;
use tlv_core::source::Source;
use tlv_core::tag::Tag;

/// What stands next in a container: an element, with its tag and whether it is constructed, or the end.
#[derive(Clone, Copy)]
pub struct Next {
    /// The place, of an indefinite container's end that of its end-of-contents octets.
    pub at: u64,
    pub tag: Option<(Tag, bool)>,
}

/// What stands after the element that was read, or first in the container that was entered.
#[inline(always)]
pub fn ahead<R: Source>(pull: &mut Pull<'_, R>) -> Result<Next, ReadError>
    requires fine { (standing pull.old).error ≡ None }
    requires used { (standing pull.old).given ≡ None }
    ensures frame { Frame pull.old pull.new result }
    ensures reads { AnswersAhead pull.old pull.new result }
    ensures stands { IfOk result (StandsAhead pull.old pull.new) }
    ensures memory { AsksNoMemory pull.old result }
{
    let at = pull.at();
    let tag = pull.next_tag()?;
    Ok(Next { at, tag })
}
