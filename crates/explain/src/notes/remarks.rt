//! A remark, where something is so.
ghost use Rattle.std.specs.Prelude.{◌≡◌};
ghost use Rattle.explain.specs.Remarks.{remark_if};
ghost use Rattle.x690.specs.Lists.{same_octets};

use reports::report::Remark;

pub(crate) fn remark_if(said: bool, remark: Remark) -> Option<Remark>
    ensures { result ≡ remark_if said remark }
{
    if said { Some(remark) } else { None }
}

/// Whether a name is this word.
pub(crate) fn is_name(name: &str, word: &str) -> bool
    ensures { result ≡ same_octets name.now word.now }
{
    name == word
}
