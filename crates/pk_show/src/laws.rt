//! The law on what the text of a document tells of private octets.
ghost use Rattle.pk_show.specs.PublicFields.{TellsNoPrivateOctets};

/// Two documents that are equal in their public fields have the same text, where of each private field one has as many
/// octets as the other.
pub fn show_tells_no_private_octets()
    ensures { TellsNoPrivateOctets }
{}
