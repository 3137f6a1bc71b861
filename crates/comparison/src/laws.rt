//! Laws on what is shown to differ.
ghost use Rattle.comparison.specs.Differences.{PrivateValuesAreShownTogether, SomeIsShown, WhatIsShownDiffers};

/// What is shown to differ does: two elements that are one field have other octets in the two DER encodings, and one
/// that is shown alone has no counterpart where the comparison is. Where no element is found, the outermost ones are
/// shown.
pub fn what_is_shown_differs()
    ensures { WhatIsShownDiffers }
{}

/// At least one element is shown.
pub fn some_is_shown()
    ensures { SomeIsShown }
{}

/// Of the private values of an attribute none is shown by itself, so that no place says where one is in their order.
pub fn private_values_are_shown_together()
    ensures { PrivateValuesAreShownTogether }
{}
