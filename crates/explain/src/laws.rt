//! The laws on what a report shows, and on the octets of a request that were signed.
ghost use Rattle.explain.specs.Received.{ReceivedOfRequests};
ghost use Rattle.explain.specs.ReportLaws.{ReportsShowNothingPrivate};

/// Two documents of which the same may be shown have the same reports, whatever else they have.
pub fn reports_show_nothing_private()
    ensures { ReportsShowNothingPrivate }
{}

/// Of a request there is one part `received`. It is what the part `info` is, the DER encoding of
/// certificationRequestInfo, exactly where it is in DER.
pub fn received_is_info_where_it_is_in_der()
    ensures { ReceivedOfRequests }
{}
