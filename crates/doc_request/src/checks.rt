//! The checks of a request in their order.

ghost use Rattle.std.specs.Prelude.{◌≡◌};
ghost use Rattle.mdoc_outside.specs.OptionSteps.{unless};
ghost use Rattle.doc_request.specs.Checks.{rank, earlier, of_field};

use crate::RequestFault;
use cbor_maps::MapFault;

/// The place of a check in their order.
fn rank(fault: &RequestFault) -> u8
    ensures { result ≡ rank fault.now }
{
    match fault {
        RequestFault::Field(_) => 0,
        RequestFault::Doubled => 1,
        RequestFault::Version => 2,
        RequestFault::Inner(_) => 3,
        RequestFault::Count => 4,
    }
}

/// The fault whose check comes first, and of one check the first.
pub(crate) fn earlier(
    fault: Option<RequestFault>,
    other: Option<RequestFault>,
) -> Option<RequestFault>
    ensures { result ≡ earlier fault other }
{
    match (fault, other) {
        (Some(fault), Some(other)) if rank(&fault) <= rank(&other) => Some(fault),
        (Some(_), Some(other)) => Some(other),
        (Some(fault), None) => Some(fault),
        (None, other) => other,
    }
}

/// A fault where a test fails.
pub(crate) fn unless(holds: bool, fault: RequestFault) -> Option<RequestFault>
    ensures { result ≡ unless holds fault }
{
    if holds { None } else { Some(fault) }
}

/// What is wrong with a field of a map.
pub(crate) fn of_field<T>(field: &Result<T, MapFault>) -> Option<RequestFault>
    ensures { result ≡ of_field field.now }
{
    match field {
        Ok(_) => None,
        Err(MapFault::Field(name)) => Some(RequestFault::Field(*name)),
        Err(MapFault::Doubled(_)) => Some(RequestFault::Doubled),
    }
}
