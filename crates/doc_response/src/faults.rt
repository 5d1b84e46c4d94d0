//! Of several faults the first in their order.

ghost use Rattle.std.specs.Prelude.{◌≡◌};
ghost use Rattle.doc_response.specs.Faults.{first_fault, first_of, response_fault};

use crate::ResponseFault;
use cbor_maps::MapFault;

/// The fault of a response whose map has that fault.
pub(crate) fn fault_of(fault: MapFault) -> ResponseFault
    ensures { result ≡ response_fault fault }
{
    match fault {
        MapFault::Doubled(_) => ResponseFault::Doubled,
        MapFault::Field(name) => ResponseFault::Field(name),
    }
}

/// The first of two faults.
pub(crate) fn first_of(fault: ResponseFault, other: ResponseFault) -> ResponseFault
    ensures { result ≡ first_of fault other }
{
    match (fault, other) {
        (ResponseFault::Field(name), _) => ResponseFault::Field(name),
        (ResponseFault::Doubled, ResponseFault::Field(name)) => ResponseFault::Field(name),
        (ResponseFault::Doubled, ResponseFault::Doubled) => ResponseFault::Doubled,
        (ResponseFault::Doubled, ResponseFault::Version) => ResponseFault::Doubled,
        (ResponseFault::Version, ResponseFault::Field(name)) => ResponseFault::Field(name),
        (ResponseFault::Version, ResponseFault::Doubled) => ResponseFault::Doubled,
        (ResponseFault::Version, ResponseFault::Version) => ResponseFault::Version,
    }
}

/// The first of two faults that may be there.
pub(crate) fn first_fault(
    fault: Option<ResponseFault>,
    other: Option<ResponseFault>,
) -> Option<ResponseFault>
    ensures { result ≡ first_fault fault other }
{
    match (fault, other) {
        (None, None) => None,
        (None, Some(other)) => Some(other),
        (Some(fault), None) => Some(fault),
        (Some(fault), Some(other)) => Some(first_of(fault, other)),
    }
}
