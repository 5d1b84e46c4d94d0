//! The keys of a store file whose values are numbers, texts and truth values, and the one of an array of four.

ghost use Rattle.doc_store.specs.Faults.{auth_faults, auth_of_issuer, doc_type_faults, key_number, used_faults, version_faults};
ghost use Rattle.mdoc_outside.specs.declared.key_name.KeyName.TheVariants as keys;

use crate::StoreCheck;
use crate::first_fault::Fault;
use crate::form_key::FormKey;
use crate::kind_faults::{boolean, fault, name_limit, other_kind, text, uint};
use crate::limits::{KEY_NUMBERS_END, MOST_AUTH, SIGNATURE_PARTS, VERSION};
use cbor_view::PartialView;
use mdoc_outside::{KeyName, Memory};
use std::alloc::Global;

/// The version, which is 1.
pub(crate) struct Version;

impl FormKey for Version {
    ghost key = { λ _. record { name = keys.Version; value = version_faults } };

    fn name(&self) -> KeyName {
        KeyName::Version
    }

    fn fault_of(&self, _alloc: Global, value: &PartialView<'_>) -> Result<Option<Fault>, Memory> {
        Ok(match uint(value) {
            Some(VERSION) => None,
            Some(_) => Some(fault(StoreCheck::Version, value)),
            None => other_kind(StoreCheck::Field(KeyName::Version), value),
        })
    }
}

/// A document's type, a name.
pub(crate) struct DocType;

impl FormKey for DocType {
    ghost key = { λ _. record { name = keys.DocType; value = doc_type_faults } };

    fn name(&self) -> KeyName {
        KeyName::DocType
    }

    fn fault_of(&self, _alloc: Global, value: &PartialView<'_>) -> Result<Option<Fault>, Memory> {
        Ok(match text(value) {
            Some(name) => name_limit(value, name),
            None => other_kind(StoreCheck::Field(KeyName::DocType), value),
        })
    }
}

/// How a document is authenticated, 0 or 1.
pub(crate) struct Auth;

impl FormKey for Auth {
    ghost key = { λ _. record { name = keys.Auth; value = auth_faults } };

    fn name(&self) -> KeyName {
        KeyName::Auth
    }

    fn fault_of(&self, _alloc: Global, value: &PartialView<'_>) -> Result<Option<Fault>, Memory> {
        let check = StoreCheck::Field(KeyName::Auth);
        Ok(match uint(value) {
            Some(number) if number <= MOST_AUTH => None,
            Some(_) => Some(fault(check, value)),
            None => other_kind(check, value),
        })
    }
}

/// The number of a copy's device key, below 2^32.
pub(crate) struct DeviceKeyNumber;

impl FormKey for DeviceKeyNumber {
    ghost key = { λ _. record { name = keys.Key; value = key_number } };

    fn name(&self) -> KeyName {
        KeyName::Key
    }

    fn fault_of(&self, _alloc: Global, value: &PartialView<'_>) -> Result<Option<Fault>, Memory> {
        let check = StoreCheck::Field(KeyName::Key);
        Ok(match uint(value) {
            Some(number) if number < KEY_NUMBERS_END => None,
            Some(_) => Some(fault(check, value)),
            None => other_kind(check, value),
        })
    }
}

/// Whether a copy was used.
pub(crate) struct Used;

impl FormKey for Used {
    ghost key = { λ _. record { name = keys.Used; value = used_faults } };

    fn name(&self) -> KeyName {
        KeyName::Used
    }

    fn fault_of(&self, _alloc: Global, value: &PartialView<'_>) -> Result<Option<Fault>, Memory> {
        Ok(match boolean(value) {
            Some(_) => None,
            None => other_kind(StoreCheck::Field(KeyName::Used), value),
        })
    }
}

/// The issuer's signature, an array of four (RFC 9052, section 4.2).
pub(crate) struct IssuerAuth;

impl FormKey for IssuerAuth {
    ghost key = { λ _. record { name = keys.IssuerAuth; value = auth_of_issuer } };

    fn name(&self) -> KeyName {
        KeyName::IssuerAuth
    }

    fn fault_of(&self, _alloc: Global, value: &PartialView<'_>) -> Result<Option<Fault>, Memory> {
        let check = StoreCheck::Field(KeyName::IssuerAuth);
        Ok(match value.count() {
            Some(parts) if parts == SIGNATURE_PARTS as u64 => None,
            Some(_) => Some(fault(check, value)),
            None => other_kind(check, value),
        })
    }
}
