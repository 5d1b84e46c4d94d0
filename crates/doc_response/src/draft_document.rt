//! A document of a response that is being put together.

use crate::{AnsweredDocument, DeviceAuth};

/// A document of a response that is being put together, with the issuer's signature as it is stored.
#[derive(Drop)]
pub(crate) struct DraftDocument<'a> {
    pub(crate) answered: AnsweredDocument<'a>,
    pub(crate) issuer_auth: &'a [u8],
    pub(crate) auth: DeviceAuth,
}
