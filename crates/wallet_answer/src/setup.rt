//! What a wallet is made with.

use cert_view::Roots;
use consent::Rules;
use doc_store::Store;

/// What a wallet is made with.
#[derive(Clone, Copy)]
pub struct WalletSetup<'a> {
    /// The store.
    pub store: &'a Store<'a>,
    /// Of each document of the store, in its order, the place of the copy that is shown, from 0.
    pub choice: &'a [usize],
    /// The holder's rules.
    pub rules: &'a Rules,
    /// The trusted roots of readers.
    pub readers: &'a Roots,
    /// The size of the fragments that are sent, 20 to 512 bytes.
    pub size: u16,
    /// The moment, in seconds since 1970.
    pub moment: i64,
    /// Whether the engagement is handed over by NFC.
    pub nfc: bool,
    /// The handover request, where there was one.
    pub request: Option<&'a [u8]>,
}
