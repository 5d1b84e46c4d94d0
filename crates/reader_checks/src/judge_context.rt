//! What a response is judged by.

use doc_request::RequestDraft;
use issuer_checks::TrustedRoots;

/// What both ends know of a session.
#[derive(Clone, Copy)]
pub struct SessionBinding<'a> {
    /// The bytes of SessionTranscript (ISO/IEC 18013-5, 9.1.5.1).
    pub transcript: &'a [u8],
    /// The number of the reader's ephemeral key.
    pub key: u32,
}

/// What a response is judged by.
#[derive(Clone, Copy)]
pub struct JudgeContext<'a> {
    /// The request that it answers.
    pub request: &'a RequestDraft,
    /// The session.
    pub session: SessionBinding<'a>,
    /// The trusted roots and the moment of the judgement.
    pub trust: TrustedRoots<'a>,
}
