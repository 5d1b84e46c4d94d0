// The text keys of maps.
ghost use Rattle.std.specs.Prelude.{◌≡◌};

/// A text key of the maps of ISO/IEC 18013-5 (request and response: 8.3.2.1.2, session: 9.1.1.4,
/// security object: 9.1.2.4) and of this project's store file.
#[derive(Clone, Copy, Debug, PartialEq, Eq)]
pub enum KeyName {
    DigestId,
    Random,
    ElementIdentifier,
    ElementValue,
    Version,
    DigestAlgorithm,
    ValueDigests,
    DeviceKeyInfo,
    DeviceKey,
    DocType,
    ValidityInfo,
    Signed,
    ValidFrom,
    ValidUntil,
    ExpectedUpdate,
    DocRequests,
    ItemsRequest,
    ReaderAuth,
    NameSpaces,
    RequestInfo,
    Documents,
    DocumentErrors,
    Status,
    IssuerSigned,
    DeviceSigned,
    Errors,
    IssuerAuth,
    DeviceAuth,
    DeviceSignature,
    DeviceMac,
    EReaderKey,
    Data,
    Auth,
    Copies,
    Key,
    Used,
}

impl KeyName {
    ghost use Rattle.mdoc_outside.specs.KeyName.{key_text};

    /// The key's text, as it stands in the map.
    pub fn text(&self) -> &'static str
        ensures { result.now ≡ key_text self.now }
    {
        match self {
            KeyName::DigestId => "digestID",
            KeyName::Random => "random",
            KeyName::ElementIdentifier => "elementIdentifier",
            KeyName::ElementValue => "elementValue",
            KeyName::Version => "version",
            KeyName::DigestAlgorithm => "digestAlgorithm",
            KeyName::ValueDigests => "valueDigests",
            KeyName::DeviceKeyInfo => "deviceKeyInfo",
            KeyName::DeviceKey => "deviceKey",
            KeyName::DocType => "docType",
            KeyName::ValidityInfo => "validityInfo",
            KeyName::Signed => "signed",
            KeyName::ValidFrom => "validFrom",
            KeyName::ValidUntil => "validUntil",
            KeyName::ExpectedUpdate => "expectedUpdate",
            KeyName::DocRequests => "docRequests",
            KeyName::ItemsRequest => "itemsRequest",
            KeyName::ReaderAuth => "readerAuth",
            KeyName::NameSpaces => "nameSpaces",
            KeyName::RequestInfo => "requestInfo",
            KeyName::Documents => "documents",
            KeyName::DocumentErrors => "documentErrors",
            KeyName::Status => "status",
            KeyName::IssuerSigned => "issuerSigned",
            KeyName::DeviceSigned => "deviceSigned",
            KeyName::Errors => "errors",
            KeyName::IssuerAuth => "issuerAuth",
            KeyName::DeviceAuth => "deviceAuth",
            KeyName::DeviceSignature => "deviceSignature",
            KeyName::DeviceMac => "deviceMac",
            KeyName::EReaderKey => "eReaderKey",
            KeyName::Data => "data",
            KeyName::Auth => "auth",
            KeyName::Copies => "copies",
            KeyName::Key => "key",
            KeyName::Used => "used",
        }
    }
}
