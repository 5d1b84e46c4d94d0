// The reader of an engagement file.

ghost use Rattle.std.specs.Prelude.{IfOk, MatchOption};
ghost use Rattle.mdoc_outside.specs.FileLine.{line};
ghost use Rattle.mdoc_outside.specs.Lines.{words};
ghost use Rattle.engagement.specs.EngagementFile.{IsEngagementText, IsTextOfNone, ReadsEngagementFile, Says, SaysNothing};

use crate::engagement::Engagement;
use crate::engagement_file_fault::EngagementFileFault;
use crate::uri::from_uri;
use crate::uri_fault::UriFault;
use mdoc_outside::{FileLine, Memory, Octets, line_count, lines_of};
use std::alloc::Global;

/// An engagement that was handed to the reader by a file.
#[derive(Drop)]
pub struct EngagementFile {
    /// The bytes of the engagement, as the wallet showed them.
    pub engagement: Octets,
}

/// The engagement in a line file with the one line `qr TEXT`, TEXT being the text of the QR code of an
/// engagement (ISO/IEC 18013-5, 8.2.2.3). Of another file the first line that breaks this form, from 1:
/// its first line where that says no such thing, else the second; of a file without a line its last line,
/// or 1.
pub fn read_engagement(alloc: Global, text: &[u8]) -> Result<EngagementFile, EngagementFileFault>
    ensures { ReadsEngagementFile text.now result }
{
    let mut lines = lines_of(text);
    let Some(first) = lines.next() else {
        return Err(EngagementFileFault::Line(line_count(text).max(1)));
    };
    let Some(engagement) = engagement_in(alloc, first)? else {
        return Err(EngagementFileFault::Line(first.number()));
    };
    match lines.next() {
        Some(second) => Err(EngagementFileFault::Line(second.number())),
        None => Ok(EngagementFile { engagement }),
    }
}

/// The bytes of the engagement that a line says.
fn engagement_in(alloc: Global, file_line: FileLine<'_>) -> Result<Option<Octets>, Memory>
    ensures { IfOk result (λ found. MatchOption found (SaysNothing (words (line file_line.entry).bytes)) (λ bytes. Says (words (line file_line.entry).bytes) bytes)) }
{
    let mut words = file_line.words();
    match (words.next(), words.next(), words.next()) {
        (Some(b"qr"), Some(text), None) => engagement_of(alloc, text),
        _ => Ok(None),
    }
}

/// The bytes of the engagement whose text this is.
fn engagement_of(alloc: Global, text: &[u8]) -> Result<Option<Octets>, Memory>
    ensures { IfOk result (λ found. MatchOption found (IsTextOfNone text.now) (λ bytes. IsEngagementText text.now bytes)) }
{
    let bytes = match from_uri(alloc, text) {
        Ok(bytes) => bytes,
        Err(UriFault::Prefix | UriFault::Base64) => return Ok(None),
        Err(UriFault::Memory) => return Err(Memory),
    };
    match Engagement::read(bytes.as_slice()) {
        Ok(_) => Ok(Some(bytes)),
        Err(_) => Ok(None),
    }
}
