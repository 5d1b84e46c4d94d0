//! Laws of the definitions that the crate's contracts cite.

ghost use Rattle.engagement.specs.Uri.{OneUri, ReadsBack};
ghost use Rattle.engagement.specs.WrittenEngagement.{WrittenIsRead};

/// A text is that of one engagement's bytes alone.
pub fn uri_is_of_one_engagement()
    ensures { OneUri }
{}

/// The text of bytes is read as these bytes.
pub fn uri_is_read_back()
    ensures { ReadsBack }
{}

/// What is written of a point is read as the point.
pub fn written_engagement_is_read()
    ensures { WrittenIsRead }
{}
