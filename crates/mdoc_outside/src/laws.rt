// Laws of the definitions that contracts of cabinets cite.
ghost use Rattle.mdoc_outside.specs.Cabinet.{FindsWritten, KeepsOthers};

/// The file that was written is found with its bytes, and every file of another name as before.
pub fn written_file_is_found()
    ensures written { FindsWritten }
    ensures others { KeepsOthers }
{}
