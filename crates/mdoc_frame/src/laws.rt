// What holds of the definitions alone.
ghost use Rattle.mdoc_frame.specs.WordCases.{OptionalPairs, OtherSizes, SizesInRange};

/// The laws of worked cases: numbers in and outside a range and their form, and pairs that needn't be there.
pub fn words_in_form()
    ensures sizes { SizesInRange }
    ensures other_sizes { OtherSizes }
    ensures optional_pairs { OptionalPairs }
{}
