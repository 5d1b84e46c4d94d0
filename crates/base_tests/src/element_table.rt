//! Names without a row, and dates and moments against values from outside (Python's
//! `datetime`, and `date -u` for the year 0).

use cbor_view::View;
use mdl_table::{RowFault, fits, moment_of, row_of, text_of};
use std::alloc::Global;
use std::test::*;

/// What a value is for the row of a name; nothing where the bytes are no item.
fn fit_of(name: &str, value: &[u8]) -> Option<Result<(), RowFault>> {
    let view = View::read(value).ok()?;
    Some(fits(name, view))
}

/// Names without a row, of which every value fits.
#[test]
fn other_names_have_no_row(rt: HostRuntime) {
    for name in [
        "",
        "age_over_",
        "age_over_1",
        "age_over_1a",
        "age_over_180",
        "Age_over_18",
        "Family_name",
        "family_name ",
        "family_nam",
        "document_type",
    ] {
        assert!(rt; row_of(name) == None, "{name}");
        assert!(rt; fit_of(name, b"\xf6") == Some(Ok(())), "{name}");
    }
}

/// A text of a length in characters of two bytes each, as CBOR.
fn umlauts(alloc: Global, count: u8) -> Result<Vec<u8>, Fail> {
    let mut value = b"\x79".to_vec(alloc)?;
    value.extend_from_slice(&(2 * u16::from(count)).to_be_bytes())?;
    for _ in 0..count {
        value.extend_from_slice(b"\xc3\xbc")?;
    }
    Ok(value)
}

#[test]
fn texts_are_measured_in_characters(rt: HostRuntime) -> Result<(), Fail> {
    for (count, wanted) in [(1, Ok(())), (150, Ok(())), (151, Err(RowFault::RangeWrong))] {
        let value = umlauts(rt.alloc(), count)?;
        assert!(rt; fit_of("family_name", &value) == Some(wanted), "{count}");
    }
    Ok(())
}

/// Moments with their texts.
const MOMENTS_OF_TEXTS: [(&str, i64); 20] = [
    ("0000-01-01T00:00:00Z", -62_167_219_200),
    ("0000-02-29T00:00:00Z", -62_162_121_600),
    ("0000-12-31T23:59:59Z", -62_135_596_801),
    ("0001-01-01T00:00:00Z", -62_135_596_800),
    ("0004-02-29T00:00:00Z", -62_035_891_200),
    ("1582-10-15T00:00:00Z", -12_219_292_800),
    ("1900-02-28T23:59:59Z", -2_203_891_201),
    ("1900-03-01T00:00:00Z", -2_203_891_200),
    ("1969-12-31T23:59:59Z", -1),
    ("1970-01-01T00:00:00Z", 0),
    ("1972-02-29T12:00:00Z", 68_212_800),
    ("2000-02-29T00:00:00Z", 951_782_400),
    ("2016-12-31T23:59:59Z", 1_483_228_799),
    ("2024-01-01T00:00:00Z", 1_704_067_200),
    ("2024-02-29T00:00:00Z", 1_709_164_800),
    ("2024-12-31T23:59:59Z", 1_735_689_599),
    ("2038-01-19T03:14:08Z", 2_147_483_648),
    ("2100-02-28T00:00:00Z", 4_107_456_000),
    ("2100-03-01T00:00:00Z", 4_107_542_400),
    ("9999-12-31T23:59:59Z", 253_402_300_799),
];

/// Whether a moment is written as that text.
fn is_written(moment: i64, text: &str) -> bool {
    match text_of(moment) {
        Some(written) => written.as_slice() == text.as_bytes(),
        None => false,
    }
}

#[test]
fn moments_have_their_texts(rt: HostRuntime) {
    for (text, moment) in &MOMENTS_OF_TEXTS {
        assert!(rt; moment_of(text) == Some(*moment), "{text}");
        assert!(rt; is_written(*moment, text), "{text}");
    }
    for moment in [i64::MIN, -62_167_219_201, 253_402_300_800, i64::MAX] {
        assert!(rt; text_of(moment).is_none(), "{moment}");
    }
}

#[test]
fn other_texts_are_no_moments(rt: HostRuntime) {
    for text in [
        "",
        "2023-02-29T00:00:00Z",
        "1900-02-29T00:00:00Z",
        "2100-02-29T00:00:00Z",
        "2024-02-30T00:00:00Z",
        "2024-04-31T00:00:00Z",
        "2024-00-01T00:00:00Z",
        "2024-13-01T00:00:00Z",
        "2024-01-00T00:00:00Z",
        "2024-01-32T00:00:00Z",
        "2024-01-01T24:00:00Z",
        "2024-01-01T00:60:00Z",
        "2016-12-31T23:59:60Z",
        "2024-02-29T00:00:00+00:00",
        "2024-02-29T00:00:00",
        "2024-02-29T00:00:00z",
        "2024-02-29t00:00:00Z",
        "2024-02-29 00:00:00Z",
        "2024-02-29T00:00:00.0Z",
        "2024-02-29T00:00Z",
        "2024-02-29",
        "2024-2-29T00:00:00ZZ",
        "+024-02-29T00:00:00Z",
        "-001-01-01T00:00:00Z",
        "10000-01-01T00:00:00Z",
        " 2024-02-29T00:00:00Z",
        "2024-02-29T00:00:00Z ",
        "2024-02-2\u{0669}T00:00:00",
    ] {
        assert!(rt; moment_of(text) == None, "{text}");
    }
}
