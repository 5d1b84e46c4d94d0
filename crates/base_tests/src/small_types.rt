//! Small types, each made and read once.

use mdoc_outside::{
    KeyName, LimitName, Octets, Rows, Word, types_are_send_and_sync, written_file_is_found,
};
use std::alloc::Global;
use std::process::Abort;

fn octets_are_kept(alloc: Global) -> Option<bool> {
    let copy = Octets::copy_of(alloc, b"ab").ok()?;
    let moved = Octets::from_vec(vec![in alloc; 1, 2].ok()?);
    Some(copy.as_slice() == b"ab".as_slice() && moved.as_slice() == [1, 2].as_slice())
}

fn rows_are_kept(alloc: Global) -> Option<bool> {
    let rows = Rows::from_vec(vec![in alloc; 7u64, 8].ok()?);
    let are_read = rows.as_slice() == [7, 8].as_slice();
    let list = rows.into_vec();
    Some(are_read && list.as_slice() == [7, 8].as_slice())
}

fn words_are_kept(alloc: Global) -> Option<bool> {
    Some(Word::copy_of(alloc, "--store").ok()?.as_str() == "--store")
}

#[test]
fn small_types_keep_what_they_are_given(rt: HostRuntime) {
    assert!(rt; octets_are_kept(rt.alloc()) == Some(true));
    assert!(rt; rows_are_kept(rt.alloc()) == Some(true));
    assert!(rt; words_are_kept(rt.alloc()) == Some(true));
    assert!(rt; LimitName::ScheduleLines.text() == "ScheduleLines");
    assert!(rt; KeyName::DigestId.text() == "digestID");
    assert!(rt; KeyName::EReaderKey.text() == "eReaderKey");
    types_are_send_and_sync::<u8>();
    written_file_is_found();
}
