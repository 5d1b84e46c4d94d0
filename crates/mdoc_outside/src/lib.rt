//! The outside of the mobile driving licence, as the crates above see it: a cabinet of named
//! files and a sink of bytes, each a trait with forms in memory and a real form, beside the small
//! types that contracts see as lists. Its one contract: an object that tells gains exactly the call that was made,
//! and a fault of the outside is answered only where that object's count of faults rose in that very call.
#![tactic(auto)]

mod cabinet;
mod cabinet_call;
mod cabinet_fault;
mod cabinet_log;
mod call_plan;
mod count_dice;
mod dealt;
mod decimals;
mod dice;
mod dice_fault;
mod dice_laws;
mod end;
mod file_line;
mod file_lines;
mod folder_cabinet;
mod fragment;
mod key_name;
mod laws;
mod limit_name;
mod limits;
mod line_file;
mod lines;
mod list_dice;
mod memory;
mod memory_cabinet;
mod memory_sink;
mod octets;
mod os_dice;
mod out_sink;
mod rows;
mod sharing;
mod sink;
mod sink_call;
mod sink_fault;
mod sink_log;
mod sure_cabinet;
mod sure_sink;
mod word;
mod word_form;
mod words;

pub use cabinet::Cabinet;
pub use cabinet_call::CabinetCall;
pub use cabinet_fault::CabinetFault;
pub use count_dice::CountDice;
pub use dealt::Dealt;
pub use decimals::decimal_number;
pub use dice::Dice;
pub use dice_fault::DiceFault;
pub use dice_laws::words_gained_were_dealt;
pub use end::End;
pub use file_line::FileLine;
pub use file_lines::FileLines;
pub use folder_cabinet::FolderCabinet;
pub use fragment::Fragment;
pub use key_name::KeyName;
pub use laws::written_file_is_found;
pub use limit_name::LimitName;
pub use limits::{
    MOST_CERTIFICATE_BYTES, MOST_COPIES, MOST_DOCUMENTS, MOST_FILE_BYTES, MOST_FRAGMENTS,
    MOST_ITEMS, MOST_MESSAGE_BYTES, MOST_NAME_BYTES, MOST_NAMESPACES, MOST_ROOTS, MOST_VALUE_BYTES,
    MOST_WISHES, MOST_WISHES_OF_DOCUMENT,
};
pub use line_file::lines_of;
pub use lines::line_count;
pub use list_dice::ListDice;
pub use memory::Memory;
pub use memory_cabinet::MemoryCabinet;
pub use memory_sink::MemorySink;
pub use octets::Octets;
pub use os_dice::OsDice;
pub use out_sink::OutSink;
pub use rows::Rows;
pub use sharing::{is_send, is_sync, types_are_send_and_sync};
pub use sink::Sink;
pub use sink_call::SinkCall;
pub use sink_fault::SinkFault;
pub use sure_cabinet::SureCabinet;
pub use sure_sink::SureSink;
pub use word::Word;
pub use word_form::{is_name, is_word};
pub use words::Words;
