//! The words and lines of texts, read and printed.
#![tactic(auto)]

mod auditing;
mod dividing;
mod event;
mod history;
mod op;
mod print;
mod rack;
mod recording;
mod spelling;
mod taking;
mod text;
mod words;

pub use auditing::{AuditEntry, audit_entry_of, no_foreign_text, no_other_text, yes_text};
pub use dividing::{
    RacksEvent, RacksLine, line_in_rack_text, rack_for, rack_number_text, rack_taking,
    racks_line_of, racks_of, racks_text,
};
pub use event::{Entry, event_of};
pub use history::{datagrams_text, history_text, op_text, order_text, place_text};
pub use op::op_of;
pub use print::{body_text, line_text, said_text};
pub use rack::{Rack, rack_of};
pub use recording::{RecordEntry, record_entry_of, sent_text, took_text};
pub use taking::{RackEntry, foreign_count_text, foreign_text, rack_entry_of};
pub use text::Text;
