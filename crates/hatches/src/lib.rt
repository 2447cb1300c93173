// Hatches and the lines of their log: what a line says, the hatches' rows and rates, and when a line is refused.
//
//   lines      Entry, LogLine; log_line: what a line says
//   log        Hatches, Log; open_log, kept_records: what the lines of a log change
//   rates      the hatches' rows of the inflow table, and the ring of rates beside the ring of records
//   refusals   when a line is refused before its steps

#![tactic(auto)]

pub mod lines;
pub mod log;
pub mod rates;
pub mod refusals;
