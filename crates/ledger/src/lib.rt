// The ledger: the run, the record of a step and its words, and the take-back. It does not know the rule that gave the amounts.
//
//   runs        Run, Answer; run_fine
//   lent        one_each, waters_fine, times_fine
//   record      MOST_RECORD, record_size; a record's words read: held_before, lasted, leaving, last_before, added_by, soaked_by; its amounts:
//               gone_from, sent_to, came_to, off_from; its words written: put_head, put_square
//   take_back   take_back

#![tactic(auto)]

pub mod lent;
pub mod record;
pub mod runs;
pub mod take_back;
