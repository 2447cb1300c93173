// Texts: numbers, fields and lines read at a position of a text, and the same put into a lent room. It knows nothing of sheets.
//
//   lines     line_end, next_line, line_at, nth_line
//   reading   byte_is, word_at, is_digit, digit, number_at, field_at, fields_at, rest_of_line, line_of
//   writing   put_byte, put_word, put_number, put_field, put_fields, put_line

#![tactic(auto)]

pub mod lines;
pub mod reading;
pub mod writing;
