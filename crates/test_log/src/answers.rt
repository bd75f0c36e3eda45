// The line of a call that changes the replica.
use log_calls::Answer;
use test_lines::words::{line, refused};

// What a call that changes the replica answers.
pub fn answer(a: Answer) -> bool {
    match a {
        Answer::Appended(o) => line(b"appended", o.0),
        Answer::Stored(o) => line(b"stored", o.0),
        Answer::Gap(o) => line(b"gap", o.0),
        Answer::StaleEpoch(e) => line(b"stale", e.0),
        Answer::Adopted(o) => line(b"adopted", o.0),
        Answer::Refused(x) => refused(x),
    }
}
