// Shutdown, close and abort, as steps of one record (document 01, "Calls of a connection").
#![tactic(auto)]

ghost use Rattle.std.specs.Prelude.{◌≡◌, ltb};
ghost use Rattle.conn_finish.specs.Finish.{shutdown_forbids, shutdown_of, close_forbids, reset_of, closing_of, close_of, abort_of};
ghost use Rattle.conn_receive.specs.Receive.{unread_of};

use closing::Marks;
use conn_answer::{Outcome, Reply};
use conn_record::Record;

#[tactic(auto, unfolding(crate::specs::Finish::shutdown_forbids))]
fn shutdown_forbids(m: Marks) -> bool
    ensures { result ≡ shutdown_forbids m }
{
    m.sent.done | (m.sent.closed | m.abort)
}

// By itself, though a read's test is the same today: document 01 says which marks forbid each call, one by one (`close_forbids`).
#[tactic(auto, unfolding(crate::specs::Finish::close_forbids))]
fn close_forbids(m: Marks) -> bool
    ensures { result ≡ close_forbids m }
{
    m.sent.closed | m.abort
}

// Shutdown sends D.
#[tactic(auto, unfolding(crate::specs::Finish::shutdown_of))]
pub fn shutdown(n: u32, active: bool, rec: Record) -> Outcome
    ensures { result ≡ shutdown_of n active rec }
{
    let no = conn_record::refusal(n, active, rec, shutdown_forbids(rec.marks));
    if no != 0 {
        return conn_answer::refused(no, rec);
    }
    let done = conn_record::marks_to(rec, closing::done_sent(rec.marks));
    conn_answer::outcome_of(Reply::Accepted, true, done)
}

// Whether bytes are unread: the distance C to P is above 0.
#[tactic(auto, unfolding(conn_receive::specs::Receive::unread_of))]
fn has_unread(n: u32, rec: Record) -> bool
    ensures { result ≡ ltb 0 (unread_of n rec.inbound) }
{
    let c = rec.inbound.consumer;
    let p = rec.inbound.producer;
    let d = cursor::data_size(n);
    0 < cursor::gap(d, c, p)
}

// A close with unread bytes sends A, and the slot stays open.
#[tactic(auto, unfolding(crate::specs::Finish::reset_of))]
fn reset(rec: Record) -> Outcome
    ensures { result ≡ reset_of rec }
{
    let aborted = conn_record::marks_to(rec, closing::abort_sent(rec.marks));
    conn_answer::outcome_of(Reply::Reset, true, aborted)
}

// With none it sends C, and the slot is closed if C was heard.
#[tactic(auto, unfolding(crate::specs::Finish::closing_of))]
fn finished(rec: Record) -> Outcome
    ensures { result ≡ closing_of rec }
{
    let closed = conn_record::marks_to(rec, closing::closed_sent(rec.marks));
    let o = conn_answer::outcome_of(Reply::Accepted, true, closed);
    conn_answer::closed_if(rec.marks.heard.closed, o)
}

// Close looks at the unread bytes first: none is dropped in silence.
#[tactic(auto, unfolding(crate::specs::Finish::close_of))]
pub fn close(n: u32, active: bool, rec: Record) -> Outcome
    ensures { result ≡ close_of n active rec }
{
    let no = conn_record::refusal(n, active, rec, close_forbids(rec.marks));
    if no != 0 {
        return conn_answer::refused(no, rec);
    }
    if has_unread(n, rec) {
        reset(rec)
    } else {
        finished(rec)
    }
}

// Abort sends A.
#[tactic(auto, unfolding(crate::specs::Finish::abort_of))]
pub fn abort(n: u32, active: bool, rec: Record) -> Outcome
    ensures { result ≡ abort_of n active rec }
{
    let no = conn_record::refusal(n, active, rec, rec.marks.abort);
    if no != 0 {
        return conn_answer::refused(no, rec);
    }
    let aborted = conn_record::marks_to(rec, closing::abort_sent(rec.marks));
    conn_answer::outcome_of(Reply::Accepted, true, aborted)
}
