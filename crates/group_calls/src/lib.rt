// The calls of a connection, on one record (document 01, "Calls of a connection"). Each is lent the memory and a `View`: S, N, the table's
// length, the links, and the record that its slot shows, whatever they hold; it answers with the record that it leaves. It
// looks into no table: what it answers and leaves is said of what it is given (`on_record`, `hear_record`), whatever table the record is from; in
// every table that shows it, that is what the rules say of the call.
#![tactic(auto)]

ghost use Rattle.group_rules.specs.Rules as Rules;
ghost use Rattle.std.specs.Prelude.{◌≡◌, [], length};
ghost use Rattle.group_table.specs.Table.{found_of_all, refused_by, kept_by_of, settled_by};
ghost use Rattle.group_rules.specs.Promises.{shown_by, active_for};
ghost use Rattle.group_calls.specs.Receiving.{stores_b, copied_of};
ghost use Rattle.group_calls.specs.Calls.{on_view, hear_view, request_of, out_left, OutKept, token_in, heard_by};

use cdc::{Decoded, Message};
use conn_answer::{Outcome, Reply};
use conn_record::Record;
use group_table::{Links, Turned};

// A call on a slot, with its numbers; its bytes are lent beside it. Data, and no closure: C and the replay name a call by its number.
#[derive(Clone, Copy)]
pub enum Request {
    Send,
    Urgent,
    // an offset in our element
    Place(u32),
    Read,
    Shutdown,
    Close,
    Abort,
}

// What a call on one record is given beside the memory.
#[derive(Clone, Copy)]
pub struct View {
    pub s: u32,
    pub n: u32,
    // how many records the table has
    pub count: usize,
    pub links: Links,
    pub rec: Record,
}

impl View {
    // Whether the record's link is active.
    pub fn active(&self) -> bool
        ensures { result ≡ active_for self.now.links self.now.rec }
    {
        group_table::link_active(self.links, self.rec.id.link)
    }

    // What the step of the slot's record gave, in a memory of `len` bytes; or refusal 1 or 2.
    pub fn settled(&self, len: usize, slot: u32, o: Outcome) -> Turned
        ensures { result ≡ settled_by (found_of_all self.now.s self.now.n len self.now.count slot self.now.rec)
            self.now.links self.now.rec o }
    {
        let no = group_table::found(self.s, self.n, len, self.count, slot, self.rec);
        group_table::settled(no, self.links, self.rec, o)
    }

    // Refusal `no`, the record as it was.
    fn refused(&self, no: u8) -> Turned
        ensures { result ≡ kept_by_of self.now.rec (refused_by no self.now.links) }
    {
        group_table::kept(self.rec, group_table::refuse(no, self.links))
    }

    // SHUTDOWN, CLOSE AND ABORT.

    pub fn shutdown(&self, mem: &[u8], slot: u32) -> Turned
        ensures { shown_by result [] mem.now ≡ on_view self.now mem.now slot Rules.Request.shutdown }
    {
        let o = conn_finish::shutdown(self.n, self.active(), self.rec);
        self.settled(mem.len(), slot, o)
    }

    pub fn close(&self, mem: &[u8], slot: u32) -> Turned
        ensures { shown_by result [] mem.now ≡ on_view self.now mem.now slot Rules.Request.close }
    {
        let o = conn_finish::close(self.n, self.active(), self.rec);
        self.settled(mem.len(), slot, o)
    }

    pub fn abort(&self, mem: &[u8], slot: u32) -> Turned
        ensures { shown_by result [] mem.now ≡ on_view self.now mem.now slot Rules.Request.abort }
    {
        let o = conn_finish::abort(self.n, self.active(), self.rec);
        self.settled(mem.len(), slot, o)
    }

    // PLACE AND READ, with the element's bytes.

    pub fn place(&self, mem: &mut [u8], slot: u32, offset: u32, bytes: &[u8]) -> Turned
        ensures { shown_by result [] mem.new
            ≡ on_view self.now mem.old slot (Rules.Request.place offset bytes.now) }
    {
        let o = conn_receive::place(self.n, self.active(), self.rec, offset, bytes.len());
        let placed = self.settled(mem.len(), slot, o);
        if stores(placed) {
            let at = element::base_of(self.n, slot) + (offset as usize);
            element::store(mem, at, bytes);
        }
        placed
    }

    pub fn read(&self, mem: &[u8], slot: u32, out: &mut [u8]) -> Turned
        ensures { shown_by result out.new mem.now
            ≡ on_view self.now mem.now slot (Rules.Request.read out.old) }
    {
        let base = element::base_of(self.n, slot);
        let whole = element::intact(mem, base);
        let o = conn_receive::read(self.n, self.active(), self.rec, whole, out.len());
        let d = self.settled(mem.len(), slot, o);
        let at = self.rec.inbound.consumer.offset;
        element::read(
            mem,
            base,
            self.n as usize,
            at as usize,
            copied(d) as usize,
            out,
        );
        d
    }

    // SEND AND URGENT SEND (document 02, 2026-04).

    pub fn send(&self, mem: &[u8], slot: u32, bytes: &[u8]) -> Turned
        ensures { shown_by result [] mem.now
            ≡ on_view self.now mem.now slot (Rules.Request.send bytes.now) }
    {
        let o = conn_send::send(self.n, self.active(), self.rec, bytes.len());
        self.settled(mem.len(), slot, o)
    }

    pub fn urgent_send(&self, mem: &[u8], slot: u32, bytes: &[u8]) -> Turned
        ensures { shown_by result [] mem.now
            ≡ on_view self.now mem.now slot (Rules.Request.urgent bytes.now) }
    {
        let o = conn_send::urgent_send(self.n, self.active(), self.rec, bytes.len());
        self.settled(mem.len(), slot, o)
    }

    // Any one of the calls on a slot. One that is lent no out buffer leaves `out` as it is.
    pub fn on(
        &self,
        mem: &mut [u8],
        slot: u32,
        request: Request,
        bytes: &[u8],
        out: &mut [u8],
    ) -> Turned
        ensures { (shown_by result (out_left request out.new) mem.new
            ≡ on_view self.now mem.old slot (request_of request bytes.now out.old))
            × OutKept request out.old out.new }
    {
        match request {
            Request::Send => self.send(mem, slot, bytes),
            Request::Urgent => self.urgent_send(mem, slot, bytes),
            Request::Place(offset) => self.place(mem, slot, offset, bytes),
            Request::Read => self.read(mem, slot, out),
            Request::Shutdown => self.shutdown(mem, slot),
            Request::Close => self.close(mem, slot),
            Request::Abort => self.abort(mem, slot),
        }
    }

    // A message for the connection that holds its token, where one does.
    fn heard(&self, holder: usize, m: Message) -> Turned
        ensures { result ≡ heard_by self.now.n self.now.links holder self.now.rec m }
    {
        let o = conn_hear::hear(self.n, self.active(), self.rec, m);
        let no = group_table::refusal_if(holder == 0, 5, 0);
        group_table::settled(no, self.links, self.rec, o)
    }

    // `holder` is the slot that holds the message's token; a number, 0 for none, as in `hear_record`. The record is its.
    pub fn hear(&self, mem: &[u8], holder: usize, bytes: &[u8]) -> Turned
        ensures { shown_by result [] mem.now ≡ hear_view self.now mem.now holder bytes.now }
    {
        if !group_table::sizes_ok(self.s, self.n, mem.len(), self.count) {
            return self.refused(1);
        }
        match cdc::decode(bytes) {
            Decoded::Good(m) => self.heard(holder, m),
            Decoded::Malformed => self.refused(4),
        }
    }
}

// Whether a place was accepted, by what was answered.
fn stores(d: Turned) -> bool
    ensures { result ≡ stores_b d.answer.reply }
{
    matches!(d.answer.reply, Reply::Accepted)
}

// How many bytes a read copies, by what was answered.
fn copied(d: Turned) -> u32
    ensures { result ≡ copied_of d.answer.reply }
{
    if let Reply::Read(n) = d.answer.reply {
        n
    } else {
        0
    }
}

// The token of a message; 0 where the bytes are none.
pub fn token_in(bytes: &[u8]) -> u32
    ensures { result ≡ token_in bytes.now }
{
    match cdc::decode(bytes) {
        Decoded::Good(m) => m.token,
        Decoded::Malformed => 0,
    }
}
