// Each struct of the exported calls with known values, so that a binding's declaration of it can be held to what the proved side has.
// Scalars are counted from 1 as they are declared, through structs and arrays of structs or bools; an array of bytes counts as one. Number i
// has i in its lowest and its highest byte, and is i as a float; a bool is whether `one` is i; each byte of an array is i.
#![tactic(auto)]

ghost use Rattle.std.specs.Prelude.{◌≡◌, ◌<◌};
ghost use Rattle.c_shapes.specs.Shapes.{ends32, ends64, filled_rtoken, filled_values, filled_gauge, filled_waiting, filled_links};
ghost use Rattle.c_shapes.specs.Shapes.{shape_record, shape_links, shape_command, shape_link_command, shape_answer, shape_link_answer};
ghost use Rattle.c_shapes.specs.Shapes.{shape_view, shape_pool_answer, shape_settings, shape_setup_answer};

use c_call::{FlatAnswer, FlatCommand, FlatLinks, FlatView};
use c_call_link::{FlatFields, FlatLinkAnswer, FlatLinkCommand, FlatTakenUp};
use c_pool::{Books, PoolAnswer};
use c_setup::SetupAnswer;
use closing::{Marks, Side};
use conn_answer::Placing;
use conn_record::{Identity, Inbound, Opening, Outbound, RToken, Record, Remote, Urgent};
use cursor::Cursor;
use gauge::Gauge;
use link_exchange::{Exchange, Queue, Waiting};
use setup::{Arguments, Settings};

// Number i, in its lowest and its highest byte.
fn ends32(i: u8) -> u32
    ensures { result ≡ ends32 i }
{
    (i as u32) * 16777217
}

fn ends64(i: u8) -> u64
    ensures { result ≡ ends64 i }
{
    (i as u64) * 72057594037927937
}

// What is filled more than once, counted from i. Cursors and placings are spelled out: a function for each, with its contract, is longer.
fn rtoken(i: u8) -> RToken
    requires { i < 100 }
    ensures { result ≡ filled_rtoken i }
{
    RToken {
        key: ends32(i),
        base: ends64(i + 1),
    }
}

fn values(i: u8) -> [u64; 12]
    requires { i < 100 }
    ensures { result ≡ filled_values i }
{
    [
        ends64(i),
        ends64(i + 1),
        ends64(i + 2),
        ends64(i + 3),
        ends64(i + 4),
        ends64(i + 5),
        ends64(i + 6),
        ends64(i + 7),
        ends64(i + 8),
        ends64(i + 9),
        ends64(i + 10),
        ends64(i + 11),
    ]
}

fn gauge(i: u8, one: u32) -> Gauge
    requires { i < 100 }
    ensures { result ≡ filled_gauge i one }
{
    Gauge {
        mean: f64::from(i),
        worst: f64::from(i + 1),
        count: i + 2,
        late: one == (i as u32) + 3,
    }
}

fn waiting(i: u8) -> Waiting
    requires { i < 100 }
    ensures { result ≡ filled_waiting i }
{
    Waiting {
        link: i,
        bytes: [i + 1; 44],
    }
}

fn links_from(i: u8, one: u32) -> FlatLinks
    requires { i < 50 }
    ensures { result ≡ filled_links i one }
{
    let first = i as u32;
    let gauges = [
        gauge(i + 4, one),
        gauge(i + 8, one),
        gauge(i + 12, one),
        gauge(i + 16, one),
    ];
    let places = [
        waiting(i + 25),
        waiting(i + 27),
        waiting(i + 29),
        waiting(i + 31),
    ];
    FlatLinks {
        active: [
            one == first,
            one == first + 1,
            one == first + 2,
            one == first + 3,
        ],
        gauges,
        server: one == first + 20,
        exchange: Exchange {
            stage: i + 21,
            v: i + 22,
            w: i + 23,
        },
        queue: Queue {
            count: i + 24,
            places,
        },
    }
}

pub fn record(one: u32) -> Record
    ensures { result ≡ shape_record one }
{
    let id = Identity {
        opened: one == 1,
        own: 33554434,
        peer: 50331651,
        link: 4,
    };
    let remote = Remote {
        size: 83886085,
        index: 100663302,
        link1: rtoken(7),
        link2: rtoken(9),
        link3: rtoken(11),
        link4: rtoken(13),
    };
    let inbound_producer = Cursor {
        offset: 251658255,
        wrap: 4112,
    };
    let inbound_consumer = Cursor {
        offset: 285212689,
        wrap: 4626,
    };
    let inbound_told = Cursor {
        offset: 318767123,
        wrap: 5140,
    };
    let inbound_urgent_place = Cursor {
        offset: 419430425,
        wrap: 6682,
    };
    let inbound_urgent = Urgent {
        standing: one == 24,
        place: inbound_urgent_place,
    };
    let inbound = Inbound {
        producer: inbound_producer,
        consumer: inbound_consumer,
        told: inbound_told,
        last: 5397,
        blocked: one == 22,
        request: one == 23,
        urgent: inbound_urgent,
    };
    let outbound_producer = Cursor {
        offset: 452984859,
        wrap: 7196,
    };
    let outbound_consumer = Cursor {
        offset: 486539293,
        wrap: 7710,
    };
    let outbound_urgent_place = Cursor {
        offset: 570425378,
        wrap: 8995,
    };
    let outbound_urgent = Urgent {
        standing: one == 33,
        place: outbound_urgent_place,
    };
    let outbound = Outbound {
        producer: outbound_producer,
        consumer: outbound_consumer,
        next: 7967,
        blocked: one == 32,
        urgent: outbound_urgent,
    };
    let marks_sent = Side {
        done: one == 36,
        closed: one == 37,
    };
    let marks_heard = Side {
        done: one == 38,
        closed: one == 39,
    };
    let marks = Marks {
        sent: marks_sent,
        heard: marks_heard,
        first: one == 40,
        abort: one == 41,
    };
    Record {
        id: id,
        remote: remote,
        inbound: inbound,
        outbound: outbound,
        marks: marks,
    }
}

pub fn links(one: u32) -> FlatLinks
    ensures { result ≡ shape_links one }
{
    links_from(1, one)
}

pub fn command() -> FlatCommand
    ensures { result ≡ shape_command }
{
    let opening_remote = Remote {
        size: 150994953,
        index: 167772170,
        link1: rtoken(11),
        link2: rtoken(13),
        link3: rtoken(15),
        link4: rtoken(17),
    };
    let opening = Opening {
        own: 100663302,
        peer: 117440519,
        link: 8,
        remote: opening_remote,
    };
    FlatCommand {
        number: 16777217,
        slot: 33554434,
        offset: 50331651,
        ms: 67108868,
        link: 5,
        opening: opening,
    }
}

pub fn link_command(one: u32) -> FlatLinkCommand
    ensures { result ≡ shape_link_command one }
{
    let fields = FlatFields {
        kind: 4,
        values: values(5),
    };
    FlatLinkCommand {
        number: 16777217,
        link: 2,
        up: one == 3,
        fields: fields,
    }
}

pub fn answer(one: u32) -> FlatAnswer
    ensures { result ≡ shape_answer one }
{
    let first = Placing {
        key: 134217736,
        address: 648518346341351433,
        start: 167772170,
        len: 184549387,
    };
    let second = Placing {
        key: 201326604,
        address: 936748722493063181,
        start: 234881038,
        len: 251658255,
    };
    let links = links_from(20, one);
    FlatAnswer {
        said: 16777217,
        refusal: 33554434,
        n: 50331651,
        state: 67108868,
        moved: 360287970189639685,
        health: 100663302,
        placings: 117440519,
        first: first,
        second: second,
        mean: 16.0,
        worst: 17.0,
        made: one == 18,
        message: [19u8; 44],
        links: links,
    }
}

pub fn link_answer(one: u32) -> FlatLinkAnswer
    ensures { result ≡ shape_link_answer one }
{
    let fields = FlatFields {
        kind: 4,
        values: values(5),
    };
    let up_fields = FlatFields {
        kind: 20,
        values: values(21),
    };
    let up = FlatTakenUp {
        some: one == 17,
        link: 18,
        fate: 318767123,
        fields: up_fields,
    };
    let links = links_from(36, one);
    FlatLinkAnswer {
        said: 16777217,
        refusal: 33554434,
        fate: 50331651,
        fields: fields,
        up: up,
        count: 553648161,
        made: one == 34,
        message: [35u8; 44],
        links: links,
    }
}

pub fn view() -> FlatView
    ensures { result ≡ shape_view }
{
    FlatView {
        health: 16777217,
        shown: 33554434,
        mean: 3.0,
        worst: 4.0,
    }
}

pub fn pool_answer() -> PoolAnswer
    ensures { result ≡ shape_pool_answer }
{
    let books = Books { sizes: [4u8; 64] };
    PoolAnswer {
        said: 16777217,
        refusal: 33554434,
        start: 50331651,
        books: books,
    }
}

pub fn settings(one: u32) -> Settings
    ensures { result ≡ shape_settings one }
{
    Settings {
        size: 16777217,
        peer: [2u8; 8],
        gid: [3u8; 16],
        mac: [4u8; 6],
        mask: [5u8; 4],
        masklen: 6,
        count: 7,
        prefixes: [8u8; 136],
        first: one == 9,
        qp: 167772170,
        mtu: 11,
        psn: 201326604,
        key: 218103821,
        base: 1008806316530991118,
        slot: 15,
        own: 268435472,
        link: 17,
        key1: 301989906,
        base1: 1369094286720630803,
        key2: 335544340,
        base2: 1513209474796486677,
        key3: 369098774,
        base3: 1657324662872342551,
        key4: 402653208,
        base4: 1801439850948198425,
    }
}

pub fn setup_answer(one: u32) -> SetupAnswer
    ensures { result ≡ shape_setup_answer one }
{
    let arguments = Arguments {
        slot: 7,
        own: 134217736,
        token: 150994953,
        link: 10,
        size: 184549387,
        index: 12,
        key1: 218103821,
        base1: 1008806316530991118,
        key2: 251658255,
        base2: 1152921504606846992,
        key3: 285212689,
        base3: 1297036692682702866,
        key4: 318767123,
        base4: 1441151880758558740,
    };
    SetupAnswer {
        said: 16777217,
        refusal: 33554434,
        opens: one == 3,
        declined: one == 4,
        diagnosis: 83886085,
        count: 432345564227567622,
        arguments: arguments,
        message: [21u8; 188],
    }
}
