// For a binding's test: the structs of the direct calls, filled as those of crate `c_shapes` are (document 02, 2026-11). Placings and
// pieces are spelled out: a function for the three of each, with its contract and proof, is longer.
#![tactic(auto)]

ghost use Rattle.std.specs.Prelude.{◌≡◌};
ghost use Rattle.c_fast_shapes.specs.DirectShapes.{shape_link_states, shape_read_answer, shape_send_answer, shape_hear_answer};
ghost use Rattle.c_fast_shapes.specs.DirectShapes.{shape_finish_answer, shape_gather_answer};

use conn_answer::Placing;
use plan::LinkStates;
use plan_finish::FinishAnswer;
use plan_gather::{GatherAnswer, GatherPiece};
use plan_hear::HearAnswer;
use plan_read::ReadAnswer;
use plan_send::SendAnswer;

#[unsafe(no_mangle)]
pub extern "C" fn fordlinnet_shape_link_states(one: u32) -> LinkStates
    ensures { result ≡ shape_link_states one }
{
    LinkStates {
        active: [one == 1, one == 2, one == 3, one == 4],
    }
}

#[unsafe(no_mangle)]
pub extern "C" fn fordlinnet_shape_read_answer(one: u32) -> ReadAnswer
    ensures { result ≡ shape_read_answer one }
{
    ReadAnswer {
        refusal: 1,
        torn: one == 2,
        made: one == 3,
        count: 67108868,
    }
}

#[unsafe(no_mangle)]
pub extern "C" fn fordlinnet_shape_send_answer(one: u32) -> SendAnswer
    ensures { result ≡ shape_send_answer one }
{
    let first = Placing {
        key: 83886085,
        address: 432345564227567622,
        start: 117440519,
        len: 134217736,
    };
    let second = Placing {
        key: 150994953,
        address: 720575940379279370,
        start: 184549387,
        len: 201326604,
    };
    SendAnswer {
        refusal: 1,
        made: one == 2,
        placings: 3,
        taken: 67108868,
        first: first,
        second: second,
    }
}

#[unsafe(no_mangle)]
pub extern "C" fn fordlinnet_shape_hear_answer(one: u32) -> HearAnswer
    ensures { result ≡ shape_hear_answer one }
{
    HearAnswer {
        refusal: 1,
        made: one == 2,
        state: 3,
        moved: 288230376151711748,
    }
}

#[unsafe(no_mangle)]
pub extern "C" fn fordlinnet_shape_finish_answer(one: u32) -> FinishAnswer
    ensures { result ≡ shape_finish_answer one }
{
    FinishAnswer {
        refusal: 1,
        made: one == 2,
        reset: one == 3,
    }
}

#[unsafe(no_mangle)]
pub extern "C" fn fordlinnet_shape_gather_answer(one: u32) -> GatherAnswer
    ensures { result ≡ shape_gather_answer one }
{
    let first = GatherPiece {
        buffer: 67108868,
        start: 83886085,
        len: 100663302,
        key: 117440519,
        address: 576460752303423496,
    };
    let second = GatherPiece {
        buffer: 150994953,
        start: 167772170,
        len: 184549387,
        key: 201326604,
        address: 936748722493063181,
    };
    let third = GatherPiece {
        buffer: 234881038,
        start: 251658255,
        len: 268435472,
        key: 285212689,
        address: 1297036692682702866,
    };
    let last = Placing {
        key: 318767123,
        address: 1441151880758558740,
        start: 352321557,
        len: 369098774,
    };
    GatherAnswer {
        refusal: 1,
        made: one == 2,
        taken: 50331651,
        first: first,
        second: second,
        third: third,
        last: last,
    }
}
