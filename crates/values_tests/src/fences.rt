// Fences go with references.

use eorder::carried::Carried;
use eorder::fence::Fence;
use eorder::rules::{on_learn, on_pass, on_receive, on_send};
use ids::names::{EventName, MsgId, ObjId, VatNo};
use ids::reference::Reference;
use std::process::Abort;

/// The first message of an event.
fn message(event: u32) -> MsgId {
    MsgId {
        event: EventName(event),
        index: 0,
    }
}

/// The fence of these messages, in whatever order they come.
fn fence(rt: &(impl Abort + AllocGlobal), events: &[u32]) -> Fence {
    let mut fence = Fence::empty(rt.alloc());
    for event in events {
        let one = Fence::alone(rt.alloc(), message(*event));
        fence = fence.join(&one).expect(rt, "no memory");
    }
    fence
}

/// The first object of an event, as a reference.
fn object(event: u32) -> Reference {
    Reference::Object(ObjId {
        event: EventName(event),
        index: 0,
        vat: VatNo(EventName(1)),
    })
}

/// The fence of one message travels with one object. What is added later for it is left out, and an empty fence, too.
#[test]
fn a_fence_travels_once(rt: HostRuntime) {
    let alloc = rt.alloc();
    let mut carried = Carried::empty(alloc);
    assert!(rt; carried.is_empty());
    for (at, event) in [(7, 3), (7, 4)] {
        let added = carried.add(object(at), Fence::alone(alloc, message(event)));
        added.expect(&rt, "no memory");
    }
    let empty = carried.add(object(8), Fence::empty(alloc));
    empty.expect(&rt, "no memory");
    assert!(rt; carried.len() == 1 && carried.carries(object(7)) && !carried.carries(object(8)));
    let found = carried.fence(object(7)).expect(&rt, "no fence");
    assert!(rt; found.is_same(&Fence::alone(alloc, message(3))));
    assert!(rt; carried.is_same(&carried) && !carried.is_same(&Carried::empty(alloc)));
}

/// Names rise, each once, and both orders give the same fence.
#[test]
fn names_of_fences(rt: HostRuntime) {
    let one = fence(&rt, &[5, 2, 9, 2]);
    assert!(rt; one.names() == [message(2), message(5), message(9)].as_slice());
    assert!(rt; one.is_same(&fence(&rt, &[9, 2, 5])));
    assert!(rt; !one.is_same(&fence(&rt, &[9, 2])));
    assert!(rt; one.contains(message(9)) && !one.contains(message(4)));
    let copy = one.share().expect(&rt, "no memory");
    assert!(rt; copy.is_same(&one) && !copy.is_empty());
    assert!(rt; fence(&rt, &[]).into_cell().is_none());
}

/// Vat 1 sends 1 on an object and passes it in message 3; what is sent there on the copy comes after 1.
#[test]
fn a_copy_brings_what_was_sent(rt: HostRuntime) {
    let alloc = rt.alloc();
    let first = on_send(alloc, None, message(1)).expect(&rt, "no memory");
    assert!(rt; first.after.is_empty());
    let cell = first.fence.into_cell();
    let travels = on_pass(alloc, cell.as_ref()).expect(&rt, "no memory");
    let there = on_receive(alloc, None, &travels).expect(&rt, "no memory");
    let second = on_send(alloc, there.as_ref(), message(2)).expect(&rt, "no memory");
    assert!(rt; second.after.names() == [message(1)].as_slice());
    assert!(rt; second.fence.names() == [message(2)].as_slice());
}

/// What was sent on a promise comes before what is sent on what it settles to; where nothing was sent the cell stays absent.
#[test]
fn a_promise_leaves_its_names(rt: HostRuntime) {
    let alloc = rt.alloc();
    let promise = fence(&rt, &[4, 7]).into_cell();
    let object = fence(&rt, &[6]).into_cell();
    let learnt = on_learn(alloc, object.as_ref(), promise.as_ref()).expect(&rt, "no memory");
    let all = on_pass(alloc, learnt.as_ref()).expect(&rt, "no memory");
    assert!(rt; all.names() == [message(4), message(6), message(7)].as_slice());
    assert!(rt;
        on_learn(alloc, None, None)
            .expect(&rt, "no memory")
            .is_none()
    );
}
