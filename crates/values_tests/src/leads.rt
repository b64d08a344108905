// Where values lead to.
ghost use Rattle.std.specs.Prelude.{nat_eq, cond, None, Some};
ghost use Rattle.values.specs.View.{val_of};

use ids::names::{EventName, PromId, VatNo};
use ids::text::Text;
use refs::ends::end_of;
use refs::kinds::{Kind, kind_of};
use refs::resolve::Resolve;
use refs::settling::settle;
use std::process::Abort;
use values::lists::list_within;
use values::showing::show;
use values::value::Value;

/// Two promises that were resolved.
#[derive(Drop)]
struct Two {
    first: Value,
    second: Value,
}

impl Resolve for Two {
    ghost resolutions = { λ t p. cond (nat_eq p.index 0) (Some (val_of t.first)) (cond (nat_eq p.index 1) (Some (val_of t.second)) None) };

    fn resolution(&self, promise: PromId) -> Option<&Value> {
        if promise.index == 0 {
            return Some(&self.first);
        }
        if promise.index == 1 {
            return Some(&self.second);
        }
        None
    }
}

const HOME: VatNo = VatNo(EventName(3));

/// A promise of event 8; those from 2 on are open.
fn promise(index: u32) -> PromId {
    PromId {
        event: EventName(8),
        index,
        home: HOME,
    }
}

fn to(index: u32) -> Value {
    Value::Promise(promise(index))
}

fn list(rt: &(impl Abort + AllocGlobal), items: Vec<Value>) -> Value {
    list_within(rt.alloc(), items)
        .expect(rt, "no memory")
        .expect(rt, "too large")
}

/// A value as text, and the numbers of the promises that were walked.
fn told(rt: &(impl Abort + AllocGlobal), value: &Value, through: &[PromId]) -> String {
    let mut text = show(rt.alloc(), value).expect(rt, "no memory");
    for promise in through {
        let index = promise.index;
        let part = format!(in rt.alloc(); " {index}").expect(rt, "no memory");
        text.push_str(part.as_str()).expect(rt, "no memory");
    }
    text
}

/// The end of a value, and what it was reached through.
fn end(rt: &(impl Abort + AllocGlobal), map: &Two, value: &Value) -> String {
    let mut through = Vec::new(rt.alloc());
    let end = end_of(map, value, &mut through).expect(rt, "no memory");
    told(rt, &end, through.as_slice())
}

/// The settled form of a value, null where it has none, and what was walked for it.
fn settled(rt: &(impl Abort + AllocGlobal), map: &Two, value: &Value) -> String {
    let mut through = Vec::new(rt.alloc());
    let settled = settle(map, value, &mut through).expect(rt, "no memory");
    told(rt, &settled.unwrap_or(Value::Null), through.as_slice())
}

/// A chain ends at its last value, or at its last promise; a value that is no promise is its own end.
#[test]
fn chains(rt: HostRuntime) {
    let known = Two {
        first: to(1),
        second: Value::Int(5),
    };
    assert_eq!(rt; end(&rt, &known, &to(0)).as_str(), "5 0 1");
    assert_eq!(rt; end(&rt, &known, &to(2)).as_str(), "<e8.p2> 2");
    assert_eq!(rt; end(&rt, &known, &Value::Bool(true)).as_str(), "true");
    let open = Two {
        first: to(1),
        second: to(2),
    };
    assert_eq!(rt; end(&rt, &open, &to(0)).as_str(), "<e8.p2> 0 1 2");
    assert!(rt; kind_of(&to(2), HOME) == Kind::LocalPromise);
}

/// A ring has no end, from inside and from outside.
#[test]
fn rings(rt: HostRuntime) {
    let ring = Two {
        first: to(1),
        second: to(0),
    };
    assert_eq!(rt; end(&rt, &ring, &to(0)).as_str(), "<e8.p0> 0 1");
    assert_eq!(rt; end(&rt, &ring, &to(1)).as_str(), "<e8.p1> 1 0");
    let into = Two {
        first: to(1),
        second: to(1),
    };
    assert_eq!(rt; end(&rt, &into, &to(0)).as_str(), "<e8.p0> 0 1");
    assert_eq!(rt; settled(&rt, &into, &to(0)).as_str(), "<e8.p0> 0 1");
}

/// Lists are settled at every depth; an open promise stays.
#[test]
fn lists(rt: HostRuntime) {
    let known = Two {
        first: Value::Int(7),
        second: to(2),
    };
    let inner = list(&rt, vec![in rt.alloc(); to(0)].expect(&rt, "no memory"));
    let outer = list(
        &rt,
        vec![in rt.alloc(); inner, to(1), to(0)].expect(&rt, "no memory"),
    );
    assert_eq!(rt;
        settled(&rt, &known, &outer).as_str(),
        "[[7], <e8.p2>, 7] 0 1 2 0"
    );
}

/// A promise that was resolved to a list of itself passes the depth: each of 64 lists is unfolded, and one more is found.
#[test]
fn a_list_of_itself(rt: HostRuntime) {
    let unfolding = Two {
        first: list(&rt, vec![in rt.alloc(); to(0)].expect(&rt, "no memory")),
        second: Value::Null,
    };
    let mut through = Vec::new(rt.alloc());
    assert!(rt;
        settle(&unfolding, &to(0), &mut through)
            .expect(&rt, "no memory")
            .is_none()
    );
    assert_eq!(rt; through.len(), 65);
}

/// A text of 40,000 letters may stand once in a settled form, and not twice.
#[test]
fn weights_run(rt: HostRuntime) {
    let mut letters = String::new(rt.alloc());
    for _ in 0..40_000 {
        letters.push('a').expect(&rt, "no memory");
    }
    let heavy = Two {
        first: Value::Text(Text::from_string(letters).expect(&rt, "no memory")),
        second: Value::Null,
    };
    let one = list(
        &rt,
        vec![in rt.alloc(); to(0), to(1)].expect(&rt, "no memory"),
    );
    let two = list(
        &rt,
        vec![in rt.alloc(); to(1), to(0), to(0), to(1)].expect(&rt, "no memory"),
    );
    let mut through = Vec::new(rt.alloc());
    assert!(rt;
        settle(&heavy, &one, &mut through)
            .expect(&rt, "no memory")
            .is_some()
    );
    assert_eq!(rt; settled(&rt, &heavy, &two).as_str(), "null 1 0 0");
}
