// What names, texts and faults are written as.

use crate::tables::expect_text;
use ereader::fault::ReadFault;
use ids::names::{EjId, EventName, MsgId, ObjId, PromId, SlotId, VatNo};
use ids::quote::write_quoted;
use ids::text::Text;
use kernele_scopes::CheckFault;

const BOB: VatNo = VatNo(EventName(3));

#[test]
fn quotes(rt: HostRuntime) {
    let mut out = String::new(rt.alloc());
    write_quoted("a\"\\\n\t\ré", &mut out).expect(&rt, "no memory");
    expect_text(&rt, "quotes", &out, r#""a\"\\\n\t\ré""#);
}

#[test]
fn names(rt: HostRuntime) {
    let event = EventName(8);
    let vat = BOB;
    let message = MsgId { event, index: 1 };
    let promise = PromId {
        event,
        index: 0,
        home: vat,
    };
    let slot = SlotId {
        event,
        index: 12,
        vat,
    };
    let object = ObjId {
        event,
        index: 0,
        vat,
    };
    let ejector = EjId {
        event,
        index: 10,
        vat,
    };
    let text = format!(in rt.alloc();
        "{event} {message} {promise} {slot} {object} {ejector}"
    ).expect(&rt, "no memory");
    expect_text(&rt, "names", &text, "e8 e8.m1 e8.p0 e8.s12 e8.o0 e8.j10");
}

#[test]
fn shares_texts(rt: HostRuntime) {
    let text = Text::new(rt.alloc(), "né").expect(&rt, "no memory");
    let shared = text.share().expect(&rt, "no memory");
    let written = String::from_str(rt.alloc(), "né").expect(&rt, "no memory");
    let made = Text::from_string(written).expect(&rt, "no memory");
    assert!(rt; shared == text && made == text);
    let less = Text::new(rt.alloc(), "n").expect(&rt, "no memory");
    assert!(rt; less < text);
}

#[test]
fn says_that_memory_ran_out(rt: HostRuntime) {
    let text = format!(in rt.alloc(); "{}, {}", ReadFault::Memory, CheckFault::Memory).expect(
        &rt,
        "no memory",
    );
    expect_text(&rt, "faults", &text, "L7 Memory, B20 Memory");
}
