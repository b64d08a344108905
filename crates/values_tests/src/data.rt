// Calls of data by themselves, with their verbs as texts.

use std::process::Abort;
use values::calls::data_call;
use values::value::{Answer, Value};

#[test]
fn calls_of_data(rt: HostRuntime) {
    for (verb, wanted) in &[("add", Some(9)), ("multiply", Some(14)), ("fold", None)] {
        let answer = data_call(rt.alloc(), &Value::Int(7), verb, &[Value::Int(2)]);
        match answer.expect(&rt, "no memory") {
            Answer::Gives(Value::Int(given)) => assert!(rt; Some(given) == *wanted),
            Answer::Gives(_) => rt.panic("no integer"),
            Answer::Throws(_) => assert!(rt; wanted.is_none()),
        }
    }
}
