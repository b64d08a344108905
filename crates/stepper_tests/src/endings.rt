// The exit status of each ending.

use stepper::{Ended, Fault, Summary, status};

#[test]
fn statuses(rt: HostRuntime) {
    assert!(rt; status(&Ended::Help) == 0);
    assert!(rt; status(&Ended::Usage) == 2);
    assert!(rt; status(&Ended::NoFile) == 2);
    assert!(rt; status(&Ended::Ran(Ok(Summary { refused: false }))) == 0);
    assert!(rt; status(&Ended::Ran(Ok(Summary { refused: true }))) == 1);
    assert!(rt; status(&Ended::Ran(Err(Fault::Memory))) == 2);
}
