// What refusals tell, and how they read.
use crate::{Fault, List, Refused};
use std::test::Fail;

#[test]
fn short_list(rt: HostRuntime) -> Result<(), Fail> {
    let fault = Fault::ShortList {
        list: List::First,
        len: 15,
    };
    assert_eq!(rt; fault.number(), 2);
    assert_eq!(rt; fault.layer().letter(), 'L');
    assert_eq!(rt; fault.part(), 1);
    assert_eq!(rt; fault.spot(), 15);
    let words = format!(in rt.alloc(); "{fault}")?;
    assert!(rt; words.as_str() == "list 1 is too short: 15 elements");
    let line = format!(in rt.alloc(); "{}", Refused(fault))?;
    assert!(rt; line.as_str() == "refused 2 1 15");
    Ok(())
}
