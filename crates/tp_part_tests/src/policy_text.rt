//! The text of a policy, read, printed, and read again.
use std::process::Abort;
use tp_policy_text::{ParseError, parse, print, print_and_parse};
use tp_types::{Policy, Text};

/// A nurse of ward 3 or a doctor reads, and a doctor writes.
pub const WARD: &str =
    "allow read on * if hospital.role = nurse and hospital.ward = 3 or hospital.role = doctor; allow write on * if hospital.role = doctor;";

/// The same, as it is printed.
const PRINTED: &str =
    "allow read on * if hospital.role = nurse and hospital.ward = 3 or hospital.role = doctor;\nallow write on * if hospital.role = doctor;\n";

pub fn policy(rt: &(impl Abort + AllocGlobal), text: &str) -> Policy {
    parse(rt.alloc(), text.as_bytes()).expect(rt, "a policy")
}

/// The printed form of what a text says.
fn printed(rt: &(impl Abort + AllocGlobal), text: &str) -> Text {
    let policy = parse(rt.alloc(), text.as_bytes()).expect(rt, "a policy");
    let printed = print(rt.alloc(), &policy);
    drop(policy);
    printed.expect(rt, "memory for a text")
}

/// How many rules are read again of what a text says, or why they are refused.
fn reread(rt: &(impl Abort + AllocGlobal), text: &str) -> Result<usize, ParseError> {
    let policy = parse(rt.alloc(), text.as_bytes()).expect(rt, "a policy");
    let again = print_and_parse(rt.alloc(), &policy);
    drop(policy);
    match again {
        Ok(policy) => Ok(policy.rules.len()),
        Err(error) => Err(error),
    }
}

/// Rules that fit as they stand, and do not as they are printed: they have 4095 bytes, and then 4680.
fn short_rules(rt: &(impl Abort + AllocGlobal)) -> String {
    let mut rules = String::new(rt.alloc());
    for _rule in 0..195 {
        let pushed = rules.push_str("allow any on*if true;");
        pushed.expect(rt, "memory for a text");
    }
    rules
}

#[test]
fn prints_and_reads_again(rt: HostRuntime) {
    let ward = printed(&rt, WARD);
    assert!(rt; ward.0.as_slice() == PRINTED.as_bytes());
    assert!(rt; reread(&rt, WARD) == Ok(2));
    let rules = short_rules(&rt);
    assert!(rt; reread(&rt, rules.as_str()) == Err(ParseError::TooLong));
}
