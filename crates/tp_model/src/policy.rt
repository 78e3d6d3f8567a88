//! What a rule of a policy is about, what satisfies an atom of its condition, and the versions of policies.
ghost use Rattle.std.specs.Prelude.{◌≡◌};
ghost use Rattle.std.specs.Option.{option_copied};
ghost use Rattle.tp_model.specs.Authorisation as authorisation;
ghost use Rattle.tp_model.specs.Credentials as credentials;
ghost use Rattle.tp_model.specs.Policies as policies;

use tp_types::{
    Action, AdminId, Credential, List, Name, Op, Pattern, Policy, Rule, Scenario, Value, Version,
};

fn is_number(value: &Value, wanted: i64) -> bool
    ensures { result ≡ policies.same_value (Value.Number wanted) value.now }
{
    match value {
        Value::Number(number) => *number == wanted,
        Value::Word(_) => false,
    }
}

fn is_word(value: &Value, wanted: &Name) -> bool
    ensures { result ≡ policies.same_value (Value.Word wanted.now) value.now }
{
    match value {
        Value::Number(_) => false,
        Value::Word(word) => wanted == word,
    }
}

fn same_value(one: &Value, other: &Value) -> bool
    ensures { result ≡ policies.same_value one.now other.now }
{
    match one {
        Value::Number(number) => is_number(other, *number),
        Value::Word(word) => is_word(other, word),
    }
}

fn is_at_most(one: &Value, other: &Value) -> bool
    ensures { result ≡ policies.is_at_most one.now other.now }
{
    match (one, other) {
        (Value::Number(low), Value::Number(high)) => *low <= *high,
        _ => false,
    }
}

fn satisfies(op: Op, wanted: &Value, found: &Value) -> bool
    ensures { result ≡ policies.satisfies op wanted.now found.now }
{
    match op {
        Op::Equal => same_value(found, wanted),
        Op::AtLeast => is_at_most(wanted, found),
        Op::AtMost => is_at_most(found, wanted),
    }
}

/// What the credential says is of the issuer and the attribute, and satisfies the comparison. Whose it is plays no part.
pub fn meets(credential: &Credential, issuer: &Name, attr: &Name, op: Op, wanted: &Value) -> bool
    ensures { result ≡ policies.meets issuer.now attr.now op wanted.now
        (credentials.triple_by credential.now) }
{
    credential.issuer == *issuer
        && credential.attr == *attr
        && satisfies(op, wanted, &credential.value)
}

fn is_about_action(named: Option<Action>, asked: Action) -> bool
    ensures { result ≡ policies.is_about_action named asked }
{
    match named {
        None => true,
        Some(action) => action == asked,
    }
}

fn is_about_item(pattern: &Pattern, item: &Name) -> bool
    ensures { result ≡ policies.is_about_item pattern.now item.now }
{
    match pattern {
        Pattern::All => true,
        Pattern::Exact(name) => item == name,
        Pattern::Prefix(name) => item.bytes().starts_with(name.bytes()),
    }
}

/// The rule is about the action on the item.
pub fn matches(asked: Action, item: &Name, rule: &Rule) -> bool
    ensures { result ≡ policies.matches asked item.now rule.now }
{
    is_about_action(rule.action, asked) && is_about_item(&rule.pattern, item)
}

/// A policy's rule by its number, which counts from 1; None exactly where there is none.
pub fn rule_in(policy: &Policy, number: u32) -> Option<&Rule>
    ensures { option_copied result ≡ authorisation.rule_in policy.now number }
{
    if number == 0 {
        return None;
    }
    policy.rules.get(number as usize - 1)
}

fn version_in(library: &List<Policy>, version: u32) -> Option<&Policy>
    ensures { option_copied result ≡ authorisation.library_version library.now version }
{
    if version == 0 {
        return None;
    }
    library.get(version as usize - 1)
}

/// A version of an administrator's policy, where its library has it.
pub fn policy_at(scenario: &Scenario, admin: AdminId, version: Version) -> Option<&Policy>
    ensures { option_copied result ≡ authorisation.policy_at scenario.now admin version }
{
    match scenario.admins.get(admin.0 as usize) {
        None => None,
        Some(declared) => version_in(&declared.library, version.0),
    }
}
