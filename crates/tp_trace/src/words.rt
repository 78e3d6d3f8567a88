//! Words that lines of several kinds share.
ghost use Rattle.std.specs.Prelude.{◌≡◌, ◌++◌, ℕ, List, OnOk, codes, option_map};
ghost use Rattle.std.specs.List.{flat_map};
ghost use Rattle.tp_model.specs.Words.{Scenario};
ghost use Rattle.tp_report.specs.ReportText.{action_word, admin_name, query_word};
ghost use Rattle.tp_trace.specs.Words.{behind_comma, deed_word, joined, no_words, of_admin_words, ruling_word, staple_words, staple_words_if, verdict_word, version_word, versions_behind, versions_word, want_word, want_words, word_if};
ghost use Rattle.tp_report.specs.ReportText.{server_name};

use itoa::Integer;
use tp_report::piece::{put, put_admin, put_after, put_item, put_number, put_server};
use tp_types::{
    Action, AdminId, Deed, List, No, NoMemory, Scenario, ServerId, Staple, Verdict, Version,
};

/// Puts a word and a number behind it, where there is one.
pub(crate) fn put_if<I: Integer>(
    out: &mut Vec<u8>,
    word: &[u8],
    number: Option<I>,
) -> Result<(), NoMemory>
    ensures { OnOk result
        (out.new.items ≡ out.old.items ++ word_if word.now (option_map I.text number)) }
{
    match number {
        None => Ok(()),
        Some(number) => put_after(out, word, number),
    }
}

/// A member of a list, which stands in a line as one word.
pub(crate) trait Member {
    // The member's word.
    ghost word: { Scenario → Self → List ℕ };

    /// Puts the member's word.
    fn put_word(&self, out: &mut Vec<u8>, scenario: &Scenario) -> Result<(), NoMemory>
        ensures { OnOk result (out.new.items ≡ out.old.items ++ word scenario.now self.now) };
}

/// Puts the words of the members with commas between them, and `-` where there is no member.
pub(crate) fn put_joined<M: Member>(
    out: &mut Vec<u8>,
    scenario: &Scenario,
    members: &[M],
) -> Result<(), NoMemory>
    ensures { OnOk result
        (out.new.items ≡ out.old.items ++ joined (M.word scenario.now) members.now) }
{
    match members.split_first() {
        None => put(out, b"-"),
        Some((first, others)) => {
            first.put_word(out, scenario)?;
            put_others(out, scenario, others)
        }
    }
}

/// Puts the words of the members behind the first, each after a comma.
fn put_others<M: Member>(
    out: &mut Vec<u8>,
    scenario: &Scenario,
    others: &[M],
) -> Result<(), NoMemory>
    ensures { OnOk result
        (out.new.items
        ≡ out.old.items ++ flat_map (behind_comma (M.word scenario.now)) others.now) }
{
    for other in others {
        put(out, b",")?;
        other.put_word(out, scenario)?;
    }
    Ok(())
}

impl Member for ServerId {
    ghost word = { server_name };

    fn put_word(&self, out: &mut Vec<u8>, scenario: &Scenario) -> Result<(), NoMemory> {
        put_server(out, scenario, *self)
    }
}

impl Member for (AdminId, Version) {
    ghost word = { want_word };

    fn put_word(&self, out: &mut Vec<u8>, scenario: &Scenario) -> Result<(), NoMemory> {
        put_version(out, scenario, self.0, self.1)
    }
}

impl Member for Verdict {
    ghost word = { verdict_word };

    fn put_word(&self, out: &mut Vec<u8>, scenario: &Scenario) -> Result<(), NoMemory> {
        put_query_word(out, self.query)?;
        put_version(out, scenario, self.admin, self.version)?;
        put(out, b":")?;
        put_ruling(out, self.rule)
    }
}

impl Member for Deed {
    ghost word = { deed_word };

    fn put_word(&self, out: &mut Vec<u8>, scenario: &Scenario) -> Result<(), NoMemory> {
        put_query_word(out, self.query)?;
        put_action(out, self.action)?;
        put(out, b":")?;
        put_item(out, scenario, self.item)?;
        put(out, b":")?;
        put_number(out, self.value)
    }
}

/// Puts `qN`, and a colon.
fn put_query_word(out: &mut Vec<u8>, query: u32) -> Result<(), NoMemory>
    ensures { OnOk result (out.new.items ≡ out.old.items ++ (query_word query ++ codes ":")) }
{
    put(out, b"q")?;
    put_number(out, query)?;
    put(out, b":")
}

/// Puts the rule of a verdict, or that it is false.
fn put_ruling(out: &mut Vec<u8>, rule: Option<u32>) -> Result<(), NoMemory>
    ensures { OnOk result (out.new.items ≡ out.old.items ++ ruling_word rule) }
{
    match rule {
        None => put(out, b"denied"),
        Some(rule) => put_after(out, b"rule", rule),
    }
}

pub(crate) fn put_action(out: &mut Vec<u8>, action: Action) -> Result<(), NoMemory>
    ensures { OnOk result (out.new.items ≡ out.old.items ++ action_word action) }
{
    match action {
        Action::Read => put(out, b"read"),
        Action::Write => put(out, b"write"),
    }
}

/// Puts `ADMIN:VERSION`.
fn put_version(
    out: &mut Vec<u8>,
    scenario: &Scenario,
    admin: AdminId,
    version: Version,
) -> Result<(), NoMemory>
    ensures { OnOk result (out.new.items ≡ out.old.items ++ version_word scenario.now admin version) }
{
    put_admin(out, scenario, admin)?;
    put_after(out, b":", version.0)
}

/// Puts the version of each administrator, in order.
pub(crate) fn put_versions(
    out: &mut Vec<u8>,
    scenario: &Scenario,
    versions: &[Version],
) -> Result<(), NoMemory>
    ensures { OnOk result (out.new.items ≡ out.old.items ++ versions_word scenario.now versions.now) }
{
    match versions.split_first() {
        None => put(out, b"-"),
        Some((first, others)) => {
            put_version_at(out, scenario, 0, *first)?;
            put_versions_behind(out, scenario, others)
        }
    }
}

/// Puts the versions of the administrators behind the first, each after a comma.
fn put_versions_behind(
    out: &mut Vec<u8>,
    scenario: &Scenario,
    others: &[Version],
) -> Result<(), NoMemory>
    ensures { OnOk result (out.new.items ≡ out.old.items ++ versions_behind scenario.now 1 others.now) }
{
    for (before, version) in others.iter().enumerate() {
        put(out, b",")?;
        put_version_at(out, scenario, before + 1, *version)?;
    }
    Ok(())
}

/// Puts `ADMIN:VERSION` of an administrator by its place in the scenario.
fn put_version_at(
    out: &mut Vec<u8>,
    scenario: &Scenario,
    admin: usize,
    version: Version,
) -> Result<(), NoMemory>
    ensures { OnOk result
        (out.new.items
        ≡ out.old.items ++ version_word scenario.now (record { 0 = admin }) version) }
{
    put_admin_at(out, scenario, admin)?;
    put_after(out, b":", version.0)
}

/// Puts the name of an administrator by its place in the scenario.
pub(crate) fn put_admin_at(
    out: &mut Vec<u8>,
    scenario: &Scenario,
    admin: usize,
) -> Result<(), NoMemory>
    ensures { OnOk result
        (out.new.items ≡ out.old.items ++ admin_name scenario.now (record { 0 = admin })) }
{
    match scenario.admins.get(admin) {
        None => Ok(()),
        Some(found) => put(out, found.name.bytes()),
    }
}

/// Puts a staple's place, clock and number of revocations.
pub(crate) fn put_staple(out: &mut Vec<u8>, staple: &Staple) -> Result<(), NoMemory>
    ensures { OnOk result (out.new.items ≡ out.old.items ++ staple_words staple.now) }
{
    put_after(out, b" at=", staple.place)?;
    put_after(out, b" clock=", staple.clock)?;
    put_after(out, b" revoked=", staple.revoked.len())
}

pub(crate) fn put_staple_if(out: &mut Vec<u8>, staple: &Option<Staple>) -> Result<(), NoMemory>
    ensures { OnOk result (out.new.items ≡ out.old.items ++ staple_words_if staple.now) }
{
    match staple {
        None => Ok(()),
        Some(staple) => put_staple(out, staple),
    }
}

/// Puts the versions that are wanted, if any are.
pub(crate) fn put_wants(
    out: &mut Vec<u8>,
    scenario: &Scenario,
    want: &List<(AdminId, Version)>,
) -> Result<(), NoMemory>
    ensures { OnOk result (out.new.items ≡ out.old.items ++ want_words scenario.now want.now) }
{
    if want.is_empty() {
        return Ok(());
    }
    put(out, b" want=")?;
    put_joined(out, scenario, want.as_slice())
}

/// Puts an administrator, and a version of its policy.
pub(crate) fn put_of_admin(
    out: &mut Vec<u8>,
    scenario: &Scenario,
    admin: AdminId,
    version: Version,
) -> Result<(), NoMemory>
    ensures { OnOk result
        (out.new.items ≡ out.old.items ++ of_admin_words scenario.now admin version) }
{
    put(out, b" admin=")?;
    put_admin(out, scenario, admin)?;
    put_after(out, b" version=", version.0)
}

/// Puts why a server votes NO.
pub(crate) fn put_no(out: &mut Vec<u8>, why: No) -> Result<(), NoMemory>
    ensures { OnOk result (out.new.items ≡ out.old.items ++ no_words why) }
{
    match why {
        No::Range { query, value } => {
            put_after(out, b" why=range q=", query)?;
            put_after(out, b" value=", value)
        }
        No::Restarted => put(out, b" why=restarted"),
    }
}
