//! The report: what happened in a run, fact by fact, and how it ended.
ghost use Rattle.std.specs.Prelude.{◌≡◌, ◌++◌, IfOk, OnOk};
ghost use Rattle.std.specs.List.{flat_map};
ghost use Rattle.tp_report.specs.ReportText.{fact_tokens, item_tokens, quiet_tokens, report_text, server_tokens, value_word};
ghost use Rattle.tp_report.specs.Laws.{TellsOneHistory};
ghost use Rattle.tp_report.specs.Tokens.{text_of};

use crate::fact::put_fact;
use crate::piece::{put, put_byte, put_item, put_number};
use std::alloc::Global;
use tp_types::{Ending, Fact, ItemId, List, NoMemory, Scenario, ServerDecl, Text};

/// The whole text of a report, for any facts. What no run gives prints too: an id that the scenario
/// does not have prints as nothing, a proof without a rule as `rule none`, rounds that met nothing as
/// `rounds` alone, and a crash of the master or the authority under these words.
#[tactic(auto, using(crate::proofs::TokenLemmas::text_append))]
pub fn print(
    alloc: Global,
    scenario: &Scenario,
    facts: &List<Fact>,
    ending: &Ending,
) -> Result<Text, NoMemory>
    ensures { IfOk result (λ text. text.0 ≡ report_text scenario.now facts.now ending.now) }
{
    let mut out = Vec::new(alloc);
    put(&mut out, b"tpvc 1\n")?;
    put_facts(&mut out, scenario, facts)?;
    put_ending(&mut out, scenario, ending)?;
    Ok(Text(List::from_vec(out)))
}

/// Puts the last lines of a report: the value of each item, and how many steps and mails there were.
#[tactic(auto, using(crate::proofs::TokenLemmas::text_append))]
pub fn put_ending(out: &mut Vec<u8>, scenario: &Scenario, ending: &Ending) -> Result<(), NoMemory>
    ensures { OnOk result
        (out.new.items
        ≡ out.old.items
        ++ text_of (flat_map (server_tokens scenario.now ending.now) scenario.now.servers
        ++ quiet_tokens ending.now)) }
{
    put_servers(out, scenario, ending)?;
    put_quiet(out, ending)
}

#[tactic(auto, using(crate::proofs::TokenLemmas::text_append))]
fn put_facts(out: &mut Vec<u8>, scenario: &Scenario, facts: &List<Fact>) -> Result<(), NoMemory>
    ensures { OnOk result
        (out.new.items ≡ out.old.items ++ text_of (flat_map (fact_tokens scenario.now) facts.now)) }
{
    for fact in facts.as_slice() {
        put_fact(out, scenario, fact)?;
    }
    Ok(())
}

#[tactic(auto, using(crate::proofs::TokenLemmas::text_append))]
fn put_servers(out: &mut Vec<u8>, scenario: &Scenario, ending: &Ending) -> Result<(), NoMemory>
    ensures { OnOk result
        (out.new.items
        ≡ out.old.items ++ text_of (flat_map (server_tokens scenario.now ending.now) scenario.now.servers)) }
{
    for server in scenario.servers.as_slice() {
        put_server(out, scenario, ending, server)?;
    }
    Ok(())
}

#[tactic(auto, using(crate::proofs::TokenLemmas::text_append))]
fn put_server(
    out: &mut Vec<u8>,
    scenario: &Scenario,
    ending: &Ending,
    server: &ServerDecl,
) -> Result<(), NoMemory>
    ensures { OnOk result
        (out.new.items ≡ out.old.items ++ text_of (server_tokens scenario.now ending.now server.now)) }
{
    for item in server.items.as_slice() {
        put_item_line(out, scenario, ending, server.name.bytes(), *item)?;
    }
    Ok(())
}

fn put_item_line(
    out: &mut Vec<u8>,
    scenario: &Scenario,
    ending: &Ending,
    server: &[u8],
    item: ItemId,
) -> Result<(), NoMemory>
    ensures { OnOk result
        (out.new.items ≡ out.old.items ++ text_of (item_tokens scenario.now ending.now server.now item)) }
{
    put(out, b"item ")?;
    put(out, server)?;
    put_byte(out, b' ')?;
    put_item(out, scenario, item)?;
    put_byte(out, b' ')?;
    put_value(out, ending, item)?;
    put_byte(out, b'\n')
}

fn put_value(out: &mut Vec<u8>, ending: &Ending, item: ItemId) -> Result<(), NoMemory>
    ensures { OnOk result (out.new.items ≡ out.old.items ++ value_word ending.now item) }
{
    match ending.values.get(item.0 as usize) {
        None => Ok(()),
        Some(value) => put_number(out, *value),
    }
}

fn put_quiet(out: &mut Vec<u8>, ending: &Ending) -> Result<(), NoMemory>
    ensures { OnOk result (out.new.items ≡ out.old.items ++ text_of (quiet_tokens ending.now)) }
{
    put(out, b"quiet ")?;
    put_number(out, ending.steps)?;
    put_byte(out, b' ')?;
    put_number(out, ending.mails)?;
    put_byte(out, b'\n')
}

/// Facts and an ending can be read back from their report: two printable pairs with one text are equal, for a valid scenario whose
/// names are spelled as names, and where no credential is called `none`, which stands in a report where a proof uses no credential.
/// Its body is empty: a law that only a definition states could stay unproved.
pub fn reports_tell_one_history()
    ensures { TellsOneHistory }
{}
