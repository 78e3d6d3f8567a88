//! The whole scenario.
ghost use Rattle.std.specs.Prelude.{◌≡◌, ◌∷◌, []};
ghost use Rattle.tp_json.specs.View.{view};
ghost use Rattle.tp_scenario.specs.Values.{object_at};
ghost use Rattle.tp_scenario.specs.Walk as walk;
ghost use Rattle.tp_scenario.specs.declared.path.Key.TheVariants as Key;
ghost use Rattle.tp_scenario.specs.declared.path.Path.TheVariants as Path;
ghost use Rattle.tp_scenario.specs.mirrors.Gives.{Gives, GivesAs};

use crate::admins::admins_at;
use crate::creds::creds_at;
use crate::fault::WalkError;
use crate::names::{Declared, Names};
use crate::object::{field, object_at};
use crate::path::{Key, Path};
use crate::scripts::{clients_at, officers_at, publishers_at};
use crate::servers::{Served, servers_at};
use crate::steps::steps_at;
use crate::txns::txns_at;
use crate::values::count_or;
use std::alloc::Global;
use tp_json::Json;
use tp_model::CLOCK_MAX;
use tp_types::{Scenario, both};

fn no_names<'a>(alloc: Global) -> Declared<'a>
    ensures { result ≡ walk.no_names }
{
    Declared {
        admins: Names::new(alloc),
        creds: Names::new(alloc),
        servers: Names::new(alloc),
        items: Names::new(alloc),
        txns: Names::new(alloc),
    }
}

/// The object that a scenario is, with its keys.
fn fields_of<'v, 'a>(value: &'v Json<'a>) -> Result<&'v Json<'a>, WalkError>
    ensures { GivesAs result (λ v. view v.now)
        (object_at Path.Whole
        (Key.Admins ∷ Key.Servers ∷ Key.Transactions ∷ [])
        (Key.Clock ∷ Key.Credentials ∷ Key.Steps ∷ Key.Clients ∷ Key.Publishers ∷ Key.Officers ∷ [])
        (view value.now)) }
{
    object_at(
        Path::Whole,
        &[Key::Admins, Key::Servers, Key::Transactions],
        &[
            Key::Clock,
            Key::Credentials,
            Key::Steps,
            Key::Clients,
            Key::Publishers,
            Key::Officers,
        ],
        value,
    )
}

/// The scenario that a value is, or the first fault in it. What it declares is added to the names, of which there are none so far.
#[tactic(auto, unfolding(crate::specs::Walk::walk_of))]
fn walked_with<'a>(
    alloc: Global,
    names: &mut Declared<'a>,
    value: &Json<'a>,
) -> Result<Scenario, WalkError>
    requires { names.old ≡ walk.no_names }
    ensures { Gives result (walk.walk_of (view value.now)) }
{
    let fields = fields_of(value)?;
    let admins = admins_at(alloc, &mut names.admins, field(fields, Key::Admins));
    let clock = field(fields, Key::Clock);
    let clock = count_or(Path::Top(Key::Clock), 0, CLOCK_MAX, 0, clock);
    let creds = creds_at(alloc, &mut names.creds, field(fields, Key::Credentials));
    let ((admins, clock), creds) = both(both(admins, clock), creds)?;
    let served = servers_at(alloc, admins.as_slice(), names, field(fields, Key::Servers))?;
    let txns = txns_at(alloc, names, field(fields, Key::Transactions));
    let steps = steps_at(alloc, names, field(fields, Key::Steps));
    let clients = clients_at(alloc, &names.txns, field(fields, Key::Clients));
    let publishers = publishers_at(
        alloc,
        names,
        admins.as_slice(),
        field(fields, Key::Publishers),
    );
    let officers = officers_at(alloc, names, field(fields, Key::Officers));
    let listed = both(txns, steps);
    let scripts = both(clients, both(publishers, officers));
    let ((txns, steps), (clients, (publishers, officers))) = both(listed, scripts)?;
    let Served { servers, items } = served;
    Ok(Scenario {
        admins,
        clock,
        creds,
        servers,
        items,
        txns,
        steps,
        clients,
        publishers,
        officers,
    })
}

/// The scenario that a value is, or the first fault in it.
pub(crate) fn walked(alloc: Global, value: &Json) -> Result<Scenario, WalkError>
    ensures { Gives result (walk.walk_of (view value.now)) }
{
    let mut names = no_names(alloc);
    let made = walked_with(alloc, &mut names, value);
    drop(names);
    made
}
