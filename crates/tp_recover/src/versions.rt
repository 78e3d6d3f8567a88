//! The versions that a log tells.
ghost use Rattle.std.specs.Prelude.{◌≡◌};
ghost use Rattle.tp_recover.specs.Kept as rule;

use tp_types::{List, Version};

fn version_at(newest: &List<Version>, admin: usize) -> Version
    ensures { result ≡ rule.version_at newest.now admin }
{
    match newest.get(admin) {
        None => Version(1),
        Some(version) => *version,
    }
}

/// Of the version known of an administrator and of one that is told the greater is known from now on.
pub fn tell(newest: &mut List<Version>, admin: usize, version: Version)
    ensures { newest.new ≡ rule.with_told newest.old admin version }
{
    let known = version_at(newest, admin);
    let greater = Version(known.0.max(version.0));
    newest.put(admin, greater);
}

/// The same of each administrator, where a list tells one version of each.
pub fn tell_all(newest: &mut List<Version>, told: &[Version])
    ensures { newest.new ≡ rule.with_all_told newest.old told.now }
{
    for (admin, version) in told.iter().enumerate() {
        tell(newest, admin, *version);
    }
}
