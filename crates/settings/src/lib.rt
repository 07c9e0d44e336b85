// Checks of the settings: rule 16, with one or two managers (document 02, W12), where an identifier stands, and which granularities they allow (document 01, "Settings and
// sizes"); and their unused places made zeros.
#![tactic(auto)]

ghost use Rattle.std.specs.Prelude.{◌≡◌, ◌≤◌, min, drop};
ghost use Rattle.rules.specs.Lists.{different, member, every};
ghost use Rattle.rules.specs.Settings.{identifiers_of, second_rules, settings_ok, is_manager, second_limit, limit_of, place_of, granularity_ok};
ghost use Rattle.rules.specs.Device.{cleaned, closed_settings};

use rules::{Second, Settings};

// Where an identifier stands in the settings: the earliest place, or nothing.
pub fn find(s: Settings, id: u16) -> Option<usize>
    ensures { result ≡ place_of s id }
{
    for i in 0..s.count.min(8) {
        if s.identifiers[i] == id {
            return Some(i);
        }
    }
    None
}

// Whether `x` is among the identifiers from a place on.
fn among(s: Settings, x: u16, from: usize) -> bool
    requires { s.count ≤ 8 }
    ensures { result ≡ member x (drop from (identifiers_of s)) }
{
    let n = s.count;
    for i in from..n {
        if s.identifiers[i] == x {
            return true;
        }
    }
    false
}

// Whether no two identifiers are equal.
fn all_different(s: Settings) -> bool
    requires { s.count ≤ 8 }
    ensures { result ≡ different (identifiers_of s) }
{
    let n = s.count;
    for i in 0..n {
        if among(s, s.identifiers[i], i + 1) {
            return false;
        }
    }
    true
}

// Whether there is no second manager, or it is another than the first, not among the controllers, and its limit passes.
fn second_ok(s: Settings) -> bool
    requires { s.count ≤ 8 }
    ensures { result ≡ every (second_rules s s.second) }
{
    let Some(two) = s.second else {
        return true;
    };
    two.id != s.manager && two.limit <= 128 && !among(s, two.id, 0)
}

// Whether settings pass 16. The cheap rules are asked first; which one is broken makes no difference.
pub fn settings_ok(s: Settings) -> bool
    ensures { result ≡ settings_ok s }
{
    1 <= s.count
        && s.count <= 8
        && s.least <= s.greatest
        && s.greatest <= 20
        && s.limit <= 128
        && s.shelf <= 128
        && second_ok(s)
        && !among(s, s.manager, 0)
        && all_different(s)
}

// Whether an identifier is a manager's.
pub fn is_manager(s: Settings, m: u16) -> bool
    ensures { result ≡ is_manager s m }
{
    m == s.manager || s.second.is_some_and(|two| two.id == m)
}

// The limit of a second manager, 0 where there is none.
pub fn second_limit(second: Option<Second>) -> u16
    ensures { result ≡ second_limit second }
{
    second.map_or(0, |two| two.limit)
}

// The limit of a manager.
pub fn limit_of(s: Settings, m: u16) -> u16
    ensures { result ≡ limit_of s m }
{
    if m == s.manager {
        s.limit
    } else {
        second_limit(s.second)
    }
}

// Whether a granularity passes 7: not below the settings' least, and not above their greatest.
pub fn granularity_ok(s: Settings, g: u8) -> bool
    ensures { result ≡ granularity_ok s g }
{
    s.least <= g && g <= s.greatest
}

// No settings: zeros in all fields.
pub fn no_settings() -> Settings
    ensures { result ≡ closed_settings }
{
    Settings {
        manager: 0,
        least: 0,
        greatest: 0,
        powers: false,
        limit: 0,
        second: None,
        shelf: 0,
        count: 0,
        identifiers: [0; 8],
    }
}

// Settings with zeros in the places that are not in use.
pub fn clean(s: Settings) -> Settings
    requires { s.count ≤ 8 }
    ensures { result ≡ cleaned s }
{
    let mut t = s;
    t.identifiers[s.count..].fill(0);
    t
}
