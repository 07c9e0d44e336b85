// Numbers for the migration log (document 02, W13): a controller's totals since the device was made, of units newly marked, reported and dropped, for each of
// eight controllers; and their sums over controllers. A log stands beside the device record, and is made with the device.
//
// The contracts cite specs/; that totals kept so are those of the rules is in proofs/.
#![tactic(auto)]

ghost use Rattle.std.specs.Prelude.{◌≡◌, ◌<◌};
ghost use Rattle.log_numbers.specs.Log.{empty_log, added_to, booked_at};
ghost use Rattle.log_numbers.specs.Sums.{no_sums, plus_in, summed_with};

// A controller's units newly marked, reported and dropped.
#[derive(Clone, Copy)]
pub struct Totals {
    pub marked: u64,
    pub reported: u64,
    pub dropped: u64,
}

// A controller's account: its totals; none, as all three are unknown, once one would have passed 2^64 - 1.
#[derive(Clone, Copy)]
pub struct Account {
    pub totals: Option<Totals>,
}

// The accounts stand in the order of the controllers' identifiers in the settings.
#[derive(Clone, Copy)]
pub struct Log {
    pub accounts: [Account; 8],
}

// ---- totals

// The log of a new device: nothing was marked, reported or dropped.
pub fn empty() -> Log
    ensures { result ≡ empty_log }
{
    let nothing = Totals {
        marked: 0,
        reported: 0,
        dropped: 0,
    };
    let account = Account {
        totals: Some(nothing),
    };
    Log {
        accounts: [account; 8],
    }
}

// Totals with so many units more. Where one of the three would pass 2^64 - 1 all are unknown, and they stay so.
pub fn added(t: Option<Totals>, marked: u64, reported: u64, dropped: u64) -> Option<Totals>
    ensures { result ≡ added_to t marked reported dropped }
{
    let was = t?;
    let marked = was.marked.checked_add(marked)?;
    let reported = was.reported.checked_add(reported)?;
    let dropped = was.dropped.checked_add(dropped)?;
    Some(Totals {
        marked,
        reported,
        dropped,
    })
}

// A log with so many units more in the account at place i. Every other account stays as it was.
pub fn booked(l: Log, i: usize, marked: u64, reported: u64, dropped: u64) -> Log
    requires { i < 8 }
    ensures { result ≡ booked_at l i marked reported dropped }
{
    let was = l.accounts[i];
    let totals = added(was.totals, marked, reported, dropped);
    let mut e = l;
    e.accounts[i] = Account { totals };
    e
}

// ---- sums over controllers

// The sums of the three totals, each by itself: none, as it is unknown, once it holds an unknown or would have passed 2^64 - 1.
#[derive(Clone, Copy)]
pub struct Sums {
    pub marked: Option<u64>,
    pub reported: Option<u64>,
    pub dropped: Option<u64>,
}

// The sums over no controller.
pub fn no_sums() -> Sums
    ensures { result ≡ no_sums }
{
    Sums {
        marked: Some(0),
        reported: Some(0),
        dropped: Some(0),
    }
}

// A sum with n more. Where it would pass 2^64 - 1 it is unknown, and it stays so.
fn plus(s: Option<u64>, n: u64) -> Option<u64>
    ensures { result ≡ plus_in s n }
{
    s?.checked_add(n)
}

// The sums with one controller's totals more. Totals that are unknown make all three unknown.
pub fn summed(s: Sums, t: Option<Totals>) -> Sums
    ensures { result ≡ summed_with s t }
{
    let Some(t) = t else {
        return Sums {
            marked: None,
            reported: None,
            dropped: None,
        };
    };
    let marked = plus(s.marked, t.marked);
    let reported = plus(s.reported, t.reported);
    let dropped = plus(s.dropped, t.dropped);
    Sums {
        marked,
        reported,
        dropped,
    }
}
