// The call that makes a device: fresh. Its contract is an equation with `fresh_change` of the calls: it says every returned value, every field of the
// record and every word of the marks afterwards.
#![tactic(auto)]

ghost use Rattle.std.specs.Prelude.{◌≡◌, replicate};
ghost use Rattle.std.specs.declared.option.Option.TheVariants.{None};
ghost use Rattle.rules.specs.Refusals.{refusal};
ghost use Rattle.rules.specs.Order.{fresh_order};
ghost use Rattle.rules.specs.Device.{fresh_controller, closed_device, fresh_of};
ghost use Rattle.calls.specs.Calls.{fresh_change};
ghost use Rattle.calls.specs.Inner.{changed_by};

use calls::Changed;
use rules::{Controller, Device, MARK_WORDS, Refusal, Settings, Tracking};

// A device of these settings on which nobody is tracked or suspended, no state is under way, and no queue is made.
fn untracked(s: Settings) -> Device
    ensures { result ≡ record { settings = s; controllers = replicate 8 fresh_controller; sequence = None } }
{
    Device {
        settings: s,
        controllers: [Controller {
            tracking: Tracking::Off,
            manager: 0,
            base: 0,
            suspended: false,
            ranges: rules::no_ranges(),
            queue: None,
        }; 8],
        sequence: None,
    }
}

// The device of a refused fresh.
pub fn closed() -> Device
    ensures { result ≡ closed_device }
{
    untracked(settings::no_settings())
}

// What a fresh makes on marks of so many words, however they are held.
pub fn try_fresh(s: Settings, words: usize) -> Result<Device, Refusal>
    ensures { changed_by closed_device result ≡ record { number = refusal (fresh_order s words); device = fresh_of s words } }
{
    if !settings::settings_ok(s) {
        return Err(Refusal::Settings);
    }
    if words != MARK_WORDS {
        return Err(Refusal::Unsound);
    }
    Ok(untracked(settings::clean(s)))
}

// What a fresh answers on marks of so many words, however they are held: the refusal, and the device.
pub fn made(s: Settings, words: usize) -> Changed
    ensures { result ≡ record { number = refusal (fresh_order s words); device = fresh_of s words } }
{
    calls::changed_by(closed(), try_fresh(s, words))
}

// Makes a fresh device from settings: all marks are 0, nobody is tracked or suspended. Refused, in this order: 16 settings that break the rules, 1
// marks of another number of words; then the device is closed, all zeros, and answers 1 to every call.
pub fn fresh(s: Settings, marks: &mut [u64]) -> Changed
    ensures { (result ≡ (fresh_change s marks.old).answer) × (marks.new ≡ (fresh_change s marks.old).marks) }
{
    let answer = made(s, marks.len());
    if answer.number != 0 {
        return answer;
    }
    bits::clear_span(marks, 0, 64 * MARK_WORDS);
    answer
}
