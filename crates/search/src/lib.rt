// The search for the next pending unit, for a C program that times it (`bench/`).
#![tactic(auto)]

ghost use Rattle.std.specs.Prelude.{◌≡◌, true};
ghost use Rattle.bits.specs.Flat.{flat};
ghost use Rattle.bits.specs.Next.{next};

// The least place from `from` below `to` that is pending, or `to` where none is.
#[unsafe(no_mangle)]
pub extern "C" fn tmc_next_set(words: &[u64], from: u64, to: u64) -> u64
    ensures { result ≡ next true (flat words.now) from to }
{
    bits::next_set(words, from as usize, to as usize) as u64
}
