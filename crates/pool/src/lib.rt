// The pool: 256 lent words of marks, of which each tracked controller has a share. `pack` moves the shares together, from
// bit 0 on in the order of the controllers, and leaves one of them clear; `new_bases` says where each then begins.
//
// The contracts cite specs/ of this crate and of `bits`; the laws that a caller's proof needs are in proofs/Pool.antt.
#![tactic(auto)]

ghost use Rattle.std.specs.Prelude.{◌≡◌, length, ◌^◌, ◌<◌};
ghost use Rattle.bits.specs.Flat.{flat};
ghost use Rattle.pool.specs.Pool.{packed, new_base, new_bases, Packs};

// Where each share begins once packed: behind the shares of the places before it.
pub fn new_bases(sizes: [usize; 8]) -> [usize; 8]
    requires { new_base sizes 8 < 2 ^ 64 }
    ensures { result ≡ new_bases sizes }
{
    let mut bases = [0usize; 8];
    let mut to: usize = 0;
    for i in 0..8 {
        bases[i] = to;
        to += sizes[i];
    }
    bases
}

// Packs the shares from bit 0 on in the order of their places; the share at place `clear` is all clear, and so is
// every bit behind the last share. With `clear` at 8 or above every share is kept. A share that is kept and has bits must
// lie within the words, and all of them together must fit there; one with no bits may begin anywhere.
pub fn pack(marks: &mut [u64], bases: [usize; 8], sizes: [usize; 8], clear: usize)
    requires { (length marks.old ≡ 256) × Packs (flat marks.old) bases sizes clear }
    ensures { flat marks.new ≡ packed (flat marks.old) bases sizes clear }
{
    let mut new = [0u64; 256];
    let mut to: usize = 0;
    for i in 0..8 {
        let from = bases[i];
        let n = sizes[i];
        if i != clear && 0 < n {
            bits::copy_span(&mut new, to, marks, from, n);
        }
        to += n;
    }
    marks.copy_from_slice(&new);
}
