// Marks: lent 64-bit words seen as one flat list of bits, the lowest bit of word 0 first. A set bit is a pending
// unit. A place counts over all the words, and every function but `copy_span` takes any place: past the words all is clear,
// and stays so.
//
// The contracts cite specs/; the laws that a caller's proof needs are in proofs/, in files of the same names.
#![tactic(auto)]

ghost use Rattle.std.specs.Prelude.{◌≡◌, true, false, get_or, drop, ◌+◌, ◌-◌, ◌*◌, ◌^◌, ◌<◌, ◌≤◌, min};
ghost use Rattle.bits.specs.Flat.{digits, flat};
ghost use Rattle.bits.specs.Span.{fill, clears};
ghost use Rattle.bits.specs.Next.{next};
ghost use Rattle.bits.specs.Share.{Holds, get_share, put_share};
ghost use Rattle.bits.specs.Pack.{word_of};
ghost use Rattle.bits.specs.Count.{marks_set};

// A word with n ones from bit b up.
fn mask(b: usize, n: usize) -> u64
    requires { (0 < n) × (b + n ≤ 64) }
    ensures { result ≡ (2 ^ n - 1) * 2 ^ b }
{
    (u64::MAX >> (64 - n)) << b
}

// The lowest bit of w from bit b up that is `want`, or 64 where none is.
fn low_from(w: u64, want: bool, b: usize) -> usize
    requires { b < 64 }
    ensures { result ≡ next want (digits 64 w) b 64 }
{
    let m = mask(b, 64 - b);
    if want {
        return (w & m).trailing_zeros() as usize;
    }
    (!w & m).trailing_zeros() as usize
}

// The least place from `from` below `to` whose bit is `want`, or `to` where none is. Past the words all is clear. From the
// word of `from` to that of the last place, each word is read once and its 64 marks are looked at together.
fn search(words: &[u64], want: bool, from: usize, to: usize) -> usize
    ensures { result ≡ next want (flat words.now) from to }
{
    if to <= from {
        return to;
    }
    let last = (to - 1) / 64;
    // Behind the first word all bits are looked at: to work out the first one anew for each word takes twice the time.
    let mut b = from % 64;
    for i in from / 64..words.len().min(last + 1) {
        let z = low_from(words[i], want, b);
        if z != 64 {
            return to.min(64 * i + z);
        }
        b = 0;
    }
    if want || last < words.len() {
        return to;
    }
    from.max(64 * words.len())
}

// The least place from `from` below `to` that is pending, or `to` where none is. Past the words none is.
pub fn next_set(words: &[u64], from: usize, to: usize) -> usize
    ensures { result ≡ next true (flat words.now) from to }
{
    search(words, true, from, to)
}

// The least place from `from` below `to` that is clear, or `to` where none is. Past the words all are.
pub fn next_clear(words: &[u64], from: usize, to: usize) -> usize
    ensures { result ≡ next false (flat words.now) from to }
{
    search(words, false, from, to)
}

// Makes the places from `from` below `to` pending, 64 at a time, and answers how many of them were clear before. No
// other place changes. Places past the words are passed over and not counted. With `to` at or below `from` nothing is
// done, and the answer is 0.
pub fn mark_span(words: &mut [u64], from: usize, to: usize) -> usize
    ensures bits { flat words.new ≡ fill true (flat words.old) from (to - from) }
    ensures count { result ≡ clears (flat words.old) from (to - from) }
{
    if to <= from {
        return 0;
    }
    let mut n = 0;
    for i in from / 64..words.len().min((to - 1) / 64 + 1) {
        let b = from.saturating_sub(64 * i);
        let m = mask(b, (to - 64 * i).min(64) - b);
        let w = words[i];
        n += (!w & m).count_ones() as usize;
        words[i] = w | m;
    }
    n
}

// Makes the places from `from` below `to` clear, 64 at a time. No other place changes. Places past the words are
// passed over. With `to` at or below `from` nothing is done.
pub fn clear_span(words: &mut [u64], from: usize, to: usize)
    ensures { flat words.new ≡ fill false (flat words.old) from (to - from) }
{
    if to <= from {
        return;
    }
    for i in from / 64..words.len().min((to - 1) / 64 + 1) {
        let b = from.saturating_sub(64 * i);
        let m = mask(b, (to - 64 * i).min(64) - b);
        words[i] &= !m;
    }
}

// How many of the places from `from` below `to` are pending, counted 64 at a time. Past the words none is. With `to` at or below `from` the answer is 0.
pub fn count_span(words: &[u64], from: usize, to: usize) -> usize
    ensures { result ≡ marks_set (get_share (flat words.now) from (to - from)) }
{
    if to <= from {
        return 0;
    }
    let mut n = 0;
    for i in from / 64..words.len().min((to - 1) / 64 + 1) {
        let b = from.saturating_sub(64 * i);
        let m = mask(b, (to - 64 * i).min(64) - b);
        n += (words[i] & m).count_ones() as usize;
    }
    n
}

// Word i, or 0 past the words.
fn word_at(words: &[u64], i: usize) -> u64
    ensures { result ≡ get_or words.now i 0 }
{
    words.get(i).copied().unwrap_or(0)
}

// The 64 places from k on as one word, the lowest bit place k. Past the words all is clear.
fn window(words: &[u64], k: usize) -> u64
    ensures { result ≡ word_of 64 (drop k (flat words.now)) }
{
    let i = k / 64;
    let b = k % 64;
    let low = word_at(words, i) >> b;
    if b == 0 {
        return low;
    }
    let high = word_at(words, i + 1) << (64 - b);
    low | high
}

// Copies n places, those of `src` from `from` on, to `dst` from `to` on, up to 64 at a time. No other place changes. The
// places must be there, in `src` and in `dst`.
pub fn copy_span(dst: &mut [u64], to: usize, src: &[u64], from: usize, n: usize)
    requires { Holds dst.old to n × Holds src.now from n }
    ensures { flat dst.new ≡ put_share (flat dst.old) to (get_share (flat src.now) from n) }
{
    if n == 0 {
        return;
    }
    for i in to / 64..(to + n - 1) / 64 + 1 {
        let b = to.saturating_sub(64 * i);
        let m = mask(b, (to + n - 64 * i).min(64) - b);
        let v = window(src, from + (64 * i + b - to)) << b;
        dst[i] = (dst[i] & !m) | (v & m);
    }
}
