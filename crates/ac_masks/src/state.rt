//! Steps of all rows from a band to the next (A/52 7.2.2.4, 7.2.2.5). Leaks and excitations stand raised by 4096.
ghost use Rattle.std.specs.Prelude.{◌≡◌, ◌≤◌, ◌<◌, ◌+◌, ◌-◌, ℕ, slice_index, if◌then◌else◌, nat_le};
ghost use Rattle.ac_alloc.specs.Excitation.{lowcomp};
ghost use Rattle.ac_masks.specs.Adding.{most_sum};
ghost use Rattle.ac_masks.specs.Steps.{leak_step, excite_step, base_step};

#[inline]
#[tactic(auto, unfolding(ac_alloc::specs::Excitation::lowcomp))]
fn compensated(low: u16, here: u16, next: u16, b: usize) -> u16
    requires band { b < 20 }
    requires here { here ≤ most_sum }
    ensures { result ≡ lowcomp low here next b }
{
    if here + 256 == next {
        if b < 7 { 384 } else { 320 }
    } else if next < here {
        low.saturating_sub(64)
    } else {
        low
    }
}

/// The compensation of a band below 20 by that of the band before, its density and the next band's.
pub(crate) fn compensate(low: &mut [u16; 64], here: &[u16; 64], next: &[u16; 64], b: usize)
    requires band { b < 20 }
    requires here { (l : ℕ) → l < 64 → slice_index here.now l ≤ most_sum }
    ensures { (l : ℕ) → l < 64
        → slice_index low.new l ≡ lowcomp (slice_index low.old l) (slice_index here.now l) (slice_index next.now l) b }
{
    for l in 0..64usize {
        low[l] = compensated(low[l], here[l], next[l], b);
    }
}

#[inline]
#[tactic(auto, unfolding(ac_alloc::specs::Excitation::lowcomp))]
fn faded(low: u16) -> u16
    ensures { (here next b : ℕ) → 20 ≤ b → result ≡ lowcomp low here next b }
{
    low.saturating_sub(128)
}

/// The compensation of a band from 20 on.
pub(crate) fn fade(low: &mut [u16; 64])
    ensures { (l : ℕ) → l < 64 → (here next b : ℕ) → 20 ≤ b → slice_index low.new l ≡ lowcomp (slice_index low.old l) here next b }
{
    for l in 0..64usize {
        low[l] = faded(low[l]);
    }
}

#[inline]
fn begun(begin: u16, here: u16, next: u16, behind: u16) -> u16
    ensures { result ≡ (if nat_le here next then behind else begin) }
{
    if here <= next { behind } else { begin }
}

/// Where the leaks begin: behind a band that is at most the next, else where they did so far.
pub(crate) fn begin_behind(begin: &mut [u16; 64], here: &[u16; 64], next: &[u16; 64], behind: u16)
    ensures { (l : ℕ) → l < 64
        → slice_index begin.new l ≡ (if nat_le (slice_index here.now l) (slice_index next.now l) then behind else slice_index begin.old l) }
{
    for l in 0..64usize {
        begin[l] = begun(begin[l], here[l], next[l], behind);
    }
}

#[inline]
fn leaked(leak: u16, begin: u16, b: u16, density: u16, gain: u16, decay: u16) -> u16
    requires density { density ≤ most_sum }
    requires gain { gain ≤ 2000 }
    requires leak { leak ≤ 9648 }
    ensures value { result ≡ leak_step leak begin b density gain decay }
    ensures bound { result ≤ 9648 }
{
    let before = if begin <= b {
        leak.saturating_sub(decay)
    } else {
        0
    };
    before.max(density + (4096 - gain))
}

/// A leak at band b.
pub(crate) fn leak_on(
    leak: &mut [u16; 64],
    begin: &[u16; 64],
    b: u16,
    density: &[u16; 64],
    gain: u16,
    decay: u16,
)
    requires density { (l : ℕ) → l < 64 → slice_index density.now l ≤ most_sum }
    requires gain { gain ≤ 2000 }
    requires leak { (l : ℕ) → l < 64 → slice_index leak.old l ≤ 9648 }
    ensures bounds { (l : ℕ) → l < 64 → slice_index leak.new l ≤ 9648 }
    ensures values { (l : ℕ) → l < 64 → slice_index leak.new l
        ≡ leak_step (slice_index leak.old l) (slice_index begin.now l) b (slice_index density.now l) gain decay }
{
    for l in 0..64usize {
        leak[l] = leaked(leak[l], begin[l], b, density[l], gain, decay);
    }
}

#[inline]
fn excited(fast: u16, slow: u16, low: u16, begin: u16, b: u16) -> u16
    requires fast { fast ≤ 9648 }
    requires slow { slow ≤ 9648 }
    ensures value { result ≡ excite_step fast slow low begin b }
    ensures bound { result ≤ 9648 }
{
    let lowered = fast.saturating_sub(low);
    if begin <= b {
        lowered.max(slow)
    } else {
        lowered
    }
}

/// The excitation of band b.
pub(crate) fn excite(
    fast: &[u16; 64],
    slow: &[u16; 64],
    low: &[u16; 64],
    begin: &[u16; 64],
    b: u16,
    out: &mut [u16; 64],
)
    requires fast { (l : ℕ) → l < 64 → slice_index fast.now l ≤ 9648 }
    requires slow { (l : ℕ) → l < 64 → slice_index slow.now l ≤ 9648 }
    ensures bounds { (l : ℕ) → l < 64 → slice_index out.new l ≤ 9648 }
    ensures values { (l : ℕ) → l < 64 → slice_index out.new l
        ≡ excite_step (slice_index fast.now l) (slice_index slow.now l) (slice_index low.now l) (slice_index begin.now l) b }
{
    for l in 0..64usize {
        out[l] = excited(fast[l], slow[l], low[l], begin[l], b);
    }
}

#[inline]
fn base(excite: u16, density: u16, knee: u16, threshold: u16) -> u16
    requires excite { excite ≤ 9648 }
    requires knee { knee ≤ 2816 }
    requires threshold { threshold ≤ 2112 }
    ensures bound { result ≤ 2232 }
    ensures value { result ≡ base_step excite density knee threshold }
{
    let grown = excite + knee.saturating_sub(density) / 4;
    2232u16.saturating_sub((grown.max(threshold + 4096) - 1088) / 4)
}

/// The bases of a band by its excitations, in place.
pub(crate) fn rebase(out: &mut [u16; 64], density: &[u16; 64], knee: u16, threshold: u16)
    requires excite { (l : ℕ) → l < 64 → slice_index out.old l ≤ 9648 }
    requires knee { knee ≤ 2816 }
    requires threshold { threshold ≤ 2112 }
    ensures bounds { (l : ℕ) → l < 64 → slice_index out.new l ≤ 2232 }
    ensures values { (l : ℕ) → l < 64 → slice_index out.new l ≡ base_step (slice_index out.old l) (slice_index density.now l) knee threshold }
{
    for l in 0..64usize {
        out[l] = base(out[l], density[l], knee, threshold);
    }
}
