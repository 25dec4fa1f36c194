// Sizes, ratios, axes, sample bytes, maxval and range, and the tests on them. Each test but 5's answers for every number, so that any may be asked first.
ghost use Rattle.std.specs.Prelude.{◌≡◌, cond, ◌*◌, ◌≤◌};
ghost use Rattle.laws.specs.Refusals.{first};
ghost use Rattle.image.specs.Tests.{most_of, div_ceil, bad_size, bad_pair, bad_ratio, bad_samples, bad_range, bad_chroma, bad_siting, tests_for, layout_tests};

use laws::{Axis, Refusal, Siting, outside};

// What samples span: 0 to maxval, or luma 16 to 235 and chroma 16 to 240, as ITU-R BT.601 has it.
#[derive(Clone, Copy, PartialEq, Eq, Debug)]
pub enum Range {
    Full,
    Studio,
}

// The numbers of a picture: w by h pixels, rh by rv of them to as many cells as the axes' numerators say, cw by ch cells, where a sample sits in
// its cell across and down, how it is stored and what it spans.
#[derive(Clone, Copy, PartialEq, Eq, Debug)]
pub struct Layout {
    pub w: usize,
    pub h: usize,
    pub rh: usize,
    pub rv: usize,
    pub cw: usize,
    pub ch: usize,
    pub across: Axis,
    pub down: Axis,
    pub sample_bytes: usize,
    pub maxval: u32,
    pub range: Range,
}

impl Layout {
    // The longest side of a picture, in pixels.
    pub const SIDE: usize = 8_192;

    // The largest ratio, across and down: how many pixels a cell has along one side, or as many cells as the numerator says.
    pub const RATIO: usize = 4;
}

// Inner: the quotient n / r rounded up; 0 for a divisor of 0.
#[tactic(auto, unfolding(crate::specs::Tests::div_ceil))]
pub fn div_ceil(n: usize, r: usize) -> usize
    ensures { result ≡ div_ceil n r }
{
    if r == 0 {
        return 0;
    }
    n.div_ceil(r)
}

// Inner: the largest number that a sample of so many bytes holds: 2^8 - 1 for one byte, 2^16 - 1 for two.
pub fn most(sample_bytes: usize) -> usize
    ensures { result ≡ most_of sample_bytes }
{
    if sample_bytes == 1 { 255 } else { 65_535 }
}

// The largest numerator at ratio r: where ratios are whole it is 1.
fn most_num(whole: bool, r: usize) -> usize
    ensures { result ≡ cond whole 1 r }
{
    if whole { 1 } else { r }
}

// Whether the numerator of an axis over its ratio is none that there is.
fn bad_pair(whole: bool, axis: Axis, r: usize) -> bool
    ensures { result ≡ bad_pair whole axis r }
{
    outside(1, Layout::RATIO, r) || outside(1, most_num(whole, r), axis.num)
}

// How many cells an axis has to n outputs, the last of which may reach past them.
fn cells_to(n: usize, axis: Axis, r: usize) -> usize
    requires { (n ≤ 8192) × (axis.num ≤ 4) }
    ensures { result ≡ div_ceil (n * axis.num) r }
{
    div_ceil(n * axis.num, r)
}

// Inner: refusal 18's test, of a layout and of a pixel by itself. `fixed` says that the fixed kernel fills, which is for full range only.
#[tactic(auto, unfolding(crate::specs::Tests::bad_range))]
pub fn bad_range(range: Range, fixed: bool, maxval: u32) -> bool
    ensures { result ≡ bad_range fixed range maxval }
{
    match range {
        Range::Full => false,
        Range::Studio => fixed || maxval != 255,
    }
}

impl Layout {
    // Inner: refusal 2's test, whether a side is 0 or longer than `Layout::SIDE`.
    #[tactic(auto, unfolding(crate::specs::Tests::bad_size))]
    pub fn bad_size(self) -> bool
        ensures { result ≡ bad_size self }
    {
        outside(1, Layout::SIDE, self.w) || outside(1, Layout::SIDE, self.h)
    }

    // Inner: refusal 3's test, whether a ratio is 0 or larger than `Layout::RATIO`, or its numerator 0 or larger than the ratio. `whole` says that
    // the call takes numerator 1 alone.
    #[tactic(auto, unfolding(crate::specs::Tests::bad_ratio))]
    pub fn bad_ratio(self, whole: bool) -> bool
        ensures { result ≡ bad_ratio whole self }
    {
        bad_pair(whole, self.across, self.rh) || bad_pair(whole, self.down, self.rv)
    }

    // Inner: refusal 4's test on sample bytes and maxval. `fixed` says that the fixed kernel fills, which is for maxval 255 only.
    #[tactic(auto, unfolding(crate::specs::Tests::bad_samples))]
    pub fn bad_samples(self, fixed: bool) -> bool
        ensures { result ≡ bad_samples fixed self }
    {
        let bytes = outside(1, 2, self.sample_bytes);
        // By `as`: no From takes a u32 to a usize.
        let greatest = outside(1, most(self.sample_bytes), self.maxval as usize);
        bytes || greatest || fixed && self.maxval != 255
    }

    // Inner: refusal 5's test, whether the chroma size is other than the rounded-up quotient of size times numerator and ratio. It is asked once 2
    // and 3 are known not to apply, so that no product passes 2^64.
    #[tactic(auto, unfolding(crate::specs::Tests::bad_chroma))]
    pub fn bad_chroma(self) -> bool
        requires { (self.w ≤ 8192) × (self.h ≤ 8192) × (self.across.num ≤ 4) × (self.down.num ≤ 4) }
        ensures { result ≡ bad_chroma self }
    {
        self.cw != cells_to(self.w, self.across, self.rh)
            || self.ch != cells_to(self.h, self.down, self.rv)
    }

    // Inner: refusal 16's test, whether an axis is co-sited, for the calls that take centred chroma alone.
    #[tactic(auto, unfolding(crate::specs::Tests::bad_siting))]
    pub fn bad_siting(self) -> bool
        ensures { result ≡ bad_siting self }
    {
        matches!(self.across.siting, Siting::CoSited) || matches!(self.down.siting, Siting::CoSited)
    }

    // Inner: the first of refusals 2, 3, 4, 18 and 5 that applies, with which open, the calls for planes and fill begin. `whole` says that the call takes
    // numerator 1 alone, `fixed` that the fixed kernel fills. It is made part of each call, where a call of its own takes a fifth of an open.
    #[inline(always)]
    #[tactic(auto, unfolding(laws::specs::Refusals::first, crate::specs::Tests::tests_for))]
    pub fn answer_for(self, whole: bool, fixed: bool) -> Result<(), Refusal>
        ensures { result ≡ first (tests_for whole fixed self) }
    {
        laws::first([
            (self.bad_size(), Refusal::BadSize),
            (self.bad_ratio(whole), Refusal::BadRatio),
        ])?;
        laws::first([
            (self.bad_samples(fixed), Refusal::BadSamples),
            (bad_range(self.range, fixed, self.maxval), Refusal::BadRange),
            (self.bad_chroma(), Refusal::BadChroma),
        ])
    }

    // Inner: the same for a call that takes whole ratios alone.
    pub fn answer(self, fixed: bool) -> Result<(), Refusal>
        ensures { result ≡ first (layout_tests fixed self) }
    {
        self.answer_for(true, fixed)
    }
}
