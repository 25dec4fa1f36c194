// The reading of a patch on a chart: the nearest shade, and the nearest mix of two neighbours.
ghost use Rattle.std.specs.Prelude.{◌≡◌, ℕ, [], ◌∷◌, ◌+◌, ◌-◌, ◌*◌, ◌/◌, ◌%◌, ◌≤◌, ◌<◌, length};
ghost use Rattle.colorimetry.specs.Charts.{bad_chart, square_of, distance, shade_at, mix_at, shade_off, candidate_off, chart_call, chart_reply, ChartGiven};
ghost use Rattle.colorimetry.specs.Inner.Search.{channel, Least};

use crate::mix::mix;
use crate::patch::patch_mean;
use laws::{Refusal, outside};
use reconstruction::Rectangle;

// A mix of two neighbours: the index of the first, and the weight of the second in sixteenths.
#[derive(Clone, Copy, PartialEq, Eq, Debug)]
pub struct Between {
    pub first: usize,
    pub weight: usize,
}

// What `chart_reading` gives where it accepts: the nearest shade by its index, counted from 0, and the nearest mix, each with its sum of squared
// differences, beside the patch's whole-number mean and its number of pixels. None and zeros where the patch is nothing: "Where the patch is
// nothing, so are both answers" is document 02's rule, and what isn't given is 0. The numbers stand beside the Options and not in them, since
// `ChartReply` of specs/Charts has these parts, and so has C's struct.
#[derive(Clone, Copy, PartialEq, Eq, Debug)]
pub struct ChartReading {
    pub nearest: Option<usize>,
    pub between: Option<Between>,
    pub nearest_off: u32,
    pub between_off: u32,
    pub whole: [u8; 3],
    pub pixels: usize,
}

// How many weights a pair of neighbours has, 0 to 16.
const WEIGHTS: usize = 17;

// Refusal 20's test: not 2 to 24 shades of three bytes, or bytes over.
#[tactic(auto, unfolding(crate::specs::Charts::bad_chart))]
fn bad_chart(len: usize) -> bool
    ensures { result ≡ bad_chart len }
{
    len % 3 != 0 || outside(2, 24, len / 3)
}

// The square of the difference of two bytes.
#[tactic(auto, unfolding(crate::specs::Charts::square_of))]
fn square(a: u8, b: u8) -> u32
    ensures { (result ≡ square_of a b) × (result ≤ 65025) }
{
    let d = u32::from(a.abs_diff(b));
    d * d
}

// The sum of the squared differences of two colours.
#[tactic(auto, unfolding(crate::specs::Charts::distance))]
fn sum_of_squares(a: [u8; 3], b: [u8; 3]) -> u32
    ensures { result ≡ distance (channel a) (channel b) }
{
    square(a[0], b[0]) + square(a[1], b[1]) + square(a[2], b[2])
}

// Shade i of a chart.
#[tactic(auto, unfolding(crate::specs::Charts::shade_at))]
fn shade(chart: &[u8], i: usize) -> [u8; 3]
    requires { (3 * i + 3 ≤ length chart.now) × (i < 24) }
    ensures { result ≡ shade_at chart.now i 0 ∷ shade_at chart.now i 1 ∷ shade_at chart.now i 2 ∷ [] }
{
    let at = 3 * i;
    [chart[at], chart[at + 1], chart[at + 2]]
}

// The mix of shade i and the one behind it.
#[tactic(auto, unfolding(crate::specs::Charts::mix_at))]
fn mixed(chart: &[u8], i: usize, weight: usize) -> [u8; 3]
    requires { (3 * i + 6 ≤ length chart.now) × (i < 23) × (weight ≤ 16) }
    ensures { result ≡ mix_at chart.now i weight 0 ∷ mix_at chart.now i weight 1 ∷ mix_at chart.now i weight 2 ∷ [] }
{
    let a = shade(chart, i);
    let b = shade(chart, i + 1);
    [
        mix(weight, a[0], b[0]),
        mix(weight, a[1], b[1]),
        mix(weight, a[2], b[2]),
    ]
}

// How far shade i is from a colour.
#[tactic(auto, unfolding(crate::specs::Charts::shade_off, crate::specs::Charts::distance))]
fn shade_off(chart: &[u8], i: usize, colour: [u8; 3]) -> u32
    requires { (3 * i + 3 ≤ length chart.now) × (i < 24) }
    ensures { result ≡ shade_off chart.now colour i }
{
    sum_of_squares(shade(chart, i), colour)
}

// How far candidate q is from a colour: the pair q / 17 at the weight q % 17, so that the candidates stand in the order of pairs and,
// within a pair, of weights.
#[tactic(auto, unfolding(crate::specs::Charts::candidate_off, crate::specs::Charts::mix_off, crate::specs::Charts::distance))]
fn candidate_off(chart: &[u8], q: usize, colour: [u8; 3]) -> u32
    requires { (3 * (q / 17) + 6 ≤ length chart.now) × (q < 391) }
    ensures { result ≡ candidate_off chart.now colour q }
{
    sum_of_squares(mixed(chart, q / WEIGHTS, q % WEIGHTS), colour)
}

// What a search found: the first among the least, and how far it is.
#[derive(Clone, Copy)]
struct Found {
    index: usize,
    off: u32,
}

// The first of n candidates that is least far, where `off` says how far one is.
fn first_nearest<F: Fn(usize) -> u32>(n: usize, off: F) -> Found
    requires some { 1 ≤ n }
    requires callable { (i : ℕ) → i < n → F.pre off i }
    ensures { (d : ℕ → ℕ) → ((i x : ℕ) → i < n → F.post off i x → x ≡ d i) → Least d n result.index result.off }
{
    let mut found = Found {
        index: 0,
        off: off(0),
    };
    for i in 1..n {
        let next = off(i);
        if next < found.off {
            found = Found {
                index: i,
                off: next,
            };
        }
    }
    found
}

// The first of the n shades that is least far from a colour.
fn nearest_shade(chart: &[u8], n: usize, colour: [u8; 3]) -> Found
    requires { (1 ≤ n) × (n ≤ 24) × (3 * n ≤ length chart.now) }
    ensures { Least (shade_off chart.now colour) n result.index result.off }
{
    first_nearest(n, |i| shade_off(chart, i, colour))
}

// The first of the candidates between n shades that is least far from a colour.
fn nearest_mix(chart: &[u8], n: usize, colour: [u8; 3]) -> Found
    requires { (2 ≤ n) × (n ≤ 24) × (3 * n ≤ length chart.now) }
    ensures { Least (candidate_off chart.now colour) (17 * (n - 1)) result.index result.off }
{
    first_nearest(WEIGHTS * (n - 1), |q| candidate_off(chart, q, colour))
}

// The reading of a patch on a chart of 2 to 24 shades, three bytes each and no byte over: the index of the nearest shade, and the pair of
// neighbours and the weight whose mix is nearest. Refusal 20, then those of `patch_mean`.
pub fn chart_reading(
    chart: &[u8],
    rectangle: Rectangle,
    w: usize,
    h: usize,
    rgb: &[u8],
) -> Result<ChartReading, Refusal>
    ensures { ChartGiven (chart_call chart.now rectangle w h rgb.now) (chart_reply result) }
{
    if bad_chart(chart.len()) {
        return Err(Refusal::BadChart);
    }
    let p = patch_mean(rectangle, w, h, rgb)?;
    if p.pixels == 0 {
        return Ok(ChartReading {
            nearest: None,
            between: None,
            nearest_off: 0,
            between_off: 0,
            whole: [0; 3],
            pixels: 0,
        });
    }
    let n = chart.len() / 3;
    let whole = p.whole;
    let shade = nearest_shade(chart, n, whole);
    let mix = nearest_mix(chart, n, whole);
    Ok(ChartReading {
        nearest: Some(shade.index),
        between: Some(Between {
            first: mix.index / WEIGHTS,
            weight: mix.index % WEIGHTS,
        }),
        nearest_off: shade.off,
        between_off: mix.off,
        whole,
        pixels: p.pixels,
    })
}
