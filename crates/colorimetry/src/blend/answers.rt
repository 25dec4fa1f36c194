// The checks of a blend, from what the two readers' row calls would answer.
ghost use Rattle.std.specs.Prelude.{◌≡◌};
ghost use Rattle.reconstruction.specs.Geometry.{planes_seen};
ghost use Rattle.reconstruction.specs.Reader.{side_of};
ghost use Rattle.reconstruction.specs.Refusals.{first};
ghost use Rattle.colorimetry.specs.Blends.{same_geometry, unlike_of, blend_call, blend_tests};
ghost use Rattle.colorimetry.specs.Inner.Settled.{is_state, lower_of, settled};

use reconstruction::{Geometry, Planes, Reader, Refusal};

// Whether two geometries have the same sizes, ratios and range. Their phases follow from the ratio where both states are good.
#[tactic(auto, unfolding(crate::specs::Blends::same_geometry, crate::specs::Blends::same_range))]
fn same_geometry(a: Geometry, b: Geometry) -> bool
    ensures { result ≡ same_geometry a b }
{
    let picture = a.w == b.w && a.h == b.h;
    let ratios = a.rh == b.rh && a.rv == b.rv;
    let chroma = a.cw == b.cw && a.ch == b.ch;
    picture && ratios && chroma && a.range == b.range
}

// Refusal 22's test.
#[tactic(auto, unfolding(crate::specs::Blends::unlike_of))]
fn unlike(a: Geometry, b: Geometry, weight: usize) -> bool
    ensures { result ≡ unlike_of a b weight }
{
    !same_geometry(a, b) || weight > 16
}

// Whether an answer is 1, a state that open, seek and row never leave.
fn of_state(answer: Result<(), Refusal>) -> bool
    ensures { result ≡ is_state answer }
{
    match answer {
        Ok(()) => false,
        Err(why) => why == Refusal::BadState,
    }
}

// The lower of two answers by their numbers; acceptance is above every number.
fn lower(a: Result<(), Refusal>, b: Result<(), Refusal>) -> Result<(), Refusal>
    ensures { result ≡ lower_of a b }
{
    match (a, b) {
        (Ok(()), b) => b,
        (Err(why), Ok(())) => Err(why),
        (Err(why), Err(other)) => {
            if why.number() <= other.number() {
                Err(why)
            } else {
                Err(other)
            }
        }
    }
}

// One answer from two row calls': 1 where either is, then 22, then the lower.
#[tactic(auto, unfolding(crate::specs::Inner::Settled::settled))]
fn settle(a: Result<(), Refusal>, b: Result<(), Refusal>, unlike: bool) -> Result<(), Refusal>
    ensures { result ≡ settled a b unlike }
{
    if of_state(a) || of_state(b) {
        return Err(Refusal::BadState);
    }
    if unlike {
        return Err(Refusal::Unlike);
    }
    lower(a, b)
}

// Inner: the first refusal of `blend_row` that applies. It writes nothing. Each picture's own refusals are those of its row call, asked for
// through the public crate.
pub fn blend_answer(
    early: Reader,
    early_planes: Planes<'_>,
    early_s: &[f32],
    late: Reader,
    late_planes: Planes<'_>,
    late_s: &[f32],
    row: usize,
    weight: usize,
    out: &[u8],
) -> Result<(), Refusal>
    ensures { result ≡ first (blend_tests
        (blend_call row weight
        (side_of early (planes_seen early_planes.entry) early_s.now)
        (side_of late (planes_seen late_planes.entry) late_s.now)
        out.now)) }
{
    let a = reconstruction::rgb_row_answer(early, early_planes, row, early_s, out);
    let b = reconstruction::rgb_row_answer(late, late_planes, row, late_s, out);
    settle(a, b, unlike(early.geometry, late.geometry, weight))
}
