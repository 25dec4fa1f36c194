// The reading of a patch on a chart, for C.
ghost use Rattle.std.specs.Prelude.{◌≡◌};
ghost use Rattle.colorimetry.specs.Charts.{chart_call, chart_reply, ChartGiven};
ghost use Rattle.ffi.specs.Charts.{chroma_reading, ReadChart};
ghost use Rattle.ffi.specs.Patches.{as_rectangle};

use crate::patches::{ChromaRectangle, to_rectangle};
use colorimetry::{Between, ChartReading};
use laws::Refusal;

// A reading: the nearest shade by its index, the nearest mix by its pair's first index and its weight, and how far each is. `given` is 1
// where there is one, and else 0, as are all numbers behind it.
#[repr(C)]
#[derive(Clone, Copy)]
pub struct ChromaChartReading {
    pub refusal: u32,
    pub given: u32,
    pub pixels: usize,
    pub nearest: usize,
    pub pair: usize,
    pub weight: usize,
    pub nearest_off: u32,
    pub between_off: u32,
    pub whole: [u8; 3],
}

// A reading's answer in C's form.
#[tactic(auto, unfolding(crate::specs::Charts::chroma_reading))]
fn from_reading(p: Result<ChartReading, Refusal>) -> ChromaChartReading
    ensures { result ≡ chroma_reading (chart_reply p) }
{
    match p {
        Ok(p) => {
            let between = p.between.unwrap_or(Between {
                first: 0,
                weight: 0,
            });
            let whole = p.whole;
            ChromaChartReading {
                refusal: 0,
                given: u32::from(p.nearest.is_some()),
                pixels: p.pixels,
                nearest: p.nearest.unwrap_or(0),
                pair: between.first,
                weight: between.weight,
                nearest_off: p.nearest_off,
                between_off: p.between_off,
                whole,
            }
        }
        Err(why) => ChromaChartReading {
            refusal: u32::from(why.number()),
            given: 0,
            pixels: 0,
            nearest: 0,
            pair: 0,
            weight: 0,
            nearest_off: 0,
            between_off: 0,
            whole: [0; 3],
        },
    }
}

// `chart_reading`: the nearest shade and the nearest mix of two neighbours.
pub fn chroma_chart_reading(
    chart: &[u8],
    rectangle: ChromaRectangle,
    w: usize,
    h: usize,
    rgb: &[u8],
) -> ChromaChartReading
    ensures { ReadChart
        (ChartGiven (chart_call chart.now (as_rectangle rectangle) w h rgb.now))
        result }
{
    from_reading(colorimetry::chart_reading(chart, to_rectangle(rectangle), w, h, rgb))
}
