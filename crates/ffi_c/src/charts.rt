// The reading of a patch on a chart, for C, exported.
ghost use Rattle.std.specs.Prelude.{◌≡◌};
ghost use Rattle.colorimetry.specs.Charts.{chart_call, ChartGiven};
ghost use Rattle.ffi.specs.Charts.{ReadChart};
ghost use Rattle.ffi.specs.Patches.{as_rectangle};

use ffi::{ChromaChartReading, ChromaRectangle};

// `chart_reading`: the nearest shade and the nearest mix of two neighbours.
#[unsafe(no_mangle)]
pub extern "C" fn chroma_chart_reading(
    chart: &[u8],
    rectangle: ChromaRectangle,
    w: usize,
    h: usize,
    rgb: &[u8],
) -> ChromaChartReading
    ensures { ReadChart
        (ChartGiven (chart_call chart.now (as_rectangle rectangle) w h rgb.now))
        result }
{
    ffi::chroma_chart_reading(chart, rectangle, w, h, rgb)
}
