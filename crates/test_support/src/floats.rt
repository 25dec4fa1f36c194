// Floats as bit patterns, in which a line gives them and sums take them. The payload of a not-a-number never counts, since
// no contract speaks of it.

// Inner: the bits of a float. Every not-a-number has the same, all of them set, which no number has.
pub fn bits(x: f32) -> u32 {
    if x.is_nan() { u32::MAX } else { x.to_bits() }
}

// Inner: the float of a bit pattern. A pattern above infinity's, 255 · 2^23 without the sign at 2^31, is a not-a-number, and all of them
// give the same one.
pub fn float(bits: u32) -> f32 {
    if 2_139_095_040 < bits % 2_147_483_648 {
        f32::NAN
    } else {
        f32::from_bits(bits)
    }
}
