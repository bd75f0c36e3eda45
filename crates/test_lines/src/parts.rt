// Parts of what programs read: the front of a buffer, a float from its bits, a metric from its code.
use float_distance::order::bits_in_domain;
use spec::Metric;

// The first n bytes, or all where there are fewer.
pub fn first<'a>(s: &'a [u8], n: usize) -> &'a [u8] {
    if s.len() < n {
        return s;
    }
    &s[..n]
}

// The first n floats, or all where there are fewer.
pub fn first_floats<'a>(s: &'a [f32], n: usize) -> &'a [f32] {
    if s.len() < n {
        return s;
    }
    &s[..n]
}

// A float of the domain; 0 for the bits of any other.
pub fn float_of(b: u32) -> f32 {
    if !bits_in_domain(b) {
        return 0.0;
    }
    f32::from_bits(b)
}

pub fn metric_of(b: u8) -> Metric {
    if b == 0 {
        return Metric::Euclidean;
    }
    Metric::Angular
}
