// Internal: the root of crate `float_root`.
pub use float_root::sqrt_f32;
