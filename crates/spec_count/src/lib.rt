// Which placements there are, and how Create ends on each (paper 02, 2.14). This crate holds definitions and theorems only: specs/ counts by
// going through them all, proofs/ has the closed form, by which crate `image_map_count` answers.
