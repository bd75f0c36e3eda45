// Paper 01, 'Who is turned down', 24: whether a lent map is well formed. What is asked of the counts beside arrays, and of the map that these are
// read as, stands in specs/Lent.antt; the test over a map's bytes is crate `image_map_check`. Definitions and laws, no code.
