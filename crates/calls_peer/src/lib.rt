// What a primary's messages promise at a node, over the images that a host owns (paper 01, 'Who is turned down'; docs/IMAGES.md): the header and
// the eight stores as bytes, the message, and a buffer for the reply. 0: the reply, 30 to 33, stands in the buffer and goes back. Otherwise
// the number of a refusal, 21 to 24, and every byte stays as it was. Definitions and laws: the calls are `calls_replicate`, `calls_copy` and
// `calls_epoch`.
