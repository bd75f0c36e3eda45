// What a client's Write and Search promise over the images that a host owns (paper 01, 'Who is turned down'; docs/IMAGES.md). The count of refused
// calls is lent apart from the node's state, so that a call refused for a malformed state counts too. Definitions and laws: the calls are
// `calls_write` and `calls_search`.
