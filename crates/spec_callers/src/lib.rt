// The layout's second edition, with callers, and a count of refused calls for each of them (paper 02, 2.8): definitions and their laws.
