// What a call at a shard keeps of its log (paper 01, 'The log'): a log is appended to or cut, never written anew. This crate holds
// definitions and theorems only.
