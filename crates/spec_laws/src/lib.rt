// Laws of the paper's definitions, one file a subject, under the names of the chapters of crate `spec`. This crate holds no function and no
// definition that a contract cites: what a reader must believe stands in `spec`.
