// The worked examples (document 01, "Labels" and "A day in the ledger"; document 02): no code, one theorem over one list, which stands in
// the crate scheme.
#![tactic(auto)]
