//! The laws of calls: what follows of any calls of both programs, from what each call promises.
//!
//! `urna_laws` is about calls of `urna`, and `ledger_laws` about calls of `urna_ledger`. Each function does nothing: its contract is the law,
//! stated in `specs`. No program depends on this crate, so a program is proved and built without it.
#![tactic(auto)]

pub mod ledger_laws;
pub mod urna_laws;
