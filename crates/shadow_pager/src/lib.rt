//! The pager as a log that is read tells it, as plain tables and lists, and what each entry of the log
//! changes in them.
#![tactic(auto)]

mod answers;
mod changes;
mod forgetting;
mod frames;
mod more_readers;
mod readers;
mod rundown_readers;
mod services;
mod shadow_pager;
mod transfers;

pub use shadow_pager::ShadowPager;
